// Lent memory: the words of the journal, and what they come to.
#![tactic(auto)]

pub mod enrolment;
pub mod event;
pub mod journal;
pub mod sums;
pub mod what_if;
