// The book of a month: its lent memory, its two states, and its calls.
#![tactic(auto)]

pub mod memory;
pub mod month;
pub mod objection;
mod objections;
pub mod posted;
mod roster;
pub mod settlement;
