// The book as a whole: any call in any state, and the law that every run keeps.
#![tactic(auto)]

pub mod answer;
pub mod call;
pub mod laws;
pub mod playing;
pub mod serving;
pub mod stage;
pub mod worked;
