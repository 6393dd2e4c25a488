// Rules that turn facts into an account and an amount, layers over them, and the two rulebooks.
#![tactic(auto)]

pub mod account;
pub mod calendar;
pub mod ceiling;
pub mod division;
pub mod facts;
pub mod figures;
pub mod kind;
pub mod layers;
pub mod refusal;
pub mod rule;
pub mod rulebooks;
pub mod services;
pub mod sums;
