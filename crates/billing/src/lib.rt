// Party lines, their weights, and the bills of a month.
#![tactic(auto)]

pub mod bill;
pub mod party;
pub mod reading;
pub mod settling;
pub mod sharing;
pub mod sums;
pub mod weights;
