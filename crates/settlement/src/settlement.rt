// What settling a month answers.
use crate::month::{OpenMonth, PublishedMonth};
use rules::refusal::Refusal;

// How many rows of the sheet are filled, and the money left in the commissioning fund.
#[derive(Clone, Copy, Debug, PartialEq, Eq)]
pub struct Tally {
    pub rows: u32,
    pub left: u64,
}

// The published month is given up for the following open one.
#[derive(Drop)]
pub struct Settled {
    pub month: OpenMonth,
    pub tally: Tally,
}

// The published month comes back with the refusal.
#[derive(Drop)]
pub struct Kept {
    pub month: PublishedMonth,
    pub refusal: Refusal,
}
