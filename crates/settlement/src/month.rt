// A month in its two states: plain numbers, which no one else makes and no one copies.
ghost use Rattle.std.specs.Prelude.{◌≤◌};

mod admitting;
mod answering;
mod asking;
mod beginning;
mod enrolling;
mod journal;
mod objecting;
mod paying;
mod posting;
mod reading;
mod renewing;
mod settling;
mod standing;
mod what_if;

use std::marker::PhantomData;

// Parties, readings, events and money are entered.
pub struct Open;

// Objections are heard, until the month is settled.
pub struct Published;

// The month's count, how many words of the journal are used, and the commissioning fund.
#[derive(Drop)]
pub struct Month<S> {
    count: u32,
    used: usize,
    fund: u64,
    state: PhantomData<S>,
    ghost limits: { (24_000 ≤ count) × (count ≤ 25_199) × (used ≤ 1_048_576) × (fund ≤ 40_000_000_000) },
}

pub type OpenMonth = Month<Open>;

pub type PublishedMonth = Month<Published>;
