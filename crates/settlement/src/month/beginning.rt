// A new book, and publishing.
ghost use Rattle.std.specs.Prelude.{◌≡◌};
ghost use Rattle.settlement.specs.Beginning.{New};
ghost use Rattle.settlement.specs.Lent.{book_of};
ghost use Rattle.settlement.specs.declared.memory.Memory.{Memory};

use super::{Month, Open, OpenMonth, PublishedMonth};
use crate::memory::Memory;
use register::Keyed;
use rules::calendar::month_count;
use rules::refusal::Refusal;
use std::marker::PhantomData;

impl Month<Open> {
    // A new book over the memory: an open month, and nothing in it.
    pub fn new(memory: &mut Memory, year: u32, month: u32) -> Result<OpenMonth, Refusal>
        ensures { New year month memory.old result memory.new }
    {
        let count = month_count(year, month)?;
        memory.roster.clear();
        memory.objections.clear();
        Ok(Month {
            count,
            used: 0,
            fund: 0,
            state: PhantomData,
        })
    }

    // Nothing but the state changes.
    pub fn publish(self) -> PublishedMonth
        ensures { (m : Memory) → book_of result m ≡ book_of self m }
    {
        Month {
            count: self.count,
            used: self.used,
            fund: self.fund,
            state: PhantomData,
        }
    }
}
