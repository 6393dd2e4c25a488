// Paying into the commissioning fund.
ghost use Rattle.settlement.specs.Posting.{PayIn};
ghost use Rattle.settlement.specs.Lent.{book_of, room_of, Left};

use super::{Month, Open};
use crate::memory::Memory;
use records::event::WordKind;
use records::journal::append;
use rules::refusal::Refusal;

const MOST_PAID: u32 = 500_000_000;

const MOST_FUND: u64 = 40_000_000_000;

impl Month<Open> {
    // Answers the place of the word.
    pub fn pay_in(&mut self, memory: &mut Memory, amount: u32) -> Result<u32, Refusal>
        ensures does { PayIn (room_of 0 memory.old) amount (book_of self.old memory.old) result (book_of self.new memory.new) }
        ensures left { Left result self.new.used memory.old memory.new }
    {
        self.journal(memory)?;
        if !(1..=MOST_PAID).contains(&amount) {
            return Err(Refusal::OutOfRange);
        }
        if self.fund + amount as u64 > MOST_FUND {
            return Err(Refusal::FundFull);
        }
        append(memory.words, self.used, &[WordKind::PaidIn.word(amount)])?;
        let place = self.used as u32;
        self.used += 1;
        self.fund += amount as u64;
        Ok(place)
    }
}
