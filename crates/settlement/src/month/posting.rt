// Posting an event.
ghost use Rattle.settlement.specs.Posting.{Post};
ghost use Rattle.settlement.specs.Lent.{book_of, room_of, Left};

use super::{Month, Open};
use crate::memory::Memory;
use crate::posted::Posted;
use crate::roster::put;
use records::event::Event;
use records::journal::append;
use rules::refusal::Refusal;
use rules::rule::Rule;

impl Month<Open> {
    pub fn post<P: Rule>(
        &mut self,
        memory: &mut Memory,
        rulebook: &P,
        event: &Event,
    ) -> Result<Posted, Refusal>
        ensures does { Post (P.meaning rulebook.now) (room_of 0 memory.old) event.now (book_of self.old memory.old) result (book_of self.new memory.new) }
        ensures left { Left result self.new.used memory.old memory.new }
    {
        let admission = self.admit(memory, rulebook, event)?;
        append(memory.words, self.used, &admission.words)?;
        put(&mut memory.roster, admission.line, admission.party);
        let place = self.used as u32;
        self.used += 3;
        Ok(Posted {
            place,
            account: admission.account,
            amount: admission.amount,
        })
    }
}
