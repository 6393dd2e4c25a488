// Answering an objection.
ghost use Rattle.std.specs.Prelude.{◌≤◌, length};
ghost use Rattle.settlement.specs.Objecting.{AnswerObjection};
ghost use Rattle.settlement.specs.Admitting.{Refunding};
ghost use Rattle.settlement.specs.Objections.{Freed};
ghost use Rattle.settlement.specs.Lent.{book_of, room_of, Left};

use super::{Month, Published};
use crate::memory::Memory;
use crate::objections::{dismiss, free, pending};
use crate::roster::{line_of, put};
use billing::party::Party;
use records::journal::{event_at, strike, used_words};
use rules::refusal::Refusal;
use rules::rule::Rule;

// What an upheld objection takes off again: the line of the event's party, without the event's amount.
#[derive(Clone, Copy)]
pub(super) struct Refund {
    line: usize,
    party: Party,
}

impl Month<Published> {
    // None where no standing event is there, its party is not enrolled, the rulebook refuses it, or the sum is smaller.
    fn refund<P: Rule>(&self, memory: &Memory, rulebook: &P, place: usize) -> Option<Refund>
        ensures { Refunding (P.meaning rulebook.now) place (book_of self.now memory.now) result }
    {
        let words = &*memory.words;
        let event = event_at(used_words(words, self.used), place)?;
        let (line, party) = line_of(&memory.roster, event.party)?;
        let facts = party.enrolled().facts(self.count, &event);
        let (account, amount) = rulebook.ask(&facts).ok()?;
        let party = party.debited(account, amount)?;
        Some(Refund { line, party })
    }

    // kept: `upheld` is a yes or no, with no value that only one of the two has
    // Upholding strikes the event, takes its amount off again and frees the objection's line; dismissing keeps the line.
    pub fn answer<P: Rule>(
        &self,
        memory: &mut Memory,
        rulebook: &P,
        place: u32,
        upheld: bool,
    ) -> Result<(), Refusal>
        ensures does { AnswerObjection (P.meaning rulebook.now) (room_of 0 memory.old) place upheld (book_of self.now memory.old) result (book_of self.now memory.new) }
        ensures left { Left result self.now.used memory.old memory.new }
        ensures freed { Freed upheld place result memory.old.objections memory.new.objections }
    {
        self.journal(memory)?;
        let i = pending(&memory.objections, place).ok_or(Refusal::NoOpenObjection)?;
        if !upheld {
            dismiss(&mut memory.objections, i, place);
            return Ok(());
        }
        let refund = self
            .refund(memory, rulebook, place as usize)
            .ok_or(Refusal::OutOfStep)?;
        put(&mut memory.roster, refund.line, refund.party);
        strike(memory.words, self.used, place as usize);
        free(&mut memory.objections, i);
        Ok(())
    }
}
