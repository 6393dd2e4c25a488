// What stands against an event at a place of the published month.
ghost use Rattle.settlement.specs.Admitting.{Standing, Partys};
ghost use Rattle.settlement.specs.Lent.{book_of, room_of};

use super::{Month, Published};
use crate::memory::Memory;
use crate::roster::line_of;
use records::enrolment::Enrolment;
use records::event::{Mark, content};
use records::journal::mark_at;
use rules::refusal::Refusal;

impl Month<Published> {
    // A standing event's first word is at the place.
    pub(super) fn standing(&self, memory: &Memory, place: usize) -> Result<(), Refusal>
        ensures { Standing (room_of 0 memory.now) place (book_of self.now memory.now) result }
    {
        match mark_at(self.journal(memory)?, place).ok_or(Refusal::NoSuchEvent)? {
            Mark::Struck => Err(Refusal::StruckAlready),
            Mark::Standing => Ok(()),
        }
    }

    // The party of the standing event at the place.
    pub(super) fn party_at(&self, memory: &Memory, place: usize) -> Result<Enrolment, Refusal>
        ensures { Partys (room_of 0 memory.now) place (book_of self.now memory.now) result }
    {
        self.standing(memory, place)?;
        let number = content(memory.words[place]) / 524_288;
        let (_, line) = line_of(&memory.roster, number).ok_or(Refusal::OutOfStep)?;
        Ok(line.enrolled())
    }
}
