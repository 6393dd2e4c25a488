// Enrolling a party.
ghost use Rattle.settlement.specs.Enrolling.{Enrol};
ghost use Rattle.settlement.specs.Lent.{book_of, room_of, Left};

use super::{Month, Open};
use crate::memory::Memory;
use crate::roster::{enter, line_of};
use billing::party::Party;
use rules::kind::Kind;
use rules::refusal::Refusal;

impl Month<Open> {
    // The kind is given by its number, 1 to 7.
    // kept: any number may be asked with, and is checked in its turn; `Kind` would ask more of callers
    pub fn enrol(
        &self,
        memory: &mut Memory,
        number: u32,
        kind: u32,
        capacity: u32,
    ) -> Result<(), Refusal>
        ensures does { Enrol (room_of 0 memory.old) number kind capacity (book_of self.now memory.old) result (book_of self.now memory.new) }
        ensures left { Left result self.now.used memory.old memory.new }
    {
        let kind = Kind::try_from(kind)?;
        let party = Party::new(number, kind, capacity).ok_or(Refusal::OutOfRange)?;
        if line_of(&memory.roster, number).is_some() {
            return Err(Refusal::EnrolledAlready);
        }
        enter(&mut memory.roster, party)
    }
}
