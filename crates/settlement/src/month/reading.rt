// Taking a reading.
ghost use Rattle.std.specs.Prelude.{◌≡◌, ◌<◌, ◌≤◌, false, unsigned_abs};
ghost use Rattle.settlement.specs.Enrolling.{Read, unreadable};
ghost use Rattle.settlement.specs.Lent.{book_of, Left};

use super::{Month, Open};
use crate::memory::Memory;
use crate::roster::{line_of, put};
use billing::reading::Reading;
use records::enrolment::MOST_FIGURE;
use rules::calendar::slots_in;
use rules::kind::Kind;
use rules::refusal::Refusal;

// A reading that the month or the kind does not allow.
fn is_unreadable(count: u32, kind: Kind, reading: &Reading) -> bool
    ensures value { result ≡ unreadable count kind reading.now }
    ensures slot { result ≡ false → reading.now.slot < 8928 }
    ensures size { result ≡ false → unsigned_abs reading.now.power ≤ 4_000_000 }
{
    reading.slot >= slots_in(count)
        || reading.power.unsigned_abs() > MOST_FIGURE
        || (reading.power < 0 && !kind.may_draw())
}

impl Month<Open> {
    pub fn read(&self, memory: &mut Memory, reading: &Reading) -> Result<(), Refusal>
        ensures does { Read reading.now (book_of self.now memory.old) result (book_of self.now memory.new) }
        ensures left { Left result self.now.used memory.old memory.new }
    {
        let (i, line) = line_of(&memory.roster, reading.party).ok_or(Refusal::UnknownParty)?;
        if is_unreadable(self.count, line.enrolled().kind, reading) {
            return Err(Refusal::OutOfRange);
        }
        // the slot is in the month and the power in its range: only a slot that has passed is refused here
        let line = line.with_reading(reading).ok_or(Refusal::SlotPassed)?;
        put(&mut memory.roster, i, line);
        Ok(())
    }
}
