// Settling the published month: all checks in their order, then the sheet is filled, then the month ends.
ghost use Rattle.std.specs.Prelude.{◌≡◌, ◌+◌, ◌<◌, ◌≤◌, min, length};
ghost use Rattle.settlement.specs.Checks.{first_of, unless};
ghost use Rattle.settlement.specs.Settling.{any_waiting, settle_checks, rolled};
ghost use Rattle.settlement.specs.Sheets.{Settling};
ghost use Rattle.settlement.specs.Lent.{book_of, room_of, Beyond};

use super::renewing::renew;
use super::{Month, Open, Published};
use crate::memory::Memory;
use crate::objection::Objection;
use crate::roster::party_count;
use crate::settlement::{Kept, Settled, Tally};
use billing::bill::Bill;
use billing::settling::{fill, lacks_weight};
use billing::sums::above_limit;
use records::event::WordKind;
use records::journal::{MOST_WORDS, append};
use register::Keyed;
use rules::calendar::following;
use rules::refusal::Refusal;
use std::marker::PhantomData;

// Some objection waits for its answer.
fn is_waited_for(objections: &[Objection]) -> bool
    ensures { result ≡ any_waiting objections.now }
{
    objections.iter().any(|objection| objection.waiting)
}

impl Month<Published> {
    // What stands against settling over a sheet of so many rows, in its order.
    fn may_settle(&self, memory: &Memory, rows: usize) -> Result<(), Refusal>
        ensures { result ≡ unless (first_of (settle_checks (room_of rows memory.now) (book_of self.now memory.now))) }
    {
        self.journal(memory)?;
        if above_limit(&memory.roster) {
            return Err(Refusal::OutOfStep);
        }
        if is_waited_for(memory.objections.held()) {
            return Err(Refusal::Unanswered);
        }
        following(self.count)?;
        if rows < party_count(&memory.roster) {
            return Err(Refusal::SheetShort);
        }
        if lacks_weight(&memory.roster, self.count, self.fund) {
            return Err(Refusal::NoWeight);
        }
        if memory.words.len().min(MOST_WORDS) < self.used + 1 {
            return Err(Refusal::JournalFull);
        }
        Ok(())
    }

    // Ends the month, with the money left, and begins the following one.
    fn roll(self, memory: &mut Memory, left: u64) -> Month<Open>
        requires room { self.used + 1 ≤ min (length memory.old.words.now) 1_048_576 }
        requires early { self.count < 25_199 }
        requires held { left ≤ 40_000_000_000 }
        ensures rolls { book_of result memory.new ≡ rolled left (book_of self memory.old) }
        ensures beyond { Beyond result.used memory.old memory.new }
        ensures cleared { memory.new.objections.lines ≡ memory.old.objections.lines }
    {
        let _ = append(
            memory.words,
            self.used,
            &[WordKind::MonthEnd.word(self.count)],
        );
        memory.objections.clear();
        renew(&mut memory.roster);
        Month {
            count: self.count + 1,
            used: self.used + 1,
            fund: left,
            state: PhantomData,
        }
    }

    // The bills are the first rows of the sheet, one for each party; the rows beyond stay.
    pub fn settle(self, memory: &mut Memory, sheet: &mut [Bill]) -> Result<Settled, Kept>
        ensures { Settling self memory.old sheet.old result memory.new sheet.new }
    {
        // kept: the month goes back with the refusal, here and below, so `?` has nothing to hand on
        if let Err(refusal) = self.may_settle(memory, sheet.len()) {
            return Err(Kept {
                month: self,
                refusal,
            });
        }
        let rows = party_count(&memory.roster) as u32;
        // nothing stands against it any more
        let Some(left) = fill(&memory.roster, self.count, self.fund, sheet) else {
            return Err(Kept {
                month: self,
                refusal: Refusal::OutOfStep,
            });
        };
        Ok(Settled {
            month: self.roll(memory, left),
            tally: Tally { rows, left },
        })
    }
}
