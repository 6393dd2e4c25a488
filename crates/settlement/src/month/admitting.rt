// What stands against posting an event, but for the journal's room.
ghost use Rattle.std.specs.Prelude.{◌≤◌};
ghost use Rattle.settlement.specs.Admitting.{WordsFor, Admitting};
ghost use Rattle.settlement.specs.Lent.{book_of, room_of};

use super::{Month, Open};
use crate::memory::Memory;
use crate::roster::line_of;
use billing::party::Party;
use billing::sums::{MOST_SUM, account_total};
use records::event::Event;
use records::journal::posted_already;
use rules::account::Account;
use rules::calendar::slots_in;
use rules::refusal::Refusal;
use rules::rule::Rule;

// An event that may be posted, if the journal has room.
#[derive(Clone, Copy)]
pub(super) struct Admission {
    // where the party's line stands, and that line with the amount on it
    pub(super) line: usize,
    pub(super) party: Party,
    pub(super) account: Account,
    pub(super) amount: u32,
    pub(super) words: [u32; 3],
}

// The words of an event that the month allows.
fn words_for(count: u32, event: &Event) -> Option<[u32; 3]>
    requires { event.now.party ≤ 1023 }
    ensures { WordsFor count event.now result }
{
    if event.slot >= slots_in(count) {
        return None;
    }
    event.words()
}

impl Month<Open> {
    pub(super) fn admit<P: Rule>(
        &self,
        memory: &Memory,
        rulebook: &P,
        event: &Event,
    ) -> Result<Admission, Refusal>
        ensures { Admitting (P.meaning rulebook.now) (room_of 0 memory.now) event.now (book_of self.now memory.now) result }
    {
        let journal = self.journal(memory)?;
        let (line, party) = line_of(&memory.roster, event.party).ok_or(Refusal::UnknownParty)?;
        let words = words_for(self.count, event).ok_or(Refusal::OutOfRange)?;
        if posted_already(journal, event) {
            return Err(Refusal::PostedAlready);
        }
        let facts = party.enrolled().facts(self.count, event);
        let (account, amount) = rulebook.ask(&facts)?;
        if account_total(&memory.roster, account) + amount as u64 > MOST_SUM {
            return Err(Refusal::AccountFull);
        }
        // the line holds no more than all lines together
        let party = party.credited(account, amount).ok_or(Refusal::AccountFull)?;
        Ok(Admission {
            line,
            party,
            account,
            amount,
            words,
        })
    }
}
