// A party's account sums, in either state of the month.
ghost use Rattle.settlement.specs.Asking.{AccountSums};
ghost use Rattle.settlement.specs.Lent.{book_of, room_of};

use super::Month;
use crate::memory::Memory;
use crate::roster::line_of;
use records::sums::PartyMonth;
use rules::refusal::Refusal;
use rules::rule::Rule;

impl<S> Month<S> {
    pub fn account_sums<P: Rule>(
        &self,
        memory: &Memory,
        rulebook: &P,
        party: u32,
    ) -> Result<[u64; 4], Refusal>
        ensures { AccountSums (P.meaning rulebook.now) (room_of 0 memory.now) party (book_of self.now memory.now) result (book_of self.now memory.now) }
    {
        self.journal(memory)?;
        let (_, line) = line_of(&memory.roster, party).ok_or(Refusal::UnknownParty)?;
        let party = PartyMonth {
            party: &line.enrolled(),
            count: self.count,
            rulebook,
        };
        Ok(party.account_sums(&*memory.words, self.used))
    }
}
