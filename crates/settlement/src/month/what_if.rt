// A party's account sums as if one of its events were struck.
ghost use Rattle.std.specs.Prelude.{◌≡◌};
ghost use Rattle.settlement.specs.Asking.{WhatIf};
ghost use Rattle.settlement.specs.Lent.{book_of, room_of};

use super::{Month, Published};
use crate::memory::Memory;
use records::sums::PartyMonth;
use rules::refusal::Refusal;
use rules::rule::Rule;

impl Month<Published> {
    // The journal's word is changed while the sums are taken, and put back.
    pub fn what_if<P: Rule>(
        &self,
        memory: &mut Memory,
        rulebook: &P,
        place: u32,
    ) -> Result<[u64; 4], Refusal>
        ensures does { WhatIf (P.meaning rulebook.now) (room_of 0 memory.old) place (book_of self.now memory.old) result (book_of self.now memory.new) }
        ensures same { memory.new ≡ memory.old }
    {
        let place = place as usize;
        let party = self.party_at(memory, place)?;
        let party = PartyMonth {
            party: &party,
            count: self.count,
            rulebook,
        };
        Ok(party.sums_if_struck(memory.words, self.used, place))
    }
}
