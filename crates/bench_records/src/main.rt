// A benchmark: 20,000 scans of a full journal of 16,384 words. It prints the scans and the events that they found.
#![tactic(auto)]

ghost use Rattle.std.specs.Prelude.{Ok};
ghost use Rattle.rules.specs.declared.account.Account.TheVariants.{First};
ghost use Rattle.std.proofs.Common.{rules};

use records::enrolment::Enrolment;
use records::event::Event;
use records::journal::append;
use records::sums::PartyMonth;
use rules::account::Account;
use rules::facts::Facts;
use rules::kind::Kind;
use rules::refusal::Refusal;
use rules::rule::Rule;
use std::io;

const WORDS: usize = 16_384;

const SCANS: u32 = 20_000;

const JUNE_2025: u32 = 24_305;

// A rulebook by which each event earns one fen.
#[derive(Drop)]
struct OneFen;

impl Rule for OneFen {
    ghost meaning = { λ rule facts. Ok (First, 1) };

    ghost bounded = { Prim.search rules };

    fn ask(&self, _facts: &Facts) -> Result<(Account, u32), Refusal> {
        Ok((Account::First, 1))
    }
}

// Appends events of 64 parties in turn for as long as there is room, and says how many words are used.
fn fill(words: &mut [u32]) -> usize {
    let mut used = 0;
    for slot in 0..8_928 {
        let event = Event {
            party: slot % 64 + 1,
            service: slot % 9 + 1,
            slot,
            x: 30_000,
            y: 1_200,
        };
        if let Some(three) = event.words() {
            if append(words, used, &three).is_ok() {
                used += 3;
            }
        }
    }
    used
}

fn main(rt: HostRuntime) -> io::Result<()> {
    let mut words = [0; WORDS];
    let used = fill(&mut words);
    let mut found: u64 = 0;
    for scan in 0..SCANS {
        let party = Enrolment {
            number: scan % 64 + 1,
            kind: Kind::Coal,
            capacity: 300_000,
        };
        let month = PartyMonth {
            party: &party,
            count: JUNE_2025,
            rulebook: &OneFen,
        };
        let sums = month.account_sums(&words, used);
        found = found.wrapping_add(sums[1]);
    }
    println!(rt; "{SCANS} scans of {used} words found {found} events")
}
