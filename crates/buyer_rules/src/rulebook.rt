// The buyer's rulebook: rulebook 1, then his own service under a cap.
ghost use Rattle.std.specs.Prelude.{◌≡◌};
ghost use Rattle.buyer_rules.specs.Voltage.{with_voltage};

use crate::voltage_control::VoltageControl;
use rules::account::Account;
use rules::facts::Facts;
use rules::layers::cap::Cap;
use rules::layers::chapters::Chapters;
use rules::refusal::Refusal;
use rules::rule::Rule;
use rules::rulebooks::{Rulebook1, rulebook_1};

const MOST_PAID: u32 = 2_000_000;

pub type WithVoltage = Chapters<Rulebook1, Cap<VoltageControl>>;

// It cannot be refused, since the cap is a fair one.
pub fn with_voltage() -> WithVoltage
    ensures { result.second.limit ≡ 2_000_000 }
{
    Chapters {
        first: rulebook_1(),
        second: Cap::new(VoltageControl, MOST_PAID).unwrap(),
    }
}

// What the buyer's rulebook answers.
pub fn ask_with_voltage(facts: &Facts) -> Result<(Account, u32), Refusal>
    ensures { result ≡ with_voltage facts.now }
{
    with_voltage().ask(facts)
}
