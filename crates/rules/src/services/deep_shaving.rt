// Service 2: deep shaving of coal units, paid by how far the output lies below half the capacity.
ghost use Rattle.std.specs.Prelude.{◌≡◌, ◌*◌, ◌≤◌, true, ◌||◌, MatchResult, ◌==◌, ◌≢◌};
ghost use Rattle.rules.specs.declared.refusal.Refusal.TheVariants.{OutOfRange};
ghost use Rattle.rules.specs.Division.{quotient};
ghost use Rattle.rules.specs.Services.{answer, deep_shaving, bands, price_in};
ghost use Rattle.rules.specs.Bounds.{answer_bounded};

use crate::account::Account;
use crate::ceiling::up_to_ceiling;
use crate::division::quotient;
use crate::facts::Facts;
use crate::kind::Kind;
use crate::refusal::Refusal;
use crate::rule::Rule;

// From which percent of the capacity on, and the price there.
const BANDS: [(u8, u16); 4] = [(45, 250), (40, 350), (35, 500), (30, 600)];

const LOWEST_BAND_PRICE: u16 = 700;

fn price(capacity: u32, output: u32) -> u16
    ensures { result ≡ price_in bands capacity output }
{
    BANDS
        .iter()
        .find(|(percent, _)| capacity as u64 * *percent as u64 <= output as u64 * 100)
        .map_or(LOWEST_BAND_PRICE, |(_, price)| *price)
}

// The factor is 10 or 12 tenths.
#[derive(Clone, Copy, Debug, PartialEq, Eq)]
pub struct DeepShaving {
    pub(crate) factor: u32,
    ghost limits: { (factor == 10 || factor == 12) ≡ true },
}

impl DeepShaving {
    // A factor other than 10 or 12 is refused with 4.
    pub fn new(factor: u32) -> Result<DeepShaving, Refusal>
        ensures { MatchResult result (λ rule. rule.factor ≡ factor) (λ e. (e ≡ OutOfRange) × ((factor == 10 || factor == 12) ≢ true)) }
    {
        if !matches!(factor, 10 | 12) {
            return Err(Refusal::OutOfRange);
        }
        Ok(DeepShaving { factor })
    }

    fn amount(&self, shaved: u32, price: u16) -> u64
        requires { shaved ≤ 4_000_000 }
        ensures { result ≡ quotient (shaved * price * self.now.factor) 2_400 }
    {
        quotient(shaved as u64 * price as u64 * self.factor as u64, 2_400)
    }
}

impl Rule for DeepShaving {
    ghost meaning = { λ rule facts. answer (deep_shaving rule.factor) facts };

    ghost bounded = { λ rule facts. answer_bounded (deep_shaving rule.factor) facts };

    fn ask(&self, facts: &Facts) -> Result<(Account, u32), Refusal> {
        facts.check(2, &[Kind::Coal])?;
        if facts.x < 0 || facts.y != 0 {
            return Err(Refusal::OutOfRange);
        }
        let output = facts.x as u32;
        if 2 * output >= facts.capacity {
            return Err(Refusal::OutOfRange);
        }
        let price = price(facts.capacity, output);
        up_to_ceiling(
            Account::First,
            self.amount(facts.capacity - 2 * output, price),
        )
    }
}
