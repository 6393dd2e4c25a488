// Service 5: ramping, paid more where the rate was met.
ghost use Rattle.rules.specs.Services.{answer, ramp};
ghost use Rattle.rules.specs.Bounds.{answer_bounded};

use crate::account::Account;
use crate::ceiling::up_to_ceiling;
use crate::division::quotient;
use crate::facts::Facts;
use crate::kind::PLANTS;
use crate::refusal::Refusal;
use crate::rule::Rule;

#[derive(Clone, Copy, Debug, PartialEq, Eq)]
pub struct Ramp;

impl Rule for Ramp {
    ghost meaning = { λ _ facts. answer ramp facts };

    ghost bounded = { λ rule facts. answer_bounded ramp facts };

    fn ask(&self, facts: &Facts) -> Result<(Account, u32), Refusal> {
        facts.check(5, &PLANTS)?;
        if facts.x < 0 || !(0..=1).contains(&facts.y) {
            return Err(Refusal::OutOfRange);
        }
        let power = facts.x as u64;
        let met = facts.y as u64;
        up_to_ceiling(Account::Third, quotient(power * (7 + 6 * met), 4))
    }
}
