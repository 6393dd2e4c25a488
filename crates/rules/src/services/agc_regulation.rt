// Service 1: regulation by automatic generation control.
ghost use Rattle.std.specs.Prelude.{◌≡◌, ◌*◌, ◌≤◌, MatchResult};
ghost use Rattle.rules.specs.declared.refusal.Refusal.TheVariants.{OutOfRange};
ghost use Rattle.rules.specs.Division.{quotient};
ghost use Rattle.rules.specs.Services.{answer, agc_regulation};
ghost use Rattle.rules.specs.Bounds.{answer_bounded};

use crate::account::Account;
use crate::ceiling::up_to_ceiling;
use crate::division::quotient;
use crate::facts::Facts;
use crate::kind::PLANTS;
use crate::refusal::Refusal;
use crate::rule::Rule;

// The rate is 1 to 100 yuan per MW.
#[derive(Clone, Copy, Debug, PartialEq, Eq)]
pub struct AgcRegulation {
    pub(crate) rate: u32,
    ghost limits: { (1 ≤ rate) × (rate ≤ 100) },
}

impl AgcRegulation {
    // A rate outside 1 to 100 is refused with 4.
    pub fn new(rate: u32) -> Result<AgcRegulation, Refusal>
        ensures { MatchResult result (λ rule. rule.rate ≡ rate) (λ e. (e ≡ OutOfRange) × ¬ ((1 ≤ rate) × (rate ≤ 100))) }
    {
        if !(1..=100).contains(&rate) {
            return Err(Refusal::OutOfRange);
        }
        Ok(AgcRegulation { rate })
    }

    fn amount(&self, x: u32, y: u32) -> u64
        requires x { x ≤ 4_000_000 }
        requires y { y ≤ 2_000 }
        ensures { result ≡ quotient (x * y * self.now.rate) 10_000 }
    {
        quotient(x as u64 * y as u64 * self.rate as u64, 10_000)
    }
}

impl Rule for AgcRegulation {
    ghost meaning = { λ rule facts. answer (agc_regulation rule.rate) facts };

    ghost bounded = { λ rule facts. answer_bounded (agc_regulation rule.rate) facts };

    fn ask(&self, facts: &Facts) -> Result<(Account, u32), Refusal> {
        facts.check(1, &PLANTS)?;
        let x = facts.x.unsigned_abs();
        let y = facts.y.unsigned_abs();
        match facts.y {
            -2000..=-1 => up_to_ceiling(Account::Charges, self.amount(x, y)),
            0..=899 => up_to_ceiling(Account::First, 0),
            900..=2000 => up_to_ceiling(Account::First, self.amount(x, y)),
            _ => Err(Refusal::OutOfRange),
        }
    }
}
