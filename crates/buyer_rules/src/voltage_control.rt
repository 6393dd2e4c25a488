// Voltage control, a service that the part does not have: paid by capacity and hours in service.
ghost use Rattle.rules.specs.Services.{answer};
ghost use Rattle.rules.specs.Bounds.{answer_bounded};
ghost use Rattle.buyer_rules.specs.Voltage.{voltage_control};

use rules::account::Account;
use rules::ceiling::up_to_ceiling;
use rules::division::quotient;
use rules::facts::Facts;
use rules::kind::Kind;
use rules::refusal::Refusal;
use rules::rule::Rule;

#[derive(Clone, Copy, Debug, PartialEq, Eq)]
pub struct VoltageControl;

impl Rule for VoltageControl {
    ghost meaning = { λ _ facts. answer voltage_control facts };

    ghost bounded = { λ rule facts. answer_bounded voltage_control facts };

    fn ask(&self, facts: &Facts) -> Result<(Account, u32), Refusal> {
        facts.check(10, &[Kind::Coal, Kind::Gas, Kind::Hydro])?;
        if !(0..=744).contains(&facts.x) || facts.y != 0 {
            return Err(Refusal::OutOfRange);
        }
        let hours = facts.x as u64;
        up_to_ceiling(Account::First, quotient(facts.capacity as u64 * hours, 10))
    }
}
