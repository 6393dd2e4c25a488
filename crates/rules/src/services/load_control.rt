// Service 6: load of market users under automatic power control.
ghost use Rattle.rules.specs.Services.{answer, load_control};
ghost use Rattle.rules.specs.Bounds.{answer_bounded};

use crate::account::Account;
use crate::ceiling::up_to_ceiling;
use crate::facts::Facts;
use crate::kind::Kind;
use crate::refusal::Refusal;
use crate::rule::Rule;

#[derive(Clone, Copy, Debug, PartialEq, Eq)]
pub struct LoadControl;

impl Rule for LoadControl {
    ghost meaning = { λ _ facts. answer load_control facts };

    ghost bounded = { λ rule facts. answer_bounded load_control facts };

    fn ask(&self, facts: &Facts) -> Result<(Account, u32), Refusal> {
        facts.check(6, &[Kind::Market])?;
        if facts.x < 0 || !(0..=1).contains(&facts.y) {
            return Err(Refusal::OutOfRange);
        }
        up_to_ceiling(Account::Second, facts.x as u64 * facts.y as u64)
    }
}
