// Service 7: charging of storage at the grid's call.
ghost use Rattle.rules.specs.Services.{answer, storage_charging};
ghost use Rattle.rules.specs.Bounds.{answer_bounded};

use crate::account::Account;
use crate::ceiling::up_to_ceiling;
use crate::facts::Facts;
use crate::kind::Kind;
use crate::refusal::Refusal;
use crate::rule::Rule;

#[derive(Clone, Copy, Debug, PartialEq, Eq)]
pub struct StorageCharging;

impl Rule for StorageCharging {
    ghost meaning = { λ _ facts. answer storage_charging facts };

    ghost bounded = { λ rule facts. answer_bounded storage_charging facts };

    fn ask(&self, facts: &Facts) -> Result<(Account, u32), Refusal> {
        facts.check(7, &[Kind::Storage])?;
        if facts.x < 0 || facts.y != 0 {
            return Err(Refusal::OutOfRange);
        }
        up_to_ceiling(Account::First, facts.x as u64 * 30)
    }
}
