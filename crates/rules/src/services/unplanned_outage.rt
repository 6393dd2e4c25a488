// Service 8: unplanned outage of coal and gas units, charged by power stopped and by time.
ghost use Rattle.rules.specs.Services.{answer, unplanned_outage};
ghost use Rattle.rules.specs.Bounds.{answer_bounded};

use crate::account::Account;
use crate::ceiling::up_to_ceiling;
use crate::division::quotient;
use crate::facts::Facts;
use crate::kind::Kind;
use crate::refusal::Refusal;
use crate::rule::Rule;

// Two days: no minute beyond them counts.
const MOST_MINUTES: u32 = 2_880;

#[derive(Clone, Copy, Debug, PartialEq, Eq)]
pub struct UnplannedOutage;

impl Rule for UnplannedOutage {
    ghost meaning = { λ _ facts. answer unplanned_outage facts };

    ghost bounded = { λ rule facts. answer_bounded unplanned_outage facts };

    fn ask(&self, facts: &Facts) -> Result<(Account, u32), Refusal> {
        facts.check(8, &[Kind::Coal, Kind::Gas])?;
        if facts.x < 1 || !(0..=44_640).contains(&facts.y) {
            return Err(Refusal::OutOfRange);
        }
        let stopped = facts.x as u32;
        if stopped > facts.capacity {
            return Err(Refusal::OutOfRange);
        }
        let minutes = (facts.y as u32).min(MOST_MINUTES);
        let for_time = quotient(facts.capacity as u64 * minutes as u64, 30);
        up_to_ceiling(Account::Charges, stopped as u64 * 40 + for_time)
    }
}
