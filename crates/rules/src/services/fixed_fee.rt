// Service 9: fixed fees, by code.
ghost use Rattle.rules.specs.Services.{answer, fixed_fee};
ghost use Rattle.rules.specs.Bounds.{answer_bounded};

use crate::account::Account;
use crate::ceiling::up_to_ceiling;
use crate::facts::Facts;
use crate::kind::PLANTS;
use crate::refusal::Refusal;
use crate::rule::Rule;

// The fees in yuan, codes 1 to 8.
const FEES: [u32; 8] = [
    100_000, 50_000, 20_000, 10_000, 5_000, 20_000, 10_000, 5_000,
];

const FEN_A_YUAN: u64 = 100;

#[derive(Clone, Copy, Debug, PartialEq, Eq)]
pub struct FixedFee;

impl Rule for FixedFee {
    ghost meaning = { λ _ facts. answer fixed_fee facts };

    ghost bounded = { λ rule facts. answer_bounded fixed_fee facts };

    fn ask(&self, facts: &Facts) -> Result<(Account, u32), Refusal> {
        facts.check(9, &PLANTS)?;
        if !(1..=8).contains(&facts.x) || facts.y != 0 {
            return Err(Refusal::OutOfRange);
        }
        up_to_ceiling(
            Account::Charges,
            FEN_A_YUAN * FEES[facts.x as usize - 1] as u64,
        )
    }
}
