// Service 3: spinning reserve.
ghost use Rattle.std.specs.Prelude.{◌≡◌, if◌then◌else◌};
ghost use Rattle.rules.specs.declared.kind.Kind.TheVariants.{Coal};
ghost use Rattle.rules.specs.Kinds.{is};
ghost use Rattle.rules.specs.Services.{answer, spinning_reserve};
ghost use Rattle.rules.specs.Bounds.{answer_bounded};

use crate::account::Account;
use crate::ceiling::up_to_ceiling;
use crate::division::quotient;
use crate::facts::Facts;
use crate::kind::Kind;
use crate::refusal::Refusal;
use crate::rule::Rule;

#[derive(Clone, Copy, Debug, PartialEq, Eq)]
pub struct SpinningReserve;

// The price of coal, and that of hydro.
fn price(kind: Kind) -> u8
    ensures { result ≡ (if is Coal kind then 15 else 8) }
{
    match kind {
        Kind::Coal => 15,
        _ => 8,
    }
}

impl Rule for SpinningReserve {
    ghost meaning = { λ _ facts. answer spinning_reserve facts };

    ghost bounded = { λ rule facts. answer_bounded spinning_reserve facts };

    fn ask(&self, facts: &Facts) -> Result<(Account, u32), Refusal> {
        facts.check(3, &[Kind::Coal, Kind::Hydro])?;
        if !facts.up_to_capacity(facts.x) || !facts.up_to_capacity(facts.y) {
            return Err(Refusal::OutOfRange);
        }
        let declared = facts.x.unsigned_abs();
        let output = facts.y.unsigned_abs();
        let reserve = declared.abs_diff(output) as u64;
        up_to_ceiling(
            Account::First,
            quotient(reserve * price(facts.kind) as u64, 120),
        )
    }
}
