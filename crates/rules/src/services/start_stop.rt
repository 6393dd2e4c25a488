// Service 4: start and stop of coal and gas units.
ghost use Rattle.std.specs.Prelude.{◌≡◌, if◌then◌else◌, nat_le};
ghost use Rattle.rules.specs.declared.kind.Kind.TheVariants.{Gas};
ghost use Rattle.rules.specs.Kinds.{is};
ghost use Rattle.rules.specs.Services.{answer, start_stop};
ghost use Rattle.rules.specs.Bounds.{answer_bounded};

use crate::account::Account;
use crate::ceiling::up_to_ceiling;
use crate::facts::Facts;
use crate::kind::Kind;
use crate::refusal::Refusal;
use crate::rule::Rule;

#[derive(Clone, Copy, Debug, PartialEq, Eq)]
pub struct StartStop;

// Fen a kW: gas, coal to 100,000 kW, larger coal.
fn price(kind: Kind, capacity: u32) -> u8
    ensures { result ≡ (if is Gas kind then 10 else (if nat_le capacity 100_000 then 80 else 200)) }
{
    match kind {
        Kind::Gas => 10,
        _ if capacity <= 100_000 => 80,
        _ => 200,
    }
}

impl Rule for StartStop {
    ghost meaning = { λ _ facts. answer start_stop facts };

    ghost bounded = { λ rule facts. answer_bounded start_stop facts };

    fn ask(&self, facts: &Facts) -> Result<(Account, u32), Refusal> {
        facts.check(4, &[Kind::Coal, Kind::Gas])?;
        if facts.x != 0 || facts.y != 0 {
            return Err(Refusal::OutOfRange);
        }
        let price = price(facts.kind, facts.capacity);
        up_to_ceiling(Account::First, facts.capacity as u64 * price as u64)
    }
}
