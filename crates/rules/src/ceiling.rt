// No rule answers an amount above the ceiling.
ghost use Rattle.std.specs.Prelude.{◌≡◌};
ghost use Rattle.rules.specs.Services.{up_to_ceiling};

use crate::account::Account;
use crate::refusal::Refusal;

pub const CEILING: u64 = 1_000_000_000;

// The amount on the account, or refusal 6 where it is above the ceiling.
pub fn up_to_ceiling(account: Account, amount: u64) -> Result<(Account, u32), Refusal>
    ensures { result ≡ up_to_ceiling account amount }
{
    if amount > CEILING {
        return Err(Refusal::OverCeiling);
    }
    Ok((account, amount as u32))
}
