// Season: charges are five times as much in the months of peak load.
ghost use Rattle.rules.specs.Layers.{season};
ghost use Rattle.rules.specs.Bounds.{season_bounded};

use crate::account::Account;
use crate::ceiling::up_to_ceiling;
use crate::facts::Facts;
use crate::refusal::Refusal;
use crate::rule::Rule;

#[derive(Drop)]
pub struct Season<R> {
    pub rule: R,
}

impl<R: Rule> Rule for Season<R> {
    ghost meaning = { λ layer facts. season facts (R.meaning layer.rule facts) };

    ghost bounded = { λ layer facts. season_bounded facts _ (R.bounded layer.rule facts) };

    fn ask(&self, facts: &Facts) -> Result<(Account, u32), Refusal> {
        let (account, amount) = self.rule.ask(facts)?;
        match account {
            Account::Charges if facts.is_peak() => up_to_ceiling(account, amount as u64 * 5),
            _ => Ok((account, amount)),
        }
    }
}
