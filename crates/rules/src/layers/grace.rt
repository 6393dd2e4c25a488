// Grace: nothing is charged before a month.
ghost use Rattle.rules.specs.Layers.{grace};
ghost use Rattle.rules.specs.Bounds.{grace_bounded};

use crate::account::Account;
use crate::facts::Facts;
use crate::refusal::Refusal;
use crate::rule::Rule;

// Any month count may be set.
#[derive(Drop)]
pub struct Grace<R> {
    pub rule: R,
    pub before: u32,
}

impl<R: Rule> Rule for Grace<R> {
    ghost meaning = { λ layer facts. grace layer.before facts (R.meaning layer.rule facts) };

    ghost bounded = { λ layer facts. grace_bounded layer.before facts _ (R.bounded layer.rule facts) };

    fn ask(&self, facts: &Facts) -> Result<(Account, u32), Refusal> {
        let (account, amount) = self.rule.ask(facts)?;
        match account {
            Account::Charges if facts.month_count < self.before => Ok((account, 0)),
            _ => Ok((account, amount)),
        }
    }
}
