// Cap: no amount is above a limit.
ghost use Rattle.std.specs.Prelude.{◌≡◌, ◌≤◌, MatchResult};
ghost use Rattle.rules.specs.declared.refusal.Refusal.TheVariants.{OutOfRange};
ghost use Rattle.rules.specs.Layers.{capped};
ghost use Rattle.rules.specs.Bounds.{capped_bounded};

use crate::account::Account;
use crate::facts::Facts;
use crate::refusal::Refusal;
use crate::rule::Rule;

// The limit is 1 to 1,000,000,000 fen.
#[derive(Drop)]
pub struct Cap<R> {
    pub rule: R,
    pub(crate) limit: u32,
    ghost limits: { (1 ≤ limit) × (limit ≤ 1_000_000_000) },
}

impl<R: Drop> Cap<R> {
    // A limit outside 1 to 1,000,000,000 is refused with 4.
    pub fn new(rule: R, limit: u32) -> Result<Cap<R>, Refusal>
        ensures { MatchResult result (λ layer. (layer.rule ≡ rule) × (layer.limit ≡ limit)) (λ e. (e ≡ OutOfRange) × ¬ ((1 ≤ limit) × (limit ≤ 1_000_000_000))) }
    {
        if !(1..=1_000_000_000).contains(&limit) {
            return Err(Refusal::OutOfRange);
        }
        Ok(Cap { rule, limit })
    }
}

impl<R: Rule> Rule for Cap<R> {
    ghost meaning = { λ layer facts. capped layer.limit (R.meaning layer.rule facts) };

    ghost bounded = { λ layer facts. capped_bounded _ _ (R.bounded layer.rule facts) };

    fn ask(&self, facts: &Facts) -> Result<(Account, u32), Refusal> {
        let (account, amount) = self.rule.ask(facts)?;
        Ok((account, amount.min(self.limit)))
    }
}
