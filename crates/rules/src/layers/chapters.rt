// Chapters: a second rule is asked only of what the first does not cover.
ghost use Rattle.rules.specs.Layers.{or_else};
ghost use Rattle.rules.specs.Bounds.{or_else_bounded};

use crate::account::Account;
use crate::facts::Facts;
use crate::refusal::Refusal;
use crate::rule::Rule;

#[derive(Drop)]
pub struct Chapters<A, B> {
    pub first: A,
    pub second: B,
}

impl<A: Rule, B: Rule> Rule for Chapters<A, B> {
    ghost meaning = { λ both facts. or_else (A.meaning both.first facts) (B.meaning both.second facts) };

    ghost bounded = { λ both facts. or_else_bounded _ _ (A.bounded both.first facts) (B.bounded both.second facts) };

    fn ask(&self, facts: &Facts) -> Result<(Account, u32), Refusal> {
        match self.first.ask(facts) {
            Err(Refusal::NotCovered) => self.second.ask(facts),
            answer => answer,
        }
    }
}
