// Which of the two rulebooks a new book goes by.
ghost use Rattle.std.specs.Prelude.{◌≡◌};

use rules::account::Account;
use rules::facts::Facts;
use rules::refusal::Refusal;
use rules::rule::Rule;
use rules::rulebooks::{rulebook_1, rulebook_2};

#[derive(Clone, Copy, Debug, PartialEq, Eq)]
pub enum Choice {
    First,
    Second,
}

// The rulebooks are numbered 1 and 2.
#[derive(Clone, Copy, Debug, PartialEq, Eq)]
pub struct NoSuchRulebook;

impl TryFrom<u32> for Choice {
    ghost use Rattle.std.specs.Result.{result_ok};
    ghost use Rattle.console.specs.Choices.{choice_of};

    type Error = NoSuchRulebook;

    ghost try_from_gives = { λ number result. result_ok result ≡ choice_of number };

    fn try_from(number: u32) -> Result<Choice, NoSuchRulebook> {
        match number {
            1 => Ok(Choice::First),
            2 => Ok(Choice::Second),
            _ => Err(NoSuchRulebook),
        }
    }
}

// A choice is the rule that it names.
impl Rule for Choice {
    ghost use Rattle.console.specs.Choices.{means_of, means_within};

    ghost meaning = { means_of };

    ghost bounded = { means_within };

    fn ask(&self, facts: &Facts) -> Result<(Account, u32), Refusal> {
        match self {
            Choice::First => rulebook_1().ask(facts),
            Choice::Second => rulebook_2().ask(facts),
        }
    }
}
