// The laws of every run, for a caller of the single calls.
ghost use Rattle.book.specs.Laws.{RunsLawful, RunsWithinLimits};

use rules::rule::Rule;

// Every run of the book under the rulebook is lawful, and keeps the book within its limits.
pub fn laws_of<P: Rule>(rulebook: &P) -> bool
    ensures lawful { RunsLawful (P.meaning rulebook.now) }
    ensures limits { RunsWithinLimits (P.meaning rulebook.now) }
{
    let _ = rulebook;
    true
}
