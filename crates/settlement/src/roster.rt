// The roster as the calls use it: a party's line by its number.
ghost use Rattle.std.specs.Prelude.{◌≡◌, ◌≤◌, length, slice_set};
ghost use Rattle.register.specs.Held.{Kept};
ghost use Rattle.billing.specs.Lent.{line_of, lines_of};
ghost use Rattle.settlement.specs.Finding.{LineFound, Entering};

use billing::party::{Party, Roster};
use register::Keyed;
use rules::refusal::Refusal;

// Where the party stands, and its line.
pub(crate) fn line_of(roster: &Roster, number: u32) -> Option<(usize, Party)>
    ensures { LineFound number (lines_of roster.now) result }
{
    roster.lookup(number)
}

// Enters a new line in its place, where one is left.
// kept: a twin of `lodge`: what they promise is said of lines here and of objections there
pub(crate) fn enter(roster: &mut Roster, party: Party) -> Result<(), Refusal>
    ensures enters { Entering party roster.old result roster.new }
    ensures kept { Kept roster.old roster.new }
{
    roster.insert(party).map_err(|_| Refusal::RosterFull)?;
    Ok(())
}

// Puts a changed line back.
pub(crate) fn put(roster: &mut Roster, i: usize, party: Party)
    ensures lines { lines_of roster.new ≡ slice_set (lines_of roster.old) i (line_of party) }
    ensures kept { Kept roster.old roster.new }
{
    roster.replace(i, party);
}

// How many parties are enrolled.
pub(crate) fn party_count(roster: &Roster) -> usize
    ensures count { result ≡ length (lines_of roster.now) }
    ensures limit { result ≤ 64 }
{
    roster.count()
}
