// The lines of a new month: readings and sums are empty.
ghost use Rattle.std.specs.Prelude.{◌≡◌, map};
ghost use Rattle.register.specs.Held.{Kept};
ghost use Rattle.billing.specs.Lent.{lines_of};
ghost use Rattle.settlement.specs.Settling.{renewed};

use crate::roster::put;
use billing::party::{Party, Roster};
use register::Keyed;

pub(super) fn renew(roster: &mut Roster)
    ensures lines { lines_of roster.new ≡ map renewed (lines_of roster.old) }
    ensures kept { Kept roster.old roster.new }
{
    // kept: tried with a register that lends its lines in use by `&mut`: what such a loan of a part leaves was not proved
    for i in 0..roster.count() {
        if let Some(party) = roster.get(i) {
            put(roster, i, party.renewed());
        }
    }
}
