// The weights by which a party takes its part of what is shared.
// kept: a weight is a plain number in each answer, and any number may be one where a pool is shared out, so its bound stands in the clauses
ghost use Rattle.std.specs.Prelude.{◌≡◌, ◌*◌, ◌/◌, ◌≤◌};
ghost use Rattle.billing.specs.Bills.{line_weights};
ghost use Rattle.billing.specs.Filling.{weight_on};
ghost use Rattle.billing.specs.Lent.{line_of};
ghost use Rattle.billing.specs.Weights.{energy, running_weight};

use crate::party::Party;
use rules::account::Account;
use rules::calendar::slots_in;
use rules::kind::Kind;

// A full hour of twelve slots at 1,000 kW is 1 MWh.
const KW_SLOTS_PER_MWH: u64 = 12_000;

impl Party {
    // In MWh, whichever way the energy went.
    pub fn energy_weight(&self) -> u32
        ensures weight { result ≡ energy (line_of self.now).magnitude }
        ensures most { result ≤ 2_976_000 }
    {
        (self.magnitude() / KW_SLOTS_PER_MWH) as u32
    }

    // Of a month, which is given by its count: for wind and solar every slot counts.
    pub fn running_weight(&self, month: u32) -> u32
        ensures weight { result ≡ running_weight month (line_of self.now).party (line_of self.now).running }
        ensures most { result ≤ 2_976_000 }
    {
        match self.enrolled().kind {
            Kind::Wind | Kind::Solar => self.weight_over(slots_in(month)),
            Kind::Market => 0,
            _ => self.weight_over(self.running()),
        }
    }

    // The capacity over so many slots, in MWh.
    fn weight_over(&self, slots: u32) -> u32
        requires { slots ≤ 8928 }
        ensures weight { result ≡ (line_of self.now).party.capacity * slots / 12_000 }
        ensures most { result ≤ 2_976_000 }
    {
        (self.enrolled().capacity as u64 * slots as u64 / KW_SLOTS_PER_MWH) as u32
    }

    // The weight by which the party takes its part of what is shared of an account.
    pub(crate) fn weight(&self, month: u32, account: Account) -> u32
        ensures weight { result ≡ weight_on account (line_weights month (line_of self.now)) }
        ensures most { result ≤ 2_976_000 }
    {
        match (account, self.enrolled().kind) {
            (Account::Charges, _) => self.running_weight(month),
            (Account::First, _) => self.energy_weight(),
            (Account::Second, Kind::Market) => self.energy_weight(),
            (Account::Third, Kind::Wind | Kind::Solar) => self.energy_weight(),
            _ => 0,
        }
    }
}
