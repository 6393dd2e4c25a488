// A party as it is enrolled.
ghost use Rattle.std.specs.Prelude.{◌≡◌};
ghost use Rattle.records.specs.Asking.{facts};

use crate::event::Event;
use rules::facts::Facts;
use rules::kind::Kind;

// The largest number that a party may have.
pub const MOST_NUMBER: u32 = 1023;

// The largest capacity, reading or quantity of an event, either way.
pub const MOST_FIGURE: u32 = 4_000_000;

#[derive(Clone, Copy, Debug, PartialEq, Eq)]
pub struct Enrolment {
    pub number: u32,
    pub kind: Kind,
    pub capacity: u32,
}

impl Enrolment {
    // What a rulebook is asked about an event of the party in a month, which is given by its count.
    pub fn facts(&self, count: u32, event: &Event) -> Facts
        ensures { result ≡ facts self.now count event.now }
    {
        Facts {
            kind: self.kind,
            capacity: self.capacity,
            month: count % 12 + 1,
            month_count: count,
            service: event.service,
            x: event.x,
            y: event.y,
        }
    }
}
