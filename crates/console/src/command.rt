// The commands that a line can give.
use crate::choice::Choice;
use billing::reading::Reading;
use book::call::Call;
use records::event::Event;

// A new book brings the choice of its rulebook; all else is a call on the book as it is.
#[derive(Clone, Copy, Debug, PartialEq, Eq)]
pub enum Command {
    New {
        year: u32,
        month: u32,
        choice: Choice,
    },
    Enrol {
        number: u32,
        // kept: what the line says, which is checked where the call is made
        kind: u32,
        capacity: u32,
    },
    Read(Reading),
    Post(Event),
    PayIn(u32),
    Publish,
    Object(u32),
    Answer {
        place: u32,
        // kept: a yes or no, with no value that only one of the two has
        upheld: bool,
    },
    WhatIf(u32),
    AccountSums(u32),
    Settle,
}

// The call on the book that the command asks for.
impl From<Command> for Call {
    ghost use Rattle.std.specs.Prelude.{◌≡◌};
    ghost use Rattle.console.specs.Calls.{call_of};

    ghost from_gives = { λ command call. call ≡ call_of command };

    fn from(command: Command) -> Call {
        match command {
            Command::New { year, month, .. } => Call::New { year, month },
            Command::Enrol {
                number,
                kind,
                capacity,
            } => Call::Enrol {
                number,
                kind,
                capacity,
            },
            Command::Read(reading) => Call::Read(reading),
            Command::Post(event) => Call::Post(event),
            Command::PayIn(amount) => Call::PayIn(amount),
            Command::Publish => Call::Publish,
            Command::Object(place) => Call::Object(place),
            Command::Answer { place, upheld } => Call::Answer { place, upheld },
            Command::WhatIf(place) => Call::WhatIf(place),
            Command::AccountSums(party) => Call::AccountSums(party),
            Command::Settle => Call::Settle,
        }
    }
}
