// A call on the book.
use billing::reading::Reading;
use records::event::Event;

#[derive(Clone, Copy, Debug, PartialEq, Eq)]
pub enum Call {
    New {
        year: u32,
        month: u32,
    },
    Enrol {
        number: u32,
        // kept: any number may be asked with, and is checked in its turn; `Kind` would ask more of callers
        kind: u32,
        capacity: u32,
    },
    Read(Reading),
    Post(Event),
    PayIn(u32),
    Publish,
    Object(u32),
    Answer {
        place: u32,
        // kept: a yes or no, with no value that only one of the two has
        upheld: bool,
    },
    WhatIf(u32),
    AccountSums(u32),
    Settle,
}
