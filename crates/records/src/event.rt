// An event, and the words of the journal.
ghost use Rattle.std.specs.Prelude.{◌≡◌, ℕ, ◌/◌, ◌%◌, ◌≤◌, true, if◌then◌else◌, Some, None, OnSome, ◌==◌, unsigned_abs};
ghost use Rattle.records.specs.Words.{kind, kind_number, content, word, shifted, quantity, event_words, encodable, Sizes, RoundTrip, WordReadBack};

use crate::enrolment::{MOST_FIGURE, MOST_NUMBER};

// The kinds of word: an event that stands or was struck, an event's two quantities, money paid in, a month's end.
#[derive(Clone, Copy, Debug, PartialEq, Eq)]
pub enum WordKind {
    Standing = 1,
    Struck = 2,
    First = 3,
    Second = 4,
    PaidIn = 5,
    MonthEnd = 6,
}

impl WordKind {
    // The word of this kind and a content; what is above the content's bits is left out.
    pub fn word(self, content: u32) -> u32
        ensures word { result ≡ word (kind_number self) (content % 536_870_912) }
        ensures back { WordReadBack }
    {
        word(self as u32, content)
    }

    // Whether a word is of this kind.
    pub fn is_of(self, word: u32) -> bool
        ensures { result ≡ (kind word == kind_number self) }
    {
        kind(word) == self as u32
    }
}

#[derive(Clone, Copy, Debug, PartialEq, Eq)]
pub struct Event {
    pub party: u32,
    pub service: u32,
    pub slot: u32,
    pub x: i32,
    pub y: i32,
}

// Whether an event stands or was struck.
#[derive(Clone, Copy, Debug, PartialEq, Eq)]
pub enum Mark {
    Standing,
    Struck,
}

impl Event {
    // Each figure has its place in the words.
    #[tactic(auto, unfolding(crate::specs::Words::encodable))]
    fn is_encodable(&self) -> bool
        ensures value { result ≡ encodable self.now }
        ensures sizes { result ≡ true → Sizes self.now }
    {
        self.party <= MOST_NUMBER
            && self.service <= 31
            && self.slot <= 16_383
            && self.x.unsigned_abs() <= MOST_FIGURE
            && self.y.unsigned_abs() <= MOST_FIGURE
    }

    // The words of the event, where each figure has its place.
    pub fn words(&self) -> Option<[u32; 3]>
        ensures words { result ≡ (if encodable self.now then Some (event_words self.now) else None) }
        ensures sizes { OnSome result (Sizes self.now) }
        ensures back { RoundTrip }
    {
        if !self.is_encodable() {
            return None;
        }
        Some([
            WordKind::Standing.word(self.party * 524_288 + self.service * 16_384 + self.slot),
            WordKind::First.word(shifted(self.x)),
            WordKind::Second.word(shifted(self.y)),
        ])
    }
}

// A quantity as content.
fn shifted(x: i32) -> u32
    requires { unsigned_abs x ≤ 4_000_000 }
    ensures value { result ≡ shifted x }
    ensures small { result ≤ 536_870_911 }
{
    (x + 268_435_456) as u32
}

// The word of a kind and a content; what is above their bits is left out.
// kept: takes any number as a kind and `kind` answers any, since a journal may hold any word; `WordKind` would ask more
pub fn word(kind: u32, content: u32) -> u32
    ensures word { result ≡ word (kind % 8) (content % 536_870_912) }
    ensures back { WordReadBack }
{
    kind % 8 * 536_870_912 + content % 536_870_912
}

// The top three bits of a word.
pub fn kind(word: u32) -> u32
    ensures { result ≡ kind word }
{
    word / 536_870_912
}

// The low 29 bits.
pub fn content(word: u32) -> u32
    ensures { result ≡ content word }
{
    word % 536_870_912
}

// The party, the service and the slot in an event's first word.
pub(crate) fn figures(word: u32) -> (u32, u32, u32)
    ensures party { result.0 ≡ content word / 524_288 }
    ensures service { result.1 ≡ content word / 16_384 % 32 }
    ensures slot { result.2 ≡ content word % 16_384 }
{
    let content = content(word);
    (content / 524_288, content / 16_384 % 32, content % 16_384)
}

// The quantity in a word of kind 3 or 4.
pub fn quantity(word: u32) -> i32
    ensures { result ≡ quantity word }
{
    content(word) as i32 - 268_435_456
}
