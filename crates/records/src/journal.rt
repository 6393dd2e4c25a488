// The used words of the journal, whatever they hold. A month is looked at from its end, where the used words end.
ghost use Rattle.std.specs.Prelude.{◌≡◌, ℕ, ◌≤◌, length, take};
ghost use Rattle.records.specs.Journal.{month_start, this_month, posts, posted, first_event, Marked, EventThere, Appending, Striking};

use crate::event::{Event, Mark, WordKind, content, figures, quantity};
use rules::refusal::Refusal;

// A journal never uses more words.
pub const MOST_WORDS: usize = 1_048_576;

// The used words, as far as the journal has them.
// kept: lent memory, of which the month keeps how much is used: `words` and `used` are two parameters, here and below
pub fn used_words(words: &[u32], used: usize) -> &[u32]
    ensures words { result.now ≡ take used words.now }
    ensures few { length result.now ≤ used }
{
    &words[0..used.min(words.len())]
}

// The place after the last month's end, or 0.
pub fn month_start(words: &[u32]) -> usize
    ensures start { result ≡ month_start words.now }
    ensures within { result ≤ length words.now }
{
    words
        .iter()
        .rposition(|word| WordKind::MonthEnd.is_of(*word))
        .map_or(0, |end| end + 1)
}

// This month's words.
pub fn this_month(words: &[u32]) -> &[u32]
    ensures month { result.now ≡ this_month words.now }
    ensures few { length result.now ≤ length words.now }
{
    let start = month_start(words);
    &words[start..]
}

// The word begins an event, struck or not, of that party, service and slot.
fn is_post(word: u32, event: &Event) -> bool
    ensures { result ≡ posts event.now word }
{
    (WordKind::Standing.is_of(word) || WordKind::Struck.is_of(word))
        && figures(word) == (event.party, event.service, event.slot)
}

// An event of that party, service and slot was posted this month, struck or not.
pub fn posted_already(words: &[u32], event: &Event) -> bool
    ensures { result ≡ posted event.now (this_month words.now) }
{
    words
        .iter()
        .rev()
        .find(|word| WordKind::MonthEnd.is_of(**word) || is_post(**word, event))
        .is_some_and(|word| is_post(*word, event))
}

// Writes new words, of an event, a pay-in or a month's end, after the used ones. Where they do not fit, the journal is full.
pub fn append(words: &mut [u32], used: usize, new: &[u32]) -> Result<(), Refusal>
    ensures { Appending used new.now words.old result words.new }
{
    let most = words.len().min(MOST_WORDS);
    let n = new.len();
    if used > most || most - used < n {
        return Err(Refusal::JournalFull);
    }
    words[used..used + n].copy_from_slice(new);
    Ok(())
}

// The standing event that the words begin with.
pub(crate) fn first_event(words: &[u32]) -> Option<Event>
    ensures { result ≡ first_event words.now }
{
    match words {
        [head, x, y, ..]
            if WordKind::Standing.is_of(*head)
                && WordKind::First.is_of(*x)
                && WordKind::Second.is_of(*y) => {
            let (party, service, slot) = figures(*head);
            Some(Event {
                party,
                service,
                slot,
                x: quantity(*x),
                y: quantity(*y),
            })
        }
        _ => None,
    }
}

// Whether an event of this month begins at the place, and stands or was struck.
pub fn mark_at(words: &[u32], place: usize) -> Option<Mark>
    ensures { Marked place words.now result }
{
    if !(month_start(words)..words.len()).contains(&place) {
        return None;
    }
    match words[place] {
        word if WordKind::Standing.is_of(word) => Some(Mark::Standing),
        word if WordKind::Struck.is_of(word) => Some(Mark::Struck),
        _ => None,
    }
}

// The standing event of this month at the place.
pub fn event_at(words: &[u32], place: usize) -> Option<Event>
    ensures { EventThere place words.now result }
{
    if !(month_start(words)..words.len()).contains(&place) {
        return None;
    }
    first_event(&words[place..])
}

// Strikes the event at the place among the used words; past them nothing changes.
pub fn strike(words: &mut [u32], used: usize, place: usize)
    ensures { Striking used place words.old words.new }
{
    if place < used && place < words.len() {
        words[place] = WordKind::Struck.word(content(words[place]));
    }
}
