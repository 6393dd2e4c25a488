// Replays the lines of a scenario at a desk, and compares the answers with those expected.
ghost use Rattle.std.specs.Prelude.{◌≡◌};
ghost use Rattle.conformance.specs.Replays.{After, spent, Judged, JudgedAnew};

use crate::lines::Lines;
use console::new_store;
use console::office::Office;

#[derive(Drop)]
pub(crate) struct Replayed {
    // how many lines were answered
    pub lines: usize,
    // the answers were those expected
    // kept: a yes or no of its own: the lines are counted in either case
    pub agrees: bool,
}

// What is left of an expected text after one that was given; nothing from the first difference on.
fn after<'a>(expected: Option<&'a [u8]>, given: &[u8]) -> Option<&'a [u8]>
    ensures { After expected.entry given.now result }
{
    expected?.strip_prefix(given)
}

fn is_spent(left: Option<&[u8]>) -> bool
    ensures { result ≡ spent left.entry }
{
    left.is_some_and(|unseen| unseen.is_empty())
}

// Gives none where an answer has no room on the page.
fn judge(office: &mut Office, commands: &[u8], expected: &[u8]) -> Option<Replayed>
    ensures { Judged office.old commands.now expected.now result }
{
    let mut left = Some(expected);
    let mut lines = 0;
    for line in Lines(commands) {
        let long = office.answer(line)?;
        left = after(left, office.text(long));
        lines += 1;
    }
    Some(Replayed {
        lines,
        agrees: is_spent(left),
    })
}

// Replays at a new desk.
pub(crate) fn replay(commands: &[u8], expected: &[u8]) -> Option<Replayed>
    ensures { JudgedAnew commands.now expected.now result }
{
    let mut store = new_store!();
    judge(&mut store.open(), commands, expected)
}
