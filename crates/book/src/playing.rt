// A list of calls, from no book on.
ghost use Rattle.std.specs.Prelude.{◌≡◌, min, length, take, drop};
ghost use Rattle.book.specs.Playing.{Played};
ghost use Rattle.book.specs.Serving.{state_of};

use crate::answer::Answer;
use crate::call::Call;
use crate::serving::serve;
use crate::stage::Stage;
use billing::bill::Bill;
use rules::rule::Rule;
use settlement::memory::Memory;

// Serves the calls one after another, as many as the log has room for, and puts each answer into the log.
// kept: memory, sheet, rulebook, calls and log are each lent by the caller
pub fn play<P: Rule>(
    memory: &mut Memory,
    sheet: &mut [Bill],
    rulebook: &P,
    calls: &[Call],
    log: &mut [Answer],
) -> Stage
    ensures played { Played (P.meaning rulebook.now) (take (min (length calls.now) (length log.old)) calls.now) (take (min (length calls.now) (length log.old)) log.new) (state_of result memory.new) }
    ensures rest { drop (min (length calls.now) (length log.old)) log.new ≡ drop (min (length calls.now) (length log.old)) log.old }
{
    let mut stage = Stage::NoBook;
    let mut waiting = calls.iter();
    for entry in log.iter_mut() {
        let Some(call) = waiting.next() else { break };
        (stage, *entry) = serve(stage, memory, sheet, rulebook, *call);
    }
    stage
}
