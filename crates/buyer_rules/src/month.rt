// A month entered and settled under the buyer's own rulebook. The law over runs comes with the part: the buyer has shown only
// that his rule keeps a rule's law.
ghost use Rattle.std.specs.Prelude.{min, length, take};
ghost use Rattle.book.specs.Playing.{Played};
ghost use Rattle.book.specs.Serving.{state_of};
ghost use Rattle.buyer_rules.specs.Month.{june_calls};
ghost use Rattle.buyer_rules.specs.Voltage.{with_voltage};

use crate::rulebook::with_voltage;
use billing::bill::Bill;
use billing::reading::Reading;
use book::answer::Answer;
use book::call::Call;
use book::playing::play;
use book::stage::Stage;
use records::event::Event;
use settlement::memory::Memory;

// Plays the month into the log, as far as the log has room: the log is a run under the buyer's rulebook, and a lawful one.
pub fn june(memory: &mut Memory, sheet: &mut [Bill], log: &mut [Answer]) -> Stage
    ensures { Played with_voltage (take (min 6 (length log.old)) june_calls) (take (min 6 (length log.old)) log.new) (state_of result memory.new) }
{
    let calls = [
        Call::New {
            year: 2025,
            month: 6,
        },
        Call::Enrol {
            number: 11,
            kind: 1,
            capacity: 600_000,
        },
        Call::Read(Reading {
            party: 11,
            slot: 0,
            power: 300_000,
        }),
        Call::Post(Event {
            party: 11,
            service: 10,
            slot: 0,
            x: 100,
            y: 0,
        }),
        Call::Publish,
        Call::Settle,
    ];
    play(memory, sheet, &with_voltage(), &calls, log)
}
