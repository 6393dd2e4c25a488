// One call for a line: the command that it gives is served, and its answer stands on the page.
ghost use Rattle.std.specs.Prelude.{◌≡◌};
ghost use Rattle.book.specs.declared.stage.Stage.TheVariants.{NoBook};
ghost use Rattle.console.specs.declared.choice.Choice.TheVariants.{First};
ghost use Rattle.console.specs.Desks.{choice_for, Hearing, Answering};

use crate::choice::Choice;
use crate::command::Command;
use crate::print::print;
use crate::reader::parse;
use billing::bill::Bill;
use book::answer::{Answer, Denial};
use book::serving::serve;
use book::stage::Stage;
use rules::refusal::Refusal;
use settlement::memory::Memory;

// A book, and the rulebook that it goes by.
#[derive(Drop)]
pub struct Desk {
    pub stage: Stage,
    pub choice: Choice,
}

impl Desk {
    // No book yet.
    pub fn new() -> Desk
        ensures stage { result.stage ≡ NoBook }
        ensures choice { result.choice ≡ First }
    {
        Desk {
            stage: Stage::NoBook,
            choice: Choice::First,
        }
    }
}

// The rulebook to go by: a new book brings its own.
fn choose(stage: &Stage, command: Command, choice: Choice) -> Choice
    ensures { result ≡ choice_for stage.now command choice }
{
    match (stage, command) {
        (Stage::NoBook, Command::New { choice: new, .. }) => new,
        _ => choice,
    }
}

fn hear(desk: Desk, memory: &mut Memory, sheet: &mut [Bill], line: &[u8]) -> (Desk, Answer)
    ensures { Hearing desk memory.old sheet.old line.now result.1 result.0 memory.new sheet.new }
{
    // kept: the desk goes back with the refusal, so `?` has nothing to hand on
    let Some(command) = parse(line) else {
        return (desk, Err(Denial::Refused(Refusal::Unreadable)));
    };
    let choice = choose(&desk.stage, command, desk.choice);
    let (stage, answer) = serve(desk.stage, memory, sheet, &choice, command.into());
    (Desk { stage, choice }, answer)
}

// Gives the length of the answer's text on the page.
// kept: the memory, the sheet and the page may be others at each call; a caller with the same ones has an Office
pub fn answer_line(
    desk: Desk,
    memory: &mut Memory,
    sheet: &mut [Bill],
    line: &[u8],
    page: &mut [u8],
) -> (Desk, Option<usize>)
    ensures { Answering desk memory.old sheet.old line.now page.old result.0 result.1 memory.new sheet.new page.new }
{
    let (desk, answer) = hear(desk, memory, sheet, line);
    let long = print(&answer, sheet, page);
    (desk, long)
}
