// The memory that is lent to each call of a month.
ghost use Rattle.std.specs.Prelude.{◌≡◌, []};
ghost use Rattle.register.specs.Held.{held};

use crate::objection::Objection;
use billing::party::{Party, Roster};
use register::Register;

// The objections of a published month, by the place of their event.
pub type Objections<'a> = Register<'a, Objection, 16>;

#[derive(Drop)]
pub struct Memory<'a> {
    // the journal
    // kept: lent memory, of which the month says how many words are used
    pub words: &'a mut [u32],
    pub roster: Roster<'a>,
    pub objections: Objections<'a>,
}

impl<'a> Memory<'a> {
    // Lends the memory of a new book: no line is in use yet.
    pub fn over(
        words: &'a mut [u32],
        lines: &'a mut [Party],
        objections: &'a mut [Objection],
    ) -> Memory<'a>
        ensures words { result.words.now ≡ words.old }
        ensures journal { result.words.ghost_name ≡ words.entry.ghost_name }
        ensures roster { held result.roster ≡ [] }
        ensures lines { result.roster.lines.now ≡ lines.old }
        ensures objections { held result.objections ≡ [] }
        ensures objecting { result.objections.lines.now ≡ objections.old }
    {
        let roster = Register::over(lines, 0);
        let objections = Register::over(objections, 0);
        Memory {
            words,
            roster,
            objections,
        }
    }
}
