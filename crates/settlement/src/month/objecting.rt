// Objecting to an event of the published month.
ghost use Rattle.settlement.specs.Objecting.{Object};
ghost use Rattle.settlement.specs.Lent.{book_of, room_of, Left};

use super::{Month, Published};
use crate::memory::Memory;
use crate::objections::{is_objected, lodge};
use rules::refusal::Refusal;

impl Month<Published> {
    pub fn object(&self, memory: &mut Memory, place: u32) -> Result<(), Refusal>
        ensures does { Object (room_of 0 memory.old) place (book_of self.now memory.old) result (book_of self.now memory.new) }
        ensures left { Left result self.now.used memory.old memory.new }
    {
        self.standing(memory, place as usize)?;
        if is_objected(&memory.objections, place) {
            return Err(Refusal::ObjectedAlready);
        }
        lodge(&mut memory.objections, place)
    }
}
