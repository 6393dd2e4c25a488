// The objections as the calls use them: by the place of the event.
ghost use Rattle.std.specs.Prelude.{◌≡◌, false, slice_set};
ghost use Rattle.std.specs.List.{remove};
ghost use Rattle.register.specs.Held.{held, Kept, LaidBy};
ghost use Rattle.settlement.specs.Registers.{has};
ghost use Rattle.settlement.specs.Book.{place_of};
ghost use Rattle.settlement.specs.Objections.{Lodging, Pending};

use crate::memory::Objections;
use crate::objection::Objection;
use register::Keyed;
use rules::refusal::Refusal;

// There is an objection to the event, open or dismissed.
pub(crate) fn is_objected(objections: &Objections, place: u32) -> bool
    ensures { result ≡ has place_of place (held objections.now) }
{
    objections.find(place).is_some()
}

// Enters a waiting objection in its place, where a line is left.
// kept: a twin of `enter`: what they promise is said of lines there and of objections here
pub(crate) fn lodge(objections: &mut Objections, place: u32) -> Result<(), Refusal>
    ensures lodges { Lodging place objections.old result objections.new }
    ensures kept { Kept objections.old objections.new }
{
    let objection = Objection {
        place,
        waiting: true,
    };
    objections
        .insert(objection)
        .map_err(|_| Refusal::ObjectionsFull)?;
    Ok(())
}

// Where the waiting objection to the event stands.
pub(crate) fn pending(objections: &Objections, place: u32) -> Option<usize>
    ensures { Pending place (held objections.now) result }
{
    let (i, objection) = objections.lookup(place)?;
    objection.waiting.then_some(i)
}

// Keeps the line, which waits no more.
pub(crate) fn dismiss(objections: &mut Objections, i: usize, place: u32)
    ensures lines { held objections.new ≡ slice_set (held objections.old) i (record { place = place; waiting = false }) }
    ensures kept { Kept objections.old objections.new }
{
    let objection = Objection {
        place,
        waiting: false,
    };
    objections.replace(i, objection);
}

// Frees the line, which then lies right past those in use.
pub(crate) fn free(objections: &mut Objections, i: usize)
    ensures lines { held objections.new ≡ remove (held objections.old) i }
    ensures past { LaidBy i objections.old objections.new }
    ensures kept { Kept objections.old objections.new }
{
    objections.remove(i);
}
