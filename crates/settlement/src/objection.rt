// An objection, by the place of the event that it objects to.
use register::Keyed;

#[derive(Clone, Copy, Debug, PartialEq, Eq)]
pub struct Objection {
    pub place: u32,
    // it waits for its answer; a dismissed one does not
    // kept: a yes or no of its own, with no value that only one of the two has
    pub waiting: bool,
}

impl Keyed for Objection {
    ghost number = { λ o. o.place };

    fn key(&self) -> u32 {
        self.place
    }
}
