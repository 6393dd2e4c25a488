// The used words of the journal.
ghost use Rattle.std.specs.Prelude.{◌≡◌, ◌<◌, ◌≤◌, length, take, Ok, Err};
ghost use Rattle.rules.specs.declared.refusal.Refusal.TheVariants.{OutOfStep};

use super::Month;
use crate::memory::Memory;
use records::journal::used_words;
use rules::refusal::Refusal;

impl<S> Month<S> {
    // Refused where the journal that is lent is shorter than the used words.
    pub(super) fn journal<'m>(&self, memory: &'m Memory) -> Result<&'m [u32], Refusal>
        ensures { elim result [ Ok words ↦ (words.now ≡ take self.now.used memory.now.words.now) × (self.now.used ≤ length memory.now.words.now) | Err e ↦ (e ≡ OutOfStep) × (length memory.now.words.now < self.now.used) ] }
    {
        let words = &*memory.words;
        if words.len() < self.used {
            return Err(Refusal::OutOfStep);
        }
        Ok(used_words(words, self.used))
    }
}
