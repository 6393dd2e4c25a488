// A register of numbered records over lent memory. Every method is total: whatever the lines hold and whatever count
// comes with them, the first `count` lines are the register's, never more than LIMIT or than there are lines.
#![tactic(auto)]

ghost use Rattle.std.specs.Prelude.{◌≡◌, ℕ, ◌≤◌, [], length, IfSome, option_map, slice_set};
ghost use Rattle.std.specs.List.{slice_get};
ghost use Rattle.register.specs.Numbered.{first_at, place_at, without, Rising, Only};
ghost use Rattle.register.specs.Held.{count, held, Insertion, Rises, StaysRising, LaidBy, Kept};

// A record that goes by a number.
pub trait Keyed {
    ghost number: { Self → ℕ };

    fn key(&self) -> u32
        ensures { result ≡ number self.now };
}

// kept: lent memory, whose length the caller chose, with the count of the lines in use; a library crate has no heap
#[derive(Drop)]
pub struct Register<'a, R: Keyed, const LIMIT: usize> {
    lines: &'a mut [R],
    used: usize,
}

// A register has no line left.
#[derive(Clone, Copy, Debug, PartialEq, Eq)]
pub struct Full;

impl<'a, R: Keyed + Copy, const LIMIT: usize> Register<'a, R, LIMIT> {
    // A register over lent lines, of which the first are in use.
    pub fn over(lines: &'a mut [R], used: usize) -> Self
        ensures used { result.used ≡ used }
        ensures lines { result.lines.now ≡ lines.old }
        ensures lent { result.lines.ghost_name ≡ lines.entry.ghost_name }
    {
        Register { lines, used }
    }

    // How many lines are in use.
    pub fn count(&self) -> usize
        ensures count { result ≡ count self.now }
        ensures length { result ≡ length (held self.now) }
        ensures limit { result ≤ LIMIT }
    {
        let lines = &*self.lines;
        self.used.min(LIMIT).min(lines.len())
    }

    // The lines in use.
    pub fn held(&self) -> &[R]
        ensures held { result.now ≡ held self.now }
        ensures limit { length result.now ≤ LIMIT }
    {
        let n = self.count();
        let lines = &*self.lines;
        &lines[..n]
    }

    // The first line with that number; where lines rise, the only one.
    pub fn find(&self, number: u32) -> Option<usize>
        ensures first { result ≡ first_at R.number number (held self.now) }
        ensures only { Rising R.number (held self.now) → IfSome result (Only R.number number (held self.now)) }
    {
        self.held().iter().position(|line| line.key() == number)
    }

    // The first line with that number, and where it stands.
    pub fn lookup(&self, number: u32) -> Option<(usize, R)>
        ensures first { option_map (λ p. p.0) result ≡ first_at R.number number (held self.now) }
        ensures line { IfSome result (λ p. Some p.1 ≡ slice_get (held self.now) p.0) }
        ensures only { Rising R.number (held self.now) → IfSome result (λ p. Only R.number number (held self.now) p.0) }
    {
        let i = self.find(number)?;
        Some((i, self.get(i)?))
    }

    // The line at i.
    pub fn get(&self, i: usize) -> Option<R>
        ensures { result ≡ slice_get (held self.now) i }
    {
        self.held().get(i).copied()
    }

    // Where the first line with a larger number stands.
    fn place(&self, number: u32) -> usize
        ensures place { result ≡ place_at R.number number (held self.now) }
        ensures within { result ≤ count self.now }
    {
        let lines = self.held();
        lines
            .iter()
            .position(|line| line.key() > number)
            .unwrap_or(lines.len())
    }

    // Puts the line in front of the first one with a larger number.
    pub fn insert(&mut self, line: R) -> Result<usize, Full>
        ensures inserts { Insertion R.number self.old self.new line result }
        ensures rises { Rises R.number self.old self.new line }
        ensures kept { Kept self.old self.new }
    {
        let n = self.count();
        if n == LIMIT || n == self.lines.len() {
            return Err(Full);
        }
        let i = self.place(line.key());
        self.lines[i..n + 1].rotate_right(1);
        self.lines[i] = line;
        self.used = n + 1;
        Ok(i)
    }

    // Takes the line out, and lays it right past the lines in use; where there is none, nothing changes.
    pub fn remove(&mut self, i: usize)
        ensures holds { held self.new ≡ without (held self.old) i }
        ensures rises { StaysRising R.number self.old self.new }
        ensures past { LaidBy i self.old self.new }
        ensures kept { Kept self.old self.new }
    {
        let n = self.count();
        if i < n {
            self.lines[i..n].rotate_left(1);
            self.used = n - 1;
        }
    }

    // Puts another line in the place of one; where there is none, nothing changes.
    pub fn replace(&mut self, i: usize, line: R)
        ensures holds { held self.new ≡ slice_set (held self.old) i line }
        ensures rises { IfSome (slice_get (held self.old) i) (λ old. R.number line ≡ R.number old) → StaysRising R.number self.old self.new }
        ensures kept { Kept self.old self.new }
    {
        // kept: the library's `get_mut` of a slice does not say what the slice holds after a write through it
        if i < self.count() {
            self.lines[i] = line;
        }
    }

    // Takes all lines out of use; what they hold stays in the memory.
    pub fn clear(&mut self)
        ensures holds { held self.new ≡ [] }
        ensures rises { StaysRising R.number self.old self.new }
        ensures lines { self.new.lines ≡ self.old.lines }
        ensures kept { Kept self.old self.new }
    {
        self.used = 0;
    }
}
