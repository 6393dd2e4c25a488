// The bytes of a line as they come in.
ghost use Rattle.std.specs.Prelude.{◌≡◌, ◌≤◌, [], ◌∷◌, ◌++◌, length, take};

use arrayvec::ArrayVec;
use std::marker::Model;

// One byte more than a readable line has: a longer line is cut there, and stays unreadable.
const MOST: usize = 65;

#[derive(Drop)]
pub struct Line {
    bytes: ArrayVec<u8, MOST>,
}

// A line is the list of its bytes.
impl Model for Line {
    ghost use Rattle.std.specs.Prelude.{ℕ, List};

    ghost Value = { List ℕ };

    ghost view = { λ line. line.bytes.items };
}

impl Line {
    pub fn new() -> Line
        ensures { result ≡ [] }
    {
        Line {
            bytes: ArrayVec::new(),
        }
    }

    pub fn bytes(&self) -> &[u8]
        ensures bytes { result.now ≡ self.now }
        ensures few { length result.now ≤ 65 }
    {
        self.bytes.as_slice()
    }

    pub fn clear(&mut self)
        ensures { self.new ≡ [] }
    {
        self.bytes.clear();
    }

    pub fn push(&mut self, byte: u8)
        ensures { self.new ≡ take 65 (self.old ++ (byte ∷ [])) }
    {
        if !self.bytes.is_full() {
            self.bytes.push(byte);
        }
    }
}
