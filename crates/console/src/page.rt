// A page of bytes that text is written to.
ghost use Rattle.std.specs.Prelude.{◌≡◌, true, false, [], ◌∷◌, decimal};
ghost use Rattle.std.specs.Result.{is_ok};
ghost use Rattle.std.specs.Fmt.{signed_decimal};

use itoa::Buffer;

// A lent page, and how many of its bytes are written. Once a text does not fit, the page is full, and stays so.
// kept: lent memory, whose length the caller chose; a writer of std promises neither the bytes nor why it fails
#[derive(Drop)]
pub struct Page<'a> {
    pub bytes: &'a mut [u8],
    pub used: usize,
    // kept: a yes or no of its own: where a text was refused, a shorter one that follows it has no place either
    pub full: bool,
}

// The page has no room for the text.
#[derive(Clone, Copy, Debug, PartialEq, Eq)]
pub struct NoRoom;

impl Page<'_> {
    ghost use Rattle.console.specs.Pages.{Wrote};

    pub fn text(&mut self, s: &[u8]) -> Result<(), NoRoom>
        ensures wrote { Wrote s.now self.old result self.new }
        ensures full { self.old.full ≡ true → is_ok result ≡ false }
    {
        if self.full || self.used > self.bytes.len() || s.len() > self.bytes.len() - self.used {
            self.full = true;
            return Err(NoRoom);
        }
        let end = self.used + s.len();
        self.bytes[self.used..end].copy_from_slice(s);
        self.used = end;
        Ok(())
    }

    pub fn byte(&mut self, b: u8) -> Result<(), NoRoom>
        ensures wrote { Wrote (b ∷ []) self.old result self.new }
        ensures full { self.old.full ≡ true → is_ok result ≡ false }
    {
        self.text(&[b])
    }

    // The digits of `n`.
    pub fn unsigned(&mut self, n: u64) -> Result<(), NoRoom>
        ensures wrote { Wrote (decimal n) self.old result self.new }
        ensures full { self.old.full ≡ true → is_ok result ≡ false }
    {
        // kept: one digit is dear by the library's buffer, and many figures of an answer are 0
        if n < 10 {
            return self.byte(b'0' + n as u8);
        }
        self.text(Buffer::new().format(n).as_bytes())
    }

    // The digits of `z`, after a minus if it is below zero.
    pub fn signed(&mut self, z: i64) -> Result<(), NoRoom>
        ensures wrote { Wrote (signed_decimal z) self.old result self.new }
        ensures full { self.old.full ≡ true → is_ok result ≡ false }
    {
        self.text(Buffer::new().format(z).as_bytes())
    }
}
