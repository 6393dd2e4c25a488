// A desk with all that is lent to it, and the memory of a book of full size for a program to own.
ghost use Rattle.std.specs.Prelude.{◌≡◌, take, replicate, false, pos};
ghost use Rattle.rules.specs.declared.kind.Kind.TheVariants.{Coal};
ghost use Rattle.billing.specs.Lines.{blank, enrolment};
ghost use Rattle.billing.specs.Lent.{lines_in};
ghost use Rattle.console.specs.Offices.{Answers, SameLent, IsNew, LentFrom};

use crate::desk::{Desk, answer_line};
use billing::bill::Bill;
use billing::party::Party;
use settlement::memory::Memory;
use settlement::objection::Objection;
use std::mem;

pub const WORDS: usize = 16_384;

pub const PARTIES: usize = 64;

pub const OBJECTIONS: usize = 16;

pub const PAGE: usize = 8192;

#[derive(Drop)]
pub struct Office<'a> {
    pub desk: Desk,
    pub memory: Memory<'a>,
    pub sheet: &'a mut [Bill],
    pub page: &'a mut [u8],
}

impl Office<'_> {
    // Gives the length of the answer's text on the page.
    pub fn answer(&mut self, line: &[u8]) -> Option<usize>
        ensures answers { Answers self.old line.now result self.new }
        ensures lent { SameLent self.old self.new }
    {
        let desk = mem::replace(&mut self.desk, Desk::new());
        let (desk, long) = answer_line(desk, &mut self.memory, self.sheet, line, self.page);
        self.desk = desk;
        long
    }

    // The front of the page, as long as that.
    pub fn text(&self, long: usize) -> &[u8]
        ensures { result.now ≡ take long self.now.page.now }
    {
        &self.page[..long.min(self.page.len())]
    }
}

// The journal's words, the lines of parties and objections, the sheet and the page.
#[derive(Drop)]
pub struct Store {
    pub words: [u32; WORDS],
    pub lines: [Party; PARTIES],
    pub objections: [Objection; OBJECTIONS],
    pub sheet: [Bill; PARTIES],
    pub page: [u8; PAGE],
}

// The store that `Store::new` gives, made where it stays: what a function hands back is made twice, and this is large for a stack.
// A crate that calls it lists `billing` and `settlement` too.
#[macro_export]
macro_rules! new_store {
    () => {
        $crate::office::Store {
            words: [0; $crate::office::WORDS],
            lines: [billing::party::Party::blank(); $crate::office::PARTIES],
            objections: [settlement::objection::Objection {
                place: 0,
                waiting: false,
            }; $crate::office::OBJECTIONS],
            sheet: [billing::bill::Bill::blank(); $crate::office::PARTIES],
            page: [0; $crate::office::PAGE],
        }
    };
}

impl Store {
    pub fn new() -> Store
        ensures journal { result.words ≡ replicate 16384 0 }
        ensures lines { lines_in result.lines ≡ replicate 64 (blank (enrolment 1 Coal 1)) }
        ensures objections { result.objections ≡ replicate 16 (record { place = 0; waiting = false }) }
        ensures sheet { result.sheet ≡ replicate 64 (record { number = 0; charge = 0; pay = 0; first = 0; second = 0; third = 0; returned = 0; net = pos 0 }) }
        ensures page { result.page ≡ replicate 8192 0 }
    {
        new_store!()
    }

    // A new desk, and all of the memory lent to it.
    pub fn open(&mut self) -> Office<'_>
        ensures new { IsNew result }
        ensures lent { LentFrom self.old result }
    {
        let Store {
            words,
            lines,
            objections,
            sheet,
            page,
        } = self;
        Office {
            desk: Desk::new(),
            memory: Memory::over(words, lines, objections),
            sheet,
            page,
        }
    }
}
