// A line, read as a command.
ghost use Rattle.std.specs.Prelude.{◌≡◌, ◌^◌, ◌<◌, ◌≤◌, true, ◌++◌, length, pos, neg_ℤ, IfSome, if◌then◌else◌};
ghost use Rattle.std.specs.Char.{is_ascii_digit};
ghost use Rattle.std.specs.List.{take_while};
ghost use Rattle.std.specs.Str.{all_ascii_digits};
ghost use Rattle.console.specs.Grammar.{Exactly, read_on};
ghost use Rattle.console.specs.Format.{Reads, Took, LacksDigit, numeral, unsigned, signed, new, enrol, meter, event, answer, body, parsed};

use crate::choice::Choice;
use crate::command::Command;
use billing::reading::Reading;
use records::event::Event;

// The longest number that a field may hold, in digits.
const MOST_DIGITS: usize = 9;

// The longest line that is read.
const MOST_BYTES: usize = 64;

// What is left of a line.
#[derive(Drop)]
struct Reader<'a> {
    rest: &'a [u8],
}

// The number of that size, below zero if `minus`.
fn with_sign(minus: bool, size: u32) -> i32
    requires { size < 10 ^ 9 }
    ensures { result ≡ (if minus then neg_ℤ (pos size) else pos size) }
{
    if minus { -(size as i32) } else { size as i32 }
}

// How many digits stand at the front.
fn leading_digits(text: &[u8]) -> usize
    ensures { result ≡ length (take_while is_ascii_digit text.now) }
{
    text.iter().take_while(|byte| byte.is_ascii_digit()).count()
}

// The digits at the front, and what follows them.
fn split_digits(text: &[u8]) -> (&[u8], &[u8])
    ensures whole { text.now ≡ result.0.now ++ result.1.now }
    ensures digits { all_ascii_digits result.0.now ≡ true }
    ensures stops { LacksDigit result.1.now }
{
    text.split_at(leading_digits(text))
}

// The number that the digits write.
fn value(digits: &[u8]) -> u32
    requires digits { all_ascii_digits digits.now ≡ true }
    requires few { length digits.now ≤ 9 }
    ensures value { result ≡ read_on 0 digits.now }
    ensures short { result < 10 ^ 9 }
{
    let mut value = 0;
    for digit in digits {
        value = value * 10 + u32::from(*digit - b'0');
    }
    value
}

impl Reader<'_> {
    // Takes `byte` if it comes next.
    fn take(&mut self, byte: u8) -> Option<()>
        ensures { Took byte self.old.rest.now result self.new.rest.now }
    {
        self.rest = self.rest.strip_prefix(&[byte])?;
        Some(())
    }

    // One digit to nine, and no digit after them.
    fn numeral(&mut self) -> Option<u32>
        ensures reads { Reads (numeral 9 0) self.old.rest.now result self.new.rest.now }
        ensures short { IfSome result (λ n. n < 10 ^ 9) }
    {
        let (digits, rest) = split_digits(self.rest);
        self.rest = rest;
        if digits.is_empty() || digits.len() > MOST_DIGITS {
            return None;
        }
        Some(value(digits))
    }

    // A space and a number.
    fn unsigned(&mut self) -> Option<u32>
        ensures { Reads unsigned self.old.rest.now result self.new.rest.now }
    {
        self.take(b' ')?;
        self.numeral()
    }

    // A space and a number, with a minus before it or none.
    fn signed(&mut self) -> Option<i32>
        ensures { Reads signed self.old.rest.now result self.new.rest.now }
    {
        self.take(b' ')?;
        let minus = self.take(b'-').is_some();
        let size = self.numeral()?;
        Some(with_sign(minus, size))
    }

    fn new_month(&mut self) -> Option<Command>
        ensures { Reads new self.old.rest.now result self.new.rest.now }
    {
        let year = self.unsigned()?;
        let month = self.unsigned()?;
        let choice = Choice::try_from(self.unsigned()?).ok()?;
        Some(Command::New {
            year,
            month,
            choice,
        })
    }

    fn enrol(&mut self) -> Option<Command>
        ensures { Reads enrol self.old.rest.now result self.new.rest.now }
    {
        let number = self.unsigned()?;
        let kind = self.unsigned()?;
        let capacity = self.unsigned()?;
        Some(Command::Enrol {
            number,
            kind,
            capacity,
        })
    }

    fn meter(&mut self) -> Option<Command>
        ensures { Reads meter self.old.rest.now result self.new.rest.now }
    {
        let party = self.unsigned()?;
        let slot = self.unsigned()?;
        let power = self.signed()?;
        Some(Command::Read(Reading { party, slot, power }))
    }

    fn event(&mut self) -> Option<Command>
        ensures { Reads event self.old.rest.now result self.new.rest.now }
    {
        let party = self.unsigned()?;
        let service = self.unsigned()?;
        let slot = self.unsigned()?;
        let x = self.signed()?;
        let y = self.signed()?;
        Some(Command::Post(Event {
            party,
            service,
            slot,
            x,
            y,
        }))
    }

    fn answer(&mut self) -> Option<Command>
        ensures { Reads answer self.old.rest.now result self.new.rest.now }
    {
        let place = self.unsigned()?;
        let upheld = match self.unsigned()? {
            1 => true,
            0 => false,
            _ => return None,
        };
        Some(Command::Answer { place, upheld })
    }

    // What follows the letter.
    fn body(&mut self, letter: char) -> Option<Command>
        ensures { Reads (body letter) self.old.rest.now result self.new.rest.now }
    {
        match letter {
            'N' => self.new_month(),
            'E' => self.enrol(),
            'R' => self.meter(),
            'V' => self.event(),
            'F' => self.unsigned().map(Command::PayIn),
            'P' => Some(Command::Publish),
            'O' => self.unsigned().map(Command::Object),
            'A' => self.answer(),
            'T' => self.unsigned().map(Command::WhatIf),
            'Q' => self.unsigned().map(Command::AccountSums),
            'S' => Some(Command::Settle),
            _ => None,
        }
    }
}

// The command that `line` is a text of, if it is one's.
pub fn parse(line: &[u8]) -> Option<Command>
    ensures { Exactly result line.now }
{
    read_line(line)
}

fn read_line(line: &[u8]) -> Option<Command>
    ensures { result ≡ parsed line.now }
{
    if line.len() > MOST_BYTES {
        return None;
    }
    let (letter, rest) = line.split_first()?;
    let mut reader = Reader { rest };
    let command = reader.body(*letter as char)?;
    reader.rest.is_empty().then_some(command)
}
