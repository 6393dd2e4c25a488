// The text of an answer, on a page.
ghost use Rattle.std.specs.Prelude.{◌≡◌, [], ◌∷◌, ◌++◌, Ok};
ghost use Rattle.book.specs.declared.answer.Reply.TheVariants.{Settled};
ghost use Rattle.console.specs.Answers.{net, sums, line, lines, text, Printed};
ghost use Rattle.console.specs.Pages.{Wrote};

use crate::page::{NoRoom, Page};
use billing::bill::Bill;
use book::answer::{Answer, Reply};
use rules::refusal::Refusal;
use settlement::settlement::Tally;

// Numbers, each after a space.
fn write_numbers(page: &mut Page, numbers: &[u64]) -> Result<(), NoRoom>
    ensures { Wrote (sums numbers.now) page.old result page.new }
{
    for n in numbers {
        page.byte(b' ')?;
        page.unsigned(*n)?;
    }
    Ok(())
}

// A word, and numbers after it, on a line.
fn write_line(page: &mut Page, word: &[u8], numbers: &[u64]) -> Result<(), NoRoom>
    ensures { Wrote (word.now ++ (sums numbers.now ++ (10 ∷ []))) page.old result page.new }
{
    page.text(word)?;
    write_numbers(page, numbers)?;
    page.byte(b'\n')
}

// A space and a number that may be below zero.
fn write_net(page: &mut Page, n: i64) -> Result<(), NoRoom>
    ensures { Wrote (net n) page.old result page.new }
{
    page.byte(b' ')?;
    page.signed(n)
}

// A bill's line.
fn write_bill(page: &mut Page, bill: &Bill) -> Result<(), NoRoom>
    ensures { Wrote (line bill.now) page.old result page.new }
{
    page.unsigned(u64::from(bill.number))?;
    write_numbers(
        page,
        &[
            bill.charge,
            bill.pay,
            bill.first,
            bill.second,
            bill.third,
            bill.returned,
        ],
    )?;
    write_net(page, bill.net)?;
    page.byte(b'\n')
}

// The lines of bills.
fn write_bills(page: &mut Page, bills: &[Bill]) -> Result<(), NoRoom>
    ensures { Wrote (lines bills.now) page.old result page.new }
{
    for bill in bills {
        write_bill(page, bill)?;
    }
    Ok(())
}

// The tally of a settling, and its bills, which are the first rows of the sheet.
fn write_settled(page: &mut Page, tally: &Tally, sheet: &[Bill]) -> Result<(), NoRoom>
    ensures { Wrote (text (Ok (Settled tally.now)) sheet.now) page.old result page.new }
{
    write_line(page, b"ok", &[u64::from(tally.rows), tally.left])?;
    let rows = (tally.rows as usize).min(sheet.len());
    write_bills(page, &sheet[..rows])
}

fn write_answer(page: &mut Page, answer: &Answer, sheet: &[Bill]) -> Result<(), NoRoom>
    ensures { Wrote (text answer.now sheet.now) page.old result page.new }
{
    match answer {
        Ok(Reply::Done) => page.text(b"ok\n"),
        Ok(Reply::Placed(place)) => write_line(page, b"ok", &[u64::from(*place)]),
        Ok(Reply::Posted(posted)) => write_line(
            page,
            b"ok",
            &[
                u64::from(posted.place),
                usize::from(posted.account) as u64,
                u64::from(posted.amount),
            ],
        ),
        Ok(Reply::Sums(numbers)) => write_line(page, b"ok", numbers),
        Ok(Reply::Settled(tally)) => write_settled(page, tally, sheet),
        Err(denial) => {
            let refusal = Refusal::from(*denial);
            write_line(page, b"no", &[u64::from(u32::from(refusal))])
        }
    }
}

// Writes the text of the answer to the front of the page, and gives its length; none if it has no room there.
pub fn print(answer: &Answer, sheet: &[Bill], bytes: &mut [u8]) -> Option<usize>
    ensures { Printed (text answer.now sheet.now) bytes.old result bytes.new }
{
    let mut page = Page {
        bytes,
        used: 0,
        full: false,
    };
    write_answer(&mut page, answer, sheet).ok()?;
    Some(page.used)
}
