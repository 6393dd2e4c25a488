// One call for any command, in any state of the book.
ghost use Rattle.std.specs.Prelude.{◌≡◌, ℕ, List, length, Err, MatchResult, IsOkAnd};
ghost use Rattle.std.specs.Result.{ForOk};
ghost use Rattle.book.specs.declared.answer.Denial.TheVariants.{Refused};
ghost use Rattle.settlement.specs.Book.{no_book, in_month, published};
ghost use Rattle.settlement.specs.Lent.{book_of, room_of};
ghost use Rattle.book.specs.Serving.{state_of, Served, Carries, MemoryLeft, SheetLeft};
ghost use Rattle.rules.specs.Answers.{Rulebook};
ghost use Rattle.billing.specs.declared.bill.Bill.{Bill};

use crate::answer::{Answer, Denial, Reply};
use crate::call::Call;
use crate::stage::Stage;
use billing::bill::Bill;
use rules::refusal::Refusal;
use rules::rule::Rule;
use settlement::memory::Memory;
use settlement::month::{OpenMonth, PublishedMonth};

// The answer to a call that the state allows: what it gives, as a reply, or its refusal.
fn answered<A, F: FnOnce(A) -> Reply>(outcome: Result<A, Refusal>, reply: F) -> Answer
    requires { ForOk outcome (F.pre reply) }
    ensures { MatchResult outcome (λ a. IsOkAnd result (F.post reply a)) (λ e. result ≡ Err (Refused e)) }
{
    outcome.map(reply).map_err(Denial::Refused)
}

fn in_no_book(memory: &mut Memory, call: Call) -> (Stage, Answer)
    ensures served { (means : Rulebook) (rows : ℕ) (sheet : List Bill) → Served means (room_of rows memory.old) no_book call result.1 sheet (state_of result.0 memory.new) }
    ensures left { MemoryLeft result.1 (state_of result.0 memory.new) memory.old memory.new }
{
    let Call::New { year, month } = call else {
        return (Stage::NoBook, Err(Denial::Misplaced));
    };
    match OpenMonth::new(memory, year, month) {
        Ok(open) => (Stage::Open(open), Ok(Reply::Done)),
        Err(refusal) => (Stage::NoBook, Err(Denial::Refused(refusal))),
    }
}

fn in_open<P: Rule>(
    mut month: OpenMonth,
    memory: &mut Memory,
    rulebook: &P,
    call: Call,
) -> (Stage, Answer)
    ensures served { (rows : ℕ) (sheet : List Bill) → Served (P.meaning rulebook.now) (room_of rows memory.old) (in_month (book_of month memory.old)) call result.1 sheet (state_of result.0 memory.new) }
    ensures left { MemoryLeft result.1 (state_of result.0 memory.new) memory.old memory.new }
{
    let answer = match call {
        Call::Enrol {
            number,
            kind,
            capacity,
        } => answered(
            month.enrol(memory, number, kind, capacity),
            |()| Reply::Done,
        ),
        Call::Read(reading) => answered(month.read(memory, &reading), |()| Reply::Done),
        Call::Post(event) => answered(month.post(memory, rulebook, &event), Reply::Posted),
        Call::PayIn(amount) => answered(month.pay_in(memory, amount), Reply::Placed),
        Call::AccountSums(party) => {
            answered(month.account_sums(memory, rulebook, party), Reply::Sums)
        }
        Call::Publish => return (Stage::Published(month.publish()), Ok(Reply::Done)),
        _ => Err(Denial::Misplaced),
    };
    (Stage::Open(month), answer)
}

// kept: memory, sheet and rulebook are lent to each call, and may be others at the next, here and in `serve`
fn in_published<P: Rule>(
    month: PublishedMonth,
    memory: &mut Memory,
    sheet: &mut [Bill],
    rulebook: &P,
    call: Call,
) -> (Stage, Answer)
    ensures served { Served (P.meaning rulebook.now) (room_of (length sheet.old) memory.old) (published (book_of month memory.old)) call result.1 sheet.new (state_of result.0 memory.new) }
    ensures left { MemoryLeft result.1 (state_of result.0 memory.new) memory.old memory.new }
    ensures sheet { SheetLeft result.1 sheet.old sheet.new }
{
    let answer = match call {
        Call::Object(place) => answered(month.object(memory, place), |()| Reply::Done),
        Call::Answer { place, upheld } => {
            answered(
                month.answer(memory, rulebook, place, upheld),
                |()| Reply::Done,
            )
        }
        Call::WhatIf(place) => answered(month.what_if(memory, rulebook, place), Reply::Sums),
        Call::AccountSums(party) => {
            answered(month.account_sums(memory, rulebook, party), Reply::Sums)
        }
        Call::Settle => {
            return match month.settle(memory, sheet) {
                Ok(settled) => (
                    Stage::Open(settled.month),
                    Ok(Reply::Settled(settled.tally)),
                ),
                Err(kept) => (
                    Stage::Published(kept.month),
                    Err(Denial::Refused(kept.refusal)),
                ),
            };
        }
        _ => Err(Denial::Misplaced),
    };
    (Stage::Published(month), answer)
}

// Whatever run led here, the call makes a longer run, and a lawful one. Where the state does not allow the call, nothing changes.
pub fn serve<P: Rule>(
    stage: Stage,
    memory: &mut Memory,
    sheet: &mut [Bill],
    rulebook: &P,
    call: Call,
) -> (Stage, Answer)
    ensures carries { Carries (P.meaning rulebook.now) (room_of (length sheet.old) memory.old) (state_of stage memory.old) call result.1 sheet.new (state_of result.0 memory.new) }
    ensures left { MemoryLeft result.1 (state_of result.0 memory.new) memory.old memory.new }
    ensures sheet { SheetLeft result.1 sheet.old sheet.new }
{
    match stage {
        Stage::NoBook => in_no_book(memory, call),
        Stage::Open(month) => in_open(month, memory, rulebook, call),
        Stage::Published(month) => in_published(month, memory, sheet, rulebook, call),
    }
}
