// What the book answers to a call: a reply, or why there is none.
use rules::refusal::Refusal;
use settlement::posted::Posted;
use settlement::settlement::Tally;

// What an accepted call gives.
#[derive(Clone, Copy, Debug, PartialEq, Eq)]
pub enum Reply {
    Done,
    // the place of the journal's word
    Placed(u32),
    Posted(Posted),
    Sums([u64; 4]),
    // the bills are the first rows of the sheet
    Settled(Tally),
}

// Why a call has no reply: the state of the book does not allow it, or it is refused.
#[derive(Clone, Copy, Debug, PartialEq, Eq)]
pub enum Denial {
    Misplaced,
    Refused(Refusal),
}

// A misplaced call is refused with 22 where a refusal is asked for.
impl From<Denial> for Refusal {
    ghost use Rattle.std.specs.Prelude.{◌≡◌};
    ghost use Rattle.book.specs.Entries.{refusal_of};

    ghost from_gives = { λ denial refusal. refusal ≡ refusal_of denial };

    fn from(denial: Denial) -> Refusal {
        match denial {
            Denial::Misplaced => Refusal::WrongState,
            Denial::Refused(refusal) => refusal,
        }
    }
}

pub type Answer = Result<Reply, Denial>;
