// The sharing of a pool by weight: each party's share is the step of what has been given.
ghost use Rattle.std.specs.Prelude.{◌≡◌, ◌+◌, ◌≤◌, [], ◌∷◌, length, IfOk, if◌then◌else◌, Ok, Err, OnOk};
ghost use Rattle.rules.specs.declared.refusal.Refusal.TheVariants.{OutOfRange};
ghost use Rattle.billing.specs.Giving.{too_heavy, ShareOut};
ghost use Rattle.billing.specs.Sharing.{part, step, total, shares_from, shares, Fair};

use crate::party::MOST_PARTIES;
use crate::sums::MOST_SUM;
use rules::refusal::Refusal;

// What one party may weigh: 4,000,000 kW through a month of 8,928 slots.
const MOST_WEIGHT: u32 = 2_976_000;

// A sharing in progress: the parties that have taken their part have the weight `passed` of the `whole`.
#[derive(Drop)]
struct Sharing {
    pool: u64,
    whole: u64,
    passed: u64,
    given: u64,
    ghost bounded: { (pool ≤ 40_000_000_000) × (whole ≤ 190_464_000) × (passed ≤ whole) },
    ghost tied: { given ≡ part pool whole passed },
}

impl Sharing {
    fn over(pool: u64, whole: u64) -> Sharing
        requires { (pool ≤ 40_000_000_000) × (whole ≤ 190_464_000) }
        ensures { (result.pool ≡ pool) × (result.whole ≡ whole) × (result.passed ≡ 0) }
    {
        Sharing {
            pool,
            whole,
            passed: 0,
            given: 0,
        }
    }

    // The share of the next party.
    fn next(&mut self, weight: u32) -> u64
        requires { self.old.passed + weight ≤ self.old.whole }
        ensures share { result ≡ step self.old.pool self.old.whole self.old.passed weight }
        ensures pool { self.new.pool ≡ self.old.pool }
        ensures whole { self.new.whole ≡ self.old.whole }
        ensures passed { self.new.passed ≡ self.old.passed + weight }
    {
        if weight == 0 {
            return 0;
        }
        let passed = self.passed + weight as u64;
        let given = self.pool * passed / self.whole;
        let share = given - self.given;
        self.passed = passed;
        self.given = given;
        share
    }

    // Writes the share of each weight.
    fn give(mut self, weights: &[u32], shares: &mut [u64])
        requires long { length shares.old ≡ length weights.now }
        requires whole { self.passed + total weights.now ≡ self.whole }
        ensures { shares.new ≡ shares_from self.pool self.whole self.passed weights.now }
    {
        // kept: a `for` over `iter_mut()` beside a second iterator is no plainer, and of shares written through `zip` a proof knows none
        for (i, weight) in weights.iter().enumerate() {
            shares[i] = self.next(*weight);
        }
    }
}

// The weights together, if none is above that of one party.
fn whole_weight(weights: &[u32]) -> Result<u64, Refusal>
    requires { length weights.now ≤ 64 }
    ensures whole { result ≡ (if too_heavy weights.now then Err OutOfRange else Ok (total weights.now)) }
    ensures most { IfOk result (λ whole. whole ≤ 190_464_000) }
{
    let mut whole = 0;
    // kept: one pass that tests and adds; `any` and then `sum` are two
    for weight in weights {
        if *weight > MOST_WEIGHT {
            return Err(Refusal::OutOfRange);
        }
        whole += *weight as u64;
    }
    Ok(whole)
}

// Shares a pool out over weights, in their order. What is out of range or has no weight to go by is refused, and nothing changes.
pub fn share_out(pool: u64, weights: &[u32], shares: &mut [u64]) -> Result<(), Refusal>
    ensures shares { ShareOut pool weights.now shares.old result shares.new }
    ensures fair { OnOk result (Fair pool weights.now shares.new) }
{
    if pool > MOST_SUM || weights.len() != shares.len() || shares.len() > MOST_PARTIES {
        return Err(Refusal::OutOfRange);
    }
    let whole = whole_weight(weights)?;
    if pool > 0 && whole == 0 {
        return Err(Refusal::NoWeight);
    }
    Sharing::over(pool, whole).give(weights, shares);
    Ok(())
}

// 100 fen over three equal weights: the odd fen falls to the last.
pub fn hundred_in_three() -> [u64; 3]
    ensures shares { result ≡ shares 100 (1 ∷ 1 ∷ 1 ∷ []) }
    ensures figures { result ≡ 33 ∷ 33 ∷ 34 ∷ [] }
{
    let mut thirds = [0; 3];
    let _ = share_out(100, &[1, 1, 1], &mut thirds);
    thirds
}
