// The one division by which amounts are made: no rule divides otherwise.
ghost use Rattle.std.specs.Prelude.{◌≡◌};
ghost use Rattle.rules.specs.Division.{quotient, Laws};

// A whole by a divisor, without its fraction; by 0 it is 0.
#[tactic(auto, unfolding(crate::specs::Division::quotient))]
pub fn quotient(whole: u64, by: u64) -> u64
    ensures { result ≡ quotient whole by }
{
    whole.checked_div(by).unwrap_or(0)
}

// Nothing to do when it runs: its contract is the laws.
pub fn laws_of_division()
    ensures { Laws }
{}
