// Months from January 2000 to December 2099, by their count: year × 12 + month − 1.
ghost use Rattle.std.specs.Prelude.{◌≡◌, ◌≤◌};
ghost use Rattle.rules.specs.Calendar.{days, slots, counted, following, month_of};

use crate::refusal::Refusal;

pub const FIRST_MONTH: u32 = 24_000;

pub const LAST_MONTH: u32 = 25_199;

const DAYS: [u32; 12] = [31, 28, 31, 30, 31, 30, 31, 31, 30, 31, 30, 31];

#[tactic(auto, unfolding(crate::specs::Calendar::days))]
pub fn days_in(count: u32) -> u32
    ensures days { result ≡ days count }
    ensures most { result ≤ 31 }
{
    let month = (count % 12) as usize;
    if month == 1 && count / 12 % 4 == 0 {
        29
    } else {
        DAYS[month]
    }
}

pub fn slots_in(count: u32) -> u32
    ensures slots { result ≡ slots count }
    ensures most { result ≤ 8928 }
{
    288 * days_in(count)
}

// The count of a month, or refusal 4 where it is none from January 2000 to December 2099.
pub fn month_count(year: u32, month: u32) -> Result<u32, Refusal>
    ensures { result ≡ counted year month }
{
    if (2000..=2099).contains(&year) && (1..=12).contains(&month) {
        Ok(year * 12 + month - 1)
    } else {
        Err(Refusal::OutOfRange)
    }
}

// The month of the year, 1 to 12.
pub fn month_of(count: u32) -> u32
    ensures { result ≡ month_of count }
{
    count % 12 + 1
}

// The following month, or refusal 18 after December 2099.
pub fn following(count: u32) -> Result<u32, Refusal>
    ensures { result ≡ following count }
{
    if count < LAST_MONTH {
        Ok(count + 1)
    } else {
        Err(Refusal::CalendarEnd)
    }
}
