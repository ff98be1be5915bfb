//! Days of the calendar as `YYYY-MM-DD`, and their digits.

ghost use Rattle.std.specs.Prelude.{◌≡◌, ◌+◌, ◌<◌, ◌≤◌, ◌*◌, length, IsTrue};
ghost use Rattle.vx_election_model.specs.Dates.{are_digits, number_at, has_date_form, is_calendar_day, is_date};

use jiff::civil::Date;

/// Whether two decimal digits stand at a place.
pub fn are_digits(text: &[u8], at: usize) -> bool
    requires { at + 1 < length text.now }
    ensures { result ≡ are_digits text.now at }
{
    text[at].is_ascii_digit() && text[at + 1].is_ascii_digit()
}

/// The number that two decimal digits at a place spell.
pub fn number_at(text: &[u8], at: usize) -> u32
    requires room { at + 1 < length text.now }
    requires digits { IsTrue (are_digits text.now at) }
    ensures value { result ≡ number_at text.now at }
    ensures small { result ≤ 99 }
{
    10 * u32::from(text[at] - b'0') + u32::from(text[at + 1] - b'0')
}

fn has_date_form(text: &[u8]) -> bool
    ensures { result ≡ has_date_form text.now }
{
    text.len() == 10
        && are_digits(text, 0)
        && are_digits(text, 2)
        && text[4] == b'-'
        && are_digits(text, 5)
        && text[7] == b'-'
        && are_digits(text, 8)
}

fn is_calendar_day(year: u32, month: u32, day: u32) -> bool
    requires year { year ≤ 9999 }
    requires month { month ≤ 99 }
    requires day { day ≤ 99 }
    ensures { result ≡ is_calendar_day year month day }
{
    Date::new(year as i16, month as i8, day as i8).is_ok()
}

/// Whether a text is a day of the calendar, written `YYYY-MM-DD`.
#[tactic(auto, unfolding(crate::specs::Dates::is_date))]
pub fn is_date(text: &[u8]) -> bool
    ensures { result ≡ is_date text.now }
{
    if !has_date_form(text) {
        return false;
    }
    let year = 100 * number_at(text, 0) + number_at(text, 2);
    is_calendar_day(year, number_at(text, 5), number_at(text, 8))
}
