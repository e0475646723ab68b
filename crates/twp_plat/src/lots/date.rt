//! The date of a plat's approval.
ghost use Rattle.std.specs.Prelude.{◌≡◌, ◌<◌, IfSome, length};
ghost use Rattle.std.specs.Option.{SomeIff};
ghost use Rattle.std.specs.Str.Parse.{IsNumeral, digits_value};
ghost use Rattle.twp_grid.specs.Finding.{Finds};
ghost use Rattle.twp_plat.specs.LotDates.{IsDateText, IsDay, date_number, days_of, is_leap_year};

use twp_measure::{is_numeral, numeral_value};

/// The byte between the year, the month, and the day.
const DASH: u8 = b'-';

/// The date that a text spells, `YYYY-MM-DD`, as a number.
pub(crate) fn date_of(text: &[u8]) -> Option<u32>
    ensures { Finds result (IsDateText text.now) }
{
    if text.len() != 10 || text[4] != DASH || text[7] != DASH {
        return None;
    }
    let century = two_digits(&text[..2])?;
    let years = two_digits(&text[2..4])?;
    let month = two_digits(&text[5..7])?;
    let day = two_digits(&text[8..10])?;
    number_of(100 * century + years, month, day)
}

/// The number that two digits spell.
fn two_digits(text: &[u8]) -> Option<u32>
    requires { length text.now ≡ 2 }
    ensures value { SomeIff result (IsNumeral 10 text.now) (digits_value 10 text.now) }
    ensures most { IfSome result (λ value. value < 100) }
{
    if !is_numeral(text) {
        return None;
    }
    Some(numeral_value(text))
}

/// The number of a date, if there is such a day.
fn number_of(year: u32, month: u32, day: u32) -> Option<u32>
    requires { year < 10000 }
    ensures { SomeIff result (IsDay year month day) (date_number year month day) }
{
    if year == 0 || month == 0 || month > 12 || day == 0 || day > days_of(year, month) {
        return None;
    }
    Some(10_000 * year + 100 * month + day)
}

/// How many days a month of a year has.
fn days_of(year: u32, month: u32) -> u32
    ensures { result ≡ days_of year month }
{
    if month == 2 {
        return if is_leap_year(year) { 29 } else { 28 };
    }
    if month == 4 || month == 6 || month == 9 || month == 11 {
        return 30;
    }
    31
}

/// Whether a year has a day more, in the Gregorian calendar.
fn is_leap_year(year: u32) -> bool
    ensures { result ≡ is_leap_year year }
{
    year % 4 == 0 && (year % 100 != 0 || year % 400 == 0)
}
