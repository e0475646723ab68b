ghost use Rattle.std.specs.Prelude.{◌≡◌, ℕ, ◌+◌, ◌*◌, ◌<◌, ◌≤◌, ◌++◌, length, IfOk, IfErr};
ghost use Rattle.std.specs.Prelude.{OnOk, OnErr};
ghost use Rattle.std.specs.Str.Parse.{IsNumeral, digits_value};
ghost use Rattle.twp_measure.specs.LengthTexts.{fraction_of, place_of_point};

use crate::numeral::{digit, is_numeral, numeral_value};
use itoa::write_digits;
use std::alloc::AllocError;
use std::marker::Model;
use thiserror::Error;

/// The length of a survey line in thousandths of a chain, 0 to 99,999 (this project's rule). A
/// chain is 66 feet or 100 links, and 80 chains are a mile. The default is 0.
#[derive(Clone, Copy, Default, PartialEq, Eq)]
pub struct Length {
    thousandths: u32,
}

impl Model for Length {
    ghost use Rattle.std.specs.Prelude.{ℕ};
    ghost use Rattle.twp_measure.specs.LengthTexts.{IsLength};

    ghost Value = { ℕ };

    ghost view = { λ line. line.thousandths };

    ghost invariant = { λ line. IsLength line.thousandths };

    ghost inverse = { λ n. record { thousandths = n } };
}

/// Why a text is not a length. Of several faults, the first in this order is reported.
#[derive(Clone, Copy, Debug, PartialEq, Eq, Error)]
pub enum LengthFault {
    /// The text is empty.
    #[error("a length is empty")]
    Empty,
    /// A byte is neither a digit nor the first point, or one side of the point has no digit.
    #[error("a length is no decimal number")]
    BadDigit,
    /// There are more than three digits after the point.
    #[error("a length has more than three decimals")]
    TooManyPlaces,
    /// There are more than two digits before the point.
    #[error("a length has more than two digits before its point")]
    TooLong,
}

/// The byte between whole chains and their decimals.
const POINT: u8 = b'.';

impl Length {
    ghost use Rattle.twp_measure.specs.LengthTexts.{IsLength, IsLengthText, length_text};
    ghost use Rattle.twp_measure.specs.LengthFaults.{IsFirstLengthFault};

    /// Reads chains as a decimal number, such as `80` or `19.575`: one or two digits, and
    /// optionally a point with one to three digits (this project's rule for field notes).
    pub fn read(text: &[u8]) -> Result<Length, LengthFault>
        ensures taken { (v : ℕ) → IsLengthText text.now v → result ≡ Ok v }
        ensures value { IfOk result (IsLengthText text.now) }
        ensures fault { IfErr result (IsFirstLengthFault text.now) }
    {
        if text.is_empty() {
            return Err(LengthFault::Empty);
        }
        let at = point_place(text);
        let whole = &text[..at];
        if !is_numeral(whole) {
            return Err(LengthFault::BadDigit);
        }
        if at == text.len() {
            return Length::of_whole(whole);
        }
        let decimals = &text[at + 1..];
        if !is_numeral(decimals) {
            return Err(LengthFault::BadDigit);
        }
        if decimals.len() > 3 {
            return Err(LengthFault::TooManyPlaces);
        }
        let chains = Length::of_whole(whole)?;
        Ok(Length {
            thousandths: chains.thousandths + fraction(decimals),
        })
    }

    /// The whole chains that these digits spell.
    fn of_whole(digits: &[u8]) -> Result<Length, LengthFault>
        requires { IsNumeral 10 digits.now }
        ensures ok { IfOk result (λ line. (length digits.now ≤ 2)
            × (line ≡ 1000 * digits_value 10 digits.now)) }
        ensures err { IfErr result (λ fault.
            (2 < length digits.now) × (fault ≡ LengthFault.TooLong)) }
    {
        if digits.len() > 2 {
            return Err(LengthFault::TooLong);
        }
        Ok(Length {
            thousandths: 1000 * numeral_value(digits),
        })
    }

    /// The length in thousandths of a chain.
    pub fn thousandths(self) -> u32
        ensures value { result ≡ self }
        ensures range { IsLength result }
    {
        self.thousandths
    }

    /// Appends the chains with two decimals, or with three if the third is not 0, such as `80.00`
    /// and `19.575`. If memory runs out, the vector is unchanged.
    pub fn write(self, out: &mut Vec<u8>) -> Result<(), AllocError>
        ensures ok { OnOk result (out.new.items ≡ out.old.items ++ length_text self) }
        ensures err { OnErr result (out.new.items ≡ out.old.items) }
    {
        let Length { thousandths } = self;
        let mut text = [POINT; 6];
        text[3] = digit(thousandths / 100);
        text[4] = digit(thousandths / 10);
        text[5] = digit(thousandths);
        let start = write_digits(u64::from(thousandths / 1000), &mut text, 2);
        let end = if thousandths % 10 == 0 { 5 } else { 6 };
        out.extend_from_slice(&text[start..end])
    }
}

/// The index of the first point, or the text's length if there is none.
fn point_place(text: &[u8]) -> usize
    ensures { result ≡ place_of_point text.now }
{
    text.iter().take_while(|byte| **byte != POINT).count()
}

/// One to three decimals of a chain, in thousandths.
fn fraction(decimals: &[u8]) -> u32
    requires digits { IsNumeral 10 decimals.now }
    requires few { length decimals.now ≤ 3 }
    ensures value { result ≡ fraction_of decimals.now }
    ensures range { result < 1000 }
{
    let value = numeral_value(decimals);
    match decimals.len() {
        1 => 100 * value,
        2 => 10 * value,
        _ => value,
    }
}
