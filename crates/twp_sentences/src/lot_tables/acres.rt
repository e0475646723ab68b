//! What is written in place of an acreage.
use std::alloc::AllocError;
use twp_diagnose::{is_short_number, write_quoted};

/// The most digits before the decimal point of an acreage, and those after it.
const WHOLE: usize = 3;

const DECIMALS: usize = 2;

/// The most digits of a number that is looked at.
const DIGITS: usize = 12;

/// A decimal number: the digits before its point, and those after it.
#[derive(Clone, Copy)]
struct DecimalText<'a> {
    whole: &'a [u8],
    decimals: &'a [u8],
}

impl<'a> DecimalText<'a> {
    /// The number that a text is, with or without a point.
    fn of(text: &'a [u8]) -> Option<DecimalText<'a>> {
        let before = text.iter().take_while(|byte| **byte != b'.').count();
        let whole = text.get(..before).unwrap_or(b"");
        let decimals = text.get(before.saturating_add(1)..).unwrap_or(b"");
        if !is_digits(whole) || !is_digits(decimals) || (whole.is_empty() && decimals.is_empty()) {
            return None;
        }
        Some(DecimalText { whole, decimals })
    }

    /// Whether it is 0.
    fn is_zero(self) -> bool {
        are_zeros(self.whole) && are_zeros(self.decimals)
    }

    /// Whether it has more digits before its point than an acreage, apart from zeros.
    fn is_large(self) -> bool {
        let zeros = self.whole.iter().take_while(|byte| **byte == b'0').count();
        self.whole.len().saturating_sub(zeros) > WHOLE
    }

    /// Whether the same number is an acreage if it has two decimals: it is short, and lacks zeros, or
    /// ends with more of them.
    fn is_padded_acreage(self) -> bool {
        let more = self.decimals.get(DECIMALS..).unwrap_or(b"");
        self.whole.len() <= WHOLE && !self.is_zero() && are_zeros(more)
    }
}

/// Whether a text is nothing but digits, and few of them.
fn is_digits(text: &[u8]) -> bool {
    text.is_empty() || is_short_number(text, DIGITS)
}

/// Whether each byte is the digit 0.
fn are_zeros(digits: &[u8]) -> bool {
    digits.iter().all(|digit| *digit == b'0')
}

/// Appends that a text is no acreage.
pub(crate) fn write_acres_fault(text: &[u8], out: &mut String) -> Result<(), AllocError> {
    if text.is_empty() {
        return out.push_str("the acreage is missing");
    }
    write_quoted(text, out)?;
    out.push_str(match DecimalText::of(text) {
        Some(number) if number.is_zero() => " is not an acreage: the smallest is 0.01",
        Some(number) if number.is_large() => " is too large for an acreage: the largest is 999.99",
        _ => " is not an acreage: write 0.01 to 999.99, with two decimals, as in `40.45`",
    })
}

/// Appends how an acreage is written with two decimals, if a text is one with other decimals, and returns
/// whether it is one.
pub(crate) fn write_two_decimals(text: &[u8], out: &mut String) -> Result<bool, AllocError> {
    let Some(number) = DecimalText::of(text) else {
        return Ok(false);
    };
    if !number.is_padded_acreage() {
        return Ok(false);
    }
    out.push_str("write `")?;
    write_digits(number.whole, out)?;
    if number.whole.is_empty() {
        out.push_str("0")?;
    }
    out.push_str(".")?;
    let given = number.decimals.len().min(DECIMALS);
    write_digits(number.decimals.get(..given).unwrap_or(b""), out)?;
    out.push_str(match given {
        0 => "00`",
        1 => "0`",
        _ => "`",
    })?;
    Ok(true)
}

/// Appends digits.
fn write_digits(digits: &[u8], out: &mut String) -> Result<(), AllocError> {
    for digit in digits {
        out.push(char::from(*digit))?;
    }
    Ok(())
}
