//! Numbers of acres of whose digits scanning made letters: `4O acres`, `l57.2O acres`.

use crate::pieces::{Pieces, plus};
use twp_grammar::Kind;
use twp_words::is_acres;

/// The most pieces of such a number.
const PIECES_MOST: usize = 12;

impl<'a> Pieces<'a> {
    /// The value of the number at an index of whose digits scanning made letters, in hundredths,
    /// and the index after it.
    pub fn worn_figure(&self, index: usize) -> Option<(u64, usize)> {
        let end = self.end_of_worn_figure(index)?;
        let bytes = self.text.get(self.start(index)..self.end_before(end));
        Some((hundredths_of(bytes.unwrap_or(b""))?, end))
    }

    /// Where the number at an index ends of whose digits scanning made letters, before the unit of
    /// acreage, as in `l57.2O acres`.
    pub fn end_of_worn_figure(&self, index: usize) -> Option<usize> {
        // Most numbers have white space after them.
        if !self.is_joined(plus(index, 1)) {
            return None;
        }
        let mut has_digit = false;
        let mut has_letter = false;
        let mut end = index;
        for place in index..plus(index, PIECES_MOST) {
            let is_number = matches!(self.kind(place), Kind::Number(_) | Kind::BadNumber);
            let is_letter = is_worn_digits(self.lower(place));
            let is_mark = self.is(place, b".") && place > index;
            if !(is_number || is_letter || is_mark) || (place > index && !self.is_joined(place)) {
                break;
            }
            has_digit = has_digit || is_number;
            has_letter = has_letter || is_letter;
            end = plus(place, 1);
        }
        if !has_digit || !has_letter {
            return None;
        }
        let is_unit = is_acres(self.lower(end))
            || (self.is(end, b"a") && plus(end, 1) >= self.len());
        if is_unit { Some(end) } else { None }
    }
}

/// The value of digits, or of the letters that scanning makes of them, in hundredths. Further
/// decimals don't count.
fn hundredths_of(bytes: &[u8]) -> Option<u64> {
    let mut value: u64 = 0;
    let mut decimals: usize = 0;
    let mut has_point = false;
    for byte in bytes {
        let digit: u64 = match *byte {
            b'0'..=b'9' => u64::from(*byte - b'0'),
            b'l' | b'L' | b'i' | b'I' => 1,
            b'o' | b'O' => 0,
            b'.' => {
                has_point = true;
                continue;
            }
            _ => return None,
        };
        if decimals < 2 {
            value = value.checked_mul(10)?.checked_add(digit)?;
            decimals = plus(decimals, usize::from(has_point));
        }
    }
    for _ in decimals..2 {
        value = value.checked_mul(10)?;
    }
    Some(value)
}

/// Whether a word consists of the letters that scanning makes of a 1 or a 0.
fn is_worn_digits(word: &[u8]) -> bool {
    for byte in word {
        if !matches!(*byte, b'l' | b'i' | b'o') {
            return false;
        }
    }
    !word.is_empty()
}
