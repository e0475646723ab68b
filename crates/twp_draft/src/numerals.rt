//! Numbers in digits and in words.

use crate::draft::Draft;
use twp_asides::{plus, tens_of, value_of_count};
use twp_grammar::Kind;
use twp_rules::Rule;

/// The numbers of one digit.
const ONE_DIGIT: &[u8] = b"123456789";

/// The numbers from ten to twenty.
const TWO_DIGITS: &[u8] = b"1011121314151617181920";

/// A number: its value, and the pieces for it.
#[derive(Clone, Copy)]
pub struct WrittenNumber {
    pub value: u16,
    /// The index of the first piece.
    pub first: usize,
    /// The index of the last piece.
    pub last: usize,
    /// The index after what names the number, and repeats it in parentheses.
    pub end: usize,
}

/// The number that one piece at an index is.
fn one_piece(index: usize, value: u16) -> WrittenNumber {
    WrittenNumber {
        value,
        first: index,
        last: index,
        end: plus(index, 1),
    }
}

/// The value of a word for a number up to twenty, or for thirty, in lowercase.
fn value_of_word(word: &[u8]) -> Option<u16> {
    match value_of_count(word)? {
        value @ (1..=20 | 30) => Some(value as u16),
        _ => None,
    }
}

/// The digits of a word for a number up to twenty, or for thirty, in lowercase.
fn digits_of(word: &[u8]) -> Option<&'static [u8]> {
    let value = value_of_count(word)? as usize;
    match value {
        1..=9 => ONE_DIGIT.get(value - 1..value),
        10..=20 => TWO_DIGITS.get(2 * (value - 10)..2 * (value - 10) + 2),
        30 => Some(b"30"),
        _ => None,
    }
}

impl<'a> Draft<'a> {
    /// The number at an index, in digits or in words. What repeats it in parentheses is part of it.
    pub fn numeral(&self, index: usize) -> Option<WrittenNumber> {
        let pieces = &self.pieces;
        let next = plus(index, 1);
        let found = match pieces.kind(index) {
            // Most numbers are not joined to what follows, which isn't in parentheses.
            Kind::Number(value)
                if pieces.size(index) <= 3 && !pieces.is_joined(next) && !pieces.is(next, b"(") => {
                return Some(one_piece(index, value));
            }
            Kind::Number(value) if pieces.size(index) <= 3 => one_piece(index, value),
            Kind::Other => match self.damaged_digit(index).or(self.damaged_number(index)) {
                Some(value) => one_piece(index, value),
                None => self.numeral_in_words(index)?,
            },
            _ => return None,
        };
        let found = self.with_damaged_digit(found);
        let end = found.end;
        let is_repeated = pieces.is(end, b"(")
            && pieces.number(plus(end, 1)) == Some(found.value)
            && pieces.is(plus(end, 2), b")");
        Some(WrittenNumber {
            end: if is_repeated { plus(end, 3) } else { end },
            ..found
        })
    }

    /// The digit that scanning makes a letter of, at an index: `l` and `I` are 1, and `O` is 0.
    fn damaged_digit(&self, index: usize) -> Option<u16> {
        if self.pieces.size(index) != 1 {
            return None;
        }
        match self.pieces.bytes(index) {
            b"l" | b"I" => Some(1),
            b"O" => Some(0),
            _ => None,
        }
    }

    /// The number of two digits that scanning makes letters of, at an index. `II` may be 2.
    fn damaged_number(&self, index: usize) -> Option<u16> {
        match self.pieces.bytes(index) {
            b"ll" | b"lI" | b"Il" => Some(11),
            b"lO" | b"IO" => Some(10),
            _ => None,
        }
    }

    /// What is written for the letters at an index that scanning makes of digits.
    fn mended(&self, index: usize) -> Option<&'static [u8]> {
        match (self.damaged_digit(index), self.damaged_number(index)) {
            (Some(0), _) => Some(b"0"),
            (Some(_), _) => Some(b"1"),
            (None, Some(10)) => Some(b"10"),
            (None, Some(_)) => Some(b"11"),
            (None, None) => None,
        }
    }

    /// A number of one digit with another after it, one of which is a letter.
    fn with_damaged_digit(&self, number: WrittenNumber) -> WrittenNumber {
        let pieces = &self.pieces;
        let next = number.end;
        if number.value > 9 || pieces.size(number.first) != 1 || !pieces.is_joined(next) {
            return number;
        }
        let digit = match pieces.number(next) {
            Some(value) if pieces.has_digits(next, 1) => Some(value),
            Some(_) => None,
            None => self.damaged_digit(next),
        };
        let Some(digit @ 0..=9) = digit else {
            return number;
        };
        WrittenNumber {
            value: number.value * 10 + digit,
            last: next,
            end: plus(next, 1),
            ..number
        }
    }

    /// The number at an index that is written in words.
    fn numeral_in_words(&self, index: usize) -> Option<WrittenNumber> {
        let pieces = &self.pieces;
        let word = pieces.lower(index);
        let value = value_of_word(word)?;
        if tens_of(word).is_none() {
            return Some(one_piece(index, value));
        }
        let mut next = plus(index, 1);
        if pieces.is(next, b"-") {
            next = plus(next, 1);
        }
        match (value, value_of_word(pieces.lower(next))) {
            (20 | 30, Some(digit @ 1..=9)) => Some(WrittenNumber {
                value: value + digit,
                first: index,
                last: next,
                end: plus(next, 1),
            }),
            _ => Some(one_piece(index, value)),
        }
    }

    /// Where the digits of a number begin that aren't zeros before it.
    fn without_zeros(&self, index: usize) -> usize {
        let pieces = &self.pieces;
        let [front @ .., _] = pieces.bytes(index) else {
            return pieces.start(index);
        };
        if front.first() != Some(&b'0') {
            return pieces.start(index);
        }
        let zeros = front.iter().take_while(|digit| **digit == b'0').count();
        plus(pieces.start(index), zeros)
    }

    /// Writes a number in digits, without zeros before them, where it is, and leaves out what repeats it.
    pub fn write_numeral(&mut self, number: WrittenNumber) {
        self.write_digits(number);
        let last = plus(number.last, 1);
        if number.end > last {
            self.leave_out(last, number.end, Rule::Repeated);
        }
        self.add_number(number);
    }

    /// The same, without what repeats it.
    fn write_digits(&mut self, number: WrittenNumber) {
        let WrittenNumber { first, last, .. } = number;
        let start = self.pieces.start(first);
        if self.is_damaged(number) {
            return self.mend_digits(first, plus(last, 1));
        }
        if matches!(self.pieces.kind(first), Kind::Number(_)) {
            let begin = self.without_zeros(first);
            if begin > start {
                self.write(start, begin, b"", Rule::Zeros);
            }
            return;
        }
        let mut from = start;
        if last > first {
            from = self.pieces.start(last);
            let Some(tens) = tens_of(self.pieces.lower(first)) else {
                return self.doubt();
            };
            self.write(start, from, tens, Rule::Numeral);
        }
        let Some(digits) = digits_of(self.pieces.lower(last)) else {
            return self.doubt();
        };
        let end = self.pieces.end(last);
        self.write(from, end, digits, Rule::Numeral)
    }

    /// Whether a digit of a number is a letter.
    fn is_damaged(&self, number: WrittenNumber) -> bool {
        let WrittenNumber { first, last, .. } = number;
        let is_one = first == last && matches!(self.pieces.kind(first), Kind::Number(_));
        !is_one && (self.mended(first).is_some() || self.mended(last).is_some())
    }

    /// Writes the digits that are letters, from one index up to another.
    fn mend_digits(&mut self, first: usize, end: usize) {
        for index in first..end {
            if let Some(digits) = self.mended(index) {
                self.replace(index, digits, Rule::Damage);
            }
        }
    }

    /// Writes the digits of a number at a place where they aren't, from one index up to another, some of
    /// which are letters.
    fn copy_damaged(&mut self, place: usize, first: usize, end: usize) {
        for index in first..end {
            let (from, to) = (self.pieces.start(index), self.pieces.end(index));
            match self.mended(index) {
                Some(digits) => self.write(place, place, digits, Rule::Copied(from, to)),
                None => self.copy(place, from, to),
            }
        }
    }

    /// Writes a number at a place where it isn't, without the last so many digits.
    pub fn copy_numeral(&mut self, place: usize, number: WrittenNumber, dropped: usize) {
        let WrittenNumber { first, last, .. } = number;
        if self.is_damaged(number) {
            return self.copy_damaged(place, first, plus(last, 1));
        }
        if matches!(self.pieces.kind(first), Kind::Number(_)) {
            let from = self.without_zeros(first);
            return match self.pieces.end(first).checked_sub(dropped) {
                Some(to) => self.copy(place, from, to),
                None => self.doubt(),
            };
        }
        let mut from = self.pieces.start(first);
        if last > first {
            let to = self.pieces.start(last);
            let Some(tens) = tens_of(self.pieces.lower(first)) else {
                return self.doubt();
            };
            self.write(place, place, tens, Rule::Copied(from, to));
            from = to;
        }
        let Some(digits) = digits_of(self.pieces.lower(last)) else {
            return self.doubt();
        };
        let to = self.pieces.end(last);
        self.write(place, place, digits, Rule::Copied(from, to))
    }
}
