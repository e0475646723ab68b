//! The numbers of parcels after land, and acreage that is called gross or net alone: `(Parcel No. 28-114)`,
//! `40.00 gross, 20.00 net`.

use crate::pieces::{Pieces, plus};
use twp_grammar::Kind;

/// The most pieces of a parcel's number.
const NUMBER_MOST: usize = 12;

/// The fewest digits of a parcel's number that has no hyphen.
const DIGITS_LEAST: usize = 5;

impl<'a> Pieces<'a> {
    /// Where the number of a parcel ends that is at an index, after a mark or with its column, also with
    /// parentheses.
    pub fn end_of_tax_parcel(&self, index: usize) -> Option<usize> {
        if self.is(index, b"(") {
            let end = self.end_of_parcel(plus(index, 1))?;
            return if self.is(end, b")") {
                Some(plus(end, 1))
            } else {
                None
            };
        }
        let end = self.end_of_parcel(index)?;
        let is_last = self.is_mark(end) || self.begins_column(end);
        if is_last && !self.is(end, b":") && self.is_after_mark_or_column(index) {
            Some(end)
        } else {
            None
        }
    }

    /// Where `Parcel No.`, or a name like it, and its number end.
    fn end_of_parcel(&self, index: usize) -> Option<usize> {
        let first = plus(index, usize::from(self.is(index, b"tax")));
        let name = plus(first, 1);
        let is_named = self.is(first, b"apn")
            || self.is(first, b"pin")
            || (self.is(first, b"parcel")
                && (self.is(name, b"no") || self.is(name, b"#") || self.is(name, b"number")));
        if !is_named {
            return None;
        }
        let number = self.after_number_word(name);
        if let Some(end) = self.end_of_code(number) {
            return Some(end);
        }
        if !matches!(self.kind(number), Kind::Number(_) | Kind::BadNumber) {
            return None;
        }
        let mut end = plus(number, 1);
        let mut has_hyphen = false;
        for _ in 0..NUMBER_MOST {
            let next = plus(end, 1);
            let is_hyphen = self.is_dash(end) && self.is_joined(end) && self.is_joined(next);
            if !is_hyphen || !matches!(self.kind(next), Kind::Number(_) | Kind::BadNumber) {
                break;
            }
            has_hyphen = true;
            end = plus(next, 1);
        }
        if has_hyphen || self.size(number) >= DIGITS_LEAST {
            Some(end)
        } else {
            None
        }
    }

    /// The index after `No.`, `#`, or `number`, and the marks beside it.
    fn after_number_word(&self, index: usize) -> usize {
        let mut place = index;
        for _ in 0..NUMBER_MOST {
            let is_passed = self.is(place, b"no")
                || self.is(place, b"number")
                || self.is(place, b"#")
                || self.is(place, b".")
                || self.is(place, b":");
            if !is_passed {
                break;
            }
            place = plus(place, 1);
        }
        place
    }

    /// Where a figure ends that is called gross without a word for acres.
    pub fn end_of_gross(&self, index: usize) -> Option<usize> {
        self.end_of_figure_called(index, b"gross")
    }

    /// The same for one that is called net.
    pub fn end_of_net(&self, index: usize) -> Option<usize> {
        self.end_of_figure_called(index, b"net")
    }

    /// Where a figure ends that is called by a word, after a mark or with its column: at a mark, or
    /// with its column.
    fn end_of_figure_called(&self, index: usize, word: &[u8]) -> Option<usize> {
        let unit = self.end_of_decimal(index)?;
        let end = plus(unit, 1);
        if self.is(unit, word)
            && self.is_after_mark_or_column(index)
            && (self.is_mark(end) || self.begins_column(end))
        {
            Some(end)
        } else {
            None
        }
    }
}
