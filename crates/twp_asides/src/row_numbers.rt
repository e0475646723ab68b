//! The numbers of items and of rows at the beginning of a line: `2.`, `b)`, `441,2N 3W`.

use crate::pieces::{Pieces, plus};
use twp_grammar::Kind;

/// The number of a township's last section.
const SECTIONS: u16 = 36;

impl<'a> Pieces<'a> {
    /// Where the number of an item at the beginning of a line ends, with its mark, as `2.`, or
    /// `1)`: a township, a section, or a tract follows it, and the text begins with such a number.
    pub fn end_of_item_number(&self, index: usize) -> Option<usize> {
        let next = plus(index, 2);
        let is_item = self.is_number_with_mark(index)
            && self.begins_line(index)
            && self.is_number_with_mark(0)
            && !self.is_joined(next);
        if !is_item {
            return None;
        }
        let is_place = self.begins_tier(next)
            || matches!(self.kind(next), Kind::Sec)
            || self.is_label_of_tract(next)
            || self.end_of_words_before(next).is_some()
            || self.end_of_code(next).is_some();
        if is_place && self.names_section_of_line(next) {
            Some(next)
        } else {
            None
        }
    }

    /// Whether a number of one or two digits, or a letter, is at an index, with a period or a
    /// parenthesis joined to it.
    fn is_number_with_mark(&self, index: usize) -> bool {
        let mark = plus(index, 1);
        let is_letter = self.size(index) == 1
            && matches!(self.kind(index), Kind::Other)
            && self.begins_with_letter(index)
            && self.is(mark, b")");
        (self.has_digits(index, 1) || self.has_digits(index, 2) || is_letter)
            && self.is_joined(mark)
            && (self.is(mark, b".") || self.is(mark, b")"))
    }

    /// Whether the word for a section is in the line that has an index.
    fn names_section_of_line(&self, index: usize) -> bool {
        for place in index..self.len() {
            if matches!(self.kind(place), Kind::Sec) {
                return true;
            }
            if place > index && self.has_before(place, b'\n') {
                return false;
            }
        }
        false
    }

    /// Whether the code of a meridian is at an index, in a cell of its own before those of a
    /// township, a range, and a section, as `08,2N,3W,026`.
    pub fn is_meridian_cell(&self, index: usize) -> bool {
        let township = plus(index, 2);
        let range = plus(index, 5);
        self.has_digits(index, 2)
            && matches!(self.lower(index), [b'0', ..])
            && self.is_number_of_cell(township)
            && self.is_north_south(plus(township, 1))
            && self.is_number_of_cell(range)
            && self.is_east_west(plus(range, 1))
            && self.is_number_of_cell(plus(range, 3))
    }

    /// Whether a number is at an index, with the comma of the cell before it joined to it.
    fn is_number_of_cell(&self, index: usize) -> bool {
        self.number(index).is_some() && self.is_joined(index) && self.follows(index, b",")
    }

    /// Where the number of a row ends, which is in the first field of its line, before a township,
    /// and too large for a section.
    pub fn end_of_row_id(&self, index: usize) -> Option<usize> {
        let comma = plus(index, 1);
        let tier = plus(comma, 1);
        let is_large = match self.kind(index) {
            Kind::Number(number) => number > SECTIONS,
            Kind::BadNumber => true,
            _ => false,
        };
        let is_field = self.begins_line(index)
            && self.is(comma, b",")
            && self.is_joined(comma)
            && self.is_joined(tier);
        if is_large && is_field && self.begins_tier(tier) {
            Some(comma)
        } else {
            None
        }
    }
}
