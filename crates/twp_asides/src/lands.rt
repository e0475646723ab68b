//! What may be of land: a section, a lot, a fraction, a side, or a corner.

use crate::pieces::{Pieces, plus};
use twp_grammar::Kind;
use twp_words::{are_corners, begins_exception, is_of_right, is_step_word};

impl<'a> Pieces<'a> {
    /// Whether the piece at an index may be of land.
    pub fn may_be_land(&self, index: usize) -> bool {
        match self.kind(index) {
            Kind::Sec | Kind::Lot | Kind::Corner(_) => true,
            Kind::Half | Kind::Quarter => !self.is_in_date(index),
            Kind::NorthSouth(_) => {
                !self.is_possessive(index) && !self.begins_number(index) && !self.is_of_title(index)
            }
            Kind::EastWest(_) => !self.begins_number(index) && !self.is_of_title(index),
            Kind::All => {
                let next = plus(index, 1);
                !is_of_right(self.lower(next)) && !self.is(next, b"men")
            }
            Kind::Other => self.begins_step(index) || begins_exception(self.lower(index)),
            _ => false,
        }
    }

    /// Whether the fraction at an index is of a date, as in `6/1/2027`, or `1/4/82`.
    fn is_in_date(&self, index: usize) -> bool {
        let next = plus(index, 1);
        let is_last = self.is_joined(index) && self.follows(index, b"/");
        let is_first = self.is(next, b"/") && !self.is_joined(index);
        let year = plus(next, usize::from(is_first));
        (is_last || is_first)
            && self.is_joined(next)
            && self.is_joined(year)
            && self.number(year).is_some()
    }

    /// Whether the letter at an index begins the number of a lease, as `E-70112`.
    fn begins_number(&self, index: usize) -> bool {
        let next = plus(index, 1);
        let digits = plus(index, 2);
        self.is(next, b"-")
            && self.is_joined(next)
            && self.is_joined(digits)
            && matches!(self.kind(digits), Kind::Number(_) | Kind::BadNumber)
            && self.bytes(digits).len() >= 3
    }

    /// Whether the letter at an index is of `U. S.`, as in `reserved in U. S. Patent`.
    pub(crate) fn is_of_united_states(&self, index: usize) -> bool {
        self.is(index, b"s")
            && self.is(plus(index, 1), b".")
            && self.follows(index, b".")
            && self.is_back(index, 2, b"u")
    }

    /// Whether `all that tract` begins at an index, or words like it, which name no land.
    pub(crate) fn begins_all_of_property(&self, index: usize) -> bool {
        let next = plus(index, 1);
        let property = plus(next, 1);
        matches!(self.kind(index), Kind::All)
            && (self.is(next, b"that") || self.is(next, b"those"))
            && (self.is(property, b"certain")
                || self.is(property, b"tract")
                || self.is(property, b"parcel")
                || self.is(property, b"real")
                || self.is(property, b"property"))
    }

    /// Whether the word at an index is a side or a corner, or a run of corners.
    pub fn begins_step(&self, index: usize) -> bool {
        let word = self.lower(index);
        is_step_word(word) || are_corners(word)
    }
}
