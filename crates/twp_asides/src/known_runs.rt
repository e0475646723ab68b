//! Runs of words each of which is known to say nothing of which land is meant: `, HBP`, `(fee)`,
//! `480 acs PS`.

use crate::pieces::{Pieces, plus};
use twp_grammar::Kind;
use twp_words::{is_known, is_of_label};

/// The most pieces of such a run.
const PIECES_MOST: usize = 8;

impl<'a> Pieces<'a> {
    /// Where such a run at an index ends, also in parentheses: at a mark, or with its column.
    pub fn end_of_known_run(&self, index: usize) -> Option<usize> {
        if !self.is(index, b"(") {
            return self.end_of_known_words(index);
        }
        let first = plus(index, 1);
        if self.is(first, b"fractional") && self.is(plus(first, 1), b")") {
            return Some(plus(first, 2));
        }
        let end = self.end_of_known_words(first)?;
        if self.is(end, b")") {
            Some(plus(end, 1))
        } else {
            None
        }
    }

    /// Where acreage in parentheses with a known word before it ends, as `(public 1,280 ac)`: with
    /// less than a thousand acres, the text may mean a part of the land.
    pub fn end_of_known_acreage(&self, index: usize) -> Option<usize> {
        let word = plus(index, 1);
        let is_large = self.is(plus(word, 2), b",") && self.is_joined(plus(word, 2));
        if !self.is(index, b"(") || !self.is_known_word(word) || !is_large {
            return None;
        }
        let end = self.end_of_acreage(plus(word, 1))?;
        if self.is(end, b")") {
            Some(plus(end, 1))
        } else {
            None
        }
    }

    /// Where such a run at an index ends.
    fn end_of_known_words(&self, index: usize) -> Option<usize> {
        let mut has_word = false;
        for place in index..plus(index, PIECES_MOST) {
            if place > index && (self.is_mark(place) || self.begins_column(place)) {
                return if has_word { Some(place) } else { None };
            }
            let is_word = self.is_known_word(place);
            if !is_word && !self.is_within_run(place) {
                return None;
            }
            has_word = has_word || is_word;
        }
        None
    }

    /// Whether some pieces are a label before a mark, of which a word is known, as
    /// `Allotment No. 00412, Pickles Butte:`.
    pub fn is_known_label(&self, first: usize, end: usize) -> bool {
        let is_marked = self.follows(end, b":") || (self.is_dash(end) && !self.is_joined(end));
        if !is_marked {
            return false;
        }
        for index in first..end {
            if self.is_known_word(index) || is_of_label(self.lower(index)) {
                return true;
            }
        }
        false
    }

    /// Whether some pieces are a date with slashes, as `5/11/32`, or `3/1/2005`, of which a
    /// fraction takes a digit.
    pub fn is_slashed_date(&self, first: usize, end: usize) -> bool {
        let is_slashed = self.is(plus(first, 1), b"/");
        let is_cut = end == plus(first, 4) && self.is_date(first);
        is_slashed && (is_cut || (end == plus(first, 5) && self.is(plus(first, 3), b"/")))
    }

    /// Whether a word at an index is known to say nothing of which land is meant.
    fn is_known_word(&self, index: usize) -> bool {
        let is_mineral = self.is(index, b"mineral") || self.is(index, b"minerals");
        matches!(self.kind(index), Kind::Other)
            && (is_known(self.lower(index)) || is_mineral)
            && !self.is(index, b"do")
    }

    /// Whether what may be between two words of a run is at an index: a mark, a percentage, or a long number.
    fn is_within_run(&self, index: usize) -> bool {
        self.is(index, b"/")
            || self.is(index, b"&")
            || self.is(index, b"%")
            || self.is_percentage(index)
            || matches!(self.kind(index), Kind::BadNumber)
    }
}
