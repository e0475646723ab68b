//! States and counties: `Idaho`, `in Canyon County`, `State of Idaho`.

use crate::pieces::{Pieces, plus};
use twp_grammar::Kind;
use twp_words::{is_beyond_label, is_boundary, is_glued, is_partial, is_state, is_state_of_two};

impl<'a> Pieces<'a> {
    /// Where `in`, and the state or the county after it, end.
    pub fn end_of_state_after_in(&self, index: usize) -> Option<usize> {
        let next = plus(index, 1);
        let next = if self.is(next, b"the") {
            plus(next, 1)
        } else {
            next
        };
        self.end_of_state(next)
    }

    /// Whether a state or a county is at an index.
    pub fn names_state(&self, index: usize) -> bool {
        self.end_of_state(index).is_some()
    }

    /// Where the state or the county at an index ends.
    pub(crate) fn end_of_state(&self, index: usize) -> Option<usize> {
        let second = plus(index, 1);
        let third = plus(index, 2);
        if (self.is(index, b"state") || self.is(index, b"county")) && self.is(second, b"of") {
            let has_state = self.is(plus(index, 3), b"and")
                && self.is(plus(index, 4), b"state")
                && self.is(plus(index, 5), b"of");
            if has_state {
                if let Some(end) = self.end_of_name(plus(index, 6)) {
                    return Some(end);
                }
            }
            if self.is(index, b"county") && matches!(self.kind(third), Kind::Other) {
                return Some(plus(third, 1));
            }
            return self.end_of_name(third);
        }
        if is_state_of_two(self.lower(index), self.lower(second)) {
            return Some(third);
        }
        if matches!(self.kind(index), Kind::Other) {
            if let Some(end) = self.end_of_county(index) {
                return Some(end);
            }
        }
        if is_state(self.lower(index)) && !self.is(second, b"department") {
            Some(second)
        } else {
            None
        }
    }

    /// Where the name of a state at an index ends, which has one word or two.
    fn end_of_name(&self, index: usize) -> Option<usize> {
        let second = plus(index, 1);
        if is_state_of_two(self.lower(index), self.lower(second)) {
            return Some(plus(second, 1));
        }
        if is_state(self.lower(index)) {
            Some(second)
        } else {
            None
        }
    }

    /// Where the county at an index ends, with the word for it, in its cell, or with its state. The marks
    /// around it are looked at first, since its name has to be in none of several lists.
    pub(crate) fn end_of_county(&self, index: usize) -> Option<usize> {
        let second = plus(index, 1);
        let third = plus(index, 2);
        let end = if let Some(end) = self.end_of_county_word(second) {
            end
        } else if let Some(end) = self.end_of_longer_county(second) {
            end
        } else if self.is_county_cell(index) {
            third.min(self.len())
        } else if self.is_county_and_state(index) {
            plus(third, 1)
        } else {
            return None;
        };
        if self.may_name_county(index) {
            Some(end)
        } else {
            None
        }
    }

    /// Where the second word of a county's name ends, with the word for it.
    fn end_of_longer_county(&self, index: usize) -> Option<usize> {
        if !matches!(self.kind(index), Kind::Other) {
            return None;
        }
        let end = self.end_of_county_word(plus(index, 1))?;
        if self.may_name_county(index) {
            Some(end)
        } else {
            None
        }
    }

    /// Whether the word at an index may be the name of a county: it names no land, and limits none.
    fn may_name_county(&self, index: usize) -> bool {
        let word = self.lower(index);
        word.len() >= 3
            && !self.may_be_land(index)
            && !is_beyond_label(word)
            && !is_boundary(word)
            && !is_partial(word)
            && !is_glued(self.bytes(index))
    }

    /// Where the word for a county at an index ends.
    fn end_of_county_word(&self, index: usize) -> Option<usize> {
        let next = plus(index, 1);
        if self.is(index, b"county") {
            return Some(next);
        }
        if self.is(index, b"co") {
            return Some(self.after_point(next));
        }
        None
    }

    /// Whether a county's name is at an index, and after a comma the state.
    fn is_county_and_state(&self, index: usize) -> bool {
        let word = self.lower(index);
        word.len() >= 3
            && self.is(plus(index, 1), b",")
            && is_state(self.lower(plus(index, 2)))
            && !self.may_be_land(index)
            && !is_beyond_label(word)
            && !is_boundary(word)
    }

    /// Whether a county is alone in a cell at an index: after a state and before another cell, with a bar
    /// between them.
    fn is_county_cell(&self, index: usize) -> bool {
        self.follows(index, b"|")
            && self.is(plus(index, 1), b"|")
            && matches!(self.lower_back(index, 2), Some(word) if is_state(word))
    }
}
