//! Sides and corners with periods after their letters, or whose letters are apart: `N. 1/2`, `N.E. 1/4`,
//! `S W 1/4`.

use crate::finder::Finder;
use crate::fractions::{is_written, rule_of};
use twp_asides::plus;
use twp_grammar::Kind;
use twp_rules::Rule;
use twp_words::{Size, written_step};

impl<'a> Finder<'a> {
    /// The corner at an index whose letters are apart, or the side, with periods after them, and the
    /// fraction.
    pub(crate) fn dotted(&mut self, index: usize) -> Option<usize> {
        let pieces = &self.draft.pieces;
        let second = self.second_letter(index);
        if !matches!(pieces.kind(index), Kind::NorthSouth(_))
            || !matches!(pieces.kind(second), Kind::EastWest(_))
        {
            return self.dotted_half(index);
        }
        let checkpoint = self.draft.checkpoint();
        self.leave_out_between(index, second);
        let fraction = self.after_stop(plus(second, 1));
        if fraction > plus(second, 1) {
            self.draft
                .leave_out(plus(second, 1), fraction, Rule::OnePart);
        }
        let after = self.dotted_fraction(fraction, Size::Quarter);
        if !self.are_letters(index, second) {
            self.draft.shrink(checkpoint);
            return None;
        }
        if let Some(after) = after {
            let begin = self.draft.pieces.start(index);
            let corner = self.dotted_corner(index, second);
            self.push_step(begin, after, corner);
            return Some(after);
        }
        self.draft.shrink(checkpoint);
        self.dotted_letters(index, second, fraction)
    }

    /// The corner at an index of whose letters each has a period, without a fraction, as `N.E.`
    fn dotted_letters(&mut self, index: usize, second: usize, fraction: usize) -> Option<usize> {
        let has_stops = second > plus(index, 1) && fraction > plus(second, 1);
        if !has_stops || !self.draft.pieces.is_joined(second) {
            return None;
        }
        self.leave_out_between(index, second);
        let begin = self.draft.pieces.start(index);
        let place = self.draft.pieces.end_before(fraction);
        let dot = self.draft.pieces.end(second);
        let corner = self.dotted_corner(index, second);
        self.draft.write(dot, place, b"1/4", Rule::Quarter);
        self.push_step_to(begin, place, corner);
        Some(fraction)
    }

    /// The index of a corner's second letter: after a period, or after a hyphen at a line end.
    fn second_letter(&self, index: usize) -> usize {
        if self.draft.pieces.is_hyphen_at_line_end(plus(index, 1)) {
            plus(index, 2)
        } else {
            self.after_stop(plus(index, 1))
        }
    }

    /// Leaves out what is between two letters of a corner.
    fn leave_out_between(&mut self, index: usize, second: usize) {
        let pieces = &self.draft.pieces;
        let (end, start) = (pieces.end(index), pieces.start(second));
        self.leave_out_bytes(end, start)
    }

    /// Whether two pieces are a letter each.
    fn are_letters(&self, index: usize, second: usize) -> bool {
        let pieces = &self.draft.pieces;
        pieces.bytes(index).len() == 1 && pieces.bytes(second).len() == 1
    }

    /// The corner that two letters name, as it is written in a description.
    fn dotted_corner(&self, index: usize, second: usize) -> &'static [u8] {
        let pieces = &self.draft.pieces;
        match (pieces.is(index, b"n"), pieces.is(second, b"e")) {
            (true, true) => b"NE1/4",
            (true, false) => b"NW1/4",
            (false, true) => b"SE1/4",
            (false, false) => b"SW1/4",
        }
    }

    /// The half at an index, with a period after its letter.
    fn dotted_half(&mut self, index: usize) -> Option<usize> {
        let pieces = &self.draft.pieces;
        let next = plus(index, 1);
        if !matches!(pieces.kind(next), Kind::Stop) || !pieces.is_joined(next) {
            return None;
        }
        let begin = pieces.start(index);
        let written = written_step(pieces.bytes(index));
        let checkpoint = self.draft.checkpoint();
        self.draft.leave_out(next, plus(next, 1), Rule::OnePart);
        if let Some(after) = self.dotted_fraction(plus(next, 1), Size::Half) {
            self.push_step(begin, after, written);
            return Some(after);
        }
        self.draft.shrink(checkpoint);
        None
    }

    /// The fraction after letters with periods: as it is in a description, or an old abbreviation, `Qr.` or
    /// `H.`
    fn dotted_fraction(&mut self, index: usize, size: Size) -> Option<usize> {
        if is_written(size, self.draft.pieces.kind(index)) {
            return Some(plus(index, 1));
        }
        if let Some(end) = self.fraction(index, size) {
            return Some(end);
        }
        // Between two letters and `of`, scanning left this of a quarter.
        if size == Size::Quarter
            && self.draft.pieces.is(index, b"i")
            && self.draft.pieces.is(plus(index, 1), b"of")
        {
            let start = self.draft.pieces.end_before(index);
            let end = self.draft.pieces.end(index);
            self.draft.write(start, end, size.fraction(), rule_of(size));
            return Some(plus(index, 1));
        }
        if size.is_word(self.draft.pieces.lower(index)) {
            let after = self.after_stop(plus(index, 1));
            let start = self.draft.pieces.end_before(index);
            let end = self.draft.pieces.end_before(after);
            self.draft.write(start, end, size.fraction(), rule_of(size));
            return Some(after);
        }
        None
    }

    /// Leaves out bytes within a part.
    pub(crate) fn leave_out_bytes(&mut self, start: usize, end: usize) {
        if start < end {
            self.draft.write(start, end, b"", Rule::OnePart);
        }
    }

    /// The index after a period at an index, if there is one.
    fn after_stop(&self, index: usize) -> usize {
        match self.draft.pieces.kind(index) {
            Kind::Stop => plus(index, 1),
            _ => index,
        }
    }
}
