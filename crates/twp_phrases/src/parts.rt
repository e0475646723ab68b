//! Aliquot parts: `NE1/4`, `S2NE4`, `N/2`, `NENE`, `the North Half of the Southwest Quarter`.

use crate::finder::Finder;
use twp_asides::{are_corners, plus};
use twp_draft::{Form, PlacedStep};
use twp_grammar::Kind;
use twp_rules::Rule;
use twp_words::{Size, written_step};

/// The most steps of a part: each halves a side of the section, which can be halved five times each way.
const STEPS_MOST: usize = 10;

/// An aliquot part that was read, and isn't added yet: the index after it, how it is written, and whether it
/// is called fractional.
#[derive(Clone, Copy)]
pub(crate) struct ReadPart {
    pub(crate) end: usize,
    pub(crate) form: Form,
    pub(crate) is_fractional: bool,
}

impl<'a> Finder<'a> {
    /// The aliquot part at an index: steps joined without white space, or by `of`.
    pub(crate) fn part(&mut self, index: usize) -> Option<ReadPart> {
        let from = self.draft.checkpoint();
        let mut first = self.draft.pieces.after_fractional(index);
        let is_fractional = first > index;
        if is_fractional {
            let has_article = self.draft.pieces.is(index, b"the");
            let word = plus(index, usize::from(has_article));
            self.draft.leave_out_each(index, word, Rule::Word);
            self.draft.leave_out(word, first, Rule::Word);
        }
        if !is_fractional && self.draft.pieces.is_article(index) {
            self.draft.leave_out(index, plus(index, 1), Rule::Word);
            first = plus(index, 1);
        }
        let mut end = self.step(first)?;
        let mut form = Form::Plain;
        for _ in 0..self.draft.pieces.len() {
            if self.draft.checkpoint().steps_after(from) > STEPS_MOST {
                self.draft.doubt();
                break;
            }
            if let Some(after) = self.step_joined(end) {
                end = after;
                continue;
            }
            // Only `of` goes on, or the step before it again.
            if !self.draft.pieces.is(end, b"of") && !self.draft.pieces.is(end, b"(") {
                break;
            }
            let checkpoint = self.draft.checkpoint();
            let same = self.after_same_step(end);
            let steps = self.draft.steps.len();
            let Some(after) = self.step_after_of(same) else {
                self.draft.shrink(checkpoint);
                break;
            };
            if let Some(step) = self.draft.steps.get_mut(steps) {
                step.is_after_of = true;
            }
            form = Form::WithOf;
            end = after;
        }
        Some(ReadPart {
            end,
            form,
            is_fractional,
        })
    }

    /// The index after the step before an index in parentheses, if `of` follows them, as in
    /// `the West half (W½) of`. They are left out.
    fn after_same_step(&mut self, index: usize) -> usize {
        if !self.draft.pieces.is(index, b"(") {
            return index;
        }
        let before = self.draft.steps.last().copied();
        let checkpoint = self.draft.checkpoint();
        let close = self.step(plus(index, 1));
        let same = self.draft.steps.last().copied();
        let count = self.draft.checkpoint().steps_after(checkpoint);
        let close = close.unwrap_or(index);
        let end = plus(close, 1);
        let is_same = count == 1
            && before.map(|step| step.written) == same.map(|step| step.written)
            && self.draft.pieces.is(close, b")")
            && self.draft.pieces.is(end, b"of");
        if is_same {
            self.draft.add_said(plus(index, 1), close, checkpoint);
        }
        self.draft.shrink(checkpoint);
        if !is_same {
            return index;
        }
        self.draft.leave_out(index, end, Rule::Repeated);
        end
    }

    /// The step at an index that is joined to the one before it, also by a backslash, or a slash between bare
    /// corners.
    fn step_joined(&mut self, index: usize) -> Option<usize> {
        let pieces = &self.draft.pieces;
        if !pieces.is_joined(index) {
            return None;
        }
        if pieces.is_hyphen_at_line_end(index) {
            let next = plus(index, 1);
            let from = pieces.start(index);
            let to = pieces.start(next);
            let checkpoint = self.draft.checkpoint();
            self.leave_out_bytes(from, to);
            let end = self.step(next);
            if end.is_none() {
                self.draft.shrink(checkpoint);
            }
            return end;
        }
        let is_slash = self.draft.pieces.is(index, b"/")
            && matches!(self.draft.pieces.kind_before(index), Some(Kind::Corner(_)))
            && matches!(self.draft.pieces.kind(plus(index, 1)), Kind::Corner(_));
        // Two parts may be meant, unless they would be the same.
        if is_slash && self.is_between_corners(index) {
            return None;
        }
        if self.draft.pieces.is(index, b"\\") || is_slash {
            let second = plus(index, 1);
            let is_doubled = self.draft.pieces.is(index, b"\\")
                && self.draft.pieces.is(second, b"\\")
                && self.draft.pieces.is_joined(second);
            let next = plus(second, usize::from(is_doubled));
            self.draft.leave_out_each(index, next, Rule::Mark);
            if self.draft.pieces.is_joined(next) {
                if let Some(end) = self.step(next) {
                    return Some(end);
                }
            }
            return Some(next);
        }
        self.step(index)
    }

    /// Whether a slash is at an index between two corners without a fraction, which aren't the same: `NE/SE`.
    pub(crate) fn is_between_corners(&self, index: usize) -> bool {
        let pieces = &self.draft.pieces;
        let Some(before) = index.checked_sub(1) else {
            return false;
        };
        let after = plus(index, 1);
        pieces.is(index, b"/")
            && matches!(pieces.kind(before), Kind::Corner(_))
            && matches!(pieces.kind(after), Kind::Corner(_))
            && pieces.lower(before) != pieces.lower(after)
    }

    /// The step after an `of`, and `the`, if that is there.
    fn step_after_of(&mut self, index: usize) -> Option<usize> {
        let pieces = &self.draft.pieces;
        if !pieces.is(index, b"of") {
            return None;
        }
        let next = plus(index, 1);
        if pieces.is(next, b"said") {
            self.draft.leave_out(next, plus(next, 1), Rule::Word);
            return self.step(plus(next, 1));
        }
        if self.draft.pieces.is(next, b"the") {
            return self.step(plus(next, 1));
        }
        if self.draft.pieces.is_article(next) {
            self.draft.leave_out(next, plus(next, 1), Rule::Word);
            return self.step(plus(next, 1));
        }
        self.step(next)
    }

    /// The step at an index, or the run of corners: the index after it. None, and nothing is written, if
    /// there is none.
    fn step(&mut self, index: usize) -> Option<usize> {
        match self.draft.pieces.kind(index) {
            Kind::NorthSouth(_) | Kind::EastWest(_) => self.half(index),
            Kind::Corner(_) => self.corners(index),
            Kind::Number(5 | 8) if self.draft.pieces.has_digits(index, 1) => self.damaged_corner(
                index,
            ),
            Kind::Other if are_corners(self.draft.pieces.lower(index)) => self.corners(index),
            Kind::Other => self.step_in_words(index),
            _ => None,
        }
    }

    /// Notes a step from a place up to an index.
    pub(crate) fn push_step(&mut self, start: usize, end: usize, written: &'static [u8]) {
        let stop = self.draft.pieces.end_before(end);
        self.push_step_to(start, stop, written)
    }

    /// Notes a step from one place up to another.
    pub(crate) fn push_step_to(&mut self, start: usize, end: usize, written: &'static [u8]) {
        self.draft.add_step(PlacedStep {
            start,
            end,
            written,
            is_after_of: false,
        });
    }

    /// The half at an index, or a corner whose letters are apart.
    fn half(&mut self, index: usize) -> Option<usize> {
        let pieces = &self.draft.pieces;
        let written = written_step(pieces.bytes(index));
        let start = pieces.start(index);
        if let Some(end) = self.fraction(plus(index, 1), Size::Half) {
            self.push_step(start, end, written);
            return Some(end);
        }
        self.dotted(index)
    }

    /// The run of corners at an index. The last one may lack its fraction.
    fn corners(&mut self, index: usize) -> Option<usize> {
        let pieces = &self.draft.pieces;
        let end = pieces.end(index);
        let (run, _) = pieces.bytes(index).as_chunks::<2>();
        let [before @ .., last] = run else {
            return None;
        };
        let mut place = pieces.start(index);
        for letters in before.iter().take(STEPS_MOST + 1) {
            let first = place;
            place = plus(first, 2);
            self.draft.write(place, place, b"1/4", Rule::Quarter);
            self.push_step_to(first, place, written_step(letters));
        }
        let first = end.checked_sub(2)?;
        let corner = written_step(last);
        let next = plus(index, 1);
        if let Some(after) = self.fraction(next, Size::Quarter) {
            self.push_step(first, after, corner);
            return Some(after);
        }
        self.draft.write(end, end, b"1/4", Rule::Quarter);
        self.push_step_to(first, end, corner);
        Some(next)
    }

    /// The corner at an index whose `S` was read as a `5`.
    fn damaged_corner(&mut self, index: usize) -> Option<usize> {
        let pieces = &self.draft.pieces;
        let letter = plus(index, 1);
        if !matches!(pieces.kind(letter), Kind::EastWest(_)) || !pieces.is_joined(letter) {
            return None;
        }
        if !matches!(pieces.kind(plus(letter, 1)), Kind::Quarter) {
            return None;
        }
        self.draft.replace(index, b"S", Rule::Damage);
        let corner: &'static [u8] = if self.draft.pieces.is(letter, b"e") {
            b"SE1/4"
        } else {
            b"SW1/4"
        };
        let start = self.draft.pieces.start(index);
        self.push_step(start, plus(letter, 2), corner);
        Some(plus(letter, 2))
    }
}
