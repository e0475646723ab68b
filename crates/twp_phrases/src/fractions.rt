//! The fractions of halves and quarters: `1/2`, `/2`, `2`, `half`, and what scanning makes of them.

use crate::finder::Finder;
use twp_asides::plus;
use twp_grammar::Kind;
use twp_rules::Rule;
use twp_words::Size;

impl<'a> Finder<'a> {
    /// The fraction at an index, after letters: the index after it.
    pub(crate) fn fraction(&mut self, index: usize, size: Size) -> Option<usize> {
        let pieces = &self.draft.pieces;
        let kind = pieces.kind(index);
        if is_written(size, kind) {
            return Some(plus(index, 1));
        }
        let after = match kind {
            Kind::Stop => return self.fraction_after(index, size, Rule::OnePart),
            Kind::BadByte if pieces.is(index, b"\\") => {
                return self.fraction_after(index, size, Rule::Mark);
            }
            Kind::BadByte => self.end_of_mark(index, size)?,
            Kind::Number(_) => {
                if let Some(after) = self.spaced_fraction(index, size) {
                    return Some(after);
                }
                self.end_of_number(index, size)?
            }
            Kind::Other => self.end_of_word(index, size)?,
            _ => return None,
        };
        self.write_fraction(index, after, size);
        Some(after)
    }

    /// The fraction after a mark at an index, which is left out: the index after the fraction, if it is as in
    /// a description.
    fn fraction_after(&mut self, index: usize, size: Size, rule: Rule) -> Option<usize> {
        let pieces = &self.draft.pieces;
        let second = plus(index, 1);
        let is_doubled = pieces.is(index, b"\\")
            && pieces.is(second, b"\\")
            && pieces.is_joined(second);
        let next = plus(second, usize::from(is_doubled));
        if !pieces.is_joined(index) || !is_written(size, pieces.kind(next)) {
            return None;
        }
        self.draft.leave_out_each(index, next, rule);
        Some(plus(next, 1))
    }

    /// Writes a fraction for the pieces from one index up to another.
    fn write_fraction(&mut self, index: usize, after: usize, size: Size) {
        let pieces = &self.draft.pieces;
        let start = if pieces.is_joined(index) {
            pieces.start(index)
        } else {
            pieces.end_before(index)
        };
        let end = pieces.end_before(after);
        self.draft.write(start, end, size.fraction(), rule_of(size));
    }

    /// The fraction at an index with a space before its slash, or after it, as in `W1 /2`, which is left out:
    /// the index after the fraction.
    fn spaced_fraction(&mut self, index: usize, size: Size) -> Option<usize> {
        let slash = plus(index, 1);
        let digit = plus(index, 2);
        if !self.draft.pieces.is(index, b"1") || !self.draft.pieces.is(slash, b"/") {
            return None;
        }
        let pieces = &self.draft.pieces;
        let (one, bar) = (pieces.end(index), pieces.start(slash));
        let (after, last) = (pieces.end(slash), pieces.start(digit));
        let is_near = bar <= plus(one, 1)
            && last <= plus(after, 1)
            && !pieces.has_break_before(slash)
            && !pieces.has_break_before(digit);
        let is_spaced = bar > one || last > after;
        let is_digit = pieces.has_digits(digit, 1) && pieces.number(digit) == Some(size.digit());
        if !is_near || !is_spaced || !is_digit || self.goes_on(plus(digit, 1)) {
            return None;
        }
        self.leave_out_bytes(one, bar);
        self.leave_out_bytes(after, last);
        Some(plus(digit, 1))
    }

    /// Where the fraction ends that a number at an index begins, and that isn't written as in a description:
    /// a digit, or a digit, a slash, and a digit.
    fn end_of_number(&self, index: usize, size: Size) -> Option<usize> {
        let pieces = &self.draft.pieces;
        let next = plus(index, 1);
        if self.is_digit(index, size) && !self.goes_on(next) {
            return Some(next);
        }
        if self.is_hyphenated(index, size) {
            return Some(plus(index, 3));
        }
        if self.is_worn_slash(index, size) {
            return Some(next);
        }
        let is_letter = size == Size::Quarter && pieces.is(next, b"a") && pieces.is_joined(next);
        if is_letter && pieces.is(index, b"1") && pieces.is_joined(index) {
            return Some(plus(index, 2));
        }
        if !self.is_before_slash(index) {
            return None;
        }
        if self.is_slashed(index, size) {
            return Some(plus(index, 3));
        }
        if pieces.is_joined(index) && pieces.is(index, b"1") && self.is_end(plus(index, 2)) {
            return Some(plus(index, 2));
        }
        None
    }

    /// Where the fraction ends that a word at an index begins: a word for a part, or what scanning makes of a
    /// `1`.
    fn end_of_word(&self, index: usize, size: Size) -> Option<usize> {
        let pieces = &self.draft.pieces;
        let next = plus(index, 1);
        if size.is_whole_word(pieces.lower(index)) {
            return Some(next);
        }
        if self.is_before_slash(index) && self.is_slashed(index, size) {
            return Some(plus(index, 3));
        }
        let is_letter = pieces.is(index, b"i") || pieces.is(index, b"a");
        if is_letter && size == Size::Quarter && pieces.is_joined(index) {
            return Some(next);
        }
        if size == Size::Quarter && self.is_letter_before_of(index) {
            return Some(next);
        }
        if let Some(end) = self.end_of_divided_word(index, size) {
            return Some(end);
        }
        let is_worn = pieces.is(index, b"v") || pieces.is(index, b"y");
        if is_worn && pieces.is_joined(index) && self.is_digit(next, size) {
            return Some(plus(next, 1));
        }
        None
    }

    /// Where the fraction ends that a mark at an index begins: a slash and a digit, or what scanning makes of
    /// a fraction.
    fn end_of_mark(&self, index: usize, size: Size) -> Option<usize> {
        let pieces = &self.draft.pieces;
        let next = plus(index, 1);
        let is_joined = pieces.is_joined(index);
        if pieces.is(index, b"/") {
            let is_fraction = (is_joined && self.is_digit(next, size))
                || (pieces.is_spaced_slash(index)
                    && pieces.number(next) == Some(size.digit())
                    && pieces.has_digits(next, 1));
            return if is_fraction {
                Some(plus(next, 1))
            } else {
                None
            };
        }
        if is_joined && size == Size::Quarter {
            if let Some(end) = self.end_of_marked_quarter(index) {
                return Some(end);
            }
        }
        if self.is_before_slash(index) && self.is_slashed(index, size) {
            return Some(plus(index, 3));
        }
        // A character of two bytes that was read as two characters.
        if pieces.is(index, b"\xC3\x82") && is_joined && pieces.is_joined(next) {
            return if is_written(size, pieces.kind(next)) {
                Some(plus(next, 1))
            } else {
                None
            };
        }
        let is_worn = pieces.is(index, b"%")
            || pieces.is(index, b"}")
            || pieces.is(index, b"\xC2\xA3");
        if is_joined && is_worn {
            return Some(next);
        }
        None
    }

    /// Whether a letter that scanning makes of the fraction of a quarter is at an index, apart, and
    /// `of` or `and` after it, as in `S E J of the N W i of`.
    fn is_letter_before_of(&self, index: usize) -> bool {
        let pieces = &self.draft.pieces;
        let next = plus(index, 1);
        (pieces.is(index, b"i") || pieces.is(index, b"j"))
            && (pieces.is(next, b"of") || pieces.is(next, b"and"))
    }

    /// Where the mark at an index ends that scanning makes of the fraction of a quarter, with a
    /// digit or a letter, if any.
    fn end_of_marked_quarter(&self, index: usize) -> Option<usize> {
        let pieces = &self.draft.pieces;
        let next = plus(index, 1);
        let is_followed = pieces.is_joined(next);
        if pieces.is(index, b"'") && is_followed && pieces.is(next, b"a") {
            return Some(plus(next, 1));
        }
        let is_mark = pieces.is(index, b"!") || pieces.is(index, b"^");
        if is_mark && is_followed && pieces.is(next, b"4") {
            return Some(plus(next, 1));
        }
        if pieces.is(index, b"^") {
            return Some(next);
        }
        None
    }

    /// Where `quarter` ends that a line end divides, with a hyphen.
    fn end_of_divided_word(&self, index: usize, size: Size) -> Option<usize> {
        let pieces = &self.draft.pieces;
        let hyphen = plus(index, 1);
        let rest = plus(index, 2);
        let is_divided = size == Size::Quarter
            && pieces.is(index, b"quar")
            && pieces.is_hyphen_at_line_end(hyphen)
            && pieces.start(rest) == plus(pieces.end(hyphen), 1)
            && pieces.is(rest, b"ter");
        if is_divided {
            Some(plus(rest, 1))
        } else {
            None
        }
    }

    /// Whether a slash follows the piece at an index, without white space.
    fn is_before_slash(&self, index: usize) -> bool {
        let pieces = &self.draft.pieces;
        let next = plus(index, 1);
        (pieces.is(next, b"/") || pieces.is(next, b"\xE2\x81\x84")) && pieces.is_joined(next)
    }

    /// Whether the pieces at an index, of which the second is a slash, are a fraction: with what scanning
    /// makes of a `1` or of a `2`, or two halves.
    fn is_slashed(&self, index: usize, size: Size) -> bool {
        let digit = plus(index, 2);
        if self.is_worn_one(index) {
            return self.is_digit(digit, size) || self.is_worn_digit(index, digit, size);
        }
        size == Size::Half
            && self.draft.pieces.number(index) == Some(2)
            && self.is_digit(digit, size)
    }

    /// Whether a `1` is at an index, or what scanning makes of it.
    fn is_worn_one(&self, index: usize) -> bool {
        let pieces = &self.draft.pieces;
        pieces.is(index, b"1")
            || pieces.is(index, b"l")
            || pieces.is(index, b"i")
            || pieces.is(index, b"'")
            || pieces.is(index, b"\xE2\x80\x99")
            || pieces.is(index, b"]")
            || pieces.is(index, b"!")
            || pieces.is(index, b"|")
            || pieces.is(index, b"\xC2\xB9")
    }

    /// Whether the lowered digit of a fraction is at an index, or the `z` that scanning makes of a `2` after
    /// a `1`.
    fn is_worn_digit(&self, one: usize, digit: usize, size: Size) -> bool {
        let pieces = &self.draft.pieces;
        let is_lower = size.is_lowered(pieces.lower(digit));
        let is_z = size == Size::Half && pieces.is(digit, b"z") && pieces.is(one, b"1");
        (is_lower || is_z) && pieces.is_joined(digit)
    }

    /// Whether a fraction with a hyphen is at an index, as in `W 1-2 of SE 1-4`: with an `of` before or after
    /// its letters, since `SE 1-4` may be of four sections, or with periods, as in `S.W. 1-4`.
    fn is_hyphenated(&self, index: usize, size: Size) -> bool {
        let pieces = &self.draft.pieces;
        let next = plus(index, 1);
        let digit = plus(index, 2);
        pieces.is(index, b"1")
            && pieces.is(next, b"-")
            && pieces.is_joined(next)
            && self.is_digit(digit, size)
            && (pieces.is(plus(index, 3), b"of")
                || pieces.is_back(index, 2, b"of")
                || pieces.is_back(index, 3, b"of")
                || pieces.follows(index, b"."))
    }

    /// Whether a fraction whose slash was read as a `1` is at an index, as in `NE114`, or
    /// `NE 114 of the SW 114`: with an `of` before or after its letters, or joined to them, since
    /// it may be acreage.
    fn is_worn_slash(&self, index: usize, size: Size) -> bool {
        let pieces = &self.draft.pieces;
        let is_worn = match size {
            Size::Half => pieces.is(index, b"112"),
            Size::Quarter => pieces.is(index, b"114"),
        };
        is_worn
            && (pieces.is_joined(index)
                || pieces.is(plus(index, 1), b"of")
                || pieces.is_back(index, 2, b"of")
                || pieces.is_back(index, 3, b"of"))
    }

    /// Whether the piece at an index is the digit that people write for a half or a quarter, joined to what
    /// is before it.
    fn is_digit(&self, index: usize, size: Size) -> bool {
        let pieces = &self.draft.pieces;
        pieces.number(index) == Some(size.digit())
            && pieces.has_digits(index, 1)
            && pieces.is_joined(index)
    }

    /// Whether the piece at an index continues a number.
    fn goes_on(&self, index: usize) -> bool {
        let pieces = &self.draft.pieces;
        pieces.is_joined(index)
            && ((pieces.is(index, b"/") || pieces.is(index, b"-"))
                || (pieces.is(index, b".")
                    && pieces.is_joined(plus(index, 1))
                    && pieces.number(plus(index, 1)).is_some()))
    }

    /// Whether an item ends before an index.
    fn is_end(&self, index: usize) -> bool {
        let pieces = &self.draft.pieces;
        index >= pieces.len()
            || (pieces.is(index, b",") || pieces.is(index, b";") || pieces.is(index, b"."))
            || pieces.begins_line(index)
    }
}

/// The rule by which the fraction of a step is written.
pub(crate) fn rule_of(size: Size) -> Rule {
    match size {
        Size::Half => Rule::Half,
        Size::Quarter => Rule::Quarter,
    }
}

/// Whether a piece of a kind is the fraction of a step, as it is in a description.
pub(crate) fn is_written(size: Size, kind: Kind) -> bool {
    match size {
        Size::Half => matches!(kind, Kind::Half),
        Size::Quarter => matches!(kind, Kind::Quarter),
    }
}
