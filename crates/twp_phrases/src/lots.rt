//! Lots, with their numbers: `Lots 1-4`, `L2`, `Gov't Lots 3 & 4`.

use crate::finder::Finder;
use crate::numbered::{Join, Joined};
use twp_asides::plus;
use twp_draft::{PhraseKind, WrittenNumber};
use twp_grammar::Kind;
use twp_rules::Rule;

/// So many acres, and less than one more, may be those of a part of a lot.
const LEAST: u16 = 2;

impl<'a> Finder<'a> {
    /// The lots at an index.
    pub(crate) fn lots(&mut self, index: usize) -> Option<usize> {
        let from = self.draft.checkpoint();
        let Some(next) = self.lot_word(index) else {
            return None;
        };
        let Some(number) = self.draft.numeral(next) else {
            return None;
        };
        if number.value == 0
            || (self.draft.pieces.is_joined(number.end)
                && self.draft.pieces.kind(number.end) == Kind::Other)
        {
            return None;
        }
        self.draft.write_numeral(number);
        let is_plural = self.draft.pieces.follows(next, b"lots")
            || self.draft.pieces.follows(next, b"lts")
            || self.draft.pieces.follows(next, b"iots")
            || self.is_before_row_of_lots(next);
        let end = self.numbers_after(number, PhraseKind::Lots, is_plural);
        Some(self.draft.add(PhraseKind::Lots, index, end, from))
    }

    /// Whether three or more numbers, each one more than the last, are at an index, after a letter
    /// for lots and white space: `L 1 2 3 4`, or `L 5 6 & 7`.
    fn is_before_row_of_lots(&self, index: usize) -> bool {
        let pieces = &self.draft.pieces;
        let second = plus(index, 1);
        let mark = plus(second, 1);
        let third = plus(
            mark,
            usize::from(pieces.is(mark, b"&") || pieces.is(mark, b"and")),
        );
        pieces.follows(index, b"l")
            && !pieces.is_joined(index)
            && self.is_next_digit(index, second)
            && self.is_next_digit(second, third)
    }

    /// Whether a digit that is one more than another follows white space.
    fn is_next_digit(&self, index: usize, next: usize) -> bool {
        let pieces = &self.draft.pieces;
        match (pieces.number(index), pieces.number(next)) {
            (Some(number), Some(more)) => {
                let after = plus(next, 1);
                let is_mark = matches!(pieces.kind(after), Kind::Comma | Kind::Semicolon);
                number.checked_add(1) == Some(more)
                    && pieces.has_digits(next, 1)
                    && !pieces.is_joined(next)
                    && (is_mark || !pieces.is_joined(after))
            }
            _ => false,
        }
    }

    /// Writes the word for lots at an index: the index after it.
    fn lot_word(&mut self, index: usize) -> Option<usize> {
        let pieces = &self.draft.pieces;
        let mut word = index;
        if pieces.is(word, b"the") {
            word = plus(word, 1);
        }
        word = self.after_government(word);
        let written = self.written_lot(word);
        if !matches!(pieces.kind(word), Kind::Lot) && written.is_none() {
            return None;
        }
        self.draft.leave_out_each(index, word, Rule::LotWord);
        if let Some(written) = written {
            self.draft.replace(word, written, Rule::LotWord);
        }
        let mut next = plus(word, 1);
        if let Some(value) = self.draft.pieces.after_bar_and_name(next, b"secdivno") {
            self.leave_out_name(next);
            return Some(value);
        }
        if let Some(value) = self.draft.pieces.after_quoted_name(next) {
            self.draft.leave_out_each(next, value, Rule::Mark);
            return Some(value);
        }
        if self.is_before_tract(next) {
            self.draft.leave_out(next, plus(next, 1), Rule::Mark);
            self.draft
                .leave_out(plus(next, 1), plus(next, 2), Rule::LotWord);
            return Some(plus(next, 2));
        }
        for place in next..plus(next, 3) {
            if place == next && self.is_before_number(place) {
                self.draft.replace(place, b"", Rule::LotWord);
                next = plus(place, 1);
            }
        }
        Some(next)
    }

    /// Whether the rest of the name of a column for lots and tracts is at an index, as in
    /// `Lot/Trct 6`: a tract of a resurvey has a larger number than a lot.
    fn is_before_tract(&self, index: usize) -> bool {
        let pieces = &self.draft.pieces;
        let tract = plus(index, 1);
        pieces.is(index, b"/")
            && pieces.is(tract, b"trct")
            && pieces.is_joined(tract)
            && pieces.has_digits(plus(tract, 1), 1)
    }

    /// What is written for a word for lots that no description has.
    fn written_lot(&self, index: usize) -> Option<&'static [u8]> {
        let pieces = &self.draft.pieces;
        if pieces.is(index, b"l") || pieces.is(index, b"lt") || pieces.is(index, b"gl") {
            return Some(b"lot ");
        }
        if pieces.is(index, b"lts") {
            return Some(b"lots ");
        }
        if pieces.is(index, b"iots") {
            return Some(b"lots");
        }
        if pieces.is(index, b"iot") {
            return Some(b"lot");
        }
        None
    }

    /// Whether what may be between the word for lots and their numbers is at an index.
    fn is_before_number(&self, index: usize) -> bool {
        let pieces = &self.draft.pieces;
        pieces.is(index, b"numbered")
            || pieces.is(index, b".")
            || pieces.is(index, b"no")
            || pieces.is(index, b"nos")
            || pieces.is(index, b":")
            || pieces.is(index, b"#")
    }

    /// The index after the words for the government at an index.
    pub(crate) fn after_government(&self, index: usize) -> usize {
        let pieces = &self.draft.pieces;
        let mut next = index;
        if pieces.is(next, b"u") && pieces.is(plus(next, 2), b"s") {
            next = plus(next, 3);
            if pieces.is(next, b".") {
                next = plus(next, 1);
            }
        }
        if matches!(pieces.kind(next), Kind::Lot) {
            return next;
        }
        if pieces.is(next, b"government") || pieces.is(next, b"govt") {
            let mark = plus(next, 1);
            return if pieces.is(mark, b".") {
                plus(mark, 1)
            } else {
                mark
            };
        }
        if pieces.is(next, b"gov") {
            let mark = plus(next, 1);
            if pieces.is(mark, b"'") || pieces.is(mark, b"\xE2\x80\x99") {
                return plus(mark, 2);
            }
            return if pieces.is(mark, b".") {
                plus(mark, 1)
            } else {
                mark
            };
        }
        index
    }

    /// The index after the acreage of a lot in parentheses, which is left out.
    pub(crate) fn after_acreage(&mut self, index: usize, kind: PhraseKind) -> usize {
        if kind != PhraseKind::Lots {
            return index;
        }
        let Some(end) = self.end_of_lot_acreage(index) else {
            return index;
        };
        // So little may be a part of the lot.
        if self.draft.pieces.number(plus(index, 1)).unwrap_or(0) <= LEAST {
            self.draft.doubt();
        }
        self.draft.leave_out(index, end, Rule::Acreage);
        end
    }

    /// Where the acreage in parentheses at an index ends.
    fn end_of_lot_acreage(&self, index: usize) -> Option<usize> {
        let pieces = &self.draft.pieces;
        if !pieces.is(index, b"(") {
            return None;
        }
        let has_point = pieces.number(plus(index, 1)).is_some()
            && matches!(pieces.kind(plus(index, 2)), Kind::Stop)
            && pieces.number(plus(index, 3)).is_some();
        let unit = plus(index, 4);
        let close = if pieces.is(unit, b"acres") || pieces.is(unit, b"ac") {
            plus(unit, 1)
        } else {
            unit
        };
        if has_point && pieces.is(close, b")") {
            Some(plus(close, 1))
        } else {
            None
        }
    }

    /// White space between the number of a lot and that of the next one, after a word in the plural, as in
    /// `LTS 2 3`. Other lots may be the first and the last of several.
    pub(crate) fn join_of_lots(&self, index: usize, last: WrittenNumber) -> Option<Joined> {
        let pieces = &self.draft.pieces;
        let is_next = matches!(index.checked_sub(1), Some(before) if pieces.has_digits(before, 1))
            && pieces.number(index) == last.value.checked_add(1);
        // After the acreage of the lot in parentheses.
        let is_list = (is_next || pieces.follows(index, b")"))
            && pieces.has_digits(index, 1)
            && !pieces.has_break_before(index)
            && !pieces.is_joined(index)
            && !pieces.is_dash(plus(index, 1))
            && !pieces.is(plus(index, 1), b"/");
        if is_list {
            Some(Joined {
                join: Join::Nothing,
                end: index,
            })
        } else {
            None
        }
    }
}
