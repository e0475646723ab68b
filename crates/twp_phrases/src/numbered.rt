//! The numbers of several sections or lots, and what joins them: `8, 9 & 10`, `1-4`, `1 thru 4, incl.`

use crate::finder::Finder;
use crate::sections::SECTIONS;
use twp_asides::{plus, tens_of};
use twp_draft::{PhraseKind, WrittenNumber};
use twp_grammar::Kind;
use twp_rules::Rule;

/// What joins a number to the one before it.
#[derive(Clone, Copy, PartialEq, Eq)]
pub(crate) enum Join {
    Nothing,
    Comma,
    And,
    To,
    Dash,
}

/// A join, and the index after it.
#[derive(Clone, Copy)]
pub(crate) struct Joined {
    pub(crate) join: Join,
    pub(crate) end: usize,
}

/// A number up to this may be that of a lot, and not only acreage.
const LOTS: u16 = 20;

impl<'a> Finder<'a> {
    /// Writes the numbers that follow one, and what joins them: the index after the last one.
    pub(crate) fn numbers_after(
        &mut self,
        number: WrittenNumber,
        kind: PhraseKind,
        is_plural: bool,
    ) -> usize {
        if self.draft.pieces.is_figure_with_decimals(number.last) {
            self.draft.doubt();
        }
        let mut last = number;
        let mut end = self.after_acreage(number.end, kind);
        for _ in 0..self.draft.pieces.len() {
            if kind == PhraseKind::Lots && self.draft.pieces.end_of_dashed_acreage(end).is_some() {
                break;
            }
            let is_list = kind == PhraseKind::Lots && is_plural;
            let joined = match self.join_at(end) {
                None if is_list => self.join_of_lots(end, last),
                found => found,
            };
            let Some(Joined { join, end: next }) = joined else {
                break;
            };
            let Some(more) = self.draft.numeral(next) else {
                break;
            };
            if self.draft.pieces.is_figure_with_decimals(next)
                || self.draft.pieces.end_of_acreage(next).is_some()
            {
                // A point may be a comma, as in `9, 10.11`.
                let has_point = self.draft.pieces.is_figure_with_decimals(next);
                let may_be_more = match kind {
                    PhraseKind::Sections => more.value <= SECTIONS,
                    _ => is_list && (!has_point || more.value <= LOTS),
                };
                if may_be_more {
                    self.draft.doubt();
                }
                break;
            }
            if !self.continues(more, join, kind, is_plural) {
                break;
            }
            if matches!(join, Join::To | Join::Dash) && more.value <= last.value {
                self.draft.doubt();
            }
            if kind == PhraseKind::Sections && !is_plural && join == Join::Comma {
                self.draft.doubt();
            }
            if self.may_be_unit(last, more, join) || self.may_number_row(next) {
                self.draft.doubt();
            }
            self.write_join(end, next, join);
            self.draft.write_numeral(more);
            last = more;
            end = self.after_acreage(more.end, kind);
            end = self.after_inclusive(end, join);
        }
        end
    }

    /// Whether a number may be the unit of the one before it, as in `thirty and one`, or `twenty, one`.
    fn may_be_unit(&self, last: WrittenNumber, more: WrittenNumber, join: Join) -> bool {
        let pieces = &self.draft.pieces;
        let is_word = matches!(pieces.kind(more.first), Kind::Other);
        let is_joined = join == Join::And || (join == Join::Comma && is_word);
        is_joined && more.value < 10 && tens_of(pieces.lower(last.first)).is_some()
    }

    /// Whether a number at the beginning of a line may be that of a row: it is in a cell of its own, or a
    /// section follows it, and another one is before it.
    fn may_number_row(&self, index: usize) -> bool {
        let pieces = &self.draft.pieces;
        let next = plus(index, 1);
        let is_before_section = matches!(pieces.kind(next), Kind::Sec)
            && self.draft.last_section.is_some();
        pieces.begins_line(index) && (pieces.has_before(next, b'\t') || is_before_section)
    }

    /// What joins the numbers before an index and after it.
    pub(crate) fn join_at(&self, index: usize) -> Option<Joined> {
        let pieces = &self.draft.pieces;
        let next = plus(index, 1);
        match pieces.kind(index) {
            Kind::And => Some(Joined {
                join: Join::And,
                end: next,
            }),
            Kind::To => Some(Joined {
                join: Join::To,
                end: next,
            }),
            Kind::Comma => {
                let end = if pieces.is(next, b"and") || pieces.is(next, b"&") {
                    plus(next, 1)
                } else {
                    next
                };
                Some(Joined {
                    join: Join::Comma,
                    end,
                })
            }
            _ if pieces.is(index, b"&") => Some(Joined {
                join: Join::And,
                end: next,
            }),
            _ if pieces.is_dash(index) => Some(Joined {
                join: Join::Dash,
                end: next,
            }),
            _ => None,
        }
    }

    /// Whether a number after a join is one more of the same, and not the number of another section.
    pub(crate) fn continues(
        &self,
        more: WrittenNumber,
        join: Join,
        kind: PhraseKind,
        is_plural: bool,
    ) -> bool {
        let pieces = &self.draft.pieces;
        let after = more.end;
        let is_location = pieces.is_joined(after)
            && (pieces.is_north_south(after)
                || pieces.is_east_west(after)
                || (pieces.is(after, b"nr") || pieces.is(after, b"sr")));
        if is_location
            || (kind == PhraseKind::Sections && more.value > SECTIONS)
            || more.value == 0
        {
            return false;
        }
        let before_colon = matches!(pieces.kind(after), Kind::Colon);
        let is_apart = before_colon && join == Join::Comma;
        match kind {
            PhraseKind::Sections => !is_apart || is_plural,
            _ => !before_colon,
        }
    }

    /// Writes what joins two numbers, where it isn't written so.
    fn write_join(&mut self, index: usize, next: usize, join: Join) {
        if join == Join::Nothing {
            let place = self.draft.pieces.end_before(index);
            self.draft.write(place, place, b",", Rule::Comma);
        } else if join == Join::Dash {
            self.draft.replace(index, b" thru ", Rule::Through);
        } else if self.draft.pieces.is(index, b"&") {
            self.draft.replace(index, b" and ", Rule::And);
        } else if next > plus(index, 1) && self.draft.pieces.is(plus(index, 1), b"&") {
            self.draft.replace(plus(index, 1), b" and ", Rule::And);
        }
    }

    /// The index after `inclusive`, if it follows a range.
    fn after_inclusive(&mut self, index: usize, join: Join) -> usize {
        let pieces = &self.draft.pieces;
        if !matches!(join, Join::To | Join::Dash) {
            return index;
        }
        let word = if matches!(pieces.kind(index), Kind::Comma) {
            plus(index, 1)
        } else {
            index
        };
        if matches!(pieces.kind(word), Kind::Inclusive) {
            return plus(word, 1);
        }
        if !pieces.is(word, b"incl") {
            return index;
        }
        if word > index {
            self.draft.leave_out(index, word, Rule::Mark);
        }
        self.draft.leave_out(word, plus(word, 1), Rule::Word);
        let mark = plus(word, 1);
        if self.draft.pieces.is(mark, b".") && self.draft.pieces.is_joined(mark) {
            self.draft.leave_out(mark, plus(mark, 1), Rule::Mark);
            return plus(mark, 1);
        }
        mark
    }
}
