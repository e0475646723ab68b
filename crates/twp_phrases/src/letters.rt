//! Letters and hyphens that say that a number is that of a section: `S9: ALL`, `| S9 |`, `14-NENE; 15-S2`.

use crate::finder::Finder;
use twp_asides::plus;
use twp_draft::PhraseKind;

impl<'a> Finder<'a> {
    /// Whether the letter and the number at an index fill a cell after a township, and no half has
    /// such a number.
    pub(crate) fn is_letter_in_cell(&self, index: usize) -> bool {
        let pieces = &self.draft.pieces;
        let digits = plus(index, 1);
        let may_be_half = pieces.is(digits, b"2") || pieces.is(digits, b"4");
        self.draft.last_kind() == Some(PhraseKind::Heading)
            && pieces.begins_cell(index)
            && pieces.begins_cell(plus(digits, 1))
            && !may_be_half
    }

    /// Whether the letter and the number at an index are before a colon and land, and no half has
    /// such a number.
    pub(crate) fn is_letter_before_colon(&self, index: usize) -> bool {
        let pieces = &self.draft.pieces;
        let digits = self.digits_of_letter(index);
        let colon = plus(digits, 1);
        let may_be_half = digits == plus(index, 1)
            && (pieces.is(digits, b"2") || pieces.is(digits, b"4") || pieces.is(digits, b"12"));
        pieces.is(colon, b":")
            && !may_be_half
            && (pieces.begins_land(plus(colon, 1)) || pieces.is(plus(colon, 1), b"l"))
    }

    /// Whether the number at an index, of two digits, begins an item with a hyphen and land after
    /// it, after a semicolon and the land of a section with a hyphen, as in
    /// `14-NENE; 15-S2; 22-ALL`.
    pub(crate) fn is_next_item(&self, index: usize) -> bool {
        let pieces = &self.draft.pieces;
        let next = plus(index, 1);
        let Some(section) = self.draft.last_section else {
            return false;
        };
        let is_dashed = pieces.is_dash(plus(section.first, 1)) && pieces.is_dash(next);
        let is_after_land = matches!(
            self.draft.last_kind(),
            Some(PhraseKind::Part | PhraseKind::All | PhraseKind::Lots)
        );
        is_dashed
            && is_after_land
            && section.numbers.end == plus(section.numbers.first, 1)
            && pieces.follows(index, b";")
            && pieces.has_digits(index, 2)
            && !pieces.is_joined(index)
            && pieces.begins_land(plus(next, 1))
    }
}
