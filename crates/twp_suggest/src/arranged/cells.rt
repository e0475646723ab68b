//! Land in cells: whether the land in one of them may be a part of that in another.

use crate::arranged::plan::Plan;
use twp_asides::plus;
use twp_draft::{Phrase, PhraseKind, Placed};
use twp_grammar::Kind;

impl<'a> Plan<'a> {
    /// Whether two corners without a fraction are in cells of their own: the second may be a part of the
    /// first.
    pub(crate) fn are_bare_cells(&self, before: &Phrase, after: &Phrase) -> bool {
        let pieces = &self.draft.pieces;
        pieces.has_before(after.first, b'\t')
            && matches!(pieces.kind_before(before.end), Some(Kind::Corner(_)))
            && matches!(pieces.kind_before(after.end), Some(Kind::Corner(_)))
    }

    /// Whether two corners without a fraction are in cells of their own, with commas between the cells of
    /// their row, as in `2N,3W,14,NE,SE`: the second may be a part of the first.
    pub(crate) fn are_comma_cells(&self, before: &Phrase, after: &Phrase) -> bool {
        let pieces = &self.draft.pieces;
        let Some(comma) = before.first.checked_sub(1) else {
            return false;
        };
        self.is_after_cell(comma)
            && pieces.is(comma, b",")
            && pieces.is_joined(comma)
            && pieces.is_joined(before.first)
            && pieces.is_joined(before.end)
            && pieces.is_joined(after.first)
            && matches!(pieces.kind_before(before.end), Some(Kind::Corner(_)))
            && matches!(pieces.kind_before(after.end), Some(Kind::Corner(_)))
    }

    /// Whether the side of a range, or a number after the comma of another cell, is before an index.
    fn is_after_cell(&self, index: usize) -> bool {
        let pieces = &self.draft.pieces;
        let Some(last) = index.checked_sub(1) else {
            return false;
        };
        let is_number = pieces.number(last).is_some()
            && pieces.follows(last, b",")
            && matches!(last.checked_sub(1), Some(mark) if pieces.is_joined(mark));
        is_number || pieces.is_east_west(last)
    }

    /// Whether a bar between cells, or the quote around one, is at an index.
    pub(crate) fn is_edge_of_cell(&self, index: usize) -> bool {
        self.draft.pieces.is(index, b"|") || self.draft.pieces.is(index, b"\"")
    }

    /// Whether neither of two lands in cells of their own may be a part of the other: each is of
    /// lots, or has two steps or more; or the first is of lots, and the second in the cell for
    /// aliquot parts.
    pub(crate) fn are_whole_cells(
        &self,
        before: &Phrase,
        after: &Phrase,
        left_out: &[Placed],
    ) -> bool {
        let is_labelled = match left_out {
            [label] => self
                .draft
                .pieces
                .end_of_column_label(label.phrase.first)
                .is_some(),
            _ => false,
        };
        (is_whole_cell(before) && is_whole_cell(after))
            || (before.kind == PhraseKind::Lots && after.kind == PhraseKind::Part && is_labelled)
    }
}

/// Whether land in a cell is of lots, or a part of two steps or more.
fn is_whole_cell(land: &Phrase) -> bool {
    match land.kind {
        PhraseKind::Lots => true,
        PhraseKind::Part => land.steps.end > plus(land.steps.first, 1),
        _ => false,
    }
}
