//! Numbers between parts, which may be those of sections.

use crate::finder::Finder;
use crate::unread::{AMBIGUOUS_MOST, Ambiguity, AmbiguousPhrase, place_of};
use std::alloc::AllocError;
use twp_asides::plus;
use twp_draft::PhraseKind;

impl<'a> Finder<'a> {
    /// Notes the numbers after parts that are no sections, since no word, mark, or township says so.
    pub(crate) fn note_bare_sections(
        &self,
        ambiguous: &mut Vec<AmbiguousPhrase>,
    ) -> Result<(), AllocError> {
        for index in 0..self.draft.phrases.len() {
            if ambiguous.len() >= AMBIGUOUS_MOST {
                break;
            }
            let Some(placed) = self.draft.phrases.get(index) else {
                break;
            };
            if self.is_bare_after_part(index) {
                let place = place_of(&self.draft.pieces, placed.phrase);
                let ambiguity = Ambiguity::NumberOrFigure;
                ambiguous.push(AmbiguousPhrase { place, ambiguity })?;
            }
        }
        Ok(())
    }

    /// Whether the phrase at an index is a number after a part, and nothing says that it is that of
    /// a section.
    fn is_bare_after_part(&self, index: usize) -> bool {
        let Some(placed) = self.draft.phrases.get(index) else {
            return false;
        };
        let phrase = placed.phrase;
        let pieces = &self.draft.pieces;
        let is_number = pieces.number(phrase.first).is_some();
        let is_marked = pieces.is(phrase.end, b":")
            || pieces.is_dash(phrase.end)
            || pieces.follows(phrase.first, b"of");
        let is_after_part = match index.checked_sub(1) {
            Some(before) => self.is_part_up_to(before, phrase.first),
            None => false,
        };
        matches!(phrase.kind, PhraseKind::Sections)
            && is_number
            && !is_marked
            && is_after_part
            && self.kind_at(plus(index, 1)) != Some(PhraseKind::Heading)
    }

    /// Whether the phrase at an index is a part, and ends before a piece, with at most a mark between them.
    fn is_part_up_to(&self, index: usize, piece: usize) -> bool {
        match self.draft.phrases.get(index) {
            Some(placed) => {
                matches!(placed.phrase.kind, PhraseKind::Part)
                    && piece <= plus(placed.phrase.end, 1)
            }
            None => false,
        }
    }

    /// The kind of the phrase at an index.
    fn kind_at(&self, index: usize) -> Option<PhraseKind> {
        match self.draft.phrases.get(index) {
            Some(placed) => Some(placed.phrase.kind),
            None => None,
        }
    }
}
