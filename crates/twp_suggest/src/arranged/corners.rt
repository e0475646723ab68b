//! Corners without a fraction before parts with one, as in `SE and SW 1/4 SW 1/4`.

use crate::arranged::plan::Plan;
use twp_asides::plus;
use twp_draft::{Phrase, PhraseKind};
use twp_grammar::Kind;

impl<'a> Plan<'a> {
    /// Whether a corner lacks its fraction, which the part after it has: the fraction may be for both, and so
    /// may the steps after it.
    pub(crate) fn has_corner_without_fraction(&self) -> bool {
        let phrases = self.draft.phrases.as_slice();
        for index in 0..phrases.len() {
            let (Some(corner), Some(part)) = (phrases.get(index), phrases.get(plus(index, 1)))
            else {
                break;
            };
            let (corner, part) = (&corner.phrase, &part.phrase);
            let is_list = part.first == plus(corner.end, 1);
            if is_list && self.is_bare_corner(*corner) && self.begins_with_fraction(*part) {
                let goes_on = match phrases.get(plus(index, 2)) {
                    Some(more) => {
                        more.phrase.kind == PhraseKind::Part && more.phrase.first == part.end
                    }
                    None => false,
                };
                if goes_on || self.draft.steps_of(*part).len() > 1 {
                    return true;
                }
            }
        }
        false
    }

    /// Whether a phrase is a corner without its fraction.
    fn is_bare_corner(&self, phrase: Phrase) -> bool {
        phrase.kind == PhraseKind::Part
            && self.draft.steps_of(phrase).len() == 1
            && matches!(
                self.draft.pieces.kind_before(phrase.end),
                Some(Kind::Corner(_))
            )
    }

    /// Whether a phrase is a part that begins with a corner and its fraction.
    fn begins_with_fraction(&self, phrase: Phrase) -> bool {
        let pieces = &self.draft.pieces;
        let first = plus(phrase.first, usize::from(pieces.is(phrase.first, b"the")));
        phrase.kind == PhraseKind::Part
            && matches!(pieces.kind(first), Kind::Corner(_))
            && matches!(
                pieces.kind(plus(first, 1)),
                Kind::Quarter | Kind::Number(_) | Kind::BadByte
            )
    }
}
