//! The numbers of parcels, in which a township and a section are written, as in `RP02N03W092400`.

use crate::arranged::plan::Plan;
use twp_asides::{plus, value_of};
use twp_draft::{IndexRange, LeftOut, PhraseKind};
use twp_grammar::Kind;

impl<'a> Plan<'a> {
    /// Whether the number of a parcel has another township or section than the text.
    pub(crate) fn has_other_parcel(&self) -> bool {
        for placed in &self.draft.phrases {
            let phrase = &placed.phrase;
            if phrase.kind != PhraseKind::Nothing(LeftOut::Label) {
                continue;
            }
            for index in phrase.first..phrase.end {
                if self.is_parcel(index) && self.is_elsewhere(index) {
                    return true;
                }
            }
        }
        false
    }

    /// Whether a township and a section are at an index, without white space.
    fn is_parcel(&self, index: usize) -> bool {
        let pieces = &self.draft.pieces;
        let range = plus(index, 2);
        let digits = plus(index, 4);
        pieces.number(index).is_some()
            && pieces.is_north_south(plus(index, 1))
            && pieces.number(range).is_some()
            && pieces.is_east_west(plus(index, 3))
            && matches!(pieces.kind(digits), Kind::Number(_) | Kind::BadNumber)
            && pieces.is_joined(plus(index, 1))
            && pieces.is_joined(range)
            && pieces.is_joined(digits)
    }

    /// Whether the township and the section at an index aren't those of the text.
    fn is_elsewhere(&self, index: usize) -> bool {
        let pieces = &self.draft.pieces;
        let digits = pieces.bytes(plus(index, 4));
        let section = value_of(digits.get(..2).unwrap_or(digits));
        let mut is_found = false;
        let mut has_section = false;
        for placed in &self.draft.phrases {
            let phrase = &placed.phrase;
            match phrase.kind {
                PhraseKind::Heading => {
                    let is_tier = self.tier_of(*phrase, 0).map(|tier| tier.0)
                        == pieces.number(index);
                    let is_range = self.tier_of(*phrase, 1).map(|tier| tier.0)
                        == pieces.number(plus(index, 2));
                    if !is_tier || !is_range {
                        return true;
                    }
                }
                PhraseKind::Sections => {
                    has_section = true;
                    is_found = is_found || self.has_number(phrase.numbers, section);
                }
                _ => {}
            }
        }
        has_section && !is_found
    }

    /// Whether a number is among some.
    fn has_number(&self, numbers: IndexRange, value: u16) -> bool {
        let numbers = self.draft.numbers.get(numbers.first..numbers.end);
        for number in numbers.unwrap_or(&[]) {
            if number.value == value {
                return true;
            }
        }
        false
    }
}
