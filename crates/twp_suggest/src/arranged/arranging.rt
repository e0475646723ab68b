//! How the phrases of a text go together: which land belongs to which section, and what is left out or moved.

use crate::arranged::plan::Plan;
use std::alloc::{AllocError, Global};
use std::mem;
use twp_asides::plus;
use twp_draft::{IndexRange, Phrase, PhraseKind, Placed, Role};
use twp_grammar::Kind;

impl<'a> Plan<'a> {
    /// The phrases with what becomes of them. They are no longer in the draft.
    pub fn arranged(&mut self, alloc: Global) -> Result<Vec<Placed>, AllocError> {
        let first = self.first_of_land();
        let mut list = mem::replace(&mut self.draft.phrases, Vec::new(alloc));
        if self.counts.headings > 0 {
            self.place_headings(&mut list);
        }
        if self.counts.lists > 0 {
            self.share_sections(&mut list);
        }
        let has_except = self.counts.exceptions > 0;
        if has_except {
            self.doubt_exceptions(list.as_slice());
            self.doubt_part_after_lots(list.as_slice());
        }
        match first {
            Some(PhraseKind::Sections) if self.are_whole_before_land(list.as_slice()) => {
                self.place_land_before(&mut list)
            }
            Some(PhraseKind::Sections) => self.place_land_after(&mut list),
            Some(_) => self.place_land_before(&mut list),
            None => self.draft.doubt(),
        }
        if has_except {
            self.doubt_whole_exceptions(list.as_slice());
        }
        Ok(list)
    }

    /// What the first phrase of a section and its land names.
    fn first_of_land(&self) -> Option<PhraseKind> {
        for placed in &self.draft.phrases {
            let phrase = &placed.phrase;
            if !matches!(phrase.kind, PhraseKind::Nothing(_) | PhraseKind::Heading) {
                return Some(phrase.kind);
            }
        }
        None
    }

    /// Leaves out each township and range but the first phrase, and doubts different ones.
    fn place_headings(&mut self, list: &mut Vec<Placed>) {
        let mut first: Option<Phrase> = None;
        let mut is_first = true;
        let mut differ = false;
        for placed in list.iter_mut() {
            if placed.phrase.kind == PhraseKind::Heading {
                match first {
                    None => first = Some(placed.phrase),
                    Some(other) => differ = differ || !self.are_same_headings(other, placed.phrase),
                }
                if !is_first {
                    placed.role = Role::LeftOut;
                }
            }
            if !matches!(placed.phrase.kind, PhraseKind::Nothing(_)) {
                is_first = false;
            }
        }
        if differ {
            self.draft.doubt();
        }
    }

    /// Whether two phrases name the same township and range.
    fn are_same_headings(&self, one: Phrase, other: Phrase) -> bool {
        self.tier_of(one, 0) == self.tier_of(other, 0)
            && self.tier_of(one, 1) == self.tier_of(other, 1)
    }

    /// A number of a township and range, and the first letter of its side.
    pub fn tier_of(&self, heading: Phrase, index: usize) -> Option<(u16, u8)> {
        let number = self.draft.numbers.get(plus(heading.numbers.first, index))?;
        let side = self.draft.pieces.bytes(number.end).first()?;
        Some((number.value, side.to_ascii_uppercase()))
    }

    /// How many numbers a phrase has.
    pub(crate) fn count_of(&self, phrase: Phrase) -> usize {
        phrase.numbers.end.saturating_sub(phrase.numbers.first)
    }

    /// The number of a phrase, if it has only one.
    pub fn only_number(&self, numbers: IndexRange) -> Option<u16> {
        match self.draft.numbers.get(numbers.first..numbers.end) {
            Some([number]) => Some(number.value),
            _ => None,
        }
    }

    /// Whether a range of numbers is in a phrase.
    pub(crate) fn has_range(&self, phrase: Phrase) -> bool {
        let pieces = &self.draft.pieces;
        for index in phrase.first..phrase.end {
            if matches!(pieces.kind(index), Kind::To) || pieces.is_dash(index) {
                return true;
            }
        }
        false
    }

    /// Whether two phrases name the same section, and no others.
    pub(crate) fn is_same_section(&self, one: Phrase, other: Phrase) -> bool {
        let number = self.only_number(one.numbers);
        number.is_some() && number == self.only_number(other.numbers)
    }

    /// Whether a piece of a kind is among some pieces.
    pub(crate) fn has_kind(&self, first: usize, end: usize, kind: Kind) -> bool {
        for index in first..end {
            if self.draft.pieces.kind(index) == kind {
                return true;
            }
        }
        false
    }
}
