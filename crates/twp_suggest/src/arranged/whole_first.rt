//! `all of` before the first section, where land follows the other sections, as in
//! `all of secs. 4 and 5; sec. 10, W1/2`.

use crate::arranged::plan::Plan;
use twp_asides::plus;
use twp_draft::{LeftOut, PhraseKind, Placed, Role};
use twp_grammar::Kind;

impl<'a> Plan<'a> {
    /// Takes `all` before `of` and the first section for a word that means nothing, if the last
    /// phrase is of land: then the land of each section follows it, and the first one has none.
    pub(crate) fn leave_out_first_all(&mut self) {
        let Some(index) = self.first_all() else {
            return;
        };
        if let Some(placed) = self.draft.phrases.get_mut(index) {
            placed.phrase.kind = PhraseKind::Nothing(LeftOut::Word);
            placed.role = Role::LeftOut;
        }
    }

    /// The index of such a phrase.
    fn first_all(&self) -> Option<usize> {
        let phrases = self.draft.phrases.as_slice();
        let index = first_of(phrases, PhraseKind::All)?;
        let all = phrases.get(index)?.phrase;
        let section = phrases.get(plus(index, 1))?.phrase;
        let other = phrases.get(plus(index, 2))?.phrase;
        let is_before_other = section.kind == PhraseKind::Sections
            && other.kind == PhraseKind::Sections
            && matches!(self.draft.pieces.kind(all.end), Kind::Of)
            && section.first == plus(all.end, 1);
        if is_before_other && ends_with_land(phrases) {
            Some(index)
        } else {
            None
        }
    }
}

impl<'a> Plan<'a> {
    /// Whether the first sections are whole, and all other land is before its own section, as in
    /// `Sections 13 and 24 and the E/2 of Section 14`: `and` joins it to the first ones, and `of`
    /// is before each further section.
    pub(crate) fn are_whole_before_land(&self, list: &[Placed]) -> bool {
        let mut end = None;
        let mut has_land = false;
        for placed in list {
            let phrase = placed.phrase;
            match (phrase.kind, end) {
                (PhraseKind::Nothing(_) | PhraseKind::Heading, _) => {}
                (PhraseKind::Sections, None) => end = Some(phrase.end),
                (PhraseKind::Part | PhraseKind::Lots, Some(end)) if !has_land => {
                    if !self.has_kind(end, phrase.first, Kind::And)
                        && !self.draft.pieces.is(end, b"&")
                    {
                        return false;
                    }
                    has_land = true;
                }
                (PhraseKind::Part | PhraseKind::Lots, Some(_)) => {}
                (PhraseKind::Sections, Some(_)) if has_land => {
                    if !self.draft.pieces.follows(phrase.first, b"of") {
                        return false;
                    }
                }
                _ => return false,
            }
        }
        has_land && !ends_with_land(list)
    }
}

/// The index of the first phrase that isn't left out, or a township, if it names this.
fn first_of(phrases: &[Placed], kind: PhraseKind) -> Option<usize> {
    for index in 0..phrases.len() {
        let found = phrases[index].phrase.kind;
        if !matches!(found, PhraseKind::Nothing(_) | PhraseKind::Heading) {
            return if found == kind { Some(index) } else { None };
        }
    }
    None
}

/// Whether the last phrase that isn't left out, or a township, is of land.
fn ends_with_land(phrases: &[Placed]) -> bool {
    for placed in phrases.iter().rev() {
        match placed.phrase.kind {
            PhraseKind::Nothing(_) | PhraseKind::Heading => {}
            PhraseKind::Part | PhraseKind::Lots => return true,
            _ => return false,
        }
    }
    false
}
