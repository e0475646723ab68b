//! Several sections with the same parts, as in `Secs. 14, 15: NE`.

use crate::arranged::plan::Plan;
use twp_asides::plus;
use twp_draft::{PhraseKind, Placed, Role};
use twp_grammar::Kind;

impl<'a> Plan<'a> {
    /// Leaves out several sections before a colon, or the end of their cell, and aliquot parts, which are for
    /// each of them, and are written after each.
    pub(crate) fn share_sections(&mut self, list: &mut Vec<Placed>) {
        let mut shared: Option<usize> = None;
        // How many sections share parts, and how many parts: as many may be one for each.
        let mut sections: usize = 0;
        let mut parts: usize = 0;
        for index in 0..list.len() {
            let Some(placed) = list.get(index) else {
                break;
            };
            match placed.phrase.kind {
                PhraseKind::Sections => {
                    let phrase = placed.phrase;
                    if parts > 0 && parts == sections {
                        self.draft.doubt();
                    }
                    sections = self.count_of(phrase);
                    parts = 0;
                    let is_shared = self.count_of(phrase) > 1
                        && !self.has_range(phrase)
                        && (matches!(self.draft.pieces.kind(phrase.end), Kind::Colon)
                            || self.draft.pieces.has_before(phrase.end, b'\t'));
                    shared = if is_shared { Some(index) } else { None };
                }
                PhraseKind::Nothing(_) | PhraseKind::Heading => {}
                kind => {
                    if let (Some(sections), PhraseKind::Part) = (shared, kind) {
                        share(list, sections, index);
                    }
                    parts = plus(parts, usize::from(shared.is_some() || parts > 0));
                    shared = None;
                }
            }
        }
        if parts > 0 && parts == sections {
            self.draft.doubt();
        }
    }
}

/// Leaves out sections, which are written before a part, each with it.
fn share(list: &mut Vec<Placed>, sections: usize, part: usize) {
    let Some(phrase) = list.get(sections).map(|placed| placed.phrase) else {
        return;
    };
    if let Some(placed) = list.get_mut(sections) {
        placed.role = Role::LeftOut;
    }
    if let Some(placed) = list.get_mut(part) {
        placed.section = Some(phrase.numbers);
    }
}
