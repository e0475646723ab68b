//! All of a section: `ALL`, `all public domain lands in`, `entire section`.

use crate::finder::Finder;
use crate::parts::ReadPart;
use twp_asides::plus;
use twp_draft::{LeftOut, PhraseKind};
use twp_grammar::Kind;
use twp_rules::Rule;
use twp_words::is_of_domain;

impl<'a> Finder<'a> {
    /// All of a section, at an index.
    #[inline(never)]
    pub(crate) fn all(&mut self, index: usize) -> Option<usize> {
        let from = self.draft.checkpoint();
        let mut next = index;
        if self.draft.pieces.is(next, b"the") {
            self.draft.leave_out(next, plus(next, 1), Rule::Word);
            next = plus(next, 1);
        }
        if self.draft.pieces.is(next, b"entire")
            && self.draft.pieces.is(plus(next, 1), b"section")
        {
            self.draft.replace(next, b"all", Rule::Word);
            self.draft
                .leave_out(plus(next, 1), plus(next, 2), Rule::Word);
            return Some(self.draft.add(PhraseKind::All, index, plus(next, 2), from));
        }
        if (self.draft.pieces.is(next, b"whole") || self.draft.pieces.is(next, b"entirety"))
            && self.draft.pieces.is(plus(next, 1), b"of")
        {
            self.draft.replace(next, b"all", Rule::Word);
            return Some(self.draft.add(PhraseKind::All, index, plus(next, 1), from));
        }
        if self.draft.pieces.is(next, b"everything") && self.after_except(plus(next, 1)).is_some() {
            self.draft.replace(next, b"all", Rule::Word);
            return Some(self.draft.add(PhraseKind::All, index, plus(next, 1), from));
        }
        if !matches!(self.draft.pieces.kind(next), Kind::All)
            || !self.draft.pieces.may_be_land(next)
        {
            return None;
        }
        next = plus(next, 1);
        if self.draft.pieces.is(next, b"of") && self.draft.pieces.begins_part(plus(next, 1)) {
            self.draft.leave_out_each(index, plus(next, 1), Rule::Word);
            let ReadPart { end, form, .. } = self.part(plus(next, 1))?;
            self.draft.add(PhraseKind::Part, index, end, from);
            self.draft.note_form(form);
            return Some(end);
        }
        if self.draft.pieces.is(next, b"entire")
            && self.draft.pieces.is(plus(next, 1), b"section")
        {
            self.draft.leave_out_each(next, plus(next, 2), Rule::Word);
            next = plus(next, 2);
        }
        next = self.after_lands(next);
        // Sections from one to another are whole, and so they stay where they are.
        let kind = if self.draft.pieces.is_before_range(next) {
            PhraseKind::Nothing(LeftOut::Word)
        } else {
            PhraseKind::All
        };
        Some(self.draft.add(kind, index, next, from))
    }

    /// The index after `public domain lands`, or words like it, before `in` or `of`, which are left out.
    fn after_lands(&mut self, index: usize) -> usize {
        let mut next = index;
        for place in index..plus(index, 5) {
            if is_of_domain(self.draft.pieces.lower(place)) && place == next {
                next = plus(place, 1);
            }
        }
        if next == index
            || !(self.draft.pieces.is(next, b"in") || self.draft.pieces.is(next, b"of"))
        {
            return index;
        }
        self.draft.leave_out_each(index, next, Rule::Word);
        next
    }
}
