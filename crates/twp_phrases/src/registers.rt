//! Rows of registers: `08 0020N 0030W 014 ALIQ NENE`, `ID 8 2N 3W 14 A NENE`, `ID080020N0030W0SN140 ANENE`.

use crate::finder::Finder;
use twp_asides::plus;
use twp_draft::{LeftOut, PhraseKind, WrittenNumber};
use twp_grammar::Kind;
use twp_rules::Rule;

impl<'a> Finder<'a> {
    /// What only a register has, at an index: the code of the meridian, a section after SN, the A of aliquot
    /// parts.
    #[inline(never)]
    pub(crate) fn of_register(&mut self, index: usize) -> Option<usize> {
        if let Some(end) = self.meridian_of_register(index) {
            return Some(end);
        }
        if let Some(end) = self.letter_of_register(index) {
            return Some(end);
        }
        if self.draft.last_kind() == Some(PhraseKind::Heading) && self.ends_code(index) {
            let from = self.draft.checkpoint();
            let kind = PhraseKind::Nothing(LeftOut::Label);
            return Some(self.draft.add(kind, index, plus(index, 1), from));
        }
        self.section_of_register(index)
    }

    /// Whether the 0 that ends the code of a township is at an index, as in `ID080020N0030W0`: it
    /// is no duplicate.
    pub(crate) fn ends_code(&self, index: usize) -> bool {
        let pieces = &self.draft.pieces;
        pieces.is(index, b"0")
            && pieces.is_joined(index)
            && (!pieces.is_joined(plus(index, 1))
                || pieces.is(plus(index, 1), b";")
                || pieces.is(plus(index, 1), b","))
            && matches!(index.checked_sub(2), Some(range) if pieces.has_digits(range, 4))
    }

    /// The code of the meridian, before a township and range.
    fn meridian_of_register(&mut self, index: usize) -> Option<usize> {
        let from = self.draft.checkpoint();
        let last = self.draft.last_kind();
        let pieces = &self.draft.pieces;
        let next = plus(index, 1);
        if pieces.is_meridian_cell(index) {
            let kind = PhraseKind::Nothing(LeftOut::Meridian);
            return Some(self.draft.add(kind, index, next, from));
        }
        let is_code = pieces.has_digits(index, 1) || pieces.has_digits(index, 2);
        let is_after_label = last == Some(PhraseKind::Nothing(LeftOut::Label));
        let tier = if pieces.is(next, b"t") {
            plus(next, 1)
        } else {
            next
        };
        let is_after_row = pieces.follows(index, b";");
        let is_row = (pieces.begins_line(index) || is_after_label || is_after_row)
            && pieces.has_digits(tier, 4);
        let is_after_state = last == Some(PhraseKind::Nothing(LeftOut::Meridian));
        if !is_code || !(is_row || is_after_state) || !self.end_of_heading(next).is_some() {
            return None;
        }
        let kind = PhraseKind::Nothing(LeftOut::Meridian);
        Some(self.draft.add(kind, index, next, from))
    }

    /// The A before aliquot parts, after a section.
    #[inline(never)]
    pub(crate) fn letter_of_register(&mut self, index: usize) -> Option<usize> {
        let pieces = &self.draft.pieces;
        let next = plus(index, 1);
        let is_before_part = match pieces.kind(pieces.after_quoted_cell(next)) {
            Kind::NorthSouth(_) | Kind::EastWest(_) | Kind::Corner(_) | Kind::Other => true,
            _ => false,
        };
        if !pieces.is(index, b"a")
            || !is_before_part
            || next >= pieces.len()
            || self.draft.last_kind() != Some(PhraseKind::Sections)
        {
            return None;
        }
        let from = self.draft.checkpoint();
        Some(
            self.draft
                .add(PhraseKind::Nothing(LeftOut::Heading), index, next, from),
        )
    }

    /// The section after SN, whose number has a digit more.
    fn section_of_register(&mut self, index: usize) -> Option<usize> {
        let from = self.draft.checkpoint();
        let last = self.draft.last_kind();
        let pieces = &self.draft.pieces;
        let digits = plus(index, 2);
        let is_section = pieces.is(index, b"0")
            && pieces.is(plus(index, 1), b"sn")
            && pieces.has_digits(digits, 3)
            && last == Some(PhraseKind::Heading);
        let value = pieces.number(digits).unwrap_or(0);
        if !is_section || value % 10 != 0 || value == 0 || value > 360 {
            return None;
        }
        let word = pieces.start(index);
        let start = pieces.start(digits);
        self.draft.write(word, start, b", sec. ", Rule::Heading);
        if value < 100 {
            self.draft.leave_out_front(digits, 1, Rule::Zeros);
        }
        self.draft.leave_out_last(digits, Rule::FractionDigit);
        let next = plus(index, 3);
        self.draft.add_number(WrittenNumber {
            value: value / 10,
            first: digits,
            last: digits,
            end: next,
        });
        Some(self.draft.add(PhraseKind::Sections, index, next, from))
    }
}
