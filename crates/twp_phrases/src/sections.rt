//! Sections, with their numbers: `Sec. 14`, `Sections 8, 9 & 10`, `said Section`.

use crate::finder::Finder;
use crate::numbered::Joined;
use twp_asides::{is_worn_section, plus};
use twp_draft::{Form, Phrase, PhraseKind, WrittenNumber};
use twp_grammar::Kind;
use twp_rules::Rule;

/// The number of a township's last section.
pub(crate) const SECTIONS: u16 = 36;

impl<'a> Finder<'a> {
    /// The section or sections at an index, after the word for them.
    pub(crate) fn sections(&mut self, index: usize) -> Option<usize> {
        let from = self.draft.checkpoint();
        let word = self.place_of_section_word(index);
        if self.draft.pieces.is_damaged_section_word(word) {
            return self.damaged_section(word);
        }
        if let Some(next) = self.draft.pieces.end_of_divided_section(word) {
            return self.divided_section(index, word, next);
        }
        let is_worn = self.is_worn_word(word);
        if !is_worn && !self.is_section_word(word) {
            return None;
        }
        if word > index {
            if self.is_said(index) {
                if let Some(end) = self.section_again(index, word) {
                    return Some(end);
                }
            }
            if self.draft.pieces.is(index, b"both") && self.count_of_parts() != 2 {
                self.draft.doubt();
            }
            self.draft.leave_out_each(index, word, Rule::Word);
        }
        if is_worn {
            self.draft.replace(word, b"sec", Rule::SectionWord);
        }
        let next = self.after_section_word(word);
        let Some(number) = self.section_number(next) else {
            return None;
        };
        let is_plural = self.is_plural_word(word);
        let end = self.section_list(word, number, is_plural);
        self.draft.add(PhraseKind::Sections, index, end, from);
        if is_plural {
            self.draft.note_form(Form::Plural);
        }
        Some(end)
    }

    /// Where the word for sections has to be, if words for them begin at an index.
    fn place_of_section_word(&self, index: usize) -> usize {
        let pieces = &self.draft.pieces;
        if matches!(pieces.kind(index), Kind::Sec) {
            return index;
        }
        if pieces.is(index, b"fractional") || self.is_said(index) {
            return plus(index, 1);
        }
        match self.draft.last_kind() {
            Some(PhraseKind::Part | PhraseKind::Lots) => pieces.after_all_in(index),
            _ => index,
        }
    }

    /// Whether a word for the section that was named is at an index.
    fn is_said(&self, index: usize) -> bool {
        let pieces = &self.draft.pieces;
        pieces.is(index, b"said") || pieces.is(index, b"same")
    }

    /// Whether what scanning makes of a word for sections is at an index.
    fn is_worn_word(&self, index: usize) -> bool {
        let pieces = &self.draft.pieces;
        !matches!(pieces.kind(index), Kind::Sec)
            && (is_worn_section(pieces.lower(index)) || self.is_worn_abbreviation(index))
    }

    /// Whether `See.` is at an index, as scanning leaves `Sec.`, and a number after it.
    fn is_worn_abbreviation(&self, index: usize) -> bool {
        let pieces = &self.draft.pieces;
        let point = plus(index, 1);
        pieces.is(index, b"see")
            && pieces.is(point, b".")
            && pieces.is_joined(point)
            && self.section_number(plus(point, 1)).is_some()
    }

    /// Whether a word for sections is at an index, as in a description or otherwise.
    fn is_section_word(&self, index: usize) -> bool {
        let pieces = &self.draft.pieces;
        matches!(pieces.kind(index), Kind::Sec)
            || pieces.is(index, b"sects")
            || pieces.is(index, b"seo")
            || self.is_short_word(index)
    }

    /// Whether a word for one section, or its sign, is at an index, that no description has.
    fn is_short_word(&self, index: usize) -> bool {
        let pieces = &self.draft.pieces;
        pieces.is(index, b"sect")
            || pieces.is(index, b"scc")
            || pieces.is(index, b"sce")
            || pieces.is(index, b"\xC2\xA7")
    }

    /// Whether a word for several sections is at an index.
    fn is_plural_word(&self, index: usize) -> bool {
        let pieces = &self.draft.pieces;
        pieces.is(index, b"secs") || pieces.is(index, b"sections") || pieces.is(index, b"sects")
    }

    /// How many parts and lots follow the last section so far.
    fn count_of_parts(&self) -> usize {
        let mut count: usize = 0;
        for placed in &self.draft.phrases {
            let phrase = &placed.phrase;
            count = match phrase.kind {
                PhraseKind::Part | PhraseKind::Lots => plus(count, 1),
                PhraseKind::Sections | PhraseKind::All => 0,
                _ => count,
            };
        }
        count
    }

    /// The section that was named before, if words for it at an index have no number.
    fn section_again(&mut self, index: usize, word: usize) -> Option<usize> {
        let pieces = &self.draft.pieces;
        let next = plus(word, 1);
        let end = if pieces.is(next, b".") && pieces.is_joined(next) {
            plus(next, 1)
        } else {
            next
        };
        if self.section_number(end).is_some() {
            return None;
        }
        let numbers = self.draft.last_section?.numbers;
        let from = self.draft.checkpoint();
        let again = self.draft.phrase(PhraseKind::Sections, index, end, from);
        self.draft.add_phrase(Phrase { numbers, ..again });
        Some(end)
    }

    /// The section at an index whose word a line end divides: its number is at a later index.
    fn divided_section(&mut self, index: usize, word: usize, next: usize) -> Option<usize> {
        let from = self.draft.checkpoint();
        let number = self.section_number(next)?;
        self.draft.leave_out_each(index, word, Rule::Word);
        let start = self.draft.pieces.start(word);
        let end = self.draft.pieces.end_before(next);
        self.draft.write(start, end, b"sec", Rule::SectionWord);
        self.draft.write_numeral(number);
        Some(
            self.draft
                .add(PhraseKind::Sections, index, number.end, from),
        )
    }

    /// The section at an index whose word begins with such a digit.
    fn damaged_section(&mut self, index: usize) -> Option<usize> {
        let from = self.draft.checkpoint();
        self.draft.replace(index, b"S", Rule::Damage);
        let next = self.after_section_word(plus(index, 1));
        let Some(number) = self.section_number(next) else {
            return None;
        };
        self.draft.write_numeral(number);
        Some(
            self.draft
                .add(PhraseKind::Sections, index, number.end, from),
        )
    }

    /// The index after what follows the word for sections at an index: `numbered`, a period, a second one, or
    /// a comma in its place.
    fn after_section_word(&mut self, word: usize) -> usize {
        let next = plus(word, 1);
        match self.draft.pieces.kind(next) {
            Kind::Number(_) => return next,
            Kind::Stop if self.draft.pieces.number(plus(next, 1)).is_some() => {
                return plus(next, 1);
            }
            _ => {}
        }
        if self.draft.pieces.is(next, b"numbered") {
            self.draft.leave_out(next, plus(next, 1), Rule::Word);
            return plus(next, 1);
        }
        let stop = plus(next, 1);
        if self.draft.pieces.is(next, b"no")
            && self.draft.pieces.is(stop, b".")
            && self.draft.pieces.is_joined(stop)
        {
            self.draft.leave_out(next, plus(stop, 1), Rule::Word);
            return plus(stop, 1);
        }
        if let Some(value) = self.draft.pieces.after_bar_and_name(next, b"frstdivno") {
            self.leave_out_name(next);
            return value;
        }
        if let Some(value) = self.draft.pieces.after_quoted_name(next) {
            self.draft.leave_out_each(next, value, Rule::Mark);
            return value;
        }
        if matches!(self.draft.pieces.kind(next), Kind::Colon) || self.draft.pieces.is(next, b"=") {
            self.draft.leave_out(next, plus(next, 1), Rule::Mark);
            return plus(next, 1);
        }
        if !self.draft.pieces.is_joined(next) {
            return next;
        }
        if matches!(self.draft.pieces.kind(next), Kind::Stop) {
            let second = plus(next, 1);
            let is_mark = self.draft.pieces.is(second, b".") || self.draft.pieces.is(second, b":");
            if is_mark && self.draft.pieces.is_joined(second) {
                self.draft.leave_out(second, plus(second, 1), Rule::Mark);
                return plus(second, 1);
            }
            return second;
        }
        if self.draft.pieces.is(next, b",") && self.draft.pieces.number(plus(next, 1)).is_some() {
            self.draft.replace(next, b".", Rule::SectionWord);
            return plus(next, 1);
        }
        if self.draft.pieces.is(next, b"#") {
            self.draft.leave_out(next, plus(next, 1), Rule::Mark);
            return plus(next, 1);
        }
        next
    }

    /// Leaves out a name and an equals sign at an index, between a word and its number, and writes
    /// a space for the bar before them.
    pub(crate) fn leave_out_name(&mut self, index: usize) {
        let (name, mark) = (plus(index, 1), plus(index, 2));
        self.draft.replace(index, b" ", Rule::Heading);
        self.draft.leave_out(name, mark, Rule::Label);
        self.draft.leave_out(mark, plus(mark, 1), Rule::Mark);
    }

    /// The number of a section at an index.
    pub(crate) fn section_number(&self, index: usize) -> Option<WrittenNumber> {
        match self.draft.numeral(index) {
            Some(number) if number.value >= 1 && number.value <= SECTIONS => Some(number),
            _ => None,
        }
    }

    /// Writes the word at an index, a section's number, and those that follow it: the index after them.
    fn section_list(&mut self, word: usize, number: WrittenNumber, is_plural: bool) -> usize {
        if let Some(written) = self.written_word(word, number, is_plural) {
            self.draft.replace(word, written, Rule::SectionWord);
        }
        self.draft.write_numeral(number);
        self.numbers_after(number, PhraseKind::Sections, is_plural)
    }

    /// What is written for the word for sections at an index, before a number, if it isn't written so: there
    /// are several, or one.
    fn written_word(
        &self,
        index: usize,
        number: WrittenNumber,
        is_plural: bool,
    ) -> Option<&'static [u8]> {
        let pieces = &self.draft.pieces;
        let is_short = !matches!(pieces.kind(index), Kind::Sec) && self.is_short_word(index);
        let is_single = is_short
            || pieces.is(index, b"sec")
            || pieces.is(index, b"section")
            || pieces.is(index, b"sects");
        if is_single && self.has_more(number, is_plural) {
            return Some(b"secs");
        }
        if is_short || (pieces.is(index, b"seo") && !self.has_more(number, is_plural)) {
            return Some(b"sec");
        }
        None
    }

    /// Whether more numbers of sections follow one.
    fn has_more(&self, number: WrittenNumber, is_plural: bool) -> bool {
        let Some(Joined { join, end }) = self.join_at(number.end) else {
            return false;
        };
        match self.draft.numeral(end) {
            Some(more) => self.continues(more, join, PhraseKind::Sections, is_plural),
            None => false,
        }
    }
}
