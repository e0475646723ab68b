//! The kinds of phrases that are looked for one after another.

use crate::finder::Finder;
use twp_asides::plus;
use twp_grammar::Kind;

/// A kind of phrase that is looked for.
#[derive(Clone, Copy)]
pub(crate) enum SoughtPhrase {
    Aside,
    Register,
    LetterOfRegister,
    Heading,
    Sections,
    SectionOfLetter,
    BareSection,
    SectionBeforeColon,
    DamagedSections,
    Lots,
    All,
    Part,
    DamagedPart,
    Except,
    Remark,
    RegisterOrHeading,
    HalfOrSection,
}

/// What a number may begin, in the order in which it is looked for.
pub(crate) const OF_NUMBERS: [SoughtPhrase; 8] = [
    SoughtPhrase::SectionBeforeColon,
    SoughtPhrase::Aside,
    SoughtPhrase::Register,
    SoughtPhrase::Heading,
    SoughtPhrase::DamagedSections,
    SoughtPhrase::DamagedPart,
    SoughtPhrase::BareSection,
    SoughtPhrase::Remark,
];

/// What a word or a mark may begin.
pub(crate) const OF_WORDS: [SoughtPhrase; 10] = [
    SoughtPhrase::Aside,
    SoughtPhrase::LetterOfRegister,
    SoughtPhrase::Heading,
    SoughtPhrase::Sections,
    SoughtPhrase::SectionOfLetter,
    SoughtPhrase::Lots,
    SoughtPhrase::All,
    SoughtPhrase::Part,
    SoughtPhrase::Except,
    SoughtPhrase::Remark,
];

impl<'a> Finder<'a> {
    /// Adds the phrase of a kind at an index: the index after it. None of these calls is inlined, so that
    /// this only jumps to one of them, and needs no room for what they do.
    #[inline(never)]
    pub(crate) fn phrase_of_kind(&mut self, kind: SoughtPhrase, index: usize) -> Option<usize> {
        match kind {
            SoughtPhrase::Aside => self.aside(index),
            SoughtPhrase::Register => self.of_register(index),
            SoughtPhrase::LetterOfRegister => self.letter_of_register(index),
            SoughtPhrase::Heading => self.heading(index),
            SoughtPhrase::Sections => self.sections(index),
            SoughtPhrase::SectionOfLetter => self.section_of_letter(index),
            SoughtPhrase::BareSection => self.bare_section(index),
            SoughtPhrase::SectionBeforeColon => self.section_before_colon(index),
            SoughtPhrase::DamagedSections => self.damaged_sections(index),
            SoughtPhrase::Lots => self.lots(index),
            SoughtPhrase::All => self.all(index),
            SoughtPhrase::Part => self.sure_part(index),
            SoughtPhrase::DamagedPart => self.damaged_part(index),
            SoughtPhrase::Except => self.except(index),
            SoughtPhrase::Remark => self.remark(index),
            SoughtPhrase::RegisterOrHeading => self.register_or_heading(index),
            SoughtPhrase::HalfOrSection => self.half_or_section(index),
        }
    }

    /// The section at an index that has no word for it, and a colon after it.
    #[inline(never)]
    fn section_before_colon(&mut self, index: usize) -> Option<usize> {
        if !matches!(self.draft.pieces.kind(plus(index, 1)), Kind::Colon) {
            return None;
        }
        self.section_number(index)?;
        self.bare_section(index)
    }

    /// The sections at an index whose word begins with a digit for an `S`.
    #[inline(never)]
    fn damaged_sections(&mut self, index: usize) -> Option<usize> {
        if !self.draft.pieces.is_damaged_section_word(index) {
            return None;
        }
        self.sections(index)
    }

    /// The aliquot part at an index that begins with a 5 or an 8 for an `S`.
    #[inline(never)]
    fn damaged_part(&mut self, index: usize) -> Option<usize> {
        if !matches!(self.draft.pieces.kind(index), Kind::Number(5 | 8)) {
            return None;
        }
        self.sure_part(index)
    }
}
