//! A phrase of a text, what it names, and what becomes of it.

use twp_rules::Rule;

/// What a phrase names, if it names anything.
#[derive(Clone, Copy, PartialEq, Eq)]
pub enum PhraseKind {
    /// A township and range.
    Heading,
    /// A section, or several.
    Sections,
    /// An aliquot part.
    Part,
    /// Lots.
    Lots,
    /// All of a section.
    All,
    /// `except`, or words like it: what follows is not of the land.
    Except,
    /// Something that is left out.
    Nothing(LeftOut),
}

/// What is left out, by the rule for it. It isn't the rule itself, since some rules contain two places, with
/// which each phrase would be a third larger.
#[derive(Clone, Copy, PartialEq, Eq)]
pub enum LeftOut {
    Word,
    /// A mark or a letter of a heading, or the name of a column.
    Heading,
    MovedHeading,
    Meridian,
    Acreage,
    Label,
    /// Land that was named before.
    Repeated,
}

impl LeftOut {
    /// The rule by which it is left out.
    pub fn rule(self) -> Rule {
        match self {
            LeftOut::Word => Rule::Word,
            LeftOut::Heading => Rule::Heading,
            LeftOut::MovedHeading => Rule::MovedHeading,
            LeftOut::Meridian => Rule::Meridian,
            LeftOut::Acreage => Rule::Acreage,
            LeftOut::Label => Rule::Label,
            LeftOut::Repeated => Rule::Repeated,
        }
    }
}

/// A phrase of a text. Its small fields are together, so that it takes less room.
#[derive(Clone, Copy)]
pub struct Phrase {
    pub kind: PhraseKind,
    /// How it is written.
    pub form: Form,
    /// The index of its first piece.
    pub first: usize,
    /// The index after its last piece.
    pub end: usize,
    /// The changes in it: the index of the first one, and the one after the last.
    pub changes: IndexRange,
    /// Its steps, if it is an aliquot part.
    pub steps: IndexRange,
    /// Its numbers, if it names sections or lots, or a township and range.
    pub numbers: IndexRange,
}

/// What becomes of a phrase.
#[derive(Clone, Copy, PartialEq, Eq)]
pub enum Role {
    /// It stays, in the group of a section, which is counted.
    Kept(usize),
    /// It is left out.
    LeftOut,
}

/// A phrase with what becomes of it.
#[derive(Clone, Copy)]
pub struct Placed {
    pub phrase: Phrase,
    pub role: Role,
    /// The numbers of its section, which is written before it: it is left out where it is, or the land is
    /// excepted.
    pub section: Option<IndexRange>,
}

/// From one index up to another.
#[derive(Clone, Copy, PartialEq, Eq)]
pub struct IndexRange {
    pub first: usize,
    pub end: usize,
}

/// What matters of how a phrase is written.
#[derive(Clone, Copy, PartialEq, Eq)]
pub enum Form {
    /// Nothing does.
    Plain,
    /// An aliquot part with `of`.
    WithOf,
    /// Sections after a word in the plural.
    Plural,
    /// Sections whose numbers are not sure to be of sections.
    Unsure,
}
