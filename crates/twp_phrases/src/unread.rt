//! What is unread of a text without readings, and where it is ambiguous.
//!
//! The search for phrases stops where a text isn't sure, since the text has no reading then. For an
//! explanation, it goes on after each such place: the phrases that it finds are what the text has that could
//! be in a reading. What they leave is unread.
//!
//! - A **word** is as many letters, digits, number signs, dollar signs, percent signs, and characters that
//!   aren't ASCII as there are, one after another, of which none is in a phrase.
//! - A word is **unread** if it isn't a connective, such as `and`, `of`, and `the`, which stay between
//!   phrases.
//! - An **unread run** is the bytes from one unread word up to the end of another, or of the same one, on one
//!   line and with no phrase between them. Marks, white space, and connectives may be between them. Each
//!   unread word is in a run, and no run has bytes of a phrase.
//! - An **ambiguous phrase** is one that may be something else, as `S2` before any other land: section 2, or
//!   the S1/2.
ghost use Rattle.std.specs.Prelude.{IfOk};
ghost use Rattle.twp_phrases.specs.Unread.{HasUnread};

use crate::finder::Finder;
use crate::phrases::Beginning;
use crate::stretches::{Stretch, unread_of};
use std::alloc::{AllocError, Global};
use twp_asides::{Pieces, plus};
use twp_draft::{Draft, Phrase, PhraseKind};

/// After so many pieces that are unread, the rest of the text is unread, too: the search looks far ahead from
/// each.
const UNREAD_MOST: usize = 200;

/// The most ambiguous phrases that are told.
pub(crate) const AMBIGUOUS_MOST: usize = 8;

/// The two ways to read an ambiguous phrase.
#[derive(Clone, Copy, PartialEq, Eq)]
pub enum Ambiguity {
    /// A section, or a half, as `S2`.
    SectionOrHalf,
    /// One more lot, or a half, as `N2` after `Lots 1`.
    LotOrHalf,
    /// A quarter, or the word for a section that was cut off, as `Se` at the end.
    QuarterOrSection,
    /// The number of a section or a lot, or another figure, as acreage or the number of a row.
    NumberOrFigure,
    /// The side of a range, or a half, as `W 2` after `T2N R3`.
    RangeOrHalf,
    /// Part of the land before it, or of the section.
    PartOrSection,
}

impl Ambiguity {
    /// The two ways, in words.
    pub fn words(self) -> &'static str {
        match self {
            Ambiguity::SectionOrHalf => "a section, or a half",
            Ambiguity::LotOrHalf => "one more lot, or a half",
            Ambiguity::QuarterOrSection => "a quarter, or a word for a section",
            Ambiguity::NumberOrFigure => "the number of a section or a lot, or another figure",
            Ambiguity::RangeOrHalf => "the side of a range, or a half",
            Ambiguity::PartOrSection => "of the part before it, or of the section",
        }
    }
}

/// An ambiguous phrase.
#[derive(Clone, Copy)]
pub struct AmbiguousPhrase {
    pub place: Stretch,
    pub ambiguity: Ambiguity,
}

/// What is unread of a text without readings, and which of its phrases are ambiguous.
#[derive(Drop)]
pub struct Unread {
    pub runs: Vec<Stretch>,
    pub ambiguous: Vec<AmbiguousPhrase>,
}

/// What is unread of a text without readings. The ambiguous phrases are found, and nothing is promised of
/// them.
pub fn unread_in(alloc: Global, text: &[u8]) -> Result<Unread, AllocError>
    ensures { IfOk result (λ it. HasUnread text.now it.runs.items) }
{
    let mut phrases = Vec::new(alloc);
    let mut ambiguous = Vec::new(alloc);
    find_all(alloc, text, &mut phrases, &mut ambiguous)?;
    let runs = unread_of(alloc, text, phrases.as_slice())?;
    Ok(Unread { runs, ambiguous })
}

/// Adds the places of all phrases of a text, and those that are ambiguous.
fn find_all(
    alloc: Global,
    text: &[u8],
    phrases: &mut Vec<Stretch>,
    ambiguous: &mut Vec<AmbiguousPhrase>,
) -> Result<(), AllocError> {
    let mut draft = Draft::new(alloc, text);
    draft.begin()?;
    let mut finder = Finder {
        draft,
        names_land: false,
        has_depths: false,
        has_open: false,
    };
    finder.find_on(ambiguous)?;
    if ambiguous.is_empty() {
        finder.note_bare_sections(ambiguous)?;
    }
    let pieces = &finder.draft.pieces;
    for placed in &finder.draft.phrases {
        phrases.push(place_of(pieces, placed.phrase))?;
    }
    finder.draft.all_added()
}

/// The place of a phrase.
pub(crate) fn place_of(pieces: &Pieces<'_>, phrase: Phrase) -> Stretch {
    Stretch {
        start: pieces.start(phrase.first),
        end: pieces.end_before(phrase.end),
    }
}

impl<'a> Finder<'a> {
    /// Adds the phrases to the draft, also after places that aren't sure, and notes which are ambiguous.
    fn find_on(&mut self, ambiguous: &mut Vec<AmbiguousPhrase>) -> Result<(), AllocError> {
        let mut index: usize = 0;
        let mut unread: usize = 0;
        for here in 0..self.draft.pieces.len() {
            if here < index {
                continue;
            }
            if unread > UNREAD_MOST {
                break;
            }
            self.draft.is_unsure = false;
            let found = match self.beginning(here) {
                Beginning::Nothing => None,
                Beginning::Phrase(likely) => self.phrase_at(here, likely),
            };
            match found {
                Some(end) => {
                    index = end;
                    self.note_ambiguous(ambiguous)?;
                    self.note_phrase();
                }
                None => {
                    self.join(here, index);
                    unread = plus(unread, usize::from(self.draft.is_unsure));
                }
            }
        }
        Ok(())
    }

    /// Notes the phrase that was added last, if it isn't sure.
    fn note_ambiguous(&self, ambiguous: &mut Vec<AmbiguousPhrase>) -> Result<(), AllocError> {
        if !self.draft.is_unsure || ambiguous.len() >= AMBIGUOUS_MOST {
            return Ok(());
        }
        let Some(placed) = self.draft.phrases.last() else {
            return Ok(());
        };
        let phrase = placed.phrase;
        if let Some(ambiguity) = self.ambiguity_of(phrase) {
            let place = place_of(&self.draft.pieces, phrase);
            ambiguous.push(AmbiguousPhrase { place, ambiguity })?;
        }
        Ok(())
    }

    /// The two ways to read a phrase that isn't sure.
    fn ambiguity_of(&self, phrase: Phrase) -> Option<Ambiguity> {
        let pieces = &self.draft.pieces;
        let is_short = phrase.end == plus(phrase.first, 2)
            && pieces.has_digits(plus(phrase.first, 1), 1);
        match phrase.kind {
            PhraseKind::Part if is_short && pieces.is(phrase.first, b"s") => Some(
                Ambiguity::SectionOrHalf,
            ),
            PhraseKind::Part if is_short => Some(Ambiguity::LotOrHalf),
            PhraseKind::Part if phrase.end == pieces.len() && pieces.is(phrase.first, b"se") => {
                Some(Ambiguity::QuarterOrSection)
            }
            PhraseKind::Part if pieces.is(phrase.end, b"thereof") => Some(Ambiguity::PartOrSection),
            PhraseKind::Sections | PhraseKind::Lots => Some(Ambiguity::NumberOrFigure),
            PhraseKind::Heading => Some(Ambiguity::RangeOrHalf),
            _ => None,
        }
    }
}
