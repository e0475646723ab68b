//! What is beside a part, a list, or a meridian that makes it unsure: `Kimball County, NE`, `SE Wyoming`,
//! `Lots 1-4, 6 PM`.

use crate::arranged::plan::Plan;
use twp_asides::plus;
use twp_draft::{LeftOut, Phrase, PhraseKind};
use twp_grammar::Kind;

/// The most lots of a section.
const LOTS_MOST: u16 = 7;

impl<'a> Plan<'a> {
    /// Whether a phrase isn't sure for what is beside it, or there are two meridians.
    pub(crate) fn has_unsure_neighbors(&self) -> bool {
        let mut before: Option<&Phrase> = None;
        let mut meridian: Option<u16> = None;
        for placed in &self.draft.phrases {
            let phrase = &placed.phrase;
            if let Some(before) = before {
                if self.are_unsure_neighbors(before, phrase) {
                    return true;
                }
            }
            before = Some(phrase);
            if let Some(number) = self.number_of_meridian(phrase) {
                if meridian.is_some() && meridian != Some(number) {
                    return true;
                }
                meridian = Some(number);
            }
        }
        false
    }

    /// Whether two phrases that follow each other aren't sure.
    fn are_unsure_neighbors(&self, one: &Phrase, other: &Phrase) -> bool {
        match (one.kind, other.kind) {
            (PhraseKind::Part, PhraseKind::Nothing(aside)) => self.may_be_of_name(
                one, other, aside,
            ),
            (PhraseKind::Nothing(aside), PhraseKind::Part) => self.may_be_state(one, other, aside),
            (PhraseKind::Sections | PhraseKind::Lots, PhraseKind::Nothing(LeftOut::Meridian)) => {
                one.end == other.first && self.is_bare_word_of_meridian(other.first)
            }
            (PhraseKind::Lots, PhraseKind::Sections) => self.may_be_lot(one, other),
            _ => false,
        }
    }

    /// Whether a part is one step, written by two letters, as `NE`, or by a letter and a digit, as `W2`.
    fn is_bare(&self, part: &Phrase) -> bool {
        let size = self.draft.pieces.bytes(part.first).len();
        (plus(part.first, 1) == part.end && size == 2)
            || (plus(part.first, 2) == part.end && size == 1)
    }

    /// Whether a bare part may be of a region, or of somebody's name, which follows it, as in `SE Wyoming`,
    /// `NW Land Co.`, or `W2 Royalty`.
    fn may_be_of_name(&self, part: &Phrase, after: &Phrase, aside: LeftOut) -> bool {
        if part.end != after.first || !self.is_bare(part) {
            return false;
        }
        let pieces = &self.draft.pieces;
        let is_word = matches!(pieces.kind(after.first), Kind::Other)
            && !pieces.begins_line(after.first);
        match aside {
            LeftOut::Meridian => is_word && pieces.names_state(after.first),
            LeftOut::Label => {
                pieces.is(after.first, b"lease")
                    || pieces.is(after.first, b"royalty")
                    || pieces.is(after.first, b"minerals")
                    || pieces.is(after.first, b"oil")
            }
            _ => false,
        }
    }

    /// Whether a bare `NE` may be Nebraska: after a meridian or a county; after a comma and a name with
    /// another comma, or at the end of the line; or after the word for a state.
    fn may_be_state(&self, before: &Phrase, part: &Phrase, aside: LeftOut) -> bool {
        let pieces = &self.draft.pieces;
        let is_after_comma = pieces.is(before.end, b",") && plus(before.end, 1) == part.first;
        let is_alone = part.end >= pieces.len() || pieces.begins_line(part.end);
        let follows = match aside {
            LeftOut::Meridian => {
                is_after_comma
                    || before.end == part.first
                    || (pieces.is(before.end, b"|") && plus(before.end, 1) == part.first)
            }
            LeftOut::Label => {
                (is_after_comma
                    && (is_alone || self.has_word(before, b",") || self.is_after_comma(before)))
                    || self.has_word(before, b"state")
                    || self.has_word(before, b"st")
            }
            _ => false,
        };
        follows && pieces.is(part.first, b"ne") && self.is_bare(part)
    }

    /// Whether a comma is before a phrase.
    fn is_after_comma(&self, phrase: &Phrase) -> bool {
        self.draft.pieces.follows(phrase.first, b",")
    }

    /// Whether a word, or a mark, is in a phrase.
    pub(crate) fn has_word(&self, phrase: &Phrase, word: &[u8]) -> bool {
        for index in phrase.first..phrase.end {
            if self.draft.pieces.is(index, word) {
                return true;
            }
        }
        false
    }

    /// Whether the word for a meridian is at an index without its number or name, so that the number before
    /// it may be that.
    fn is_bare_word_of_meridian(&self, index: usize) -> bool {
        let pieces = &self.draft.pieces;
        pieces.is(index, b"pm")
            || pieces.is(index, b"p")
            || pieces.is(index, b"principal")
            || pieces.is(index, b"prin")
    }

    /// Whether the number of a section, after a comma and before a colon, may be that of another lot.
    fn may_be_lot(&self, lots: &Phrase, section: &Phrase) -> bool {
        let pieces = &self.draft.pieces;
        let number = pieces.number(section.first).unwrap_or(u16::MAX);
        number <= LOTS_MOST
            && pieces.is(lots.end, b",")
            && plus(lots.end, 1) == section.first
            && !pieces.begins_line(section.first)
    }

    /// The number that a meridian is known by, as that of a register, or of the 6th Principal Meridian.
    fn number_of_meridian(&self, phrase: &Phrase) -> Option<u16> {
        match phrase.kind {
            PhraseKind::Nothing(LeftOut::Meridian) => self.draft.pieces.number(phrase.first),
            _ => None,
        }
    }
}
