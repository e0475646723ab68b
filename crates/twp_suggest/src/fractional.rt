//! Parts that are called fractional: they have to include lots.

use crate::meaning::{find_land, find_named_land, first_township};
use crate::writer::ChangeWriter;
use std::alloc::{AllocError, Global};
use twp_asides::plus;
use twp_draft::{IndexRange, Phrase, PhraseKind, Placed, Role};
use twp_land::{Land, Lanes, Lotting};

/// The land before a place, which moves from one place to the next.
#[derive(Clone, Copy)]
struct LandBefore {
    /// How many phrases are before the place.
    count: usize,
    /// The index of the first phrase of the last group.
    group: usize,
    /// The last land.
    last: Option<Placed>,
}

impl LandBefore {
    /// The land before a place after that.
    fn moved_to(self, place: usize, list: &[Placed]) -> LandBefore {
        let mut before = self;
        let mut role = list.get(self.group).map(|placed| placed.role);
        for index in self.count..list.len() {
            let Some(placed) = list.get(index).copied() else {
                break;
            };
            if placed.phrase.end > place {
                break;
            }
            before.count = plus(index, 1);
            if matches!(placed.role, Role::Kept(_)) && Some(placed.role) != role {
                role = Some(placed.role);
                before.group = index;
            }
            if is_land(placed) {
                before.last = Some(placed);
            }
        }
        before
    }
}

impl<'p, 'a> ChangeWriter<'p, 'a> {
    /// Whether each part that is called fractional includes lots.
    pub(crate) fn fractional_fit<P: Lotting>(
        &self,
        alloc: Global,
        list: &[Placed],
        lots: &P,
    ) -> Result<bool, AllocError> {
        let mut before = LandBefore {
            count: 0,
            group: 0,
            last: None,
        };
        for place in &self.plan.draft.fractional {
            before = before.moved_to(*place, list);
            let group = list.get(before.group..).unwrap_or(&[]);
            if !self.has_lots(alloc, before.last, group, lots)? {
                return Ok(false);
            }
        }
        Ok(true)
    }

    /// Whether the last land before a place includes lots. The phrases begin with those of its section.
    fn has_lots<P: Lotting>(
        &self,
        alloc: Global,
        last: Option<Placed>,
        group: &[Placed],
        lots: &P,
    ) -> Result<bool, AllocError> {
        let Some(last) = last else {
            return Ok(false);
        };
        let Some(section) = self.section_of(last.role, group) else {
            return Ok(false);
        };
        let text = self.text_of(alloc, section, last.phrase)?;
        includes_lots(alloc, text.as_slice(), lots)
    }

    /// The text of a section and a phrase of it.
    fn text_of(&self, alloc: Global, section: u16, phrase: Phrase) -> Result<Vec<u8>, AllocError> {
        let mut text = section_text(alloc, section)?;
        self.write_phrase(phrase, b", ", &mut text)?;
        Ok(text)
    }

    /// The number of the section of a group, with which phrases begin.
    fn section_of(&self, role: Role, group: &[Placed]) -> Option<u16> {
        for placed in group {
            if placed.role != role {
                continue;
            }
            if placed.phrase.kind == PhraseKind::Sections {
                return self.plan.only_number(placed.phrase.numbers);
            }
            if let Some(section) = placed.section {
                return self.plan.only_number(section);
            }
        }
        None
    }

    /// Appends a mark and the text of a phrase with its changes.
    fn write_phrase(
        &self,
        phrase: Phrase,
        mark: &[u8],
        text: &mut Vec<u8>,
    ) -> Result<(), AllocError> {
        text.extend_from_slice(mark)?;
        let pieces = IndexRange {
            first: phrase.first,
            end: phrase.end,
        };
        self.write_land(pieces, phrase.changes, text)
    }

    /// Appends the text of some pieces with changes.
    fn write_land(
        &self,
        pieces: IndexRange,
        changes: IndexRange,
        text: &mut Vec<u8>,
    ) -> Result<(), AllocError> {
        let draft = &self.plan.draft;
        let mut at = draft.pieces.start(pieces.first);
        let end = draft.pieces.end_before(pieces.end);
        for change in draft.changes.get(changes.first..changes.end).unwrap_or(&[]) {
            text.extend_from_slice(draft.pieces.text.get(at..change.start).unwrap_or(b""))?;
            text.extend_from_slice(change.written)?;
            at = change.end;
        }
        text.extend_from_slice(draft.pieces.text.get(at..end).unwrap_or(b""))
    }
}

/// Whether a phrase is land that is kept.
fn is_land(placed: Placed) -> bool {
    let is_kept = matches!(placed.role, Role::Kept(_));
    is_kept
        && matches!(
            placed.phrase.kind,
            PhraseKind::Part | PhraseKind::Lots | PhraseKind::All
        )
}

/// The text of a section.
fn section_text(alloc: Global, number: u16) -> Result<Vec<u8>, AllocError> {
    let mut text = Vec::new(alloc);
    text.extend_from_slice(b"sec. ")?;
    for digit in [number / 10 % 10, number % 10] {
        text.push(b'0'.saturating_add(u8::try_from(digit).unwrap_or(0)))?;
    }
    Ok(text)
}

/// Whether the land of a text that names no township is on the plat only with its lots named. Not
/// inlined, since its set of land would be cleared for each text.
#[inline(never)]
fn includes_lots<P: Lotting>(alloc: Global, text: &[u8], lots: &P) -> Result<bool, AllocError> {
    let mut land = Lanes::empty();
    if !find_named_land(alloc, text, &mut land, lots)? {
        return Ok(false);
    }
    let Some(township) = first_township(&[]) else {
        return Ok(false);
    };
    let is_on_plat = find_land(alloc, text, township, &mut land, lots)?;
    Ok(!is_on_plat)
}
