//! Acreage that a text states. It may differ from that of the land, which counts; but with a
//! quarter of it, or less, or nine tenths where a figure in acres follows an aliquot part, the text
//! may mean a part of this land, or other land; and with twice of it, or four times, the part that
//! contains this land (`larger_part`).

use crate::arranged::plan::Plan;
use twp_asides::{is_acres, is_of_count, plus, value_of_count};
use twp_draft::{LeftOut, Phrase, PhraseKind, Placed, Role};
use twp_grammar::Kind;

/// The nominal area of a section, in hundredths of an acre.
const SECTION: u64 = 64_000;

/// A quarter of the nominal area of a lot, in hundredths of an acre.
const LOT: u64 = 1_000;

/// The land beside an acreage.
#[derive(Clone, Copy)]
struct Beside {
    /// Its nominal area, in hundredths of an acre: of lots, a quarter of it.
    area: u64,
    /// Whether it is lots, whose areas differ.
    is_lots: bool,
}

/// The most phrases among which the land is looked for that an acreage is said of.
const PHRASES_MOST: usize = 8;

impl<'a> Plan<'a> {
    /// Whether each acreage that the text states may be that of the land beside it.
    pub fn acreage_fits(&mut self, list: &[Placed]) -> bool {
        if self.counts.acreages == 0 {
            return true;
        }
        for index in 0..list.len() {
            let placed = &list[index];
            if placed.phrase.kind != PhraseKind::Nothing(LeftOut::Acreage) {
                continue;
            }
            if let (Some(acreage), Some(beside)) = (
                self.stated(placed.phrase),
                self.land_beside(list, index),
            ) {
                // A whole section, or what is after a dash or before its land, may be meant to be less.
                let is_minus = self.draft.pieces.is_dash(placed.phrase.first);
                let before = &list[..index];
                let is_first = !has_land(before);
                let land = beside.area;
                let least = if is_minus || is_first || land >= SECTION {
                    land / 4 * 3
                } else if !beside.is_lots && self.is_of_part(placed.phrase) {
                    land / 10 * 9
                } else {
                    land / 4
                };
                self.acreage = Some(acreage);
                let all = self.land_before(placed.phrase, before);
                if acreage <= least
                    || acreage <= all / 4
                    || self.is_of_larger_part(acreage, list, index)
                {
                    return false;
                }
                self.has_exact_acreage = acreage == all;
            }
        }
        true
    }

    /// Whether an acreage is that of the part before it: a figure, and a word for acres.
    fn is_of_part(&self, acreage: Phrase) -> bool {
        let pieces = &self.draft.pieces;
        let is_figure = matches!(pieces.kind(acreage.first), Kind::Number(_));
        let is_unit = match acreage.end.checked_sub(1) {
            Some(last) => is_acres(pieces.lower(last)) || pieces.is(last, b"gross"),
            None => false,
        };
        is_figure && is_unit
    }

    /// The area of the land before an acreage with a word for what it is of, as in `containing 80 acres`,
    /// from the acreage before it on.
    fn land_before(&self, acreage: Phrase, before: &[Placed]) -> u64 {
        let pieces = &self.draft.pieces;
        let mut sum: u64 = 0;
        let mut last: u64 = 0;
        let mut end: usize = usize::MAX;
        let first = acreage.first;
        if !(pieces.is(first, b"containing") || pieces.is(first, b"comprising")) {
            return 0;
        }
        for placed in before {
            let phrase = placed.phrase;
            match phrase.kind {
                PhraseKind::Nothing(LeftOut::Acreage) => {
                    sum = 0;
                    last = 0;
                }
                // White space may separate the steps of one part.
                PhraseKind::Part if phrase.first == end => {
                    last = self.share_of(phrase, last);
                    end = phrase.end;
                }
                PhraseKind::Part | PhraseKind::All => {
                    sum = sum.saturating_add(last);
                    last = self.share_of(phrase, SECTION);
                    end = phrase.end;
                }
                _ => {}
            }
        }
        sum.saturating_add(last)
    }

    /// The least area of the lots of a phrase, of which a quarter is compared.
    fn least_of_lots(&self, lots: Phrase) -> u64 {
        let numbers = self.draft.numbers.get(lots.numbers.first..lots.numbers.end);
        let count = match numbers {
            Some([first, last]) if last.value > first.value => plus(
                1,
                usize::from(last.value.saturating_sub(first.value)),
            ),
            Some(numbers) => numbers.len(),
            None => 1,
        };
        u64::from(u16::try_from(count).unwrap_or(1)).saturating_mul(LOT)
    }

    /// The nominal area of the land before an acreage, or after it, in hundredths of an acre. That of lots,
    /// whose areas differ, is a quarter of it.
    fn land_beside(&self, list: &[Placed], index: usize) -> Option<Beside> {
        let mut area: Option<u64> = None;
        let mut first: usize = 0;
        let mut has_section = false;
        let mut sections: u64 = 1;
        for back in 1..PHRASES_MOST {
            let Some(placed) = index.checked_sub(back).and_then(|place| list.get(place)) else {
                break;
            };
            let phrase = placed.phrase;
            match (phrase.kind, area) {
                (PhraseKind::Lots, None) => return Some(self.lots_beside(phrase)),
                // White space may separate the steps of one part.
                (PhraseKind::Part, Some(part)) if phrase.end == first => {
                    area = Some(self.share_of(phrase, part));
                }
                (_, Some(_)) => break,
                (PhraseKind::Part | PhraseKind::All, None) => area = Some(self.share_of(
                    phrase, SECTION,
                )),
                // The land of a section that is moved is before it.
                (PhraseKind::Sections, None) if placed.role != Role::LeftOut => {
                    has_section = true;
                    let count = phrase.numbers.end.saturating_sub(phrase.numbers.first);
                    sections = u64::from(u16::try_from(count).unwrap_or(1));
                    break;
                }
                _ => {}
            }
            first = phrase.first;
        }
        if let Some(area) = area {
            return Some(land_of(area));
        }
        for place in plus(index, 1)..plus(index, PHRASES_MOST) {
            let Some(placed) = list.get(place) else {
                break;
            };
            match placed.phrase.kind {
                PhraseKind::Lots => return Some(self.lots_beside(placed.phrase)),
                PhraseKind::Part | PhraseKind::All => {
                    return Some(land_of(self.share_of(placed.phrase, SECTION)));
                }
                PhraseKind::Sections if has_section => break,
                _ => {}
            }
        }
        Some(land_of(SECTION.saturating_mul(sections)))
    }

    /// Lots beside an acreage.
    fn lots_beside(&self, lots: Phrase) -> Beside {
        Beside {
            area: self.least_of_lots(lots),
            is_lots: true,
        }
    }

    /// The area of a phrase in land of an area: that of its steps, if it is an aliquot part.
    pub(crate) fn share_of(&self, phrase: Phrase, whole: u64) -> u64 {
        let mut area = whole;
        if phrase.kind == PhraseKind::Part {
            for step in self.draft.steps_of(phrase) {
                area /= if step.written.ends_with(b"2") { 2 } else { 4 };
            }
        }
        area
    }

    /// The acreage of a phrase, in hundredths. None if it isn't one figure for all of the land: it is in
    /// words, or net.
    fn stated(&self, phrase: Phrase) -> Option<u64> {
        let pieces = &self.draft.pieces;
        let mut found: Option<u64> = None;
        let mut next = phrase.first;
        for index in phrase.first..phrase.end {
            if index < next {
                continue;
            }
            let word = pieces.lower(index);
            if matches!(pieces.kind(index), Kind::Other) && is_of_count(word) {
                if found.is_none() {
                    let (value, end) = self.count_at(index, phrase.end)?;
                    found = Some(value);
                    next = end;
                }
                continue;
            }
            if let Some((value, end)) = pieces.worn_figure(index) {
                if found.is_some() {
                    return None;
                }
                found = Some(value);
                next = end;
                continue;
            }
            if pieces.is(index, b"net")
                || pieces.is(index, b"mineral")
                || pieces.is(index, b"spacing")
            {
                return None;
            }
            if !matches!(pieces.kind(index), Kind::Number(_)) {
                continue;
            }
            if found.is_some() {
                return None;
            }
            let (value, end) = self.figure_at(index)?;
            found = Some(value);
            next = end;
        }
        found
    }

    /// The number in words at an index, in hundredths, and the index after it. Its hundredths aren't counted.
    fn count_at(&self, first: usize, end: usize) -> Option<(u64, usize)> {
        let pieces = &self.draft.pieces;
        let mut whole: u64 = 0;
        let mut next = first;
        for index in first..end {
            let word = pieces.lower(index);
            if !is_of_count(word) {
                break;
            }
            if let Some(value) = value_of_count(word) {
                whole = whole.saturating_add(value);
            } else if pieces.is(index, b"hundred") {
                whole = whole.saturating_mul(100);
            } else if pieces.is(index, b"thousand") {
                return None;
            }
            next = plus(index, 1);
        }
        Some((whole.saturating_mul(100), next))
    }

    /// The figure at an index, in hundredths, and the index after it.
    fn figure_at(&self, index: usize) -> Option<(u64, usize)> {
        let pieces = &self.draft.pieces;
        let mut whole = u64::from(pieces.number(index)?);
        let mut next = plus(index, 1);
        if pieces.is(next, b",") && pieces.is_joined(next) && pieces.has_digits(plus(next, 1), 3) {
            let rest = u64::from(pieces.number(plus(next, 1))?);
            whole = whole.saturating_mul(1_000).saturating_add(rest);
            next = plus(next, 2);
        }
        let mut hundredths: u64 = 0;
        if pieces.is(next, b".") && pieces.is_joined(next) {
            let digits = pieces.bytes(plus(next, 1));
            let tenth = digit_at(digits, 0);
            hundredths = tenth.saturating_mul(10).saturating_add(digit_at(digits, 1));
            next = plus(next, 2);
        }
        Some((whole.saturating_mul(100).saturating_add(hundredths), next))
    }
}

/// The digit at an index, or 0 if there is none.
fn digit_at(digits: &[u8], index: usize) -> u64 {
    match digits.get(index) {
        Some(digit @ b'0'..=b'9') => u64::from(*digit - b'0'),
        _ => 0,
    }
}

/// Land beside an acreage, other than lots, with an area.
fn land_of(area: u64) -> Beside {
    Beside {
        area,
        is_lots: false,
    }
}

/// Whether a section or land is among some phrases.
fn has_land(phrases: &[Placed]) -> bool {
    for placed in phrases {
        if !matches!(
            placed.phrase.kind,
            PhraseKind::Nothing(_) | PhraseKind::Heading
        ) {
            return true;
        }
    }
    false
}
