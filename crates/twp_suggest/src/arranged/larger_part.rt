//! An acreage that is that of a part which contains the land: `E/2SE/4, containing 160 acres`.
//! Either may be wrong.
ghost use Rattle.std.specs.Prelude.{◌<◌, length};

use crate::arranged::plan::Plan;
use twp_asides::is_acres;
use twp_draft::{LeftOut, Phrase, PhraseKind, Placed};

/// The nominal area of a section, in hundredths of an acre.
const SECTION: u64 = 64_000;

/// The nominal area of some parts, in hundredths of an acre.
#[derive(Clone, Copy)]
struct PartsArea {
    /// If those with only white space between them are one part.
    joined: u64,
    /// If they are several.
    apart: u64,
    /// The most phrases with only white space between them.
    longest: usize,
}

impl<'a> Plan<'a> {
    /// Whether the acreage of a phrase with an index is twice that of its land, or four times: that
    /// of a part which contains this land. Only a figure with a word for acres is looked at, and
    /// land in one section, without lots and exceptions.
    pub(crate) fn is_of_larger_part(&self, acreage: u64, list: &[Placed], index: usize) -> bool
        requires { index < length list.now }
    {
        let counts = self.counts;
        if counts.sections != 1 || counts.lists > 0 || counts.lots > 0 || counts.exceptions > 0 {
            return false;
        }
        if !self.has_unit(list[index].phrase) {
            return false;
        }
        let land = self.area_of_parts(land_of_acreage(list, index));
        let all = self.area_of_parts(list);
        let before = self.area_of_parts(&list[..index]);
        if land.joined == 0 || land.longest > 2 {
            return false;
        }
        if acreage == land.apart || is_area(acreage, all) || is_area(acreage, before) {
            return false;
        }
        is_about(acreage, land.joined.saturating_mul(2))
            || is_about(acreage, land.joined.saturating_mul(4))
    }

    /// Whether an acreage has a word for acres. A figure alone, as in a cell, may be of something else.
    fn has_unit(&self, acreage: Phrase) -> bool {
        for index in acreage.first..acreage.end {
            if is_acres(self.draft.pieces.lower(index)) {
                return true;
            }
        }
        false
    }

    /// The nominal area of the parts among some phrases.
    fn area_of_parts(&self, phrases: &[Placed]) -> PartsArea {
        let mut joined: u64 = 0;
        let mut apart: u64 = 0;
        let mut last: u64 = 0;
        let mut end: usize = usize::MAX;
        let mut count: usize = 0;
        let mut longest: usize = 0;
        for placed in phrases {
            let phrase = placed.phrase;
            if !matches!(phrase.kind, PhraseKind::Part | PhraseKind::All) {
                continue;
            }
            let own = self.share_of(phrase, SECTION);
            apart = apart.saturating_add(own);
            if phrase.kind == PhraseKind::Part && phrase.first == end {
                last = self.share_of(phrase, last);
                count = count.saturating_add(1);
            } else {
                joined = joined.saturating_add(last);
                last = own;
                count = 1;
            }
            if count > longest {
                longest = count;
            }
            end = phrase.end;
        }
        PartsArea {
            joined: joined.saturating_add(last),
            apart,
            longest,
        }
    }
}

/// The phrases that an acreage with an index is said of: those before it, from the acreage before it on; or if these
/// name no part, those after it, up to the next acreage.
fn land_of_acreage(list: &[Placed], index: usize) -> &[Placed]
    requires { index < length list.now }
{
    let before = after_last_acreage(&list[..index]);
    if names_part(before) {
        before
    } else {
        before_next_acreage(&list[index + 1..])
    }
}

/// The phrases after the last acreage among some: all of them, if they have none.
fn after_last_acreage(list: &[Placed]) -> &[Placed] {
    let mut rest = list;
    for (place, placed) in list.iter().enumerate() {
        if placed.phrase.kind == PhraseKind::Nothing(LeftOut::Acreage) {
            rest = &list[place + 1..];
        }
    }
    rest
}

/// The phrases before the first acreage among some: all of them, if they have none.
fn before_next_acreage(list: &[Placed]) -> &[Placed] {
    for (place, placed) in list.iter().enumerate() {
        if placed.phrase.kind == PhraseKind::Nothing(LeftOut::Acreage) {
            return &list[..place];
        }
    }
    list
}

/// Whether phrases name an aliquot part, or all of a section.
fn names_part(list: &[Placed]) -> bool {
    list.iter().any(|placed| matches!(placed.phrase.kind, PhraseKind::Part | PhraseKind::All))
}

/// Whether an acreage is that of some parts.
fn is_area(acreage: u64, area: PartsArea) -> bool {
    acreage == area.joined || acreage == area.apart
}

/// Whether an acreage is a nominal area, or differs from it by a twentieth at most, as areas that
/// were measured do.
fn is_about(acreage: u64, area: u64) -> bool {
    let least = (area / 20).saturating_mul(19);
    let most = (area / 20).saturating_mul(21);
    least <= acreage && acreage <= most
}
