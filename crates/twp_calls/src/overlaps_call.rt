//! Which tracts of a list overlap.
ghost use Rattle.std.specs.Prelude.{◌≡◌, ◌≢◌};
ghost use Rattle.twp_calls.specs.Answers.{ACCEPTED};
ghost use Rattle.twp_calls.specs.OverlapCalls.{AreOverlapsPut, IsOverlapsCall, overlap_of};

use crate::answer::TownshipAnswer;
use crate::many::counted;
use crate::plat::TownshipPlat;
use crate::verdict::{ACCEPTED, NO_PLAT, NO_ROOM};
use std::alloc::Global;
use twp_answers::{TractOverlap, overlaps_on};

/// Two tracts of a list that overlap.
#[repr(C)]
#[derive(Clone, Copy)]
pub struct TownshipOverlap {
    /// The record of the earlier tract.
    pub first: u32,
    /// And that of the later one.
    pub second: u32,
    /// The hundredths of an acre of the land that is in both.
    pub hundredths: u64,
}

/// Each pair of tracts of a list that overlap.
pub fn township_overlaps(
    alloc: Global,
    plat: &TownshipPlat,
    list: &[u8],
    overlaps: &mut [TownshipOverlap],
) -> TownshipAnswer
    ensures answer { IsOverlapsCall plat.now list.now overlaps.old overlaps.new result }
    ensures kept { result.verdict ≢ ACCEPTED → overlaps.new ≡ overlaps.old }
{
    let Some(plat) = plat.plat() else {
        return TownshipAnswer::bare(NO_PLAT);
    };
    match overlaps_on(alloc, &plat, list) {
        Ok(found) => put_overlaps(found.as_slice(), overlaps),
        Err(fault) => TownshipAnswer::of_fault(fault),
    }
}

/// Puts overlaps at the front of the room for them; or nothing if there is too little.
fn put_overlaps(found: &[TractOverlap<u64>], overlaps: &mut [TownshipOverlap]) -> TownshipAnswer
    ensures put { AreOverlapsPut found.now overlaps.old overlaps.new result }
    ensures kept { result.verdict ≢ ACCEPTED → overlaps.new ≡ overlaps.old }
{
    let count = found.len();
    if overlaps.len() < count {
        return counted(NO_ROOM, count);
    }
    for index in 0..count {
        overlaps[index] = plain(&found[index]);
    }
    counted(ACCEPTED, count)
}

/// An overlap as plain data.
fn plain(found: &TractOverlap<u64>) -> TownshipOverlap
    ensures { overlap_of result ≡ found.now }
{
    TownshipOverlap {
        first: found.first,
        second: found.second,
        hundredths: found.acres,
    }
}
