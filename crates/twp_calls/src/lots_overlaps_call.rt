//! Which tracts of a list overlap on the plat of a lot table.
ghost use Rattle.std.specs.Prelude.{◌≡◌, ◌≢◌};
ghost use Rattle.twp_calls.specs.Answers.{ACCEPTED};
ghost use Rattle.twp_calls.specs.LotOverlapCalls.{AreLotsOverlapsPut, IsLotsOverlapsCall, IsPlainOverlap};

use crate::answer::TownshipAnswer;
use crate::lots::TownshipLots;
use crate::many::counted;
use crate::verdict::{ACCEPTED, NO_LOTS, NO_ROOM};
use std::alloc::Global;
use twp_answers::{TractOverlap, overlaps_by_lots};
use twp_grid::Refusal;

/// Two tracts of a list that overlap on the plat of a lot table.
#[repr(C)]
#[derive(Clone, Copy)]
pub struct TownshipLotsOverlap {
    /// The record of the earlier tract.
    pub first: u32,
    /// And that of the later one.
    pub second: u32,
    /// The hundredths of an acre of the land that is in both, by the table; 0 if the table lacks a lot of
    /// it.
    pub hundredths: u64,
    /// The first such lot: 100 times its section's number, and its own number; 0 if there is none.
    pub lacking: u32,
    /// Nothing: 0.
    pub reserved: u32,
}

/// Each pair of tracts of a list that overlap on the plat of a lot table.
pub fn township_lots_overlaps(
    alloc: Global,
    lots: &TownshipLots,
    list: &[u8],
    overlaps: &mut [TownshipLotsOverlap],
) -> TownshipAnswer
    ensures answer { IsLotsOverlapsCall lots.now list.now overlaps.old overlaps.new result }
    ensures kept { result.verdict ≢ ACCEPTED → overlaps.new ≡ overlaps.old }
{
    let Some(township) = lots.township.township() else {
        return TownshipAnswer::bare(NO_LOTS);
    };
    match overlaps_by_lots(alloc, township, &lots.lots, list) {
        Ok(found) => put_overlaps(found.as_slice(), overlaps),
        Err(fault) => TownshipAnswer::of_fault(fault),
    }
}

/// Puts overlaps at the front of the room for them; or nothing if there is too little.
fn put_overlaps(
    found: &[TractOverlap<Result<u64, Refusal>>],
    overlaps: &mut [TownshipLotsOverlap],
) -> TownshipAnswer
    ensures put { AreLotsOverlapsPut found.now overlaps.old overlaps.new result }
    ensures kept { result.verdict ≢ ACCEPTED → overlaps.new ≡ overlaps.old }
{
    let count = found.len();
    if overlaps.len() < count {
        return counted(NO_ROOM, count);
    }
    for index in 0..count {
        overlaps[index] = plain(&found[index]);
    }
    counted(ACCEPTED, count)
}

/// An overlap as plain data.
fn plain(found: &TractOverlap<Result<u64, Refusal>>) -> TownshipLotsOverlap
    ensures { IsPlainOverlap found.now result }
{
    let without_acres = TownshipLotsOverlap {
        first: found.first,
        second: found.second,
        hundredths: 0,
        lacking: 0,
        reserved: 0,
    };
    match found.acres {
        Ok(hundredths) => TownshipLotsOverlap {
            hundredths,
            ..without_acres
        },
        Err(refusal) => TownshipLotsOverlap {
            lacking: refusal.at,
            ..without_acres
        },
    }
}
