//! Which tracts of a list overlap.
ghost use Rattle.std.specs.Prelude.{◌≡◌, ◌+◌, ◌≤◌, ◌<◌, List, length, IfOk, IfErr, OnOk, MatchOption};
ghost use Rattle.csv.specs.Records.{fields_of};
ghost use Rattle.twp_notes.specs.Records.{Fields, record_at, records_left, IsBetweenRecords};
ghost use Rattle.twp_answers.specs.EachTract.{IsListFault, IsListOfRecords};
ghost use Rattle.twp_answers.specs.Overlaps.{AreOverlapping, AreOverlaps, IsSharedAcres};
ghost use Rattle.twp_answers.specs.Overlaps.{measure_of_plat, measure_of_table};
ghost use Rattle.twp_answers.specs.Tracts.{TRACTS_LIMIT, TRACTS_MOST, tract_records};
ghost use Rattle.twp_answers.specs.steps.EachTaking.{StopsTaking};
ghost use Rattle.twp_answers.specs.steps.OverlapTaking.{AreFoundTo, AreLandsTo, IsLandOfRecord};
ghost use Rattle.twp_answers.specs.steps.OverlapTaking.{HasSharedPlaces, HasWholeLand, NotesOverlap};
ghost use Rattle.std.specs.List.{All};
ghost use Rattle.twp_grid.specs.Lands.{HasWholeLots, SharePlace};

use crate::each_tract::pass_heading;
use crate::measuring::{ByTable, Measuring};
use crate::stop::Stop;
use crate::tract::tract_of;
use crate::tract_fault::{TRACTS_LIMIT, TRACTS_MOST, TractFault};
use crate::tracts::FIRST_TRACT;
use csv::ByteRecord;
use std::alloc::{AllocError, Global};
use twp_grid::{Refusal, Township};
use twp_land::{Land, Lanes};
use twp_notes::Records;
use twp_plat::{Plat, ReturnedLots};

/// Two tracts of a list that overlap.
#[derive(Clone, Copy)]
pub struct TractOverlap<A> {
    /// The record of the earlier tract.
    pub first: u32,
    /// And that of the later one.
    pub second: u32,
    /// How much land is in both: hundredths of an acre or, by a lot table, also the refusal of the first
    /// lot of it that the table lacks.
    pub acres: A,
}

/// Each pair of tracts of a list that overlap on a plat, or why the list has no tracts. Records that are
/// not a tract's, and tracts whose description is refused, overlap none.
pub fn overlaps_on(
    alloc: Global,
    plat: &Plat,
    list: &[u8],
) -> Result<Vec<TractOverlap<u64>>, TractFault>
    ensures list { IfOk result (λ _. IsListOfRecords list.now) }
    ensures overlaps { IfOk result (λ overlaps.
        AreOverlaps (measure_of_plat plat.now) (tract_records list.now) overlaps.items) }
    ensures fault { IfErr result (IsListFault list.now) }
{
    overlaps_by(alloc, plat, list)
}

/// The same on the plat of a lot table. If the table lacks a lot of the land in two tracts, they overlap,
/// and the refusal is 94, at the lot.
pub fn overlaps_by_lots(
    alloc: Global,
    township: Township,
    lots: &ReturnedLots,
    list: &[u8],
) -> Result<Vec<TractOverlap<Result<u64, Refusal>>>, TractFault>
    ensures list { IfOk result (λ _. IsListOfRecords list.now) }
    ensures overlaps { IfOk result (λ overlaps.
        AreOverlaps (measure_of_table township lots.now) (tract_records list.now) overlaps.items) }
    ensures fault { IfErr result (IsListFault list.now) }
{
    overlaps_by(alloc, &ByTable { township, lots }, list)
}

/// Each pair of tracts of a list that overlap, by what their land is measured by.
fn overlaps_by<M: Measuring>(
    alloc: Global,
    by: &M,
    list: &[u8],
) -> Result<Vec<TractOverlap<M::Acres>>, TractFault>
    ensures list { IfOk result (λ _. IsListOfRecords list.now) }
    ensures overlaps { IfOk result (λ overlaps.
        AreOverlaps (M.measure by.now) (tract_records list.now) overlaps.items) }
    ensures fault { IfErr result (IsListFault list.now) }
{
    if list.len() > TRACTS_LIMIT as usize {
        return Err(TractFault::TractsTooLarge);
    }
    let records = &mut Records::new(alloc, list);
    let mut row = ByteRecord::new(alloc);
    pass_heading(records, &mut row)?;
    let lands: Vec<Option<Lanes>> = take_lands(alloc, by, records, &mut row)?;
    let overlaps = overlaps_of(alloc, by, lands.as_slice())?;
    Ok(overlaps)
}

/// The lands of the remaining records, which come after the heading.
fn take_lands<M: Measuring, L: Land>(
    alloc: Global,
    by: &M,
    records: &mut Records<'_>,
    row: &mut ByteRecord,
) -> Result<Vec<Option<L>>, TractFault>
    requires { IsBetweenRecords records.old }
    ensures few { IfOk result (λ _. length (records_left records.old) ≤ TRACTS_MOST) }
    ensures lands { IfOk result (λ lands. AreLandsTo L.places (M.measure by.now).lots
        (M.measure by.now).township (records_left records.old)
        (length (records_left records.old)) lands.items) }
    ensures whole { IfOk result (λ lands.
        All (HasWholeLand (M.measure by.now).lots L.places) lands.items) }
    ensures fault { IfErr result (StopsTaking (records_left records.old)) }
{
    let mut lands = Vec::new(alloc);
    let mut taken = 0;
    'records: while records.read(row)? {
        if taken == TRACTS_MOST {
            return Err(TractFault::TooManyTracts);
        }
        let land = land_of_record(alloc, by, row)?;
        lands.push(land)?;
        taken += 1;
    }
    Ok(lands)
}

/// The land of a record, if it is a tract's.
#[tactic(auto, using(crate::proofs::OverlapFacts::no_tract))]
fn land_of_record<M: Measuring, L: Land>(
    alloc: Global,
    by: &M,
    row: &ByteRecord,
) -> Result<Option<L>, AllocError>
    ensures { IfOk result (IsLandOfRecord L.places (M.measure by.now).lots
        (M.measure by.now).township (fields_of row.now)) }
{
    let Some(tract) = tract_of(row) else {
        return Ok(None);
    };
    let mut land = L::empty();
    match by.describe(alloc, &mut land, tract.description) {
        Ok(_) => Ok(Some(land)),
        Err(Stop::Refused(_)) => Ok(None),
        Err(Stop::Failed(_)) => Err(AllocError),
    }
}

/// Each pair of these lands that overlap.
fn overlaps_of<M: Measuring, L: Land>(
    alloc: Global,
    by: &M,
    lands: &[Option<L>],
) -> Result<Vec<TractOverlap<M::Acres>>, AllocError>
    requires few { length lands.now ≤ TRACTS_MOST }
    requires whole { All (HasWholeLand (M.measure by.now).lots L.places) lands.now }
    ensures { IfOk result (λ overlaps. (rows : List Fields)
        → AreLandsTo L.places (M.measure by.now).lots (M.measure by.now).township rows (length rows)
        lands.now
        → AreOverlaps (M.measure by.now) rows overlaps.items) }
{
    let mut overlaps = Vec::new(alloc);
    for second in 0..lands.len() {
        add_overlaps(by, lands, second, &mut overlaps)?;
    }
    Ok(overlaps)
}

/// Adds the overlaps of a land with earlier ones.
fn add_overlaps<M: Measuring, L: Land>(
    by: &M,
    lands: &[Option<L>],
    second: usize,
    overlaps: &mut Vec<TractOverlap<M::Acres>>,
) -> Result<(), AllocError>
    requires few { length lands.now ≤ TRACTS_MOST }
    requires whole { All (HasWholeLand (M.measure by.now).lots L.places) lands.now }
    requires within { second < length lands.now }
    ensures { OnOk result ((rows : List Fields)
        → AreLandsTo L.places (M.measure by.now).lots (M.measure by.now).township rows (length rows)
        lands.now
        → AreFoundTo (M.measure by.now) rows 0 second overlaps.old.items
        → AreFoundTo (M.measure by.now) rows second second overlaps.new.items) }
{
    for first in 0..second {
        let found = shared_acres(by, &lands[first], &lands[second]);
        note_overlap(first, second, found, overlaps)?;
    }
    Ok(())
}

/// Adds the overlap of the tracts at these indexes, if they overlap.
fn note_overlap<A: Copy>(
    first: usize,
    second: usize,
    found: Option<A>,
    overlaps: &mut Vec<TractOverlap<A>>,
) -> Result<(), AllocError>
    requires first { first < TRACTS_MOST }
    requires second { second < TRACTS_MOST }
    ensures { OnOk result (NotesOverlap first second found overlaps.old.items overlaps.new.items) }
{
    let Some(acres) = found else {
        return Ok(());
    };
    overlaps.push(TractOverlap {
        first: first as u32 + FIRST_TRACT,
        second: second as u32 + FIRST_TRACT,
        acres,
    })?;
    Ok(())
}

/// How much land is in both tracts, if there is any.
fn shared_acres<M: Measuring, L: Land>(
    by: &M,
    one: &Option<L>,
    other: &Option<L>,
) -> Option<M::Acres>
    requires one { HasWholeLand (M.measure by.now).lots L.places one.now }
    requires other { HasWholeLand (M.measure by.now).lots L.places other.now }
    ensures { (fields more : Fields)
        → IsLandOfRecord L.places (M.measure by.now).lots (M.measure by.now).township fields one.now
        → IsLandOfRecord L.places (M.measure by.now).lots (M.measure by.now).township more other.now
        → MatchOption result
        (¬ AreOverlapping (M.measure by.now).lots (M.measure by.now).township fields more)
        (IsSharedAcres (M.measure by.now) fields more) }
{
    let Some(one) = one else {
        return None;
    };
    let Some(other) = other else {
        return None;
    };
    common_acres(by, one, other)
}

/// How much land the places that are in both lands are, if there are any.
fn common_acres<M: Measuring, L: Land>(by: &M, one: &L, other: &L) -> Option<M::Acres>
    requires one { HasWholeLots (M.measure by.now).lots (L.places one.now) }
    requires other { HasWholeLots (M.measure by.now).lots (L.places other.now) }
    ensures { MatchOption result (¬ SharePlace (L.places one.now) (L.places other.now))
        (HasSharedPlaces (M.measure by.now) (L.places one.now) (L.places other.now)) }
{
    if !one.meets_land(other) {
        return None;
    }
    let mut shared = L::empty();
    shared.add_land(one);
    shared.keep_common(other);
    Some(by.acres_of(&shared))
}
