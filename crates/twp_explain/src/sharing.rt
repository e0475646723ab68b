//! Which tracts of a list share land.
ghost use Rattle.std.specs.Prelude.{◌≡◌, IfOk, IfSome, IsTrue};
ghost use Rattle.csv.specs.Records.{fields_of};
ghost use Rattle.twp_notes.specs.Records.{record_at, records_left, IsBetweenRecords};
ghost use Rattle.twp_answers.specs.Answers.{Describe};
ghost use Rattle.twp_answers.specs.Tracts.{tract_records, description_in};
ghost use Rattle.twp_diagnose.specs.RecordFields.{number_listed};
ghost use Rattle.twp_explain.specs.steps.Sharing.{IsFirstOverlapping, IsFirstSharingRecord};
ghost use Rattle.twp_grid.specs.Lands.{lotting};

use csv::ByteRecord;
use std::alloc::{AllocError, Global};
use twp_diagnose::Listed;
use twp_grid::Township;
use twp_land::{Land, Lotting};
use twp_notes::{Records, field};
use twp_read::{Description, TextFault};
use twp_resolve::resolve_into;

/// The number of the record after the heading, the first one of a tract.
pub(crate) const FIRST_TRACT: u32 = 2;

/// The record of the first tract that shares land with another one. Sets a land to what the two
/// share. None if there is no such tract.
#[inline(never)]
pub(crate) fn first_sharing_record<'a, L: Land, P: Lotting>(
    alloc: Global,
    listed: &Listed<'a>,
    township: Township,
    lots: &P,
    common: &mut L,
) -> Result<Option<Listed<'a>>, AllocError>
    ensures { IfOk result (λ found. IfSome found (λ earlier.
        IsFirstSharingRecord (lotting (P.layout lots.now)) township listed.now earlier
        (L.places common.new))) }
{
    let index = listed.number().saturating_sub(FIRST_TRACT);
    let found = first_sharing_tract(alloc, listed.file.bytes, township, lots, index, common)?;
    let Some(earlier) = found else {
        return Ok(None);
    };
    Listed::numbered(alloc, listed.file, earlier.saturating_add(FIRST_TRACT))
}

/// The first tract of a list that shares land with the one that so many come before: how many come
/// before it. Sets a land to what the two share. None where there is no such tract.
#[inline(never)]
fn first_sharing_tract<L: Land, P: Lotting>(
    alloc: Global,
    bytes: &[u8],
    township: Township,
    lots: &P,
    index: u32,
    common: &mut L,
) -> Result<Option<u32>, AllocError>
    ensures { IfOk result (λ found. IfSome found (λ earlier.
        IsFirstOverlapping (lotting (P.layout lots.now)) township
        (tract_records bytes.now) index earlier (L.places common.new))) }
{
    let mut land = L::empty();
    if !tract_into(alloc, bytes, township, lots, index, &mut land)? {
        return Ok(None);
    }
    first_before(alloc, bytes, township, lots, index, &land, common)
}

/// Sets a land to that of the tract that so many others come before, and says whether there is one.
#[inline(never)]
fn tract_into<L: Land, P: Lotting>(
    alloc: Global,
    bytes: &[u8],
    township: Township,
    lots: &P,
    index: u32,
    land: &mut L,
) -> Result<bool, AllocError>
    ensures { IfOk result (λ found. IsTrue found → Describe (lotting (P.layout lots.now)) township
        (description_in (record_at (tract_records bytes.now) index)) (L.places land.new)) }
{
    let Some(row) = tract_at(alloc, bytes, index)? else {
        return Ok(false);
    };
    land_into(alloc, township, lots, &row, land)
}

/// The first of so many tracts of a list that shares land with the one after them, whose land this
/// is.
#[inline(never)]
fn first_before<L: Land, P: Lotting>(
    alloc: Global,
    bytes: &[u8],
    township: Township,
    lots: &P,
    index: u32,
    land: &L,
    common: &mut L,
) -> Result<Option<u32>, AllocError>
    requires { Describe (lotting (P.layout lots.now)) township
        (description_in (record_at (tract_records bytes.now) index)) (L.places land.now) }
    ensures { IfOk result (λ found. IfSome found (λ earlier.
        IsFirstOverlapping (lotting (P.layout lots.now)) township
        (tract_records bytes.now) index earlier (L.places common.new))) }
{
    let mut records = Records::new(alloc, bytes);
    let mut row = ByteRecord::new(alloc);
    if !records.read(&mut row)? {
        return Ok(None);
    }
    first_left(
        alloc,
        &mut records,
        &mut row,
        township,
        lots,
        index,
        land,
        common,
    )
}

/// The same of the records that a reader still has to read.
fn first_left<L: Land, P: Lotting>(
    alloc: Global,
    records: &mut Records<'_>,
    row: &mut ByteRecord,
    township: Township,
    lots: &P,
    index: u32,
    land: &L,
    common: &mut L,
) -> Result<Option<u32>, AllocError>
    requires reading { IsBetweenRecords records.old }
    requires land { Describe (lotting (P.layout lots.now)) township
        (description_in (record_at (records_left records.old) index)) (L.places land.now) }
    ensures { IfOk result (λ found. IfSome found (λ earlier.
        IsFirstOverlapping (lotting (P.layout lots.now)) township
        (records_left records.old) index earlier (L.places common.new))) }
{
    'records: for earlier in 0..index {
        if !records.read(row)? {
            return Ok(None);
        }
        if !land_into(alloc, township, lots, row, common)? {
            return Ok(None);
        }
        if common.meets_land(land) {
            common.keep_common(land);
            return Ok(Some(earlier));
        }
    }
    Ok(None)
}

/// Sets a land to that which a tract's record describes, and says whether it describes one.
#[inline(never)]
fn land_into<L: Land, P: Lotting>(
    alloc: Global,
    township: Township,
    lots: &P,
    row: &ByteRecord,
    land: &mut L,
) -> Result<bool, AllocError>
    ensures { IfOk result (λ found. IsTrue found
        → Describe (lotting (P.layout lots.now)) township (description_in (fields_of row.now))
        (L.places land.new)) }
{
    if row.len() < 2 {
        return Ok(false);
    }
    let description = match Description::read(alloc, field(row, 1)) {
        Ok(description) => description,
        Err(TextFault::Memory) => return Err(AllocError),
        Err(_) => return Ok(false),
    };
    let Ok(()) = resolve_into(land, &description, township, lots) else {
        return Ok(false);
    };
    Ok(true)
}

/// The record of the tract of a list that so many others come before, where there is one.
#[inline(never)]
fn tract_at(alloc: Global, bytes: &[u8], index: u32) -> Result<Option<ByteRecord>, AllocError>
    ensures { IfOk result (λ found. IfSome found (λ row.
        fields_of row ≡ record_at (tract_records bytes.now) index)) }
{
    let mut records = Records::new(alloc, bytes);
    let mut row = ByteRecord::new(alloc);
    if records.read(&mut row)? && read_tract(&mut records, &mut row, index)? {
        return Ok(Some(row));
    }
    Ok(None)
}

/// Reads the record that so many others come before, and says whether there is one. The reader and the record
/// are made elsewhere, since each way out of a function that makes them is proved to drop them.
fn read_tract(
    records: &mut Records<'_>,
    row: &mut ByteRecord,
    index: u32,
) -> Result<bool, AllocError>
    requires { IsBetweenRecords records.old }
    ensures { IfOk result (λ found. IsTrue found
        → fields_of row.new ≡ record_at (records_left records.old) index) }
{
    'records: for passed in 0..index {
        if !records.read(row)? {
            return Ok(false);
        }
    }
    records.read(row)
}
