//! Which fields of a refused record of a lot table are to blame.
ghost use Rattle.std.specs.Prelude.{◌≡◌, ◌≢◌};
ghost use Rattle.twp_plat.specs.LotRecords.{lots_heading};
ghost use Rattle.twp_diagnose.specs.RecordFields.{fields_in};
ghost use Rattle.twp_sentences.specs.BlamedInTables.{AreBlamedInTable, IsColumnCount, AreMiscounted};
ghost use Rattle.twp_sentences.specs.BlamedInTables.{AreUnlikeHeading, IsNotOfLot, columns_of};

use crate::field_notes::{FieldRange, unlike_township};
use twp_diagnose::Record;
use twp_notes::{is_exactly, section_of};
use twp_plat::LotsFault;

/// The number of fields in the record of a lot.
pub(crate) const LOT_FIELDS: usize = 3;

/// The number in a table with land.
const LAND_FIELDS: usize = 4;

/// The most fields of the township's record, of which the last is a date.
const TOWNSHIP_FIELDS: usize = 6;

/// The field of a lot's acreage, that of its land, and that of the date in the township's record.
const ACRES: usize = 2;

const LAND: usize = 3;

const DATE: usize = 5;

/// The fields of a record that are to blame for its fault.
pub(crate) fn blamed_in_table(
    fault: LotsFault,
    record: &Record<'_>,
    lot_fields: usize,
) -> FieldRange
    ensures { AreBlamedInTable fault lot_fields (fields_in «record».now) result }
{
    match fault {
        LotsFault::Heading => unlike_lots_heading(record),
        LotsFault::Columns(number) => miscounted(record, columns_of(number, lot_fields)),
        LotsFault::Township => FieldRange::one(unlike_township(record)),
        LotsFault::NoLot(_) => FieldRange::one(not_of_lot(record)),
        LotsFault::Acres(_) => FieldRange::one(ACRES),
        LotsFault::Repeated(_) | LotsFault::TooMany(_) => FieldRange { first: 0, last: 1 },
        LotsFault::Date => FieldRange::one(DATE),
        LotsFault::Land(_)
        | LotsFault::TooFine(_)
        | LotsFault::Shared(_)
        | LotsFault::Unfilled(_) => FieldRange::one(LAND),
        _ => FieldRange {
            first: 0,
            last: record.len().saturating_sub(1),
        },
    }
}

/// The first field that isn't the heading's, or those after the heading's.
fn unlike_lots_heading(record: &Record<'_>) -> FieldRange
    ensures { fields_in «record».now ≢ lots_heading
        → AreUnlikeHeading (fields_in «record».now) result }
{
    if !is_exactly(record.text(0), "section") {
        FieldRange::one(0)
    } else if !is_exactly(record.text(1), "lot") {
        FieldRange::one(1)
    } else if !is_exactly(record.text(2), "acres") {
        FieldRange::one(2)
    } else {
        FieldRange {
            first: heading_fields(record),
            last: record.len().saturating_sub(1),
        }
    }
}

/// How many fields the heading has whose first three a record has.
fn heading_fields(record: &Record<'_>) -> usize
    ensures { IsColumnCount (fields_in «record».now) result }
{
    if is_exactly(record.text(LAND), "land") {
        LAND_FIELDS
    } else {
        LOT_FIELDS
    }
}

/// The most fields of the record of a number, in a table in which a lot's record has so many.
pub(crate) fn columns_of(number: u32, lot_fields: usize) -> usize
    ensures { result ≡ columns_of number lot_fields }
{
    if number == 2 {
        TOWNSHIP_FIELDS
    } else {
        lot_fields
    }
}

/// The fields after so many, or the end of a record that has no more.
fn miscounted(record: &Record<'_>, columns: usize) -> FieldRange
    ensures { AreMiscounted columns (fields_in «record».now) result }
{
    if record.len() > columns {
        FieldRange {
            first: columns,
            last: record.len() - 1,
        }
    } else {
        FieldRange::one(record.len())
    }
}

/// The field that should be a section, or a lot of it, and isn't.
fn not_of_lot(record: &Record<'_>) -> usize
    ensures { IsNotOfLot (fields_in «record».now) result }
{
    match section_of(record.text(0)) {
        Some(_) => 1,
        None => 0,
    }
}
