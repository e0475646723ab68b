//! The first record for the lot that a repeated record names.
ghost use Rattle.std.specs.Prelude.{◌≡◌, ◌≤◌, ◌↔◌, IfOk, IfSome, MatchOption, IsTrue};
ghost use Rattle.csv.specs.Records.{fields_of};
ghost use Rattle.twp_diagnose.specs.RecordFields.{fields_in};
ghost use Rattle.twp_sentences.specs.OtherTableRecords.{IsFirstForLot, NamesNumbers};
ghost use Rattle.twp_sentences.specs.steps.EarlierRecords.{AreNumbers, AreNoNumbers, IsEarlierForLot};

use crate::field_notes::EarlierRecord;
use csv::ByteRecord;
use std::alloc::{AllocError, Global};
use twp_diagnose::{Given, Record, line_in, text_in};
use twp_grid::Section;
use twp_notes::{Records, section_of, short_number};

/// A section, and a number of a lot.
#[derive(Clone, Copy)]
pub(crate) struct LotNumbers {
    pub(crate) section: Section,
    pub(crate) lot: u8,
}

/// The section and the number of a lot that a record names.
pub(crate) fn numbers_in(record: &Record<'_>) -> Option<LotNumbers>
    ensures { MatchOption result (AreNoNumbers (fields_in «record».now))
        (AreNumbers (fields_in «record».now)) }
{
    let section = section_of(record.text(0))?;
    let lot = short_number(record.text(1))?;
    Some(LotNumbers { section, lot })
}

/// Where the first record for the lot is that a record names: none if there is no such record before it.
pub(crate) fn first_for_lot(
    alloc: Global,
    table: &Given<'_>,
    record: &Record<'_>,
) -> Result<Option<EarlierRecord>, AllocError>
    ensures { IfOk result (λ found. IfSome found
        (IsEarlierForLot table.now (fields_in «record».now) «record».now.number)) }
{
    let Some(lot) = numbers_in(record) else {
        return Ok(None);
    };
    let before = record.number.saturating_sub(1);
    let Some(number) = number_of_first(alloc, table.bytes, lot, before)? else {
        return Ok(None);
    };
    let Some(earlier) = Record::numbered(alloc, table.bytes, number)? else {
        return Ok(None);
    };
    Ok(Some(EarlierRecord {
        number,
        line: line_in(table, earlier.start()),
        span: earlier.span(0, 1),
    }))
}

/// The number of the first record that names a lot, if it is one of the first so many.
fn number_of_first(
    alloc: Global,
    table: &[u8],
    lot: LotNumbers,
    most: u32,
) -> Result<Option<u32>, AllocError>
    ensures first { IfOk result (λ found. IfSome found (IsFirstForLot table.now lot.section lot.lot)) }
    ensures most { IfOk result (λ found. IfSome found (λ number. number ≤ most)) }
{
    let mut records = Records::new(alloc, table);
    let mut row = ByteRecord::new(alloc);
    'records: for passed in 0..most {
        if !records.read(&mut row)? {
            return Ok(None);
        }
        if names_lot(&row, lot) {
            return Ok(Some(passed + 1));
        }
    }
    Ok(None)
}

/// Whether a record names a lot.
fn names_lot(row: &ByteRecord, wanted: LotNumbers) -> bool
    ensures { IsTrue result ↔ NamesNumbers (fields_of row.now) wanted.section wanted.lot }
{
    let Some(section) = section_of(text_in(row, 0)) else {
        return false;
    };
    let Some(lot) = short_number(text_in(row, 1)) else {
        return false;
    };
    section == wanted.section && lot == wanted.lot
}
