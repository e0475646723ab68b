//! What a record of a lot table is refused for, as the explanation says it.

use crate::descriptions::write_lots_of;
use crate::field_notes::{write_section_fault, write_township_fault};
use crate::lot_tables::acres::write_acres_fault;
use crate::lot_tables::blamed::LOT_FIELDS;
use crate::lot_tables::earlier::numbers_in;
use std::alloc::AllocError;
use twp_diagnose::{Record, write_count, write_quoted};
use twp_land::StandardLots;
use twp_plat::LotsFault;

/// Appends what a record is refused for, with the first field to blame.
pub(crate) fn write_lots_fault(
    fault: LotsFault,
    record: &Record<'_>,
    field: usize,
    lot_fields: usize,
    out: &mut String,
) -> Result<(), AllocError> {
    match fault {
        LotsFault::Heading => write_heading_fault(record, field, out),
        LotsFault::Columns(number) => {
            out.push_str("this record has ")?;
            write_count(record.len(), out)?;
            match number {
                2 => out.push_str(", not 5, or 6 with a date"),
                _ => write!(out, ", not {lot_fields}"),
            }
        }
        LotsFault::Township => write_township_fault(record, field, out),
        LotsFault::NoLot(_) if field == 0 => write_section_fault(record, field, out),
        LotsFault::NoLot(_) => write_lot_fault(record, out),
        LotsFault::Acres(_) => write_acres_fault(record.text(field), out),
        LotsFault::Repeated(_) => write_repeated(record, out),
        LotsFault::Date => write_date_fault(record.text(field), out),
        LotsFault::Land(_) => write_land_fault(record.text(field), out),
        LotsFault::TooFine(_) => out.push_str(
            "a part of this land is too small: a section's side can be halved at most five times",
        ),
        LotsFault::Shared(_) => out.push_str(
            "this land shares a place with another part of this record, or of an earlier one",
        ),
        LotsFault::TooMany(_) => out.push_str(
            "this is one lot too many: a section has at most 64 lots, and a township 1,024",
        ),
        LotsFault::Unfilled(_) => {
            out.push_str("a quarter-quarter of this lot also contains land that is in no lot")
        }
        LotsFault::Divided(_) => out.push_str(
            "more than 128 quarter-quarters are divided between lots, or between a lot and other land",
        ),
        _ => write!(out, "{fault}"),
    }
}

/// Appends what is no heading.
fn write_heading_fault(
    record: &Record<'_>,
    field: usize,
    out: &mut String,
) -> Result<(), AllocError> {
    out.push_str("the heading must be `section,lot,acres`, or `section,lot,acres,land`: ")?;
    if field < LOT_FIELDS && field < record.len() {
        write!(out, "field {} is ", field.saturating_add(1))?;
        write_quoted(record.text(field), out)
    } else {
        out.push_str("it has ")?;
        write_count(record.len(), out)
    }
}

/// Appends what is no lot of the record's section.
fn write_lot_fault(record: &Record<'_>, out: &mut String) -> Result<(), AllocError> {
    let lot = record.text(1);
    if lot.is_empty() {
        return out.push_str("the lot number is missing");
    }
    match numbers_in(record) {
        Some(numbers) if numbers.lot > 0 => {
            write!(out, "there is no lot {}: ", numbers.lot)?;
            write_lots_of(numbers.section, &StandardLots, out)
        }
        _ => {
            write_quoted(lot, out)?;
            out.push_str(" is not a lot number: write it in one or two digits")
        }
    }
}

/// Appends what is no date.
fn write_date_fault(text: &[u8], out: &mut String) -> Result<(), AllocError> {
    if text.is_empty() {
        return out.push_str("the date is missing");
    }
    write_quoted(text, out)?;
    out.push_str(" is not a date: write the year, the month, and the day, as in `1912-03-04`")
}

/// Appends what is no land.
fn write_land_fault(text: &[u8], out: &mut String) -> Result<(), AllocError> {
    if text.is_empty() {
        return out.push_str("the land is missing: write it in aliquot parts, such as `NE1/4NE1/4`");
    }
    write_quoted(text, out)?;
    out.push_str(" is not land in aliquot parts, such as `NE1/4NE1/4`, or `N1/2NE1/4, SE1/4NE1/4`")
}

/// Appends that a lot has a record already.
fn write_repeated(record: &Record<'_>, out: &mut String) -> Result<(), AllocError> {
    let Some(numbers) = numbers_in(record) else {
        return Ok(());
    };
    let section = numbers.section.number();
    write!(
        out,
        "duplicate record: section {section}, lot {}",
        numbers.lot
    )
}
