//! What mends a record of a lot table, where its bytes explain it: a table of which the first row that
//! fits counts.

use crate::field_notes::note_hint_on;
use crate::lot_tables::acres::write_two_decimals;
use crate::lot_tables::lot_patterns::LotPattern;
use crate::lot_tables::lot_patterns::LotPattern::{
    Any, BareSection, Begins, CasedHeading, Contains, CutAcres, DecimalComma, Empty, EmptyField,
    EmptyFields, LandRecord, Letters, LongHeading, LotRecord, OneField, Says, SecondLotRecord,
    Spaced, SpacedHeading, StartsField, WithUnit, Worded, Zeros,
};
use std::alloc::AllocError;
use twp_diagnose::Record;
use twp_grid::Refusal;

/// A row: the number of a refusal, what is seen of the record, and what mends it.
struct LotHint(u8, LotPattern, &'static str);

/// The rows, by the numbers of refusals.
const LOT_HINTS: [LotHint; 39] = [
    LotHint(88, Zeros, "the file looks like UTF-16: save it as UTF-8"),
    LotHint(
        88,
        OneField(b';'),
        "the fields are separated by semicolons: save the file with commas",
    ),
    LotHint(
        88,
        OneField(b'\t'),
        "the fields are separated by tabs: save the file with commas",
    ),
    LotHint(
        88,
        EmptyFields,
        "delete the empty fields at its end, and at the ends of other records",
    ),
    LotHint(
        88,
        LongHeading,
        "delete the columns after `acres`, or after `land`, in every record of a lot",
    ),
    LotHint(
        88,
        SpacedHeading,
        "spaces are significant: delete those around the fields, in every record",
    ),
    LotHint(88, CasedHeading, "write the heading in lowercase"),
    LotHint(
        88,
        Says(0, "line"),
        "these are field notes, not a lot table",
    ),
    LotHint(
        88,
        Says(0, "name"),
        "this is a list of tracts, not a lot table",
    ),
    LotHint(88, Begins("sec."), "this is a description, not a lot table"),
    LotHint(
        88,
        Begins("secs."),
        "this is a description, not a lot table",
    ),
    LotHint(88, Begins("T."), "this is a description, not a lot table"),
    LotHint(
        88,
        Says(0, "T"),
        "the heading is missing: add it before this record",
    ),
    LotHint(
        88,
        LotRecord,
        "the heading is missing: add it as the first record, and the township as the second",
    ),
    LotHint(
        89,
        OneField(b';'),
        "the fields are separated by semicolons: save the file with commas",
    ),
    LotHint(
        89,
        OneField(b'\t'),
        "the fields are separated by tabs: save the file with commas",
    ),
    LotHint(89, Empty, "delete the empty row"),
    LotHint(
        89,
        Begins("T."),
        "this is the form for descriptions; in a lot table, write `T,2,N,3,W`",
    ),
    LotHint(
        89,
        EmptyFields,
        "delete the empty fields at the end of the record",
    ),
    LotHint(
        89,
        CutAcres,
        "write a decimal point instead of the comma, as in `40.45`",
    ),
    LotHint(
        89,
        SecondLotRecord,
        "the township is missing: write it as the second record, such as `T,2,N,3,W`",
    ),
    LotHint(
        89,
        LotRecord,
        "the land is missing: write where the lot lies, as in `NE1/4NE1/4`",
    ),
    LotHint(
        89,
        LandRecord,
        "add the column `land` to the heading: `section,lot,acres,land`",
    ),
    LotHint(91, Empty, "delete the empty row"),
    LotHint(91, Spaced, "spaces are significant here: delete the space"),
    LotHint(91, Says(0, "total"), "delete the row with the total"),
    LotHint(91, Worded(0), "write only the number of the section"),
    LotHint(91, Worded(1), "write only the number of the lot"),
    LotHint(
        91,
        BareSection,
        "with three columns, the lots are those of a regular township; for others, add the column `land`",
    ),
    LotHint(92, Spaced, "spaces are significant here: delete the space"),
    LotHint(
        92,
        DecimalComma,
        "write a decimal point instead of the comma",
    ),
    LotHint(92, WithUnit, "write only the number"),
    LotHint(
        95,
        EmptyField,
        "delete the comma before it, or write the date of approval",
    ),
    LotHint(95, Spaced, "spaces are significant here: delete the space"),
    LotHint(
        95,
        Contains(b'/'),
        "write the year first, and hyphens, as in `1912-03-04`",
    ),
    LotHint(
        96,
        StartsField("sec"),
        "leave out the section: it is the first field",
    ),
    LotHint(
        96,
        StartsField("lot"),
        "write the lot's number in the second field, and the parts in which it lies here",
    ),
    LotHint(
        96,
        Letters,
        "write a fraction after each direction, as in `NE1/4NE1/4`",
    ),
    LotHint(
        100,
        Any,
        "add the other lots of the quarter-quarter, or a record without lot and acres for what is not there",
    ),
];

/// Appends what mends a record with a refusal, of which this is the first field to blame.
pub(crate) fn write_lots_hint(
    refusal: Refusal,
    record: &Record<'_>,
    field: usize,
    out: &mut String,
) -> Result<(), AllocError> {
    if refusal.number == ACRES && write_two_decimals(record.text(field), out)? {
        return Ok(());
    }
    match hint_on(refusal.number, record, field) {
        Some(hint) => out.push_str(hint),
        None => Ok(()),
    }
}

/// The number of the refusal of an acreage.
const ACRES: u8 = 92;

/// The number of the refusal of a township, and that of a township in field notes.
const TOWNSHIP: u8 = 90;

const TOWNSHIP_OF_NOTES: u8 = 5;

/// What mends a record that was refused with a number.
fn hint_on(number: u8, record: &Record<'_>, field: usize) -> Option<&'static str> {
    if number == TOWNSHIP {
        return note_hint_on(TOWNSHIP_OF_NOTES, record, field);
    }
    for LotHint(refusal, sign, hint) in &LOT_HINTS {
        if *refusal == number && sign.fits(record, field) {
            return Some(*hint);
        }
    }
    None
}
