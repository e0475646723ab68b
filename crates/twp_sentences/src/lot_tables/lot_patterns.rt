//! What is seen of a record of a lot table that explains what is wrong with it.

use crate::field_notes::{begins, is_spaced, is_word};
use crate::lot_tables::earlier::numbers_in;
use twp_diagnose::{Record, is_short_number};
use twp_land::{Lotting, StandardLots};

/// What may be seen of a record of a lot table, and of the first field of it that is to blame.
#[derive(Clone, Copy)]
pub(crate) enum LotPattern {
    /// The field to blame is this one, from 0, and this text, in small letters or capitals.
    Says(usize, &'static str),
    /// The record begins with this text, in small letters or capitals.
    Begins(&'static str),
    /// The field to blame has white space around it.
    Spaced,
    /// The record is one field, with this byte in it.
    OneField(u8),
    /// A byte of the first field is 0.
    Zeros,
    /// Each field is empty.
    Empty,
    /// The field to blame and all after it are empty, and others come before.
    EmptyFields,
    /// The fields to blame come after those of the heading.
    LongHeading,
    /// The fields of the heading, but for white space around them.
    SpacedHeading,
    /// The fields of the heading, but for capitals.
    CasedHeading,
    /// It has the fields of a lot's record, without land.
    LotRecord,
    /// The record of the township has the fields of a lot's record, with or without land.
    SecondLotRecord,
    /// It has the fields of a lot's record, with land, or of a record of what is not there.
    LandRecord,
    /// It has the fields of a lot's record, with a comma in its acreage.
    CutAcres,
    /// It is for a lot of a section in which a regular township has no lots.
    BareSection,
    /// The field to blame is this one, from 0, and a number with a word before it.
    Worded(usize),
    /// The field to blame is an acreage with a comma for its point.
    DecimalComma,
    /// The field to blame is an acreage, and a word after it.
    WithUnit,
    /// The field to blame is empty.
    EmptyField,
    /// The field to blame has this byte in it.
    Contains(u8),
    /// The field to blame begins with this text, in small letters or capitals.
    StartsField(&'static str),
    /// The field to blame is letters of directions alone.
    Letters,
    /// Any record.
    Any,
}

/// How many fields the record of a lot has, without land, and with it.
const FIELDS: usize = 3;

const LAND_FIELDS: usize = 4;

/// The number of the township's record.
const TOWNSHIP_RECORD: u32 = 2;

impl LotPattern {
    /// Whether it is seen of a record and its field to blame.
    pub(crate) fn fits(self, record: &Record<'_>, field: usize) -> bool {
        match self {
            LotPattern::Says(place, word) => place == field && is_word(record.text(field), word),
            LotPattern::Begins(word) => begins(record.text(0), word),
            LotPattern::Spaced => is_spaced(record.text(field)),
            LotPattern::OneField(byte) => record.len() == 1 && record.text(0).contains(&byte),
            LotPattern::Zeros => record.text(0).contains(&0),
            LotPattern::Empty => are_empty(record, 0),
            LotPattern::EmptyFields => field > 0
                && field < record.len()
                && are_empty(record, field),
            LotPattern::LongHeading => record.len() > columns(record) && is_like_heading(record),
            LotPattern::SpacedHeading => is_like_heading(record) && has_spaces(record),
            LotPattern::CasedHeading => record.len() == columns(record) && is_like_heading(record),
            LotPattern::LotRecord => is_lot_record(record),
            LotPattern::SecondLotRecord => record.number == TOWNSHIP_RECORD
                && (is_lot_record(record) || is_land_record(record)),
            LotPattern::LandRecord => is_land_record(record),
            LotPattern::CutAcres => is_cut_record(record),
            LotPattern::BareSection => is_of_bare_section(record),
            LotPattern::Worded(place) => place == field && is_worded(record.text(field)),
            LotPattern::DecimalComma => is_decimal_comma(record.text(field)),
            LotPattern::WithUnit => is_with_unit(record.text(field)),
            LotPattern::EmptyField => record.text(field).is_empty(),
            LotPattern::Contains(byte) => record.text(field).contains(&byte),
            LotPattern::StartsField(word) => begins(record.text(field), word),
            LotPattern::Letters => is_letters(record.text(field)),
            LotPattern::Any => true,
        }
    }
}

/// Whether a field and all after it are empty.
fn are_empty(record: &Record<'_>, first: usize) -> bool {
    (first..record.len()).all(|place| record.text(place).is_empty())
}

/// Whether white space is around one of the fields.
fn has_spaces(record: &Record<'_>) -> bool {
    (0..record.len()).any(|place| is_spaced(record.text(place)))
}

/// Whether the first fields are those that each heading has, but for capitals, and white space around.
fn is_like_heading(record: &Record<'_>) -> bool {
    is_heading(record, 0, "section")
        && is_heading(record, 1, "lot")
        && is_heading(record, 2, "acres")
}

/// Whether a field is a word of the heading, but for capitals, and white space around.
fn is_heading(record: &Record<'_>, place: usize, word: &str) -> bool {
    is_word(record.text(place).trim_ascii(), word)
}

/// How many fields of a heading are those of a table.
fn columns(record: &Record<'_>) -> usize {
    if is_heading(record, FIELDS, "land") {
        return LAND_FIELDS;
    }
    FIELDS
}

/// Whether a record has three fields, of which the first two are short numbers.
fn is_lot_record(record: &Record<'_>) -> bool {
    record.len() == FIELDS
        && is_short_number(record.text(0), 2)
        && is_short_number(record.text(1), 2)
}

/// Whether a record has four fields, of which the first is a short number, and the last looks like land.
fn is_land_record(record: &Record<'_>) -> bool {
    record.len() == LAND_FIELDS
        && is_short_number(record.text(0), 2)
        && is_like_land(record.text(3))
}

/// Whether a text begins with a direction, and contains a fraction or nothing but directions.
fn is_like_land(text: &[u8]) -> bool {
    matches!(text.first(), Some(b'N' | b'S' | b'E' | b'W'))
        && (text.contains(&b'/') || is_letters(text))
}

/// Whether a record is for a lot of a section in which a regular township has no lots.
fn is_of_bare_section(record: &Record<'_>) -> bool {
    match numbers_in(record) {
        Some(numbers) => numbers.lot > 0 && StandardLots.next_lot(numbers.section, 0).is_none(),
        None => false,
    }
}

/// Whether a record has four fields, all numbers, of which the last one may be the decimals of the third.
fn is_cut_record(record: &Record<'_>) -> bool {
    record.len() == LAND_FIELDS
        && is_short_number(record.text(0), 2)
        && is_short_number(record.text(1), 2)
        && is_short_number(record.text(2), 3)
        && is_short_number(record.text(3), 2)
}

/// Whether a text is a word, or an abbreviation, and a short number after it.
fn is_worded(text: &[u8]) -> bool {
    let word = text
        .iter()
        .take_while(|byte| byte.is_ascii_alphabetic() || matches!(**byte, b'.' | b' ' | b'#'))
        .count();
    word > 0 && is_short_number(text.get(word..).unwrap_or(b""), 2)
}

/// Whether a text is an acreage, but for a comma in the place of its point.
fn is_decimal_comma(text: &[u8]) -> bool {
    let whole = text.iter().take_while(|byte| **byte != b',').count();
    let decimals = text.get(whole.saturating_add(1)..).unwrap_or(b"");
    is_short_number(text.get(..whole).unwrap_or(b""), 3) && is_short_number(decimals, 2)
}

/// Whether a text is a number, and letters after it.
fn is_with_unit(text: &[u8]) -> bool {
    let number = text
        .iter()
        .take_while(|byte| byte.is_ascii_digit() || **byte == b'.')
        .count();
    let unit = text.get(number..).unwrap_or(b"").trim_ascii_start();
    number > 0 && matches!(unit.first(), Some(b'a'..=b'z' | b'A'..=b'Z'))
}

/// Whether a text is nothing but letters of directions.
fn is_letters(text: &[u8]) -> bool {
    !text.is_empty()
        && text
            .iter()
            .all(|byte| matches!(*byte, b'N' | b'S' | b'E' | b'W'))
}
