//! What mends a record of field notes, where its bytes explain it: a table of which the first row that
//! fits counts.

use crate::field_notes::columns::{goes_on, has_cut_distances, lacks_neighbor};
use twp_diagnose::{Record, is_short_number, thousandths};
use twp_measure::Length;
use twp_notes::FIELDS;

/// A row: the number of a refusal, what is seen of the record, and what mends it.
struct NoteHint(u8, NotePattern, &'static str);

/// What may be seen of a record, and of the field of it that is to blame.
#[derive(Clone, Copy)]
enum NotePattern {
    /// The field to blame is this one, from 0, and this text, in small letters or capitals.
    Says(usize, &'static str),
    /// The record begins with this text, in small letters or capitals.
    Begins(&'static str),
    /// The field to blame has white space around it.
    Spaced,
    /// The record is one field, with this byte in it.
    OneField(u8),
    /// A byte of the first field is 0.
    Zeros,
    /// Each field is empty.
    Empty,
    /// The fields of the heading, but for white space around them.
    SpacedHeading,
    /// The fields of the heading, but for capitals.
    CasedHeading,
    /// The fields of the heading, and more.
    LongHeading,
    /// The fields of a line on the township boundary, without the third.
    NoNeighbor,
    /// The fields of a line, and more that can't be of its distances.
    LongRecord,
    /// The fields of a line, with a comma in each distance that isn't whole.
    CutDistances,
    /// The field to blame is a distance with a comma for its point.
    DecimalComma,
    /// The field to blame is a distance, and `ch` or more after it.
    WithChains,
    /// The distances are a half mile and a mile, or near them, in a unit that goes into a mile so
    /// many thousand times.
    Mile(u64),
}

use NotePattern::{
    Begins, CasedHeading, CutDistances, DecimalComma, Empty, LongHeading, LongRecord, Mile,
    NoNeighbor, OneField, Says, Spaced, SpacedHeading, WithChains, Zeros,
};

/// The rows, by the numbers of refusals.
const HINTS: [NoteHint; 45] = [
    NoteHint(3, Zeros, "the file looks like UTF-16: save it as UTF-8"),
    NoteHint(
        3,
        OneField(b';'),
        "the fields are separated by semicolons: save the file with commas",
    ),
    NoteHint(
        3,
        OneField(b'\t'),
        "the fields are separated by tabs: save the file with commas",
    ),
    NoteHint(
        3,
        LongHeading,
        "delete the columns after the fifth, in every record",
    ),
    NoteHint(
        3,
        SpacedHeading,
        "spaces are significant: delete those around the fields, in every record",
    ),
    NoteHint(3, CasedHeading, "write the heading in lowercase"),
    NoteHint(
        3,
        Begins("sec."),
        "this is a description: name the file of the field notes first",
    ),
    NoteHint(
        3,
        Begins("secs."),
        "this is a description: name the file of the field notes first",
    ),
    NoteHint(
        3,
        Begins("T."),
        "this is a description: name the file of the field notes first",
    ),
    NoteHint(
        3,
        Says(0, "T"),
        "the heading is missing: add it before this record",
    ),
    NoteHint(
        3,
        Says(0, "N"),
        "the heading is missing: add it as the first record, and the township as the second",
    ),
    NoteHint(
        3,
        Says(0, "W"),
        "the heading is missing: add it as the first record, and the township as the second",
    ),
    NoteHint(
        4,
        OneField(b';'),
        "the fields are separated by semicolons: write commas",
    ),
    NoteHint(
        4,
        OneField(b'\t'),
        "the fields are separated by tabs: write commas",
    ),
    NoteHint(
        4,
        Begins("T."),
        "this is the form for descriptions; in field notes, write `T,2,N,3,W`",
    ),
    NoteHint(
        4,
        NoNeighbor,
        "on the township boundary the third field is empty, but its comma is still required",
    ),
    NoteHint(
        4,
        CutDistances,
        "write decimal points instead of commas, as in `40.00`",
    ),
    NoteHint(4, LongRecord, "delete everything after the fifth field"),
    NoteHint(5, Spaced, "spaces are significant here: delete the space"),
    NoteHint(5, Says(0, "t"), "write `T`"),
    NoteHint(5, Says(2, "n"), "write `N`"),
    NoteHint(5, Says(2, "s"), "write `S`"),
    NoteHint(5, Says(2, "north"), "write `N`"),
    NoteHint(5, Says(2, "south"), "write `S`"),
    NoteHint(5, Says(4, "e"), "write `E`"),
    NoteHint(5, Says(4, "w"), "write `W`"),
    NoteHint(5, Says(4, "east"), "write `E`"),
    NoteHint(5, Says(4, "west"), "write `W`"),
    NoteHint(6, Empty, "delete the empty row"),
    NoteHint(6, Spaced, "spaces are significant here: delete the space"),
    NoteHint(6, Says(0, "n"), "write `N`"),
    NoteHint(6, Says(0, "w"), "write `W`"),
    NoteHint(6, Says(0, "north"), "write `N`"),
    NoteHint(6, Says(0, "west"), "write `W`"),
    NoteHint(7, Spaced, "spaces are significant here: delete the space"),
    NoteHint(9, Spaced, "spaces are significant here: delete the space"),
    NoteHint(
        9,
        Mile(5_280_000),
        "the distances are in feet: divide them by 66",
    ),
    NoteHint(
        9,
        Mile(8_000_000),
        "the distances are in links: divide them by 100",
    ),
    NoteHint(
        9,
        Mile(1_609_344),
        "the distances are in meters: divide them by 20.1168",
    ),
    NoteHint(
        9,
        Mile(1_760_000),
        "the distances are in yards: divide them by 22",
    ),
    NoteHint(
        9,
        Mile(320_000),
        "the distances are in rods: divide them by 4",
    ),
    NoteHint(
        9,
        DecimalComma,
        "write a decimal point instead of the comma",
    ),
    NoteHint(9, WithChains, "write only the number"),
    NoteHint(
        21,
        Mile(1_000),
        "the distances are in miles: multiply them by 80",
    ),
    NoteHint(
        21,
        Mile(1_609),
        "the distances are in kilometers: multiply them by 49.71",
    ),
];

/// The words of the heading.
const HEADING: [&str; FIELDS] = ["line", "between", "and", "quarter", "corner"];

/// What mends a record that was refused with a number for one of its fields, from 0.
pub(crate) fn note_hint_on(number: u8, record: &Record<'_>, field: usize) -> Option<&'static str> {
    for NoteHint(refusal, sign, hint) in &HINTS {
        if *refusal == number && sign.fits(record, field) {
            return Some(*hint);
        }
    }
    None
}

impl NotePattern {
    /// Whether it is seen of a record and its field to blame.
    fn fits(self, record: &Record<'_>, field: usize) -> bool {
        match self {
            NotePattern::Says(place, word) => place == field && is_word(record.text(field), word),
            NotePattern::Begins(word) => begins(record.text(0), word),
            NotePattern::Spaced => is_spaced(record.text(field)),
            NotePattern::OneField(byte) => record.len() == 1 && record.text(0).contains(&byte),
            NotePattern::Zeros => record.text(0).contains(&0),
            NotePattern::Empty => (0..record.len()).all(|place| record.text(place).is_empty()),
            NotePattern::LongHeading => record.len() > FIELDS && is_like_heading(record),
            NotePattern::SpacedHeading => is_like_heading(record) && has_spaces(record),
            NotePattern::CasedHeading => record.len() == FIELDS && is_like_heading(record),
            NotePattern::NoNeighbor => lacks_neighbor(record),
            NotePattern::LongRecord => goes_on(record),
            NotePattern::CutDistances => has_cut_distances(record),
            NotePattern::DecimalComma => is_decimal_comma(record.text(field)),
            NotePattern::WithChains => is_with_chains(record.text(field)),
            NotePattern::Mile(mile) => is_mile(record, mile),
        }
    }
}

/// Whether a text is a word, in small letters or capitals.
pub(crate) fn is_word(text: &[u8], word: &str) -> bool {
    let word = word.as_bytes();
    text.len() == word.len()
        && text
            .iter()
            .zip(word)
            .all(|(a, b)| a.eq_ignore_ascii_case(b))
}

/// Whether a text begins with a word, in small letters or capitals.
pub(crate) fn begins(text: &[u8], word: &str) -> bool {
    is_word(text.get(..word.len()).unwrap_or(b""), word)
}

/// Whether a text begins or ends with white space.
pub(crate) fn is_spaced(text: &[u8]) -> bool {
    text.trim_ascii().len() < text.len()
}

/// Whether white space is around one of the fields.
fn has_spaces(record: &Record<'_>) -> bool {
    (0..record.len()).any(|place| is_spaced(record.text(place)))
}

/// Whether the first fields are those of the heading, but for capitals, and white space around.
fn is_like_heading(record: &Record<'_>) -> bool {
    for (place, word) in HEADING.iter().enumerate() {
        if !is_word(record.text(place).trim_ascii(), word) {
            return false;
        }
    }
    true
}

/// Whether a text is a length, but for a comma in the place of its point.
fn is_decimal_comma(text: &[u8]) -> bool {
    let whole = text.iter().take_while(|byte| **byte != b',').count();
    let decimals = text.get(whole.saturating_add(1)..).unwrap_or(b"");
    is_short_number(text.get(..whole).unwrap_or(b""), 2) && is_short_number(decimals, 3)
}

/// Whether a text is a length, and `ch` or more after it.
fn is_with_chains(text: &[u8]) -> bool {
    let number = text
        .iter()
        .take_while(|byte| byte.is_ascii_digit() || **byte == b'.')
        .count();
    let unit = text.get(number..).unwrap_or(b"").trim_ascii_start();
    Length::read(text.get(..number).unwrap_or(b"")).is_ok() && begins(unit, "ch")
}

/// Whether the distances of a record are a half mile and a mile, or near them, in a unit that goes
/// into a mile so many thousand times.
fn is_mile(record: &Record<'_>, mile: u64) -> bool {
    is_near(record.text(3), mile / 2) && is_near(record.text(4), mile)
}

/// Whether a text is a number of these thousandths, give or take a part in 64.
fn is_near(text: &[u8], wanted: u64) -> bool {
    match thousandths(text) {
        Some(value) => value.abs_diff(wanted) <= wanted / 64,
        None => false,
    }
}
