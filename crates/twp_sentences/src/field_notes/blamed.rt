//! Which fields of a refused record of field notes are to blame.
ghost use Rattle.std.specs.Prelude.{◌≡◌, ◌≢◌, ◌↔◌, ◌⊎◌, length, codes, IsTrue};
ghost use Rattle.twp_notes.specs.Records.{field};
ghost use Rattle.twp_notes.specs.FieldNotes.{FIELDS, heading, IsTownshipRecord};
ghost use Rattle.twp_notes.specs.NotesFaults.{HasNone, HasNoLength, HasNoSection};
ghost use Rattle.twp_diagnose.specs.RecordFields.{fields_in};
ghost use Rattle.twp_sentences.specs.Blamed.{AreBlamed, IsNoDistance, IsNoSection, IsNotOfTownship};
ghost use Rattle.twp_sentences.specs.Blamed.{one_field, IsTownshipText};

use twp_diagnose::Record;
use twp_measure::Length;
use twp_notes::{FIELDS, NotesFault, is_exactly, section_of, short_number};

/// Fields of a record, from one to another, counted from 0.
#[derive(Clone, Copy, PartialEq, Eq)]
pub(crate) struct FieldRange {
    pub(crate) first: usize,
    pub(crate) last: usize,
}

impl FieldRange {
    /// One field.
    pub(crate) fn one(place: usize) -> FieldRange
        ensures { result ≡ one_field place }
    {
        FieldRange {
            first: place,
            last: place,
        }
    }
}

/// The fields of a record that are to blame for its fault.
pub(crate) fn blamed(fault: NotesFault, record: &Record<'_>) -> FieldRange
    ensures { AreBlamed fault (fields_in «record».now) result }
{
    match fault {
        NotesFault::Heading if record.len() == FIELDS => FieldRange::one(unlike_heading(record)),
        NotesFault::Columns(_) => FieldRange::one(record.len().min(FIELDS)),
        NotesFault::Township => FieldRange::one(unlike_township(record)),
        NotesFault::Run(_) => FieldRange::one(0),
        NotesFault::Section(_) => FieldRange::one(no_section(record)),
        NotesFault::NoLine(_) => FieldRange { first: 1, last: 2 },
        NotesFault::Length(_) => FieldRange::one(no_distance(record)),
        _ => FieldRange {
            first: 0,
            last: record.len().saturating_sub(1),
        },
    }
}

/// The first field of five that isn't the heading's.
#[tactic(auto, using(crate::proofs::BlamedFacts::unlike_last))]
fn unlike_heading(record: &Record<'_>) -> usize
    ensures { length (fields_in «record».now) ≡ FIELDS → fields_in «record».now ≢ heading
        → field (fields_in «record».now) result ≢ field heading result }
{
    if !is_exactly(record.text(0), "line") {
        0
    } else if !is_exactly(record.text(1), "between") {
        1
    } else if !is_exactly(record.text(2), "and") {
        2
    } else if !is_exactly(record.text(3), "quarter") {
        3
    } else {
        4
    }
}

/// The first field of five that isn't a township's.
#[tactic(auto, using(crate::proofs::BlamedFacts::no_side, crate::proofs::BlamedFacts::no_way))]
pub(crate) fn unlike_township(record: &Record<'_>) -> usize
    ensures { length (fields_in «record».now) ≡ FIELDS
        → HasNone (IsTownshipRecord (fields_in «record».now))
        → IsNotOfTownship (fields_in «record».now) result }
{
    if !is_exactly(record.text(0), "T") {
        0
    } else if !is_township_number(record.text(1)) {
        1
    } else if !is_north_south(record.text(2)) {
        2
    } else if !is_township_number(record.text(3)) {
        3
    } else {
        4
    }
}

/// The field that should be a section, or a neighbor, and isn't.
#[tactic(auto, using(crate::proofs::BlamedFacts::no_neighbor))]
fn no_section(record: &Record<'_>) -> usize
    ensures { HasNoSection (fields_in «record».now) → IsNoSection (fields_in «record».now) result }
{
    match section_of(record.text(1)) {
        Some(_) => 2,
        None => 1,
    }
}

/// The field that should be a distance, and isn't.
#[tactic(auto, using(crate::proofs::BlamedFacts::no_corner))]
fn no_distance(record: &Record<'_>) -> usize
    ensures { HasNoLength (fields_in «record».now) → IsNoDistance (fields_in «record».now) result }
{
    match Length::read(record.text(3)) {
        Ok(_) => 4,
        Err(_) => 3,
    }
}

/// Whether a text is the letter of a side of the base line.
fn is_north_south(text: &[u8]) -> bool
    ensures { IsTrue result ↔ ((text.now ≡ codes "N") ⊎ (text.now ≡ codes "S")) }
{
    is_exactly(text, "N") || is_exactly(text, "S")
}

/// Whether a text is a number from 1 to 99, in one or two digits.
fn is_township_number(text: &[u8]) -> bool
    ensures { IsTrue result ↔ IsTownshipText text.now }
{
    match short_number(text) {
        Some(number) => 1 <= number && number <= 99,
        None => false,
    }
}
