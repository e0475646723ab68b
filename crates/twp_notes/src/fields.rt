ghost use Rattle.std.specs.Prelude.{◌≡◌, ℕ, ◌<◌, ◌↔◌, length, IsTrue, IfOk, IfErr, SomeIff};
ghost use Rattle.std.specs.Prelude.{MatchOption};
ghost use Rattle.std.specs.Char.{digit_value};
ghost use Rattle.csv.specs.Records.{fields_of};
ghost use Rattle.twp_measure.specs.LengthTexts.{IsShortNumber, IsLengthText};
ghost use Rattle.twp_grid.specs.declared.line.Run.{Run};
ghost use Rattle.twp_grid.specs.declared.township.NorthSouth.{NorthSouth};
ghost use Rattle.twp_grid.specs.declared.township.EastWest.{EastWest};
ghost use Rattle.twp_grid.specs.Finding.{Finds};
ghost use Rattle.twp_grid.specs.Townships.{north_south_letter, east_west_letter};
ghost use Rattle.twp_notes.specs.FieldNotes.{FIELDS, heading, IsTownshipRecord};
ghost use Rattle.twp_notes.specs.FieldNotes.{run_text, IsSectionNumber};
ghost use Rattle.twp_notes.specs.FieldNotes.{IsNeighborText, NamesLine, Returns};
ghost use Rattle.twp_notes.specs.NotesFaults.{HasNoLength};
ghost use Rattle.twp_notes.specs.steps.LineFaults.{IsUnnamed};

use crate::fault::NotesFault;
use crate::parsing::Returned;
use crate::reading::{field, is_exactly};
use csv::ByteRecord;
use twp_grid::{EastWest, Line, NorthSouth, Run, Section, Township};
use twp_measure::Length;

/// The number of fields in each record.
pub const FIELDS: usize = 5;

/// Whether the record is the heading of field notes.
#[tactic(auto, using(crate::proofs::FieldFacts::five_fields))]
pub fn is_heading(row: &ByteRecord) -> bool
    ensures { IsTrue result ↔ (fields_of row.now ≡ heading) }
{
    if row.len() != FIELDS
        || !is_exactly(field(row, 0), "line")
        || !is_exactly(field(row, 1), "between")
    {
        return false;
    }
    if !is_exactly(field(row, 2), "and") || !is_exactly(field(row, 3), "quarter") {
        return false;
    }
    is_exactly(field(row, 4), "corner")
}

/// The township that a record designates.
pub fn township_of(row: &ByteRecord) -> Option<Township>
    requires { length (fields_of row.now) ≡ FIELDS }
    ensures { Finds result (IsTownshipRecord (fields_of row.now)) }
{
    if !is_exactly(field(row, 0), "T") {
        return None;
    }
    let number = short_number(field(row, 1))?;
    let north_south = north_south_of(field(row, 2))?;
    let range = short_number(field(row, 3))?;
    let east_west = east_west_of(field(row, 4))?;
    Township::new(number, north_south, range, east_west)
}

/// The line that the record of this number names.
pub fn line_of(row: &ByteRecord, number: u32) -> Result<Line, NotesFault>
    requires { length (fields_of row.now) ≡ FIELDS }
    ensures line { IfOk result (NamesLine (fields_of row.now)) }
    ensures fault { IfErr result (IsUnnamed (fields_of row.now) number) }
{
    let Some(run) = run_of(field(row, 0)) else {
        return Err(NotesFault::Run(number));
    };
    let Some(section) = section_of(field(row, 1)) else {
        return Err(NotesFault::Section(number));
    };
    let Some(other) = neighbor_of(field(row, 2)) else {
        return Err(NotesFault::Section(number));
    };
    match Line::find(run, section, other) {
        Some(line) => Ok(line),
        None => Err(NotesFault::NoLine(number)),
    }
}

/// The line that a record of field notes names. `None` if it names no line, or does not have five
/// fields.
pub fn named_line(row: &ByteRecord) -> Option<Line>
    ensures { Finds result (NamesLine (fields_of row.now)) }
{
    if row.len() != FIELDS {
        return None;
    }
    match line_of(row, 0) {
        Ok(line) => Some(line),
        Err(_) => None,
    }
}

/// The distances that a record returns.
pub fn returned_in(row: &ByteRecord) -> Option<Returned>
    requires { length (fields_of row.now) ≡ FIELDS }
    ensures { MatchOption result (HasNoLength (fields_of row.now)) (Returns (fields_of row.now)) }
{
    let Some(quarter) = length_of(field(row, 3)) else {
        return None;
    };
    let Some(corner) = length_of(field(row, 4)) else {
        return None;
    };
    Some(Returned { quarter, corner })
}

/// The run that a letter means.
fn run_of(text: &[u8]) -> Option<Run>
    ensures { Finds result (λ (run : Run). text.now ≡ run_text run) }
{
    match text {
        b"N" => Some(Run::North),
        b"W" => Some(Run::West),
        _ => None,
    }
}

/// The side of the base line that a letter means.
fn north_south_of(text: &[u8]) -> Option<NorthSouth>
    ensures { Finds result (λ (side : NorthSouth). text.now ≡ north_south_letter side) }
{
    match text {
        b"N" => Some(NorthSouth::N),
        b"S" => Some(NorthSouth::S),
        _ => None,
    }
}

/// The side of the principal meridian that a letter means.
fn east_west_of(text: &[u8]) -> Option<EastWest>
    ensures { Finds result (λ (side : EastWest). text.now ≡ east_west_letter side) }
{
    match text {
        b"E" => Some(EastWest::E),
        b"W" => Some(EastWest::W),
        _ => None,
    }
}

/// The section whose number one or two digits spell.
pub fn section_of(text: &[u8]) -> Option<Section>
    ensures { Finds result (IsSectionNumber text.now) }
{
    Section::new(short_number(text)?)
}

/// The section with a number, or the township's outside if the field is empty.
fn neighbor_of(text: &[u8]) -> Option<Option<Section>>
    ensures { Finds result (IsNeighborText text.now) }
{
    if text.is_empty() {
        return Some(None);
    }
    Some(Some(section_of(text)?))
}

/// The length that a text spells.
fn length_of(text: &[u8]) -> Option<Length>
    ensures { Finds result (IsLengthText text.now) }
{
    match Length::read(text) {
        Ok(length) => Some(length),
        Err(_) => None,
    }
}

/// The number that one or two digits spell. `None` if the text is not one or two digits.
#[tactic(auto, using(crate::proofs::FieldFacts::one_digit, crate::proofs::FieldFacts::two_digits))]
pub fn short_number(text: &[u8]) -> Option<u8>
    ensures { Finds result (IsShortNumber text.now) }
{
    match text {
        [ones] => digit_of(*ones),
        [tens, ones] => {
            let tens = digit_of(*tens)?;
            let ones = digit_of(*ones)?;
            Some(10 * tens + ones)
        }
        _ => None,
    }
}

/// The value of a digit.
fn digit_of(byte: u8) -> Option<u8>
    ensures { SomeIff result (digit_value byte < 10) (digit_value byte) }
{
    if byte.is_ascii_digit() {
        Some(byte - b'0')
    } else {
        None
    }
}
