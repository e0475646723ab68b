ghost use Rattle.std.specs.Prelude.{◌≡◌, ◌<◌, ◌∷◌, [], ◌++◌, map, OnOk, OnErr};
ghost use Rattle.twp_grid.specs.Winding.{SECTIONS_ACROSS};
ghost use Rattle.twp_grid.specs.Lines.{LINES_ACROSS, north_run, west_run};
ghost use Rattle.twp_notes.specs.Records.{Fields};
ghost use Rattle.twp_grid.specs.Townships.{north_south_letter, east_west_letter};
ghost use Rattle.twp_notes.specs.FieldNotes.{run_text};
ghost use Rattle.twp_notes.specs.NotesTexts.{record_text, township_fields, AreNames};
ghost use Rattle.twp_notes.specs.steps.WrittenFields.{field_text};
ghost use Rattle.twp_notes.specs.NotesTexts.{AreLineFields, AppendsNotes};
ghost use Rattle.twp_notes.specs.steps.WrittenFields.{BeginsWith};
ghost use Rattle.twp_notes.specs.NotesTexts.{neighbor_text};

use crate::fields::FIELDS;
use crate::notes::Notes;
use crate::parsing::Returned;
use itoa::Buffer;
use std::alloc::AllocError;
use twp_grid::{EastWest, LINES, Line, NorthSouth, Run, Section, Township};
use twp_measure::Length;

/// A field as it is written.
#[derive(Clone, Copy)]
pub enum Field {
    Letter(u8),
    Number(u8),
    Distance(Length),
    Nothing,
}

impl Field {
    /// Appends the field.
    fn write(self, out: &mut Vec<u8>) -> Result<(), AllocError>
        ensures ok { OnOk result (out.new.items ≡ out.old.items ++ field_text self) }
        ensures err { OnErr result (out.new.items ≡ out.old.items) }
    {
        match self {
            Field::Letter(byte) => out.extend_from_slice(&[byte]),
            Field::Number(number) => out.extend_from_slice(Buffer::new().format(number).as_bytes()),
            Field::Distance(length) => length.write(out),
            Field::Nothing => Ok(()),
        }
    }
}

/// How a line is named in writing: by its run and the sections beside it, the one on its east or
/// its north first (this project's order).
#[derive(Clone, Copy, PartialEq, Eq)]
pub struct LineNames {
    /// The direction in which it is run.
    pub run: Run,
    /// The section on its east or its north; on the township's boundary, the only section.
    pub section: Section,
    /// The section on its west or its south. `None` on the township's boundary.
    pub other: Option<Section>,
}

/// Appends the text of notes. If memory runs out, a prefix of the text is appended.
pub fn write_notes(notes: &Notes, out: &mut Vec<u8>) -> Result<(), AllocError>
    ensures ok { OnOk result (AppendsNotes notes.now out.old.items out.new.items) }
    ensures err { OnErr result (BeginsWith out.old.items out.new.items) }
{
    out.extend_from_slice(b"line,between,and,quarter,corner\n")?;
    write_township(notes.township(), out)?;
    for index in 0..LINES as u8 {
        let Some(line) = Line::at_index(index) else {
            unreachable!();
        };
        write_line(line, notes.line(line), out)?;
    }
    Ok(())
}

/// Appends the record of a township.
fn write_township(township: Township, out: &mut Vec<u8>) -> Result<(), AllocError>
    ensures ok { OnOk result
        (out.new.items ≡ out.old.items ++ record_text (township_fields township)) }
    ensures err { OnErr result (BeginsWith out.old.items out.new.items) }
{
    let fields = [
        Field::Letter(b'T'),
        Field::Number(township.number()),
        Field::Letter(north_or_south(township.north_south())),
        Field::Number(township.range()),
        Field::Letter(east_or_west(township.east_west())),
    ];
    write_record(fields, out)
}

/// Appends the record of a line.
fn write_line(line: Line, returned: Returned, out: &mut Vec<u8>) -> Result<(), AllocError>
    ensures ok { OnOk result ((fields : Fields) × AreLineFields line returned fields
        × (out.new.items ≡ out.old.items ++ record_text fields)) }
    ensures err { OnErr result (BeginsWith out.old.items out.new.items) }
{
    let names = names_of(line);
    let fields = [
        Field::Letter(run_letter(names.run)),
        Field::Number(names.section.number()),
        neighbor_field(names.other),
        Field::Distance(returned.quarter),
        Field::Distance(returned.corner),
    ];
    write_record(fields, out)
}

/// Appends a record: its fields, separated by commas, and a line feed.
fn write_record(fields: [Field; FIELDS], out: &mut Vec<u8>) -> Result<(), AllocError>
    ensures ok { OnOk result
        (out.new.items ≡ out.old.items ++ record_text (map field_text fields)) }
    ensures err { OnErr result (BeginsWith out.old.items out.new.items) }
{
    write_field(fields[0], b',', out)?;
    write_field(fields[1], b',', out)?;
    write_field(fields[2], b',', out)?;
    write_field(fields[3], b',', out)?;
    write_field(fields[4], b'\n', out)
}

/// Appends a field and the byte after it.
fn write_field(field: Field, end: u8, out: &mut Vec<u8>) -> Result<(), AllocError>
    ensures ok { OnOk result (out.new.items ≡ out.old.items ++ (field_text field ++ end ∷ [])) }
    ensures err { OnErr result (BeginsWith out.old.items out.new.items) }
{
    field.write(out)?;
    out.extend_from_slice(&[end])
}

/// The number of a neighbor, or an empty field.
fn neighbor_field(other: Option<Section>) -> Field
    ensures { field_text result ≡ neighbor_text other }
{
    match other {
        Some(section) => Field::Number(section.number()),
        None => Field::Nothing,
    }
}

/// How a line is named in its record.
pub fn names_of(line: Line) -> LineNames
    ensures { AreNames line result.run result.section result.other }
{
    let index = line.index();
    if index < 42 {
        names_of_north_run(index / 7, index % 7)
    } else {
        names_of_west_run((index - 42) / 6, (index - 42) % 6)
    }
}

/// How a north-run line is named, by its row and its meridian.
fn names_of_north_run(row: u8, meridian: u8) -> LineNames
    requires row { row < SECTIONS_ACROSS }
    requires meridian { meridian < LINES_ACROSS }
    ensures { AreNames (north_run row meridian) result.run result.section result.other }
{
    match meridian {
        0 => LineNames {
            run: Run::North,
            section: Section::at(row, 0),
            other: None,
        },
        6 => LineNames {
            run: Run::North,
            section: Section::at(row, 5),
            other: None,
        },
        _ => LineNames {
            run: Run::North,
            section: Section::at(row, meridian - 1),
            other: Some(Section::at(row, meridian)),
        },
    }
}

/// How a west-run line is named, by its tier and its column.
fn names_of_west_run(tier: u8, column: u8) -> LineNames
    requires tier { tier < LINES_ACROSS }
    requires column { column < SECTIONS_ACROSS }
    ensures { AreNames (west_run tier column) result.run result.section result.other }
{
    match tier {
        0 => LineNames {
            run: Run::West,
            section: Section::at(0, column),
            other: None,
        },
        6 => LineNames {
            run: Run::West,
            section: Section::at(5, column),
            other: None,
        },
        _ => LineNames {
            run: Run::West,
            section: Section::at(tier - 1, column),
            other: Some(Section::at(tier, column)),
        },
    }
}

/// The letter of a run.
fn run_letter(run: Run) -> u8
    ensures { run_text run ≡ result ∷ [] }
{
    match run {
        Run::North => b'N',
        Run::West => b'W',
    }
}

/// The letter of a side of the base line.
fn north_or_south(side: NorthSouth) -> u8
    ensures { north_south_letter side ≡ result ∷ [] }
{
    match side {
        NorthSouth::N => b'N',
        NorthSouth::S => b'S',
    }
}

/// The letter of a side of the principal meridian.
fn east_or_west(side: EastWest) -> u8
    ensures { east_west_letter side ≡ result ∷ [] }
{
    match side {
        EastWest::E => b'E',
        EastWest::W => b'W',
    }
}
