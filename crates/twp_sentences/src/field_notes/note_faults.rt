//! What a record of field notes is refused for, as the explanation says it.
ghost use Rattle.std.specs.Prelude.{◌≡◌, ◌↔◌, IsTrue};
ghost use Rattle.twp_sentences.specs.BlamedDistances.{QUARTER};

use crate::field_notes::lines::write_names;
use std::alloc::AllocError;
use twp_diagnose::{Record, write_count, write_quoted};
use twp_excerpt::write_escaped;
use twp_measure::{Length, LengthFault};
use twp_notes::{FIELDS, NotesFault};

/// Appends what a record is refused for, with a field to blame.
pub(crate) fn write_fault(
    fault: NotesFault,
    record: &Record<'_>,
    field: usize,
    out: &mut String,
) -> Result<(), AllocError> {
    match fault {
        NotesFault::Heading => write_heading_fault(record, field, out),
        NotesFault::Columns(_) => write_columns_fault(record, out),
        NotesFault::Township => write_township_fault(record, field, out),
        NotesFault::Run(_) => {
            write_quoted(record.text(field), out)?;
            out.push_str(
                " is not a direction: write `N` for a line that runs north from its south end, or `W` \
                for one that runs west from its east end",
            )
        }
        NotesFault::Section(_) => write_section_fault(record, field, out),
        NotesFault::NoLine(_) => write_no_line(record, out),
        NotesFault::Length(_) => write_length_fault(record, field, out),
        NotesFault::Repeated(_) => write_repeated(record, out),
        _ => write!(out, "{fault}"),
    }
}

/// Appends what is no heading.
fn write_heading_fault(
    record: &Record<'_>,
    field: usize,
    out: &mut String,
) -> Result<(), AllocError> {
    out.push_str("the heading must be `line,between,and,quarter,corner`: ")?;
    if record.len() == FIELDS {
        write!(out, "field {} is ", field.saturating_add(1))?;
        write_quoted(record.text(field), out)
    } else {
        out.push_str("it has ")?;
        write_count(record.len(), out)
    }
}

/// Appends that a record has too many fields, or too few.
fn write_columns_fault(record: &Record<'_>, out: &mut String) -> Result<(), AllocError> {
    out.push_str("this record has ")?;
    write_count(record.len(), out)?;
    out.push_str(", not 5")
}

/// Appends what is no township.
pub(crate) fn write_township_fault(
    record: &Record<'_>,
    field: usize,
    out: &mut String,
) -> Result<(), AllocError> {
    write_quoted(record.text(field), out)?;
    out.push_str(match field {
        0 => " is not `T`: write the township as in `T,2,N,3,W`",
        1 => " is not a township number: write 1 to 99, in one or two digits",
        2 => " is not `N` or `S`: write the township as in `T,2,N,3,W`",
        3 => " is not a range number: write 1 to 99, in one or two digits",
        _ => " is not `E` or `W`: write the township as in `T,2,N,3,W`",
    })
}

/// Appends what is no section.
pub(crate) fn write_section_fault(
    record: &Record<'_>,
    field: usize,
    out: &mut String,
) -> Result<(), AllocError> {
    if record.text(field).is_empty() {
        return out.push_str("the section number is missing");
    }
    write_quoted(record.text(field), out)?;
    out.push_str(" is not a section number: write 1 to 36, in one or two digits")
}

/// Appends that there is no line where a record names one.
fn write_no_line(record: &Record<'_>, out: &mut String) -> Result<(), AllocError> {
    let way = if record.text(0) == b"N".as_slice() {
        "north"
    } else {
        "west"
    };
    if record.text(2).is_empty() {
        out.push_str("section ")?;
        write_escaped(record.text(1), out)?;
        return write!(out, " has no line on the township boundary that runs {way}");
    }
    write!(out, "no line runs {way} between sections ")?;
    write_escaped(record.text(1), out)?;
    out.push_str(" and ")?;
    write_escaped(record.text(2), out)
}

/// Appends what is no distance.
fn write_length_fault(
    record: &Record<'_>,
    field: usize,
    out: &mut String,
) -> Result<(), AllocError> {
    let text = record.text(field);
    let Err(fault) = Length::read(text) else {
        return Ok(());
    };
    if fault != LengthFault::Empty {
        write_quoted(text, out)?;
    }
    out.push_str(match fault {
        LengthFault::Empty if is_to_quarter_corner(field) =>
            "the distance to the quarter corner is missing",
        LengthFault::Empty => "the distance to the section corner is missing",
        LengthFault::BadDigit => " is not a distance in chains, such as 40, 79.6, or 19.575",
        LengthFault::TooManyPlaces => " has more than three digits after the decimal point",
        LengthFault::TooLong => " is not a distance in chains: it has more than two digits before \
            the decimal point",
    })
}

/// Whether the distance in a field is the one to the quarter corner.
fn is_to_quarter_corner(field: usize) -> bool
    ensures { IsTrue result ↔ (field ≡ QUARTER) }
{
    field == 3
}

/// Appends that a line has a record already.
fn write_repeated(record: &Record<'_>, out: &mut String) -> Result<(), AllocError> {
    let Some(line) = record.line() else {
        return Ok(());
    };
    out.push_str("duplicate record: ")?;
    write_names(line, out)?;
    write!(out, " (section line {})", line.index())
}
