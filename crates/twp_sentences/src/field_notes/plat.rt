//! Why field notes make no plat.
ghost use Rattle.std.specs.Prelude.{◌≡◌, IfOk, SomeIff};
ghost use Rattle.twp_grid.specs.Lines.{IsLine};
ghost use Rattle.twp_plat.specs.PlatFaults.{place_of as line_of_fault};
ghost use Rattle.twp_diagnose.specs.RecordFields.{fields_span};
ghost use Rattle.twp_sentences.specs.BlamedDistances.{distance_of, least_of, most_of};
ghost use Rattle.twp_sentences.specs.BlamedDistances.{IsShownIn, ShowsDistance};

use crate::field_notes::half_mile_hints::write_half_mile_hint;
use crate::field_notes::lines::{half_mile, last_quarter_mile, write_chains, write_side};
use crate::field_notes::note_hints::note_hint_on;
use std::alloc::{AllocError, Global};
use twp_diagnose::{Finding, Given, Location, Record};
use twp_grid::{Line, Refusal};
use twp_notes::{Notes, Returned};
use twp_plat::{CLOSING_LEAST, CLOSING_MOST, HALF_LEAST, HALF_MOST, HalfMile, PlatFault};

/// The fields of the distances to the quarter corner and to the end of the line.
const QUARTER: usize = 3;

const CORNER: usize = 4;

/// The explanation of notes that make no plat.
pub(crate) fn find(
    alloc: Global,
    file: &Given<'_>,
    notes: &Notes,
    fault: PlatFault,
    refusal: Refusal,
) -> Result<Finding, AllocError>
    ensures refusal { IfOk result (λ finding. finding.refusal ≡ refusal) }
    ensures place { IfOk result (λ finding.
        ShowsDistance file.now.bytes.now fault finding.place) }
{
    let Some(line) = line_of(fault) else {
        let sentence = fault.to_string(alloc)?;
        let help = String::new(alloc);
        return Ok(Finding::new(refusal, Location::Whole, sentence, help));
    };
    let record = Record::of_line(alloc, file.bytes, line)?;
    let returned = notes.line(line);
    Ok(Finding {
        refusal,
        place: place_of(&record, field_of(fault)),
        sentence: sentence(alloc, line, returned, fault)?,
        help: help(
            alloc,
            line,
            returned,
            fault,
            hint_of(&record, refusal, fault),
        )?,
        other: None,
        reading: None,
    })
}

/// Where a field of a record is shown.
fn place_of(record: &Option<Record<'_>>, field: usize) -> Location
    ensures { IsShownIn «record».now field result }
{
    match record {
        Some(record) => Location::Field(record.span(field, field)),
        None => Location::Whole,
    }
}

/// What mends a record, where its text shows it.
fn hint_of(
    record: &Option<Record<'_>>,
    refusal: Refusal,
    fault: PlatFault,
) -> Option<&'static str> {
    match record {
        Some(record) => note_hint_on(refusal.number, record, field_of(fault)),
        None => None,
    }
}

/// What the explanation says of a line besides its fault: its index, and the hint on its record, or else
/// one from its distances.
fn help(
    alloc: Global,
    line: Line,
    returned: Returned,
    fault: PlatFault,
    hint: Option<&'static str>,
) -> Result<String, AllocError> {
    let mut help = String::new(alloc);
    write!(help, "section line {}; ", line.index())?;
    match hint {
        Some(hint) => help.push_str(hint)?,
        None => write_half_mile_hint(line, returned, fault, &mut help)?,
    }
    Ok(help)
}

/// The line that a fault is on.
fn line_of(fault: PlatFault) -> Option<Line>
    ensures { SomeIff result (IsLine (line_of_fault fault)) (line_of_fault fault) }
{
    let (PlatFault::Irregular { line, .. }
    | PlatFault::ClosingShort(line)
    | PlatFault::ClosingLong(line)) = fault;
    Line::at_index(line)
}

/// The field of a record that is to blame for a fault: the distance that ends the half mile.
fn field_of(fault: PlatFault) -> usize
    ensures { result ≡ distance_of fault }
{
    match fault {
        PlatFault::Irregular {
            half: HalfMile::First,
            ..
        } => QUARTER,
        _ => CORNER,
    }
}

/// The least and the greatest length of what a fault is on, in thousandths of a chain.
#[derive(Clone, Copy)]
struct Limits {
    least: u32,
    most: u32,
}

/// The limits that a fault breaks: of a half mile, or of the last quarter mile of a closing line.
fn limits_of(fault: PlatFault) -> Limits
    ensures least { result.least ≡ least_of fault }
    ensures most { result.most ≡ most_of fault }
{
    match fault {
        PlatFault::Irregular { .. } => Limits {
            least: HALF_LEAST,
            most: HALF_MOST,
        },
        _ => Limits {
            least: CLOSING_LEAST,
            most: CLOSING_MOST,
        },
    }
}

/// What is out of its limits on a line, and by how much.
fn sentence(
    alloc: Global,
    line: Line,
    returned: Returned,
    fault: PlatFault,
) -> Result<String, AllocError> {
    let mut text = String::new(alloc);
    let length = match fault {
        PlatFault::Irregular { half, .. } => {
            write!(text, "the {half} half mile ")?;
            half_mile(returned, half)
        }
        _ => {
            text.push_str("the last quarter mile ")?;
            last_quarter_mile(returned)
        }
    };
    write_side(line, &mut text)?;
    write_limits(length, limits_of(fault), &mut text)?;
    Ok(text)
}

/// Appends a length and its limits, all in thousandths of a chain.
fn write_limits(length: i64, limits: Limits, out: &mut String) -> Result<(), AllocError> {
    out.push_str(" is ")?;
    write_chains(length, out)?;
    out.push_str(" chains; allowed: ")?;
    write_chains(i64::from(limits.least), out)?;
    out.push_str(" to ")?;
    write_chains(i64::from(limits.most), out)
}
