//! What is wrong with field notes.
ghost use Rattle.std.specs.Prelude.{◌≡◌, ◌≤◌, ◌<◌, Some, None, length, IfOk, IfSome, MatchOption};
ghost use Rattle.twp_notes.specs.Records.{records_of};
ghost use Rattle.twp_diagnose.specs.RecordFields.{fields_in};
ghost use Rattle.twp_sentences.specs.Blamed.{IsOfRecord, IsRecordOf, ShowsBlamed};
ghost use Rattle.twp_sentences.specs.OtherRecords.{IsOtherRecord};
ghost use Rattle.twp_sentences.specs.steps.EarlierRecords.{IsEarlierOf, IsEarlierRecord};
ghost use Rattle.twp_sentences.specs.steps.EarlierRecords.{place_of_record};

use crate::field_notes::blamed::blamed;
use crate::field_notes::lines::{write_names, write_side};
use crate::field_notes::note_faults::write_fault;
use crate::field_notes::note_hints::note_hint_on;
use std::alloc::{AllocError, Global};
use twp_diagnose::{Finding, Given, Location, OtherPlace, Record, line_in};
use twp_excerpt::Span;
use twp_grid::{Line, Refusal, Run, Section};
use twp_notes::{NotesFault, section_of};

/// The explanation of a fault of field notes.
pub(crate) fn find(
    alloc: Global,
    notes: &Given<'_>,
    fault: NotesFault,
    refusal: Refusal,
) -> Result<Finding, AllocError>
    ensures refusal { IfOk result (λ finding. finding.refusal ≡ refusal) }
    ensures place { (IsOfRecord fault → 1 ≤ refusal.at) → IfOk result (λ finding.
        ShowsBlamed notes.now.bytes.now fault refusal.at finding.place) }
    ensures other { (IsOfRecord fault → 1 ≤ refusal.at) → IfOk result (λ finding.
        IsOtherRecord notes.now.bytes.now fault refusal.at finding.other) }
{
    let Some(record) = refused_record(alloc, notes, fault, refusal)? else {
        let sentence = whole_sentence(alloc, fault)?;
        let help = String::new(alloc);
        return Ok(Finding::new(refusal, Location::Whole, sentence, help));
    };
    let fields = blamed(fault, &record);
    let mut sentence = String::new(alloc);
    write_fault(fault, &record, fields.first, &mut sentence)?;
    let mut help = String::new(alloc);
    let earlier = earlier_of(alloc, notes, fault, &record)?;
    write_help(fault, &record, earlier.as_ref(), &mut help)?;
    if let Some(hint) = note_hint_on(refusal.number, &record, fields.first) {
        help.push_str(hint)?;
    }
    Ok(Finding {
        refusal,
        place: Location::Field(record.span(fields.first, fields.last)),
        sentence,
        help,
        other: other_of(earlier),
        reading: None,
    })
}

/// The record that is refused. None where it isn't one record, or isn't there.
fn refused_record<'a>(
    alloc: Global,
    notes: &Given<'a>,
    fault: NotesFault,
    refusal: Refusal,
) -> Result<Option<Record<'a>>, AllocError>
    ensures { (IsOfRecord fault → 1 ≤ refusal.at) → IfOk result (λ found. MatchOption found
        (IsOfRecord fault → length (records_of notes.now.bytes.now) < refusal.at)
        (IsRecordOf notes.now.bytes.now fault refusal.at)) }
{
    match fault {
        NotesFault::TooLarge
        | NotesFault::Empty
        | NotesFault::Missing(_)
        | NotesFault::Read
        | NotesFault::Memory => Ok(None),
        _ => Record::numbered(alloc, notes.bytes, refusal.at),
    }
}

/// What is wrong with notes as a whole.
fn whole_sentence(alloc: Global, fault: NotesFault) -> Result<String, AllocError> {
    match fault {
        NotesFault::TooLarge => {
            let text =
                "the field notes are longer than 65,536 bytes; 84 section lines take about 1,600";
            String::from_str(alloc, text)
        }
        NotesFault::Empty => {
            let text =
                "the field notes are empty: they begin with `line,between,and,quarter,corner`";
            String::from_str(alloc, text)
        }
        NotesFault::Township => {
            let text =
                "the township is missing: write it as the second record, such as `T,2,N,3,W`";
            String::from_str(alloc, text)
        }
        NotesFault::Missing(index) => missing(alloc, fault, index),
        _ => fault.to_string(alloc),
    }
}

/// That no record returns the line of an index.
fn missing(alloc: Global, fault: NotesFault, index: u8) -> Result<String, AllocError> {
    let Some(line) = Line::at_index(index) else {
        return fault.to_string(alloc);
    };
    let mut text = String::from_str(alloc, "missing record: ")?;
    write_names(line, &mut text)?;
    write!(text, " (section line {index})")?;
    Ok(text)
}

/// Appends what more is to say of a record that names no line, or one that was named before.
fn write_help(
    fault: NotesFault,
    record: &Record<'_>,
    earlier: Option<&EarlierRecord>,
    out: &mut String,
) -> Result<(), AllocError> {
    if let NotesFault::NoLine(_) = fault {
        return write_other_run(record, out);
    }
    match earlier {
        Some(EarlierRecord { number, line, .. }) => {
            write!(out, "record {number} at line {line} also returns this line")
        }
        None => Ok(()),
    }
}

/// The first record of a line, its bytes, and the line of the file on which it begins.
#[derive(Clone, Copy)]
pub(crate) struct EarlierRecord {
    pub(crate) number: u32,
    pub(crate) line: u32,
    pub(crate) span: Span,
}

/// The place of an earlier record.
pub(crate) fn other_of(earlier: Option<EarlierRecord>) -> Option<OtherPlace>
    ensures { MatchOption earlier (result ≡ None) (λ is. result ≡ Some (place_of_record is)) }
{
    let EarlierRecord { number, span, .. } = earlier?;
    Some(OtherPlace { number, span })
}

/// The first record of the line that a repeated record names; none for any other fault.
fn earlier_of(
    alloc: Global,
    notes: &Given<'_>,
    fault: NotesFault,
    record: &Record<'_>,
) -> Result<Option<EarlierRecord>, AllocError>
    ensures { IfOk result (IsEarlierOf notes.now fault (fields_in «record».now)) }
{
    match fault {
        NotesFault::Repeated(_) => first_of_line(alloc, notes, record),
        _ => Ok(None),
    }
}

/// The first record of the line that a record names.
fn first_of_line(
    alloc: Global,
    notes: &Given<'_>,
    record: &Record<'_>,
) -> Result<Option<EarlierRecord>, AllocError>
    ensures { IfOk result (λ found. IfSome found
        (IsEarlierRecord notes.now (fields_in «record».now))) }
{
    let Some(line) = record.line() else {
        return Ok(None);
    };
    let Some(earlier) = Record::of_line(alloc, notes.bytes, line)? else {
        return Ok(None);
    };
    Ok(Some(EarlierRecord {
        number: earlier.number,
        line: line_in(notes, earlier.start()),
        span: earlier.span(0, earlier.len().saturating_sub(1)),
    }))
}

/// Appends which way the line runs that is between these sections, where it runs the other way.
fn write_other_run(record: &Record<'_>, out: &mut String) -> Result<(), AllocError> {
    let Some(section) = section_of(record.text(1)) else {
        return Ok(());
    };
    let (run, hint) = if record.text(0) == b"N".as_slice() {
        (Run::West, " runs west: write `W`")
    } else {
        (Run::North, " runs north: write `N`")
    };
    let Some(line) = line_beside(run, section, record.text(2)) else {
        return Ok(());
    };
    out.push_str("the line ")?;
    write_side(line, out)?;
    out.push_str(hint)
}

/// The line of a run between a section and what a field names.
fn line_beside(run: Run, section: Section, neighbor: &[u8]) -> Option<Line> {
    if neighbor.is_empty() {
        return Line::find(run, section, None);
    }
    Line::find(run, section, Some(section_of(neighbor)?))
}
