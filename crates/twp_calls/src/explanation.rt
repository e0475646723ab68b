//! The parts of an explanation or of a note, as numbers.
ghost use Rattle.std.specs.Prelude.{◌≡◌, true, IfOk};
ghost use Rattle.twp_calls.specs.ExplanationParts.{ArePartsOf, ArePartsOfNote, CanBeRead, IsRepair};
ghost use Rattle.twp_calls.specs.ExplanationParts.{numbers_of, other_bytes, other_code};
ghost use Rattle.twp_calls.specs.ExplanationParts.{other_record, shown_bytes, shown_code, size_of};

use std::alloc::{AllocError, Global};
use twp_diagnose::{Explanation, Location, OtherPlace};
use twp_excerpt::{MessageParts, Span};
use twp_explain::{Note, without_mark};
use twp_read::{Description, TextFault};

/// Nothing of the input is shown; a line is named; or bytes are underlined.
const NOTHING: u32 = 0;

const LINE: u32 = 1;

const BYTES: u32 = 2;

/// The parts of an explanation or of a note. A part of the text is an offset in it, and a length.
#[repr(C)]
#[derive(Clone, Copy, PartialEq, Eq)]
pub struct TownshipExplanation {
    /// What is shown of the input: nothing, a line, or underlined bytes.
    pub shown: u32,
    /// Whether there is another place: 0 or 1.
    pub has_other: u32,
    /// The number of the record of the other place; 0 if it is in no record of its own.
    pub other_record: u32,
    /// Which lines of the hints continue the one before: bit 1 is for the second line, bit 2 for the third.
    pub continued: u32,
    /// Where in the input the underlined bytes begin; of a line, its place.
    pub start: u64,
    /// And where they end.
    pub end: u64,
    /// Where in the input the bytes of the other place begin.
    pub other_start: u64,
    /// And where they end.
    pub other_end: u64,
    /// The sentence.
    pub sentence: u64,
    /// How long it is.
    pub sentence_length: u64,
    /// The lines of the excerpt.
    pub excerpt: u64,
    /// How long they are.
    pub excerpt_length: u64,
    /// The lines of the hints.
    pub hints: u64,
    /// How long they are.
    pub hints_length: u64,
    /// The only reading of a refused description, at the end of the hints.
    pub repair: u64,
    /// How long it is.
    pub repair_length: u64,
}

impl TownshipExplanation {
    /// The parts of no text.
    pub(crate) fn none() -> TownshipExplanation {
        TownshipExplanation {
            shown: NOTHING,
            has_other: 0,
            other_record: 0,
            continued: 0,
            start: 0,
            end: 0,
            other_start: 0,
            other_end: 0,
            sentence: 0,
            sentence_length: 0,
            excerpt: 0,
            excerpt_length: 0,
            hints: 0,
            hints_length: 0,
            repair: 0,
            repair_length: 0,
        }
    }
}

/// The parts of an explanation.
pub(crate) fn parts_of(
    alloc: Global,
    explained: &Explanation,
) -> Result<TownshipExplanation, AllocError>
    ensures { IfOk result (ArePartsOf explained.now) }
{
    let repair = repair_in(alloc, explained.text.as_bytes(), &explained.reading)?;
    let MessageParts { sentence, .. } = explained.parts;
    Ok(numbers(
        explained.place,
        explained.other,
        explained.parts,
        sentence,
        repair,
    ))
}

/// The parts of a note.
pub(crate) fn parts_of_note(note: &Note) -> TownshipExplanation
    ensures { ArePartsOfNote note.now result }
{
    let sentence = without_mark(note.text.as_bytes(), note.parts.sentence);
    numbers(
        Location::Part(note.span),
        None,
        note.parts,
        sentence,
        NO_BYTES,
    )
}

/// No bytes.
const NO_BYTES: Span = Span { start: 0, end: 0 };

/// The parts as numbers.
fn numbers(
    place: Location,
    other: Option<OtherPlace>,
    parts: MessageParts,
    sentence: Span,
    repair: Span,
) -> TownshipExplanation
    ensures { result ≡ numbers_of place other parts sentence repair }
{
    let shown = bytes_of(place);
    let before = bytes_of_other(other);
    TownshipExplanation {
        shown: code_of(place),
        has_other: code_of_other(other),
        other_record: record_of_other(other),
        continued: parts.continued,
        start: shown.start as u64,
        end: shown.end as u64,
        other_start: before.start as u64,
        other_end: before.end as u64,
        sentence: sentence.start as u64,
        sentence_length: length_of(sentence),
        excerpt: parts.excerpt.start as u64,
        excerpt_length: length_of(parts.excerpt),
        hints: parts.help.start as u64,
        hints_length: length_of(parts.help),
        repair: repair.start as u64,
        repair_length: length_of(repair),
    }
}

/// What is shown of a place.
fn code_of(place: Location) -> u32
    ensures { result ≡ shown_code place }
{
    match place {
        Location::Whole => NOTHING,
        Location::Line(_) => LINE,
        Location::Field(_) | Location::Part(_) => BYTES,
    }
}

/// The bytes that are shown of a place.
fn bytes_of(place: Location) -> Span
    ensures { result ≡ shown_bytes place }
{
    match place {
        Location::Whole => NO_BYTES,
        Location::Line(at) => Span { start: at, end: at },
        Location::Field(span) | Location::Part(span) => span,
    }
}

/// Whether there is another place.
fn code_of_other(other: Option<OtherPlace>) -> u32
    ensures { result ≡ other_code other }
{
    match other {
        None => 0,
        Some(_) => 1,
    }
}

/// The record of another place.
fn record_of_other(other: Option<OtherPlace>) -> u32
    ensures { result ≡ other_record other }
{
    match other {
        None => 0,
        Some(other) => other.number,
    }
}

/// The bytes of another place.
fn bytes_of_other(other: Option<OtherPlace>) -> Span
    ensures { result ≡ other_bytes other }
{
    match other {
        None => NO_BYTES,
        Some(other) => other.span,
    }
}

/// How many bytes a span has.
fn length_of(span: Span) -> u64
    ensures { result ≡ size_of span }
{
    span.end.saturating_sub(span.start) as u64
}

/// The reading at the end of a text, before its last line feed. None of the bytes if it was escaped
/// there, or if there is none.
fn repair_in(alloc: Global, text: &[u8], reading: &Option<Vec<u8>>) -> Result<Span, AllocError>
    ensures { IfOk result (IsRepair text.now) }
{
    let Some(reading) = reading else {
        return Ok(NO_BYTES);
    };
    let end = text.len().saturating_sub(1);
    let start = end.saturating_sub(reading.len());
    let shown = &text[start..end];
    if shown != reading.as_slice() || !is_read(alloc, shown)? {
        return Ok(NO_BYTES);
    }
    Ok(Span { start, end })
}

/// Whether a text is read as a description.
fn is_read(alloc: Global, text: &[u8]) -> Result<bool, AllocError>
    ensures { IfOk result (λ read. read ≡ true → CanBeRead text.now) }
{
    match Description::read(alloc, text) {
        Ok(_) => Ok(true),
        Err(TextFault::Memory) => Err(AllocError),
        Err(_) => Ok(false),
    }
}
