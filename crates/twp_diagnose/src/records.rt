//! Where a record and its fields are in a file; and the fields, as explanations compare and count them.
ghost use Rattle.std.specs.Prelude.{◌≡◌, ◌≤◌, ◌<◌, length, drop, min, option_map, IfOk, ◌↔◌};
ghost use Rattle.std.specs.Prelude.{IsTrue, MatchOption};
ghost use Rattle.csv.specs.Records.{fields_of};
ghost use Rattle.twp_grammar.specs.Tokens.{begins_with};
ghost use Rattle.twp_grid.specs.Finding.{Finds};
ghost use Rattle.twp_notes.specs.FieldNotes.{NamesLine};
ghost use Rattle.twp_notes.specs.Records.{field, records_of};
ghost use Rattle.twp_diagnose.specs.RecordFields.{fields_in, fields_span, field_span, field_end};
ghost use Rattle.twp_diagnose.specs.RecordFields.{is_comma, IsFirstOfLine, IsRecordAt, NoneNames};
ghost use Rattle.twp_diagnose.specs.steps.Fields.{state_of, GoesOn};

use csv::ByteRecord;
use std::alloc::{AllocError, Global};
use twp_excerpt::Span;
use twp_grid::Line;
use twp_notes::{Records, named_line};

/// A byte order mark of UTF-8.
const MARK: &[u8] = b"\xEF\xBB\xBF";

/// A record of a file.
#[derive(Drop)]
pub struct Record<'a> {
    /// The file's bytes.
    bytes: &'a [u8],
    /// Where it begins in them.
    start: usize,
    /// Its number, from 1.
    pub number: u32,
    /// Its fields.
    row: ByteRecord,
}

impl<'a> Record<'a> {
    /// The record that was just read from a file.
    fn of_row(bytes: &'a [u8], number: u32, row: ByteRecord) -> Record<'a>
        ensures bytes { result.bytes.now ≡ bytes.now }
        ensures number { result.number ≡ number }
        ensures fields { result.row ≡ row }
    {
        let start = start_of(bytes, &row);
        Record {
            bytes,
            start,
            number,
            row,
        }
    }

    /// The record of a number, from 1.
    #[inline(never)]
    pub fn numbered(
        alloc: Global,
        bytes: &'a [u8],
        number: u32,
    ) -> Result<Option<Record<'a>>, AllocError>
        ensures { 1 ≤ number → IfOk result (λ found. MatchOption found
            (length (records_of bytes.now) < number) (IsRecordAt bytes.now number)) }
    {
        let mut records = Records::new(alloc, bytes);
        let mut row = ByteRecord::new(alloc);
        'records: for passed in 0..number {
            if !records.read(&mut row)? {
                return Ok(None);
            }
        }
        Ok(Some(Record::of_row(bytes, number, row)))
    }

    /// The first record that names a line.
    #[inline(never)]
    pub fn of_line(
        alloc: Global,
        bytes: &'a [u8],
        line: Line,
    ) -> Result<Option<Record<'a>>, AllocError>
        ensures { IfOk result (λ found. MatchOption found
            (NoneNames line (records_of bytes.now)) (IsFirstOfLine bytes.now line)) }
    {
        let mut records = Records::new(alloc, bytes);
        let mut row = ByteRecord::new(alloc);
        let mut number: u32 = 0;
        'records: while records.read(&mut row)? {
            number = number.saturating_add(1);
            if names(&row, line) {
                return Ok(Some(Record::of_row(bytes, number, row)));
            }
        }
        Ok(None)
    }

    /// The line that it names.
    pub fn line(&self) -> Option<Line>
        ensures { Finds result (NamesLine (fields_in self.now)) }
    {
        named_line(&self.row)
    }

    /// How many fields it has.
    pub fn len(&self) -> usize
        ensures { result ≡ length (fields_in self.now) }
    {
        self.row.len()
    }

    /// Whether each of its fields is empty.
    pub fn has_no_text(&self) -> bool {
        self.row.as_slice().is_empty()
    }

    /// What a field says, from 0: nothing where there is no such field.
    pub fn text(&self, place: usize) -> &[u8]
        ensures { result.now ≡ field (fields_in self.now) place }
    {
        text_in(&self.row, place)
    }

    /// Where it begins.
    pub fn start(&self) -> usize
        ensures { result ≡ self.now.start }
    {
        self.start
    }

    /// Where fields of it are, from one to another, with their quotation marks. It ends with the
    /// record where that has no such fields.
    pub fn span(&self, first: usize, last: usize) -> Span
        ensures { result ≡ fields_span self.now first last }
    {
        let Span { start, .. } = self.field_span(first);
        let Span { end, .. } = self.field_span(last);
        Span { start, end }
    }

    /// Where a field of it is, or the record's end.
    fn field_span(&self, place: usize) -> Span
        ensures { result ≡ field_span self.now.bytes.now self.now.start place }
    {
        let mut start = self.start;
        let mut end = end_of_field(self.bytes, start);
        'fields: for passed in 0..place {
            if !comma_at(self.bytes, end) {
                return Span { start: end, end };
            }
            start = end + 1;
            end = end_of_field(self.bytes, start);
        }
        Span { start, end }
    }
}

/// Whether a record names a line.
fn names(row: &ByteRecord, line: Line) -> bool
    ensures { IsTrue result ↔ NamesLine (fields_of row.now) line }
{
    match named_line(row) {
        Some(named) => is_same(named, line),
        None => false,
    }
}

/// Whether two lines are the same.
fn is_same(first: Line, second: Line) -> bool
    ensures { IsTrue result ↔ (first ≡ second) }
{
    first == second
}

/// What a field of a record says, from 0: nothing if there is no such field.
#[tactic(auto, using(crate::proofs::RecordFacts::text_found, crate::proofs::RecordFacts::text_missing))]
pub fn text_in(row: &ByteRecord, place: usize) -> &[u8]
    ensures { result.now ≡ field (fields_of row.now) place }
{
    match row.get(place) {
        Some(text) => text,
        None => b"",
    }
}

/// Whether a comma is at an offset of a file.
fn comma_at(file: &[u8], at: usize) -> bool
    ensures value { result ≡ begins_with is_comma (drop at file.now) }
    ensures within { IsTrue result → at < length file.now }
{
    at < file.len() && file[at] == b','
}

/// Where a record begins: after the byte order mark and the ends of lines that come before it.
fn start_of(bytes: &[u8], row: &ByteRecord) -> usize {
    let Some(position) = row.position() else {
        return 0;
    };
    let Ok(at) = usize::try_from(position.byte()) else {
        return bytes.len();
    };
    let at = if at == 0 && bytes.starts_with(MARK) {
        MARK.len()
    } else {
        at
    };
    let ends = bytes.get(at..).unwrap_or(b"").iter();
    let skipped = ends.take_while(|byte| matches!(**byte, b'\r' | b'\n'));
    at.saturating_add(skipped.count())
}

/// How far a field is read.
#[derive(Clone, Copy)]
enum Quoting {
    /// Its first byte comes next.
    Start,
    /// It isn't quoted.
    Plain,
    /// In quotation marks.
    Quoted,
    /// After a quotation mark in quotation marks, which ends them or is the first of two.
    Ended,
}

impl Quoting {
    /// How far it is after one more byte. None where the byte ends the field.
    fn after(self, byte: u8) -> Option<Quoting>
        ensures { GoesOn (state_of self) byte (option_map state_of result) }
    {
        match (self, byte) {
            (Quoting::Quoted, b'"') => Some(Quoting::Ended),
            (Quoting::Quoted, _) => Some(Quoting::Quoted),
            (_, b',' | b'\r' | b'\n') => None,
            (Quoting::Start | Quoting::Ended, b'"') => Some(Quoting::Quoted),
            _ => Some(Quoting::Plain),
        }
    }
}

/// Where the field that begins at an offset ends: at a comma, or at the end of a line or of the
/// bytes.
fn end_of_field(bytes: &[u8], start: usize) -> usize
    ensures { result ≡ field_end bytes.now start }
{
    let mut quoting = Quoting::Start;
    let mut end = start;
    while end < bytes.len() {
        let Some(next) = quoting.after(bytes[end]) else {
            return end;
        };
        quoting = next;
        end += 1;
    }
    bytes.len()
}

/// Appends how many fields there are.
pub fn write_count(fields: usize, out: &mut String) -> Result<(), AllocError> {
    if fields == 1 {
        out.push_str("1 field")
    } else {
        write!(out, "{fields} fields")
    }
}
