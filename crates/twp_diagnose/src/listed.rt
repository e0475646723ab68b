//! A record of a list of tracts, in its file.
ghost use Rattle.std.specs.Prelude.{◌≡◌, ◌-◌, ◌≤◌, ◌<◌, length, take, drop, IfOk, MatchOption};
ghost use Rattle.twp_notes.specs.Records.{field, records_of};
ghost use Rattle.twp_diagnose.specs.RecordFields.{fields_listed, listed_span, span_listed, number_listed};
ghost use Rattle.twp_diagnose.specs.RecordFields.{start_listed, AreBytesOf, IsListedAt};
ghost use Rattle.twp_diagnose.specs.Spots.{MOST_BYTES, IsLineIn};

use crate::location::{Given, line_in};
use crate::records::Record;
use std::alloc::{AllocError, Global};
use twp_excerpt::Span;

/// A record of a list of tracts, in its file.
#[derive(Drop)]
pub struct Listed<'a> {
    /// The file of the list.
    pub file: Given<'a>,
    /// The record.
    found: Record<'a>,
}

impl<'a> Listed<'a> {
    /// The record of a number, from 1, if the list has one.
    pub fn numbered(
        alloc: Global,
        file: Given<'a>,
        number: u32,
    ) -> Result<Option<Listed<'a>>, AllocError>
        ensures { 1 ≤ number → IfOk result (λ found. MatchOption found
            (length (records_of file.entry.bytes.now) < number) (IsListedAt file.entry number)) }
    {
        let Some(found) = Record::numbered(alloc, file.bytes, number)? else {
            return Ok(None);
        };
        Ok(Some(Listed { file, found }))
    }

    /// Its number, from 1.
    pub fn number(&self) -> u32
        ensures { result ≡ number_listed self.now }
    {
        self.found.number
    }

    /// Where it begins.
    pub fn start(&self) -> usize
        ensures { result ≡ start_listed self.now }
    {
        self.found.start()
    }

    /// How many fields it has.
    pub fn len(&self) -> usize
        ensures { result ≡ length (fields_listed self.now) }
    {
        self.found.len()
    }

    /// Whether each of its fields is empty.
    pub fn has_no_text(&self) -> bool {
        self.found.has_no_text()
    }

    /// What a field says, from 0: nothing if there is no such field.
    pub fn field(&self, place: usize) -> &[u8]
        ensures { result.now ≡ field (fields_listed self.now) place }
    {
        self.found.text(place)
    }

    /// Where a field is in the file, with its quotes; the record's end if there is no such field.
    pub fn span(&self, place: usize) -> Span
        ensures { result ≡ listed_span self.now place }
    {
        self.found.span(place, place)
    }

    /// A field as it is written in the file, with its quotes.
    pub fn written(&self, place: usize) -> &[u8]
        ensures { AreBytesOf self.now.file.bytes.now (listed_span self.now place) result.now }
    {
        let Span { start, end } = self.span(place);
        self.between(start, end)
    }

    /// What is written in the file from a field up to the record's end.
    pub fn written_from(&self, place: usize) -> &[u8]
        ensures { AreBytesOf self.now.file.bytes.now
            (span_listed self.now place (length (fields_listed self.now))) result.now }
    {
        let Span { start, end } = self.found.span(place, self.len());
        self.between(start, end)
    }

    /// What is written in the file from a field up to the last one but one.
    pub fn written_before_last(&self, place: usize) -> &[u8]
        ensures { AreBytesOf self.now.file.bytes.now
            (span_listed self.now place (length (fields_listed self.now) - 2)) result.now }
    {
        let Span { start, end } = self.found.span(place, self.len().saturating_sub(2));
        self.between(start, end)
    }

    /// What is in the file from an offset to another.
    fn between(&self, start: usize, end: usize) -> &[u8]
        ensures { result.now ≡ take (end - start) (drop start self.now.file.bytes.now) }
    {
        let bytes = self.file.bytes;
        let end = end.min(bytes.len());
        &bytes[start.min(end)..end]
    }

    /// The number of the line that it begins on; of the file's first line if that is longer than any
    /// that is read.
    pub fn line(&self) -> u32
        ensures { length self.now.file.bytes.now ≤ MOST_BYTES
            → IsLineIn self.now.file (start_listed self.now) result }
    {
        line_in(&self.file, self.start())
    }
}
