//! A text, and where it is in its file; where in a file a fault is shown, and on which line and in which
//! column that is; and the message about it.
ghost use Rattle.std.specs.Prelude.{◌≡◌, ◌≤◌, ◌<◌, ◌+◌, true, false, length, min, drop, IsTrue};
ghost use Rattle.std.specs.Prelude.{IfOk, string_bytes};
ghost use Rattle.twp_grammar.specs.Tokens.{begins_with};
ghost use Rattle.twp_diagnose.specs.Origins.{IsFieldAt, IsWholeFile, goes_on, is_mark};
ghost use Rattle.twp_diagnose.specs.Origins.{place_at_closing, place_in_quotes, place_of};
ghost use Rattle.twp_diagnose.specs.Spots.{MOST_BYTES, IsLineIn, IsSpotAt, IsSpotOf};
ghost use Rattle.twp_diagnose.specs.ShownMessages.{IsMessageAt, extract_from, extract_of};
ghost use Rattle.twp_diagnose.specs.ShownMessages.{heading_of};

use std::alloc::{AllocError, Global};
use twp_excerpt::{Extract, Message, MessageParts, MessagePlace, MessageText, Span, Spot, spot_of};

/// A text that a run read, as its reader knows it.
#[derive(Clone, Copy)]
pub struct Given<'a> {
    /// The name of its file, or what else it is called.
    pub name: &'a str,
    /// What was read of it.
    pub bytes: &'a [u8],
    /// The number of its first line, from 1.
    pub first_line: u32,
}

/// Where a text is in the file that it was read from: from an offset on, as it is, or as a quoted
/// field of a record. There each quotation mark of the text is doubled, up to the mark that closes
/// the quotation; the text goes on with the bytes after that mark, up to the field's end.
#[derive(Clone, Copy)]
pub struct Origin<'a> {
    /// The file.
    pub file: Given<'a>,
    /// Where the text begins in it.
    pub start: usize,
    /// Whether it is quoted.
    pub is_quoted: bool,
}

impl<'a> Origin<'a> {
    /// A text that is a file.
    pub fn of_file(file: Given<'a>) -> Origin<'a>
        ensures file { result.file ≡ file.entry }
        ensures whole { IsWholeFile result }
    {
        Origin {
            file,
            start: 0,
            is_quoted: false,
        }
    }

    /// A text that is the field which begins at an offset of a file, with its quotation mark where
    /// it has one.
    pub fn of_field(file: Given<'a>, start: usize) -> Origin<'a>
        ensures file { result.file ≡ file.entry }
        ensures field { IsFieldAt start result }
    {
        if mark_at(file.bytes, start) {
            return Origin {
                file,
                start: start + 1,
                is_quoted: true,
            };
        }
        Origin {
            file,
            start,
            is_quoted: false,
        }
    }

    /// Where in the file an offset of the text is, or the file's end if that comes first. The end of
    /// a quoted text is at its closing quotation mark if the field ends there.
    pub fn in_file(&self, at: usize) -> usize
        ensures within { result ≤ length self.now.file.bytes.now }
        ensures place { result ≡ place_of self.now at }
        ensures whole { IsWholeFile self.now → result ≡ min at (length self.now.file.bytes.now) }
    {
        if self.is_quoted {
            return in_quotes(self.file.bytes, self.start, at);
        }
        self.start.saturating_add(at).min(self.file.bytes.len())
    }
}

/// Where in a file an offset of a quoted text is that begins at a place. A doubled quotation mark is
/// at the first of its two bytes.
fn in_quotes(file: &[u8], start: usize, at: usize) -> usize
    ensures { result
        ≡ min (start + place_in_quotes (drop start file.now) at) (length file.now) }
{
    let mut index = start;
    let mut left = at;
    while index < file.len() {
        let is_mark = mark_at(file, index);
        if is_mark && !mark_at(file, index + 1) {
            return after_closing(file, index, left);
        }
        if left == 0 {
            return index;
        }
        index += if is_mark { 2 } else { 1 };
        left -= 1;
    }
    file.len()
}

/// Where in a file an offset is of the text that is left at its closing quotation mark.
fn after_closing(file: &[u8], mark: usize, at: usize) -> usize
    requires { mark < length file.now }
    ensures { result
        ≡ min (mark + place_at_closing (drop (mark + 1) file.now) at) (length file.now) }
{
    if !goes_on_at(file, mark + 1) {
        return mark;
    }
    (mark + 1).saturating_add(at).min(file.len())
}

/// Whether a quotation mark is at an offset of a file.
fn mark_at(file: &[u8], at: usize) -> bool
    ensures value { result ≡ begins_with is_mark (drop at file.now) }
    ensures within { IsTrue result → at < length file.now }
{
    at < file.len() && file[at] == b'"'
}

/// Whether a field goes on at an offset of a file, the one after its closing quotation mark.
fn goes_on_at(file: &[u8], at: usize) -> bool
    ensures { result ≡ begins_with goes_on (drop at file.now) }
{
    at < file.len() && !matches!(file[at], b',' | b'\n' | b'\r')
}

/// The most bytes of a file in which places are shown, which is more than any run reads.
const MOST_BYTES: usize = 0x7FFF_FFFF;

/// Where in a file a fault is shown.
#[derive(Clone, Copy, PartialEq, Eq)]
pub enum Location {
    /// In the file as a whole.
    Whole,
    /// On the line of this byte, of which nothing is shown.
    Line(usize),
    /// On a line that is shown, with this part of it underlined.
    Field(Span),
    /// On a line that is shown, at a column, with this part underlined.
    Part(Span),
}

/// Where a place is, if at one line.
pub fn spot_of_place(file: &Given<'_>, place: Location) -> Option<Spot>
    ensures { IsSpotOf file.now place result }
{
    match place {
        Location::Whole => None,
        Location::Line(at) => spot_in(file, at),
        Location::Field(span) | Location::Part(span) => spot_in(file, span.start),
    }
}

/// Where a byte is in a file, whose lines are numbered from its first. None in a file of more
/// bytes than any run reads.
pub fn spot_in(file: &Given<'_>, at: usize) -> Option<Spot>
    ensures { IsSpotAt file.now at result }
{
    if file.bytes.len() > MOST_BYTES {
        return None;
    }
    let Spot { line, column } = spot_of(file.bytes, at.min(file.bytes.len()));
    Some(Spot {
        line: line.saturating_add(file.first_line).saturating_sub(1),
        column,
    })
}

/// The number of the line of a byte in a file; of the file's first line if that has more bytes than
/// any run reads.
pub fn line_in(file: &Given<'_>, at: usize) -> u32
    ensures { length file.now.bytes.now ≤ MOST_BYTES → IsLineIn file.now at result }
{
    match spot_in(file, at) {
        Some(spot) => spot.line,
        None => file.first_line,
    }
}

/// The message about a location in a file.
#[derive(Drop)]
pub struct Located {
    /// The line and the column that it names.
    pub spot: Option<Spot>,
    /// Its text.
    pub text: String,
    /// Where in the text its parts are.
    pub parts: MessageParts,
}

/// The message about a location in a file, and the line and the column that it names.
pub fn message_at(
    alloc: Global,
    file: &Given<'_>,
    location: Location,
    sentence: &str,
    help: &str,
) -> Result<Located, AllocError>
    ensures spot { IfOk result (λ it. IsSpotOf file.now location it.spot) }
    ensures text { IfOk result (λ it.
        IsMessageAt file.now location it.spot (string_bytes it.text) it.parts) }
{
    let spot = spot_of_place(file, location);
    let message = Message {
        name: file.name,
        heading: heading_of(location, spot),
        sentence,
        extract: extract_of(file, location, spot),
        help,
    };
    let MessageText { text, parts } = message.shown(alloc)?;
    Ok(Located { spot, text, parts })
}

/// What a message names after the file.
fn heading_of(location: Location, spot: Option<Spot>) -> MessagePlace
    ensures { result ≡ heading_of location spot }
{
    match (location, spot) {
        (_, None) => MessagePlace::File,
        (Location::Part(_), Some(spot)) => MessagePlace::Place(spot),
        (_, Some(spot)) => MessagePlace::Line(spot.line),
    }
}

/// The line that a message shows, if any.
fn extract_of<'a>(file: &Given<'a>, location: Location, spot: Option<Spot>) -> Option<Extract<'a>>
    ensures { result ≡ extract_of file.now location spot }
{
    match location {
        Location::Whole | Location::Line(_) => None,
        Location::Field(span) | Location::Part(span) => extract_from(file, span, spot),
    }
}

/// The line of a part that is underlined, if it has a spot.
fn extract_from<'a>(file: &Given<'a>, span: Span, spot: Option<Spot>) -> Option<Extract<'a>>
    ensures { result ≡ extract_from file.now span spot }
{
    let spot = spot?;
    Some(Extract {
        text: file.bytes,
        span,
        line: spot.line,
    })
}
