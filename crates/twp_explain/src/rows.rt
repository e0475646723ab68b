//! Records of a list that are no heading or no tract.
ghost use Rattle.std.specs.Prelude.{◌≡◌, ◌<◌, ◌↔◌, length, IsTrue, OnOk};
ghost use Rattle.twp_diagnose.specs.RecordFields.{fields_listed, number_listed};
ghost use Rattle.twp_explain.specs.BlamedTracts.{IsNotOfHeading, ShowsRow};

use std::alloc::{AllocError, Global};
use twp_diagnose::{Finding, Listed, Location, Origin, write_count, write_quoted};
use twp_excerpt::{Span, write_escaped};
use twp_notes::is_exactly;
use twp_read::{Description, TextFault};

/// How many fields a record has.
const TRACT_COLUMNS: usize = 2;

/// The most bytes of a tract's name.
const NAME_MOST: usize = 64;

/// The most bytes of a record that is shown as it should be written.
const SHOWN_MOST: usize = 100;

/// Explains why a record isn't the heading, or isn't a tract.
pub(crate) fn explain(
    alloc: Global,
    listed: &Listed<'_>,
    finding: &mut Finding,
) -> Result<(), AllocError>
    ensures refusal { finding.new.refusal ≡ finding.old.refusal }
    ensures place { OnOk result (ShowsRow listed.now finding.new.place) }
    ensures other { finding.new.other ≡ finding.old.other }
{
    if listed.number() == 1 {
        finding.place = Location::Field(listed.span(heading_place(listed)));
        write_heading_fault(listed, &mut finding.sentence)?;
    } else if listed.len() != TRACT_COLUMNS {
        finding.place = Location::Field(listed.span(listed.len().min(TRACT_COLUMNS)));
        finding.sentence.push_str("this record has ")?;
        write_count(listed.len(), &mut finding.sentence)?;
        finding.sentence.push_str(", not 2")?;
    } else {
        finding.place = Location::Field(name_span(listed));
        write_name_fault(listed, &mut finding.sentence)?;
    }
    write_help(alloc, listed, &mut finding.help)
}

/// The first field of a record that isn't the heading's.
fn heading_place(listed: &Listed<'_>) -> usize
    ensures { IsNotOfHeading (fields_listed listed.now) result }
{
    if !is_exactly(listed.field(0), "name") {
        0
    } else if !is_exactly(listed.field(1), "description") {
        1
    } else {
        2
    }
}

/// Whether a record begins with the heading, and has more fields.
fn is_long_heading(listed: &Listed<'_>) -> bool
    ensures { IsTrue result ↔ ((number_listed listed.now ≡ 1)
        × IsNotOfHeading (fields_listed listed.now) 2) }
{
    listed.number() == 1 && heading_place(listed) == 2
}

/// Appends what is no heading.
fn write_heading_fault(listed: &Listed<'_>, text: &mut String) -> Result<(), AllocError> {
    text.push_str("the heading must be `name,description`: ")?;
    if listed.len() != TRACT_COLUMNS {
        text.push_str("it has ")?;
        return write_count(listed.len(), text);
    }
    let place = heading_place(listed);
    write!(text, "field {} is ", place.saturating_add(1))?;
    write_quoted(listed.field(place), text)
}

/// Appends what is wrong with a tract's name.
fn write_name_fault(listed: &Listed<'_>, text: &mut String) -> Result<(), AllocError> {
    match listed.field(0).len() {
        0 => text.push_str("the tract has no name"),
        1..=64 => text.push_str("tract names may contain only printable ASCII characters"),
        length => write!(
            text,
            "the tract name has {length} bytes; at most 64 are allowed"
        ),
    }
}

/// What is wrong of a tract's name: its first character that isn't printed ASCII, or all of it.
fn name_span(listed: &Listed<'_>) -> Span {
    let name = listed.field(0);
    let whole = listed.span(0);
    if name.len() > NAME_MOST {
        return whole;
    }
    let Some(at) = name.iter().position(|byte| !matches!(*byte, b' '..=b'~')) else {
        return whole;
    };
    let start = Origin::of_field(listed.file, whole.start).in_file(at);
    Span {
        start,
        end: character_end(listed.file.bytes, start),
    }
}

/// Where a character ends that begins at an offset of a text.
fn character_end(text: &[u8], start: usize) -> usize {
    for index in start..text.len() {
        if index > start && !matches!(text[index], 0x80..=0xBF) {
            return index;
        }
    }
    text.len()
}

/// A row: what is seen of a record, and what mends it.
struct ListHint(ListPattern, &'static str);

/// What may be seen of a record.
#[derive(Clone, Copy, PartialEq, Eq)]
enum ListPattern {
    /// Several fields, each of them empty.
    Empty,
    /// One field, with this byte in it.
    OneField(u8),
    /// A space before the quotes of the second field.
    SpacedQuotes,
    /// A name and a description with commas, which isn't in quotes.
    Unquoted,
    /// The heading and more.
    LongHeading,
    /// A name, a description in quotes, and more.
    LongRecord,
    /// A letter with an accent in the name.
    Accent,
}

/// The rows, of which the first that fits counts.
const HINTS: [ListHint; 8] = [
    ListHint(ListPattern::Empty, "delete the empty row"),
    ListHint(
        ListPattern::OneField(b';'),
        "save the file with commas between the fields",
    ),
    ListHint(
        ListPattern::OneField(b'\t'),
        "save the file with commas between the fields",
    ),
    ListHint(
        ListPattern::SpacedQuotes,
        "delete the space before the quotation marks",
    ),
    ListHint(
        ListPattern::Unquoted,
        "put the description in quotation marks",
    ),
    ListHint(
        ListPattern::LongHeading,
        "delete the columns after the description",
    ),
    ListHint(
        ListPattern::LongRecord,
        "delete everything after the description",
    ),
    ListHint(ListPattern::Accent, "write the letter without its accent"),
];

/// Appends what mends a record, where that is known.
fn write_help(alloc: Global, listed: &Listed<'_>, text: &mut String) -> Result<(), AllocError> {
    for row in &HINTS {
        let ListHint(sign, hint) = row;
        if sign.fits(listed) {
            if *sign == ListPattern::Unquoted && ends_before_last(alloc, listed)? {
                return Ok(());
            }
            text.push_str(hint)?;
            return write_mended(*sign, listed, text);
        }
    }
    Ok(())
}

impl ListPattern {
    /// Whether it is seen of a record.
    fn fits(self, listed: &Listed<'_>) -> bool {
        match self {
            ListPattern::Empty => is_empty_row(listed),
            ListPattern::OneField(byte) => listed.len() == 1 && listed.field(0).contains(&byte),
            ListPattern::SpacedQuotes => has_spaced_quotes(listed.written(1)),
            ListPattern::Unquoted => listed.number() > 1 && is_unquoted(listed),
            ListPattern::LongHeading => is_long_heading(listed),
            ListPattern::LongRecord => {
                listed.number() > 1 && listed.len() > 2 && listed.written(1).first() == Some(&b'"')
            }
            ListPattern::Accent => listed.number() > 1 && has_accent(listed.field(0)),
        }
    }
}

/// Whether a record has several fields, all of them empty.
fn is_empty_row(listed: &Listed<'_>) -> bool {
    listed.len() > 1 && listed.has_no_text()
}

/// Whether a field begins with spaces before a quotation mark.
fn has_spaced_quotes(field: &[u8]) -> bool {
    match field.iter().position(|byte| *byte != b' ') {
        Some(at) => at > 0 && field.get(at) == Some(&b'"'),
        None => false,
    }
}

/// Whether a record is a name and a description with commas, but without quotes.
fn is_unquoted(listed: &Listed<'_>) -> bool
    ensures { IsTrue result → 2 < length (fields_listed listed.now) }
{
    let rest = listed.written_from(1);
    let begins = rest.starts_with(b"sec") || rest.starts_with(b"Sec") || rest.starts_with(b"T");
    listed.len() > 2 && begins && !rest.contains(&b'"')
}

/// Whether a whole description, with its period, ends before the last field, which may then be
/// another column.
fn ends_before_last(alloc: Global, listed: &Listed<'_>) -> Result<bool, AllocError> {
    let front = listed.written_before_last(1);
    if front.last() != Some(&b'.') {
        return Ok(false);
    }
    match Description::read(alloc, front) {
        Ok(_) => Ok(true),
        Err(TextFault::Memory) => Err(AllocError),
        Err(_) => Ok(false),
    }
}

/// Appends a record whose description isn't in quotes as it should be, where it is short.
fn write_mended(
    sign: ListPattern,
    listed: &Listed<'_>,
    text: &mut String,
) -> Result<(), AllocError> {
    if sign != ListPattern::Unquoted || listed.written_from(0).len() > SHOWN_MOST {
        return Ok(());
    }
    text.push_str(": ")?;
    write_escaped(listed.written(0), text)?;
    text.push_str(",\"")?;
    write_escaped(listed.written_from(1), text)?;
    text.push_str("\"")
}

/// Whether the first character of a name that isn't printed ASCII is a letter with an accent, of
/// those from `À` (U+00C0) to `ɏ` (U+024F), as UTF-8.
fn has_accent(name: &[u8]) -> bool {
    let Some(at) = name.iter().position(|byte| !matches!(*byte, b' '..=b'~')) else {
        return false;
    };
    match (name.get(at), name.get(at.saturating_add(1))) {
        (Some(0xC3), Some(0x97 | 0xB7)) => false,
        (Some(0xC3..=0xC8), Some(0x80..=0xBF)) | (Some(0xC9), Some(0x80..=0x8F)) => true,
        _ => false,
    }
}
