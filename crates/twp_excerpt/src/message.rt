//! Messages about a place in a file.
ghost use Rattle.std.specs.Prelude.{IfOk, OnOk, string_bytes};
ghost use Rattle.twp_excerpt.specs.Messages.{AddsHelp, IsInParts, message_head, extract_text};
ghost use Rattle.twp_excerpt.specs.Messages.{heading_text, number_text};
ghost use Rattle.twp_excerpt.specs.Shown.{AddsLines, AddsShown};
ghost use Rattle.twp_excerpt.specs.Signs.{Adding};

use crate::escaped::{push_printable, write_escaped};
use crate::excerpt::write_excerpt;
use crate::spot::{Span, Spot};
use crate::wrapped::{columns_of, write_wrapped};
use itoa::Buffer;
use std::alloc::{AllocError, Global};

/// The most lines of a sentence. With as many lines of help and the two lines of an excerpt, a
/// message takes 8.
const SENTENCE_LINES: usize = 3;

/// The most lines of help.
const HELP_LINES: usize = 3;

/// The place that a message names after the file.
#[derive(Clone, Copy)]
pub enum MessagePlace {
    /// The file as a whole.
    File,
    /// A line.
    Line(u32),
    /// A line and a column.
    Place(Spot),
}

/// A line of a text to be shown.
#[derive(Clone, Copy)]
pub struct Extract<'a> {
    /// The text.
    pub text: &'a [u8],
    /// The part that is underlined; the line on which it starts is shown.
    pub span: Span,
    /// The number of that line.
    pub line: u32,
}

/// A message about a place in a file.
#[derive(Clone, Copy)]
pub struct Message<'a> {
    /// The file's name.
    pub name: &'a str,
    /// The place in the file.
    pub heading: MessagePlace,
    /// What is wrong there, or what is noted.
    pub sentence: &'a str,
    /// The excerpt to show, if any.
    pub extract: Option<Extract<'a>>,
    /// How to correct it, or related facts. Empty if there are none.
    pub help: &'a str,
}

/// Where the parts of a message are in its text.
#[derive(Clone, Copy)]
pub struct MessageParts {
    /// The sentence, without the line feed that ends it. A line feed in it is one at which it was broken.
    pub sentence: Span,
    /// The two lines of the excerpt; empty if there is none.
    pub excerpt: Span,
    /// The lines of the help; empty if there is none.
    pub help: Span,
    /// Which lines of the help continue the one before: bit 1 is for the second line, and bit 2 for the
    /// third.
    pub continued: u32,
}

/// The text of a message, and its parts.
#[derive(Drop)]
pub struct MessageText {
    /// Lines of at most 100 columns, each with a line feed at its end.
    pub text: String,
    /// Where its parts are.
    pub parts: MessageParts,
}

impl Message<'_> {
    /// The text of the message, and where its parts are.
    pub fn shown(&self, alloc: Global) -> Result<MessageText, AllocError>
        ensures { IfOk result (λ it. IsInParts self.now (string_bytes it.text) it.parts) }
    {
        let mut text = String::new(alloc);
        write_head(self.name, self.heading, &mut text)?;
        let sentence = text.len();
        let columns = columns_of(text.as_str());
        write_wrapped(self.sentence, columns, SENTENCE_LINES, &mut text)?;
        let excerpt = text.len();
        write_extract(self.extract, &mut text)?;
        let help = text.len();
        let continued = write_help(self.help, &mut text)?;
        let end = text.len();
        Ok(MessageText {
            text,
            parts: MessageParts {
                sentence: Span {
                    start: sentence,
                    end: excerpt.saturating_sub(1),
                },
                excerpt: Span {
                    start: excerpt,
                    end: help,
                },
                help: Span { start: help, end },
                continued,
            },
        })
    }
}

/// Appends the file's name and the place in it.
#[tactic(auto, using(crate::proofs::ShownFacts::adds_trans))]
fn write_head(name: &str, heading: MessagePlace, out: &mut String) -> Result<(), AllocError>
    ensures head { Adding (message_head name.now heading) result
        (string_bytes out.old) (string_bytes out.new) }
    ensures safe { AddsShown (string_bytes out.old) (string_bytes out.new) }
{
    push_printable("township: ", out)?;
    write_escaped(name.as_bytes(), out)?;
    write_heading(heading, out)?;
    push_printable(": ", out)
}

/// Appends the line and the column of a heading.
#[tactic(auto, using(crate::proofs::ShownFacts::adds_trans, crate::proofs::AddingFacts::adding_none))]
fn write_heading(heading: MessagePlace, out: &mut String) -> Result<(), AllocError>
    ensures heading { Adding (heading_text heading) result
        (string_bytes out.old) (string_bytes out.new) }
    ensures safe { AddsShown (string_bytes out.old) (string_bytes out.new) }
{
    match heading {
        MessagePlace::File => Ok(()),
        MessagePlace::Line(line) => write_number(line, out),
        MessagePlace::Place(spot) => {
            write_number(spot.line, out)?;
            write_number(spot.column, out)
        }
    }
}

/// Appends a colon and a number.
#[tactic(auto, using(crate::proofs::ShownFacts::adds_trans))]
fn write_number(number: u32, out: &mut String) -> Result<(), AllocError>
    ensures number { Adding (number_text number) result
        (string_bytes out.old) (string_bytes out.new) }
    ensures safe { AddsShown (string_bytes out.old) (string_bytes out.new) }
{
    let mut buffer = Buffer::new();
    push_printable(":", out)?;
    push_printable(buffer.format(number), out)
}

/// Appends an excerpt of a text, if there is one to show.
#[tactic(auto, using(crate::proofs::ShownFacts::adds_none, crate::proofs::AddingFacts::adding_none))]
fn write_extract(extract: Option<Extract<'_>>, out: &mut String) -> Result<(), AllocError>
    ensures extract { Adding (extract_text extract.entry) result
        (string_bytes out.old) (string_bytes out.new) }
    ensures safe { AddsLines (string_bytes out.old) (string_bytes out.new) }
{
    let Some(Extract { text, span, line }) = extract else {
        return Ok(());
    };
    let end = span.end.min(text.len());
    let start = span.start.min(end);
    write_excerpt(text, Span { start, end }, line, out)
}

/// Appends the help, if there is any. Returns which of its lines continue the one before.
#[tactic(auto, using(crate::proofs::ShownFacts::adds_trans, crate::proofs::ShownFacts::lines_of_shown))]
fn write_help(help: &str, out: &mut String) -> Result<u32, AllocError>
    ensures help { OnOk result (AddsHelp help.now (string_bytes out.old) (string_bytes out.new)) }
    ensures safe { AddsLines (string_bytes out.old) (string_bytes out.new) }
{
    if help.is_empty() {
        return Ok(0);
    }
    push_printable("  ", out)?;
    write_wrapped(help, 2, HELP_LINES, out)
}
