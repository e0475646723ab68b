//! The line of a text that contains a place, with carets below the underlined part.
ghost use Rattle.std.specs.Prelude.{◌≡◌, ◌<◌, ◌≤◌, ◌++◌, ◌∷◌, [], true, length};
ghost use Rattle.std.specs.Prelude.{string_bytes, replicate, OnOk};
ghost use Rattle.std.specs.List.{list_all};
ghost use Rattle.twp_excerpt.specs.Excerpts.{View as ViewOf, excerpt, view_in, line_end, line_width, begun};
ghost use Rattle.twp_excerpt.specs.Excerpts.{gutter, empty_gutter, numbered_line, caret_line};
ghost use Rattle.twp_excerpt.specs.Shown.{AddsLines, AddsShown, AddsTwoLines, is_shown};
ghost use Rattle.twp_excerpt.specs.Signs.{Adding, signs};
ghost use Rattle.twp_excerpt.specs.Spots.{line_start};
ghost use Rattle.twp_excerpt.specs.steps.Looks.{is_printable};
ghost use Rattle.twp_excerpt.specs.steps.Views.{IsKept};

use crate::escaped::{Sign, push_printable, push_shown};
use crate::kept_part::{KeptPart, end_of, front_of};
use crate::spot::{Span, start_of_line};
use itoa::Buffer;
use memchr::memchr;
use std::alloc::AllocError;

/// The most columns of a line in an excerpt.
pub(crate) const COLUMNS: usize = 100;

/// Appends the line on which a span starts, after the line number that is passed in, and a line
/// with carets below as much of the span as is on that line, at least one caret. Each of the two
/// lines ends with a line feed and is at most 100 columns wide. Of a longer line, the part around
/// the span's start is shown, and two dots mark each omission. A tab is shown as a space, and
/// anything that is not safe to show is escaped. If memory runs out, only a prefix of all this is
/// appended.
pub fn write_excerpt(text: &[u8], span: Span, line: u32, out: &mut String) -> Result<(), AllocError>
    requires ordered { span.start ≤ span.end }
    requires within { span.end ≤ length text.now }
    ensures excerpt { Adding (excerpt text.now span.start span.end line) result
        (string_bytes out.old) (string_bytes out.new) }
    ensures safe { AddsLines (string_bytes out.old) (string_bytes out.new) }
    ensures lines { OnOk result (AddsTwoLines (string_bytes out.old) (string_bytes out.new)) }
{
    let mut buffer = Buffer::new();
    let number = buffer.format(line);
    let view = View::of(text, span, COLUMNS - number.len() - 5);
    view.write_text(number, out)?;
    end_line(out)?;
    view.write_carets(number.len(), out)?;
    end_line(out)
}

/// The parts of a line that an excerpt shows.
#[derive(Clone, Copy)]
struct View<'a> {
    /// The part of the line before the span.
    before: KeptPart<'a>,
    /// The part of the line from the span's start on.
    ahead: KeptPart<'a>,
    /// How many carets there are.
    carets: usize,
}

impl<'a> View<'a> {
    /// The parts that are shown of a span's line in a number of columns.
    fn of(text: &'a [u8], span: Span, room: usize) -> View<'a>
        requires ordered { span.start ≤ span.end }
        requires within { span.end ≤ length text.now }
        requires roomy { (8 ≤ room) × (room ≤ 95) }
        ensures { IsKept (view_in room text.now span.start span.end) result }
    {
        let start = start_of_line(text, span.start);
        let end = end_of_line(text, start, span.start);
        let place = span.start.min(end);
        let line_before = &text[start..place];
        let line_ahead = &text[place..end];
        let least = front_of(line_ahead, room - room / 2);
        let before = end_of(line_before, room - least.columns.max(1));
        let ahead = least.widened(line_ahead, room - before.columns);
        let marked = columns_until(ahead.bytes, span.end.min(end) - place);
        View {
            before,
            ahead,
            carets: marked.max(1),
        }
    }

    /// Appends the numbered line.
    #[tactic(auto, using(crate::proofs::ShownFacts::adds_trans))]
    fn write_text(&self, number: &str, out: &mut String) -> Result<(), AllocError>
        requires { list_all is_printable number.now ≡ true }
        ensures added { (view : ViewOf) → IsKept view self.now
            → Adding (numbered_line number.now view) result
            (string_bytes out.old) (string_bytes out.new) }
        ensures safe { AddsShown (string_bytes out.old) (string_bytes out.new) }
    {
        write_gutter(number, out)?;
        self.before.write_end(out)?;
        self.ahead.write_front(out)
    }

    /// Appends the line of carets, below a line whose number has this many digits.
    #[tactic(auto, using(crate::proofs::ShownFacts::adds_trans))]
    fn write_carets(&self, digits: usize, out: &mut String) -> Result<(), AllocError>
        requires { digits ≤ 40 }
        ensures added { (view : ViewOf) → IsKept view self.now
            → Adding (caret_line digits view) result (string_bytes out.old) (string_bytes out.new) }
        ensures safe { AddsShown (string_bytes out.old) (string_bytes out.new) }
    {
        write_empty_gutter(digits, out)?;
        push_many(' ', self.before.columns, out)?;
        push_many('^', self.carets, out)
    }
}

/// Where the line that contains a place ends: before its line feed, or before its carriage return
/// and line feed. A further place on the line is also given, from which to look for the line feed.
fn end_of_line(text: &[u8], start: usize, at: usize) -> usize
    requires starts { start ≡ line_start text.now at }
    requires ordered { start ≤ at }
    requires within { at ≤ length text.now }
    ensures value { result ≡ line_end text.now at }
    ensures after { start ≤ result }
    ensures within { result ≤ length text.now }
{
    let Some(feed) = memchr(b'\n', &text[at..]) else {
        return text.len();
    };
    let end = at + feed;
    if end > start && text[end - 1] == b'\r' {
        end - 1
    } else {
        end
    }
}

/// The columns of the characters that begin before a place in some bytes, counted no further than
/// the width of an excerpt's line.
fn columns_until(bytes: &[u8], place: usize) -> usize
    requires { line_width (signs bytes.now) < 100 }
    ensures { result ≡ line_width (begun place (signs bytes.now)) }
{
    let mut at = 0;
    let mut columns = 0;
    while at < place && at < bytes.len() && columns < COLUMNS {
        let sign = Sign::first(&bytes[at..]).in_line();
        columns += sign.look.columns();
        at += sign.size;
    }
    columns
}

/// Appends the gutter before a numbered line.
#[tactic(auto, using(crate::proofs::ShownFacts::adds_trans))]
fn write_gutter(number: &str, out: &mut String) -> Result<(), AllocError>
    requires { list_all is_printable number.now ≡ true }
    ensures added { Adding (gutter number.now) result (string_bytes out.old) (string_bytes out.new) }
    ensures safe { AddsShown (string_bytes out.old) (string_bytes out.new) }
{
    push_printable("  ", out)?;
    push_printable(number, out)?;
    push_printable(" | ", out)
}

/// Appends the gutter before the carets, below a line number with this many digits.
#[tactic(auto, using(crate::proofs::ShownFacts::adds_trans))]
fn write_empty_gutter(digits: usize, out: &mut String) -> Result<(), AllocError>
    requires { digits ≤ 40 }
    ensures added { Adding (empty_gutter digits) result (string_bytes out.old) (string_bytes out.new) }
    ensures safe { AddsShown (string_bytes out.old) (string_bytes out.new) }
{
    push_many(' ', 2 + digits, out)?;
    push_printable(" | ", out)
}

/// Appends a character a number of times.
#[tactic(auto, using(crate::proofs::ShownFacts::adds_trans))]
fn push_many(character: char, count: usize, out: &mut String) -> Result<(), AllocError>
    requires { is_shown character ≡ true }
    ensures added { Adding (replicate count character) result
        (string_bytes out.old) (string_bytes out.new) }
    ensures safe { AddsShown (string_bytes out.old) (string_bytes out.new) }
{
    let mut left = count;
    while left > 0 {
        push_shown(character, out)?;
        left -= 1;
    }
    Ok(())
}

/// Appends a line feed.
pub(crate) fn end_line(out: &mut String) -> Result<(), AllocError>
    ensures safe { AddsLines (string_bytes out.old) (string_bytes out.new) }
    ensures feed { OnOk result (string_bytes out.new ≡ string_bytes out.old ++ 10 ∷ []) }
    ensures added { Adding (10 ∷ []) result (string_bytes out.old) (string_bytes out.new) }
{
    out.push('\n')
}
