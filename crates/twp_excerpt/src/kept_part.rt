//! The part of a line that fits in a number of columns: its beginning or its end, with dots for the rest.
ghost use Rattle.std.specs.Prelude.{◌≡◌, ◌≤◌, ℕ, false, not, nat_le, string_bytes, IsTrue};
ghost use Rattle.twp_excerpt.specs.Excerpts.{line_text, line_width, front_within, end_within, dots};
ghost use Rattle.twp_excerpt.specs.Excerpts.{ShownPart, front_piece, end_piece, front_text, end_text};
ghost use Rattle.twp_excerpt.specs.Shown.{AddsShown};
ghost use Rattle.twp_excerpt.specs.Signs.{Adding, signs};
ghost use Rattle.twp_excerpt.specs.steps.Views.{IsPart};

use crate::escaped::{Sign, push_printable};
use std::alloc::AllocError;

/// The text that marks an omission.
pub(crate) const DOTS: &str = "..";

/// The part that is kept of some bytes of a line.
#[derive(Clone, Copy)]
pub(crate) struct KeptPart<'a> {
    pub(crate) bytes: &'a [u8],
    /// Whether bytes were omitted; two dots mark the omission.
    cut: bool,
    /// The columns of the part, including those of the dots.
    pub(crate) columns: usize,
}

impl<'a> KeptPart<'a> {
    /// Appends a prefix of bytes, and dots if more bytes follow.
    #[tactic(auto, using(crate::proofs::ShownFacts::adds_trans))]
    pub(crate) fn write_front(&self, out: &mut String) -> Result<(), AllocError>
        ensures added { (piece : ShownPart) → IsPart piece self.now
            → Adding (front_text piece) result (string_bytes out.old) (string_bytes out.new) }
        ensures safe { AddsShown (string_bytes out.old) (string_bytes out.new) }
    {
        write_in_line(self.bytes, out)?;
        write_dots(self.cut, out)
    }

    /// Appends a suffix of bytes, after dots if there are more bytes before it.
    #[tactic(auto, using(crate::proofs::ShownFacts::adds_trans))]
    pub(crate) fn write_end(&self, out: &mut String) -> Result<(), AllocError>
        ensures added { (piece : ShownPart) → IsPart piece self.now
            → Adding (end_text piece) result (string_bytes out.old) (string_bytes out.new) }
        ensures safe { AddsShown (string_bytes out.old) (string_bytes out.new) }
    {
        write_dots(self.cut, out)?;
        write_in_line(self.bytes, out)
    }

    /// The prefix of bytes that fits in a number of columns, given a shorter prefix of them.
    pub(crate) fn widened(self, bytes: &'a [u8], room: usize) -> KeptPart<'a>
        requires short { IsTrue self.cut → 2 ≤ room }
        requires whole { self.cut ≡ false → self.columns ≤ room }
        requires roomy { room ≤ 100 }
        ensures piece { (least : ℕ) → IsPart (front_piece least (signs bytes.now)) self.entry
            → IsPart (front_piece room (signs bytes.now)) result }
        ensures fits { result.columns ≤ room }
    {
        if self.cut {
            return front_of(bytes, room);
        }
        self
    }
}

/// The prefix of some bytes that fits in a number of columns, including the dots if it is not all
/// of them.
pub(crate) fn front_of(bytes: &[u8], room: usize) -> KeptPart<'_>
    requires { (2 ≤ room) × (room ≤ 100) }
    ensures piece { IsPart (front_piece room (signs bytes.now)) result }
    ensures fits { result.columns ≤ room }
    ensures dots { IsTrue result.cut → 2 ≤ result.columns }
{
    let whole = front_within(bytes, room);
    if !whole.cut {
        return whole;
    }
    let front = front_within(bytes, room - DOTS.len());
    KeptPart {
        columns: front.columns + DOTS.len(),
        ..front
    }
}

/// The prefix of some bytes that fits in a number of columns, without dots.
fn front_within(bytes: &[u8], room: usize) -> KeptPart<'_>
    requires { room ≤ 100 }
    ensures kept { signs result.bytes.now ≡ front_within room (signs bytes.now) }
    ensures cut { result.cut ≡ not (nat_le (line_width (signs bytes.now)) room) }
    ensures columns { result.columns ≡ line_width (signs result.bytes.now) }
    ensures fits { result.columns ≤ room }
{
    let mut at = 0;
    let mut columns = 0;
    while at < bytes.len() {
        let sign = Sign::first(&bytes[at..]).in_line();
        let more = columns + sign.look.columns();
        if more > room {
            break;
        }
        columns = more;
        at += sign.size;
    }
    KeptPart {
        bytes: &bytes[..at],
        cut: at < bytes.len(),
        columns,
    }
}

/// The suffix of some bytes that fits in a number of columns, including the dots if it is not all
/// of them.
pub(crate) fn end_of(bytes: &[u8], room: usize) -> KeptPart<'_>
    requires { (2 ≤ room) × (room ≤ 100) }
    ensures piece { IsPart (end_piece room (signs bytes.now)) result }
    ensures fits { result.columns ≤ room }
{
    let whole = end_within(bytes, room);
    if !whole.cut {
        return whole;
    }
    let end = end_within(bytes, room - DOTS.len());
    KeptPart {
        columns: end.columns + DOTS.len(),
        ..end
    }
}

/// The suffix of some bytes that fits in a number of columns, without dots.
fn end_within(bytes: &[u8], room: usize) -> KeptPart<'_>
    requires { room ≤ 100 }
    ensures kept { signs result.bytes.now ≡ end_within room (signs bytes.now) }
    ensures cut { result.cut ≡ not (nat_le (line_width (signs bytes.now)) room) }
    ensures columns { result.columns ≡ line_width (signs result.bytes.now) }
    ensures fits { result.columns ≤ room }
{
    let mut at = bytes.len();
    let mut columns = 0;
    while at > 0 {
        let sign = Sign::last(&bytes[..at]).in_line();
        let more = columns + sign.look.columns();
        if more > room {
            break;
        }
        columns = more;
        at -= sign.size;
    }
    KeptPart {
        bytes: &bytes[at..],
        cut: at > 0,
        columns,
    }
}

/// Appends the dots if something was omitted.
fn write_dots(cut: bool, out: &mut String) -> Result<(), AllocError>
    ensures added { Adding (dots cut) result (string_bytes out.old) (string_bytes out.new) }
    ensures safe { AddsShown (string_bytes out.old) (string_bytes out.new) }
{
    if !cut {
        return Ok(());
    }
    push_printable(DOTS, out)
}

/// Appends bytes as they are shown in a line.
#[tactic(auto, using(crate::proofs::ShownFacts::adds_trans))]
fn write_in_line(bytes: &[u8], out: &mut String) -> Result<(), AllocError>
    ensures added { Adding (line_text (signs bytes.now)) result
        (string_bytes out.old) (string_bytes out.new) }
    ensures safe { AddsShown (string_bytes out.old) (string_bytes out.new) }
{
    let mut at = 0;
    while at < bytes.len() {
        let sign = Sign::first(&bytes[at..]).in_line();
        sign.look.write(out)?;
        at += sign.size;
    }
    Ok(())
}
