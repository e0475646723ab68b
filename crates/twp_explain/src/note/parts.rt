//! What a note says of parts: two that are read as one, and two of which one has an `of`, which is
//! perhaps for both.
use crate::note::said::NotePiece::{Number, Part, Row, Steps, Words};
use crate::note::said::{NotePiece, say, text_of};
use crate::note::sentence::Doubtful;
use crate::note::span::{
    NotedTokens as RowOf, after_and, end_of_row, last_place_of, place_of, section_at, start_of_part,
};
use crate::note::spelled::between;
use std::alloc::{AllocError, Global};
use twp_grammar::Kind;

/// Appends what is said of two steps with white space between them.
pub(crate) fn write_joined(
    alloc: Global,
    doubtful: &Doubtful<'_>,
    out: &mut String,
) -> Result<(), AllocError> {
    let bytes = doubtful.bytes;
    let at = doubtful.at;
    let first = Steps(between(bytes, start_of_part(bytes, at), at));
    let second = Steps(between(bytes, at, end_of_row(bytes, at, RowOf::Part)));
    say(
        &[first, Words(" "), second, Words(" is read as one part")],
        out,
    )?;
    let one = land_of(alloc, doubtful, &[first, second])?;
    doubtful
        .reckoner
        .write_acres(alloc, " of ", one.as_str(), "", out)?;
    let comma = Words("; if two parts were meant, write a comma after ");
    say(
        &[
            Words(", the "),
            first,
            Words(" of the "),
            second,
            comma,
            first,
        ],
        out,
    )?;
    let two = land_of(alloc, doubtful, &[first, Words(", "), second])?;
    doubtful.write_acres(alloc, two.as_str(), out)
}

/// Appends what is said of a part without `of`, `and`, and a part with `of`.
pub(crate) fn write_shared(
    alloc: Global,
    doubtful: &Doubtful<'_>,
    out: &mut String,
) -> Result<(), AllocError> {
    let bytes = doubtful.bytes;
    let at = doubtful.at;
    let and = place_of(bytes, at, Kind::And);
    let second = after_and(bytes, at);
    let of = place_of(bytes, second, Kind::Of);
    let first = between(bytes, at, and);
    let own = between(bytes, second, of);
    let shared = between(bytes, of, end_of_row(bytes, of, RowOf::Part));
    say(
        &[Steps(first), Words(" and "), Steps(own), Part(shared)],
        out,
    )?;
    write_two(alloc, doubtful, &[first], &[own, shared], out)?;
    say(&[Words("; if both are of the "), Steps(shared)], out)?;
    write_both(alloc, doubtful, &[first, shared], &[own, shared], out)
}

/// Appends what is said of a part with `of`, `and`, and a part without `of`: the steps before the last
/// `of` may be for both.
pub(crate) fn write_spread(
    alloc: Global,
    doubtful: &Doubtful<'_>,
    out: &mut String,
) -> Result<(), AllocError> {
    let bytes = doubtful.bytes;
    let at = doubtful.at;
    let and = place_of(bytes, at, Kind::And);
    let next = after_and(bytes, at);
    let first = between(bytes, at, and);
    let second = between(bytes, next, end_of_row(bytes, next, RowOf::Steps));
    let spread = between(bytes, at, last_place_of(bytes, at, and, Kind::Of));
    say(&[Part(first), Words(" and "), Steps(second)], out)?;
    write_two(alloc, doubtful, &[first], &[second], out)?;
    say(
        &[
            Words("; if the "),
            Steps(spread),
            Words(" of both was meant"),
        ],
        out,
    )?;
    write_both(alloc, doubtful, &[first], &[spread, second], out)
}

/// Appends that the steps of some texts are read as two parts, with the acres of each.
fn write_two(
    alloc: Global,
    doubtful: &Doubtful<'_>,
    first: &[&[u8]],
    second: &[&[u8]],
    out: &mut String,
) -> Result<(), AllocError> {
    out.push_str(" is read as two parts, the ")?;
    write_land(alloc, doubtful, first, out)?;
    out.push_str(" and the ")?;
    write_land(alloc, doubtful, second, out)
}

/// Appends how two parts are written, each of the steps of some texts in turn, and their acres.
fn write_both<'a>(
    alloc: Global,
    doubtful: &Doubtful<'_>,
    first: &'a [&'a [u8]],
    second: &'a [&'a [u8]],
    out: &mut String,
) -> Result<(), AllocError> {
    let both = [Row(first), Words(", "), Row(second)];
    let land = land_of(alloc, doubtful, &both)?;
    out.push_str(", write ")?;
    say(&both, out)?;
    doubtful.write_acres(alloc, land.as_str(), out)
}

/// Appends the steps of some texts in turn, and their acres.
fn write_land(
    alloc: Global,
    doubtful: &Doubtful<'_>,
    steps: &[&[u8]],
    out: &mut String,
) -> Result<(), AllocError> {
    let land = land_of(alloc, doubtful, &[Row(steps)])?;
    say(&[Row(steps)], out)?;
    doubtful.write_acres(alloc, land.as_str(), out)
}

/// The section of a doubtful place, and land of it.
fn land_of(
    alloc: Global,
    doubtful: &Doubtful<'_>,
    land: &[NotePiece<'_>],
) -> Result<String, AllocError> {
    let section = section_at(doubtful.bytes, doubtful.at).unwrap_or(0);
    let mut text = text_of(alloc, &[Words("sec. "), Number(section), Words(", ")])?;
    say(land, &mut text)?;
    Ok(text)
}
