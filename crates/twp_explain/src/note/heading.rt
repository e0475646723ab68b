//! What a note says of a heading with a number that begins with a zero.
use crate::note::sentence::Doubtful;
use crate::note::span::place_of;
use std::alloc::AllocError;
use twp_excerpt::write_escaped;
use twp_grammar::{Kind, Tokens};
use twp_grid::{EastWest, NorthSouth};

/// How many digits registers write, of which the last is a fraction of a township.
const DIGITS: usize = 4;

/// A number of a heading, and the letter after it.
#[derive(Clone, Copy)]
struct HeadingNumber<'a> {
    digits: &'a [u8],
    value: u16,
    /// The same without the digit of a fraction, if it has one, which is 0.
    whole: Option<u16>,
    letter: &'static str,
}

/// Appends what is said of a heading.
pub(crate) fn write_heading(doubtful: &Doubtful<'_>, out: &mut String) -> Result<(), AllocError> {
    let bytes = doubtful.bytes;
    let township = part_at(bytes, place_of(bytes, 0, Kind::T));
    let range = part_at(bytes, place_of(bytes, 0, Kind::R));
    out.push_str("T. ")?;
    write_escaped(township.digits, out)?;
    write!(out, " {}., R. ", township.letter)?;
    write_escaped(range.digits, out)?;
    write!(out, " {}. is read as ", range.letter)?;
    write_parts(
        township.value,
        township.letter,
        range.value,
        range.letter,
        out,
    )?;
    let (None, None) = (township.whole, range.whole) else {
        out.push_str("; registers write a fraction digit last: if ")?;
        let number = township.whole.unwrap_or(township.value);
        let other = range.whole.unwrap_or(range.value);
        write_parts(number, township.letter, other, range.letter, out)?;
        return out.push_str(" was meant, write that");
    };
    out.push_str("; if another township was meant, write its numbers without zeros before them")
}

/// Appends a heading.
fn write_parts(
    township: u16,
    north_south: &str,
    range: u16,
    east_west: &str,
    out: &mut String,
) -> Result<(), AllocError> {
    write!(out, "T. {township} {north_south}., R. {range} {east_west}.")
}

/// The number after the letter of a heading at a place, and the letter after the number.
fn part_at(bytes: &[u8], at: usize) -> HeadingNumber<'_> {
    let mut part = HeadingNumber {
        digits: b"",
        value: 0,
        whole: None,
        letter: "",
    };
    let mut tokens = Tokens::after(bytes, at.min(bytes.len()));
    while let Some(token) = tokens.next() {
        match token.kind {
            Kind::Number(value) => {
                part.digits = token.text;
                part.value = value;
                part.whole = whole_of(value, token.text);
            }
            Kind::NorthSouth(NorthSouth::N) => return HeadingNumber {
                letter: "N",
                ..part
            },
            Kind::NorthSouth(NorthSouth::S) => return HeadingNumber {
                letter: "S",
                ..part
            },
            Kind::EastWest(EastWest::E) => return HeadingNumber {
                letter: "E",
                ..part
            },
            Kind::EastWest(EastWest::W) => return HeadingNumber {
                letter: "W",
                ..part
            },
            _ => {}
        }
    }
    part
}

/// A number without its last digit, if it is written as registers do: with four digits, of which the first is
/// 0 and so is the last, the digit of a fraction.
fn whole_of(value: u16, digits: &[u8]) -> Option<u16> {
    if digits.len() != DIGITS || !digits.starts_with(b"0") || value % 10 != 0 {
        return None;
    }
    Some(value / 10)
}
