//! The steps of aliquot parts: halves and quarters, and how they are written in a description.

use crate::directions::{is_half, is_half_name, is_quarter, is_quarter_name};
use crate::same::is_same;

/// What a step is: a half or a quarter.
#[derive(Clone, Copy, PartialEq, Eq)]
pub enum Size {
    Half,
    Quarter,
}

impl Size {
    /// Its fraction.
    pub fn fraction(self) -> &'static [u8] {
        match self {
            Size::Half => b"1/2",
            Size::Quarter => b"1/4",
        }
    }

    /// The digit that people write for it.
    pub fn digit(self) -> u16 {
        match self {
            Size::Half => 2,
            Size::Quarter => 4,
        }
    }

    /// Whether a word in lowercase is one for it.
    pub fn is_word(self, word: &[u8]) -> bool {
        match self {
            Size::Half => is_half(word),
            Size::Quarter => is_quarter(word),
        }
    }

    /// Whether a word in lowercase is its name, and no abbreviation.
    pub fn is_whole_word(self, word: &[u8]) -> bool {
        match self {
            Size::Half => is_half_name(word),
            Size::Quarter => is_quarter_name(word),
        }
    }

    /// Whether a piece is the lowered digit of its fraction.
    pub fn is_lowered(self, piece: &[u8]) -> bool {
        match self {
            Size::Half => is_same(piece, b"\xE2\x82\x82"),
            Size::Quarter => is_same(piece, b"\xE2\x82\x84"),
        }
    }
}

/// The step with these letters, as it is written in a description.
pub fn written_step(letters: &[u8]) -> &'static [u8] {
    match letters {
        [side] => written_half(side.to_ascii_uppercase()),
        [first, second] => {
            written_quarter(first.to_ascii_uppercase(), second.to_ascii_uppercase())
        }
        _ => b"",
    }
}

/// The half on the side with this letter.
fn written_half(side: u8) -> &'static [u8] {
    match side {
        b'N' => b"N1/2",
        b'S' => b"S1/2",
        b'E' => b"E1/2",
        b'W' => b"W1/2",
        _ => b"",
    }
}

/// The quarter in the corner with these letters.
fn written_quarter(first: u8, second: u8) -> &'static [u8] {
    match (first, second) {
        (b'N', b'E') => b"NE1/4",
        (b'N', b'W') => b"NW1/4",
        (b'S', b'E') => b"SE1/4",
        (b'S', b'W') => b"SW1/4",
        _ => b"",
    }
}
