//! How a text is cut into pieces.

use crate::pieces::plus;
use std::alloc::AllocError;
use twp_grammar::{Kind, Lexeme, Tokens, after_white, lexeme_at};
use twp_words::{
    is_damaged_corner, is_damaged_half, is_same, is_side_and_meridian, size_of_character,
};

/// The most characters, one after another, that begin no token: a text with more has no reading, and isn't
/// cut further.
const UNKNOWN_MOST: usize = 1_000;

/// There is room from the start for this many pieces, and one more for each two bytes.
const PIECES_FIRST: usize = 8;

/// The most bytes of a piece that are counted.
const SIZE_MOST: usize = 65_535;

/// A piece: what it is, and where it begins and ends.
#[derive(Clone, Copy)]
pub(crate) struct Piece {
    pub(crate) kind: Kind,
    /// How many bytes it has, up to the most that a `u16` can hold: words of another length are ruled out by
    /// it.
    pub(crate) size: u16,
    pub(crate) gap: Spacing,
    /// Its first byte, in lowercase: most words with as many bytes are ruled out by it.
    pub(crate) first: u8,
    pub(crate) start: usize,
    pub(crate) end: usize,
}

/// What is between a piece and the one before it, or before the first piece.
#[derive(Clone, Copy, PartialEq, Eq)]
pub(crate) enum Spacing {
    Nothing,
    /// White space that ends neither a line nor a cell.
    Space,
    /// White space with a line feed or a tab.
    Break,
}

impl Spacing {
    /// The gap from one place up to another. Most are a space, or nothing.
    #[inline(always)]
    fn between(text: &[u8], from: usize, to: usize) -> Spacing {
        if from == to {
            return Spacing::Nothing;
        }
        if plus(from, 1) == to && text.get(from) == Some(&b' ') {
            return Spacing::Space;
        }
        Spacing::of_white(text.get(from..to).unwrap_or(b""))
    }

    /// The gap that some white space is.
    #[inline(never)]
    fn of_white(white: &[u8]) -> Spacing {
        if has_break(white) {
            Spacing::Break
        } else {
            Spacing::Space
        }
    }
}

impl Piece {
    /// A piece of so many bytes at a place of a text in lowercase, after a gap.
    #[inline(always)]
    fn at(lower: &[u8], start: usize, size: usize, kind: Kind, gap: Spacing) -> Piece {
        Piece {
            kind,
            size: size.min(SIZE_MOST) as u16,
            gap,
            first: lower.get(start).copied().unwrap_or(0),
            start,
            end: plus(start, size),
        }
    }

    /// Whether it has as many bytes as a text, and begins with the same one.
    #[inline(always)]
    pub(crate) fn begins_as(&self, text: &[u8]) -> bool {
        match text {
            [first, ..] => usize::from(self.size) == text.len() && *first == self.first,
            [] => false,
        }
    }
}

/// Whether a line feed or a tab is among some bytes.
pub(crate) fn has_break(white: &[u8]) -> bool {
    for byte in white {
        if matches!(*byte, b'\n' | b'\t') {
            return true;
        }
    }
    false
}

/// Adds the pieces of a text, whose letters are given in lowercase, too.
pub(crate) fn cut(text: &[u8], lower: &[u8], list: &mut Vec<Piece>) -> Result<(), AllocError> {
    // Most pieces have two bytes or more.
    list.reserve(plus(text.len() / 2, PIECES_FIRST))?;
    let mut at: usize = 0;
    let mut end: usize = 0;
    let mut unknown: usize = 0;
    for _ in 0..text.len() {
        let start = after_white(text, at.min(text.len()));
        if start >= text.len() {
            break;
        }
        let Lexeme { kind, size } = lexeme_at(text, start);
        at = plus(start, size);
        // Within a character that begins no token.
        if start < end {
            continue;
        }
        let gap = Spacing::between(text, end, start);
        let mut whole = size;
        if matches!(kind, Kind::BadByte) {
            unknown = plus(unknown, 1);
            if unknown > UNKNOWN_MOST {
                break;
            }
            whole = size_at(text, start);
        } else {
            unknown = 0;
        }
        end = plus(start, whole);
        if may_be_two(kind, text, start, size) {
            let token = Piece::at(lower, start, whole, kind, gap);
            push_token(list, text, lower, token)?;
        } else {
            list.push(Piece::at(lower, start, whole, kind, gap))?;
        }
    }
    Ok(())
}

/// How many bytes the character at a place of a text has.
fn size_at(text: &[u8], start: usize) -> usize {
    let rest = text.get(start..).unwrap_or(b"");
    size_of_character(rest, rest.len())
}

/// Whether a token at a place of a text may be two pieces: most aren't, by their kind or their size.
#[inline(always)]
fn may_be_two(kind: Kind, text: &[u8], start: usize, size: usize) -> bool {
    match kind {
        Kind::BadNumber => size == 6,
        Kind::Other => {
            size <= 3
                || text.get(start) == Some(&b'A')
                || (size == 4 && matches!(text.get(start), Some(b'W' | b'E' | b'w' | b'e')))
        }
        _ => false,
    }
}

/// Adds a token as one piece, or as two.
#[inline(never)]
fn push_token(
    list: &mut Vec<Piece>,
    text: &[u8],
    lower: &[u8],
    token: Piece,
) -> Result<(), AllocError> {
    let Piece {
        kind,
        gap,
        start,
        end,
        ..
    } = token;
    let bytes = text.get(start..end).unwrap_or(b"");
    let Some(first) = size_of_first(token, bytes, lower, list.as_slice()) else {
        list.push(token)?;
        return Ok(());
    };
    let (front, rest) = bytes.split_at(first.min(bytes.len()));
    let middle = plus(start, front.len());
    list.push(Piece::at(lower, start, front.len(), kind_of(front, kind), gap))?;
    list.push(Piece::at(
        lower,
        middle,
        rest.len(),
        kind_of(rest, kind),
        Spacing::Nothing,
    ))?;
    Ok(())
}

/// How many bytes of a token are its first piece, if there are two: those of the meridian in the six digits
/// that a register begins with, the A before aliquot parts after a section of a register, and a corner with a
/// damaged `1` after it, and the side of a range with letters for a meridian, as in `R3WBM`.
fn size_of_first(token: Piece, bytes: &[u8], lower: &[u8], before: &[Piece]) -> Option<usize> {
    match token.kind {
        Kind::BadNumber if bytes.len() == 6 && is_of_register(token, lower, before) => Some(2),
        Kind::Other if is_range_and_section(bytes) && is_after_number(before) => Some(1),
        Kind::Other if matches!(bytes, [b'A', _, ..]) && is_after_section(lower, before) => Some(1),
        Kind::Other if is_damaged_corner(bytes) => Some(2),
        Kind::Other if is_side_and_meridian(bytes) => Some(1),
        Kind::Other if is_damaged_half(bytes, lower.get(plus(token.start, 2)..)) => Some(1),
        _ => None,
    }
}

/// Whether a number of six digits has the code of a state or the number of a section in its first
/// two: N or S is after it, as in `080020N0030W`, or the side of a range before it, as in
/// `02N03W149000`.
fn is_of_register(token: Piece, lower: &[u8], before: &[Piece]) -> bool {
    matches!(lower.get(token.end), Some(b'n' | b's'))
        || (matches!(token.gap, Spacing::Nothing) && is_after_east_west(before))
}

/// Whether the last piece is the side of a range.
fn is_after_east_west(before: &[Piece]) -> bool {
    match before {
        [.., last] => matches!(last.kind, Kind::EastWest(_)),
        [] => false,
    }
}

/// Whether a word is the side of a range, and the letter or the word for a section after it, as in
/// `T2NR3WSEC22`.
fn is_range_and_section(bytes: &[u8]) -> bool {
    matches!(
        bytes,
        [b'W' | b'E' | b'w' | b'e', b'S' | b's']
            | [
                b'W' | b'E' | b'w' | b'e',
                b'S' | b's',
                b'E' | b'e',
                b'C' | b'c'
            ]
    )
}

/// Whether the last piece is a number.
fn is_after_number(before: &[Piece]) -> bool {
    match before {
        [.., last] => matches!(last.kind, Kind::Number(_)),
        [] => false,
    }
}

/// Whether pieces of a text in lowercase end with a section of a register: SN, and its number.
fn is_after_section(lower: &[u8], before: &[Piece]) -> bool {
    match before {
        [.., word, _] => is_same(lower.get(word.start..word.end).unwrap_or(b""), b"sn"),
        _ => false,
    }
}

/// What a part of a token is: the token that it begins with, if that is all of it, and else what the token
/// is.
fn kind_of(bytes: &[u8], kind: Kind) -> Kind {
    match Tokens::new(bytes).next() {
        Some(token) if token.text.len() == bytes.len() => token.kind,
        _ => kind,
    }
}
