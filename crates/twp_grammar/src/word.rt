//! The kinds of words, by their letters; and white space: how far it reaches from a place on.
ghost use Rattle.std.specs.Prelude.{◌≡◌, ◌∷◌, [], ◌<◌, ◌≤◌, ◌+◌, ◌==◌, not, length, drop, map};
ghost use Rattle.std.specs.Prelude.{IsTrue};
ghost use Rattle.std.specs.Str.{str_to_ascii_lowercase};
ghost use Rattle.twp_grammar.specs.Tokens.{kind_among, same_bytes, words, long_words, begins_with};
ghost use Rattle.twp_grammar.specs.Tokens.{is_white};
ghost use Rattle.std.specs.List.{prefix_len};
ghost use Rattle.std.specs.Simd.Lanes.{mask_l};
ghost use Rattle.twp_grammar.specs.Cutting.{is_dark};

use crate::tokens::Kind;
use std::simd::prelude::*;
use twp_grid::{Corner, EastWest, NorthSouth};

/// What a word of one lowercase letter is.
#[inline(always)]
pub fn one_letter(first: u8) -> Kind
    ensures { result ≡ kind_among (first ∷ []) words }
{
    match first {
        b'n' => Kind::NorthSouth(NorthSouth::N),
        b's' => Kind::NorthSouth(NorthSouth::S),
        b'e' => Kind::EastWest(EastWest::E),
        b'w' => Kind::EastWest(EastWest::W),
        b't' => Kind::T,
        b'r' => Kind::R,
        _ => Kind::Other,
    }
}

/// What a word of two lowercase letters is. Quarters are the most common, and `e` and `w` are
/// tested first.
#[inline(always)]
pub fn two_letters(first: u8, second: u8) -> Kind
    ensures { result ≡ kind_among (first ∷ second ∷ []) words }
{
    match second {
        b'e' if first == b'n' => Kind::Corner(Corner::NE),
        b'e' if first == b's' => Kind::Corner(Corner::SE),
        b'w' if first == b'n' => Kind::Corner(Corner::NW),
        b'w' if first == b's' => Kind::Corner(Corner::SW),
        _ if first == b'o' && second == b'f' => Kind::Of,
        _ if first == b't' && second == b'o' => Kind::To,
        _ => Kind::Other,
    }
}

/// What a word of three lowercase letters is. `the` is the most common, and is tested first.
#[inline(always)]
pub fn three_letters(first: u8, second: u8, third: u8) -> Kind
    ensures { result ≡ kind_among (first ∷ second ∷ third ∷ []) words }
{
    if third == b'e' && first == b't' && second == b'h' {
        return Kind::The;
    }
    match (first, second, third) {
        (b'a', b'n', b'd') => Kind::And,
        (b's', b'e', b'c') => Kind::Sec,
        (b'l', b'o', b't') => Kind::Lot,
        (b'a', b'l', b'l') => Kind::All,
        _ => Kind::Other,
    }
}

/// What a word of four letters or more is, in either case. Lists have them most often.
#[inline(always)]
pub fn long_word(text: &[u8]) -> Kind
    ensures { result ≡ kind_among (str_to_ascii_lowercase text.now) long_words }
{
    if is_word(text, b"thru") {
        return Kind::To;
    }
    if is_word(text, b"lots") {
        return Kind::Lot;
    }
    if is_word(text, b"secs") {
        return Kind::Sec;
    }
    if is_word(text, b"section") {
        return Kind::Sec;
    }
    if is_word(text, b"sections") {
        return Kind::Sec;
    }
    if is_word(text, b"through") {
        return Kind::To;
    }
    if is_word(text, b"inclusive") {
        return Kind::Inclusive;
    }
    Kind::Other
}

/// Whether a word, in either case, is the given one, which is in lowercase.
#[tactic(auto, using(crate::proofs::WordFacts::is_same))]
fn is_word(text: &[u8], word: &[u8]) -> bool
    requires { str_to_ascii_lowercase word.now ≡ word.now }
    ensures { result ≡ same_bytes (str_to_ascii_lowercase text.now) word.now }
{
    text.eq_ignore_ascii_case(word)
}

/// How many bytes are looked at together where there are many spaces, as before an indented line.
const SPACES: usize = 64;

/// How many bytes are looked at together where there is much white space of any kind.
const LANES: usize = 16;

/// The first place from a place on that has no white space, or the text's length. Usually there is
/// one space or none.
#[inline(always)]
pub fn after_white(text: &[u8], from: usize) -> usize
    requires { from ≤ length text.now }
    ensures value { result ≡ from + prefix_len is_white (drop from text.now) }
    ensures range { result ≤ length text.now }
{
    if !is_white_at(text, from) {
        return from;
    }
    if !is_white_at(text, from + 1) {
        return from + 1;
    }
    after_much_white(text, from + 1)
}

/// The same for white space of any length. Most of it is spaces.
#[inline(never)]
fn after_much_white(text: &[u8], from: usize) -> usize
    requires { from ≤ length text.now }
    ensures value { result ≡ from + prefix_len is_white (drop from text.now) }
    ensures range { result ≤ length text.now }
{
    let at = after_spaces(text, from);
    if !is_white_at(text, at) {
        return at;
    }
    after_any_white(text, at)
}

/// Passes over spaces, except those near the text's end. What it passes over is white space.
#[inline(always)]
fn after_spaces(text: &[u8], from: usize) -> usize
    requires { from ≤ length text.now }
    ensures white { result + prefix_len is_white (drop result text.now)
        ≡ from + prefix_len is_white (drop from text.now) }
    ensures range { result ≤ length text.now }
{
    let mut at = from;
    while text.len() - at >= SPACES {
        let others = lanes_of_others(u8x64::from_slice(&text[at..]));
        if others != 0 {
            return at + others.trailing_zeros() as usize;
        }
        at += SPACES;
    }
    at
}

/// A bit for each byte that is no space, the lowest for the first.
#[inline(always)]
fn lanes_of_others(bytes: u8x64) -> u64
    ensures { result ≡ mask_l (map (λ byte. not (byte == 32)) bytes) }
{
    !bytes.simd_eq(u8x64::splat(b' ')).to_bitmask()
}

/// The same for white space of any length and kind.
#[inline(always)]
fn after_any_white(text: &[u8], from: usize) -> usize
    requires { from ≤ length text.now }
    ensures value { result ≡ from + prefix_len is_white (drop from text.now) }
    ensures range { result ≤ length text.now }
{
    let mut at = from;
    while text.len() - at >= LANES {
        let dark = dark_lanes(u8x16::from_slice(&text[at..]));
        if dark != 0 {
            return at + dark.trailing_zeros() as usize;
        }
        at += LANES;
    }
    after_last_white(text, at)
}

/// The same for the last bytes of a text.
fn after_last_white(text: &[u8], from: usize) -> usize
    requires { from ≤ length text.now }
    ensures value { result ≡ from + prefix_len is_white (drop from text.now) }
    ensures range { result ≤ length text.now }
{
    let mut at = from;
    while is_white_at(text, at) {
        at += 1;
    }
    at
}

/// A bit for each byte that is no white space, the lowest for the first.
#[inline(always)]
fn dark_lanes(bytes: u8x16) -> u64
    ensures { result ≡ mask_l (map is_dark bytes) }
{
    let no_space = bytes.simd_ne(u8x16::splat(b' ')) & bytes.simd_ne(u8x16::splat(b'\t'));
    let no_end = bytes.simd_ne(u8x16::splat(b'\n')) & bytes.simd_ne(u8x16::splat(b'\r'));
    (no_space & no_end).to_bitmask()
}

/// Whether there is white space at a place.
#[inline(always)]
fn is_white_at(text: &[u8], at: usize) -> bool
    ensures value { result ≡ begins_with is_white (drop at text.now) }
    ensures within { IsTrue result → at < length text.now }
{
    at < text.len() && is_white(text[at])
}

/// Whether a byte is a space, a tab, a line feed or a carriage return. All others except control
/// characters come after the space, so most bytes take one comparison.
#[inline(always)]
fn is_white(byte: u8) -> bool
    ensures { result ≡ is_white byte }
{
    byte <= b' ' && matches!(byte, b' ' | b'\t' | b'\n' | b'\r')
}
