//! Which characters may be sent to a terminal unchanged; and places in a text: lines, columns, and the
//! end of the text without trailing white space.
ghost use Rattle.std.specs.Prelude.{◌≡◌, ◌+◌, ◌<◌, ◌≤◌, ◌^◌, length, count_by, drop, take};
ghost use Rattle.std.specs.Int.{is_in_range};
ghost use Rattle.twp_excerpt.specs.Shown.{is_beyond_text, is_blank_letter, is_control, is_odd_mark};
ghost use Rattle.twp_excerpt.specs.Shown.{is_shown};
ghost use Rattle.twp_excerpt.specs.Spots.{columns, column_of, end_of, first_size, is_feed};
ghost use Rattle.twp_excerpt.specs.Spots.{is_white, line_of, line_start};

use bstr::decode_utf8;
use memchr::memrchr;
use unicode_width::UnicodeWidthChar;

/// Whether a character is shown unchanged.
#[tactic(auto, unfolding(crate::specs::Shown::is_shown))]
pub(crate) fn is_shown(character: char) -> bool
    ensures { result ≡ is_shown character }
{
    let code = u32::from(character);
    if is_control(code) || is_odd_mark(code) || is_blank_letter(code) || is_beyond_text(code) {
        return false;
    }
    match character.width() {
        Some(width) => 1 <= width,
        None => false,
    }
}

/// Control characters, the no-break space, and the soft hyphen.
fn is_control(code: u32) -> bool
    ensures { result ≡ is_control code }
{
    is_among(code, 0, 0x1F) || is_among(code, 0x7F, 0xA0) || code == 0xAD
}

/// Marks of direction, spaces of unusual widths, joiners, separators, and invisible operators.
fn is_odd_mark(code: u32) -> bool
    ensures { result ≡ is_odd_mark code }
{
    is_among(code, 0x2000, 0x200F)
        || is_among(code, 0x2028, 0x202F)
        || is_among(code, 0x205F, 0x206F)
        || code == 0x61C
        || code == 0x1680
        || is_among(code, 0x180B, 0x180F)
        || code == 0x3000
}

/// Letters that are blank.
fn is_blank_letter(code: u32) -> bool
    ensures { result ≡ is_blank_letter code }
{
    is_among(code, 0x115F, 0x1160) || code == 0x2800 || code == 0x3164 || code == 0xFFA0
}

/// Surrogates and private-use characters, everything from the tags on, variation selectors, the
/// byte order mark, annotations, and noncharacters.
fn is_beyond_text(code: u32) -> bool
    ensures { result ≡ is_beyond_text code }
{
    is_among(code, 0xD800, 0xF8FF)
        || 0xE0000 <= code
        || is_among(code, 0xFE00, 0xFE0F)
        || code == 0xFEFF
        || is_among(code, 0xFFF0, 0xFFFB)
        || is_among(code, 0xFDD0, 0xFDEF)
        || 0xFFFE <= code % 0x10000
}

/// Whether a code is in a range, both ends included.
fn is_among(code: u32, first: u32, last: u32) -> bool
    ensures { result ≡ is_in_range first last code }
{
    first <= code && code <= last
}

/// The position of a byte in a text. Both numbers count from 1.
#[derive(Clone, Copy, PartialEq, Eq)]
pub struct Spot {
    pub line: u32,
    pub column: u32,
}

/// Bytes of a text, from one offset up to, but not including, another.
#[derive(Clone, Copy, PartialEq, Eq)]
pub struct Span {
    pub start: usize,
    pub end: usize,
}

/// The position of the byte at an offset, or of the end of the text. A line feed ends its line, and
/// a column is a UTF-8 character or a byte that belongs to none.
pub fn spot_of(text: &[u8], at: usize) -> Spot
    requires within { at ≤ length text.now }
    requires short { length text.now + 1 < 2 ^ 32 }
    ensures line { result.line ≡ line_of text.now at }
    ensures column { result.column ≡ column_of text.now at }
{
    let start = start_of_line(text, at);
    let feeds = line_feeds(&text[..at]);
    let before = columns(&text[start..at]);
    Spot {
        line: 1 + feeds as u32,
        column: 1 + before as u32,
    }
}

/// The offset after the last byte that is not white space (a space, a tab, a line feed, or a
/// carriage return), or 0 if there is no such byte.
pub fn end_of_text(text: &[u8]) -> usize
    ensures end { result ≡ end_of text.now }
    ensures within { result ≤ length text.now }
{
    let mut end = text.len();
    while end > 0 && is_white(text[end - 1]) {
        end -= 1;
    }
    end
}

/// The start of the line that contains a place.
pub(crate) fn start_of_line(text: &[u8], at: usize) -> usize
    requires { at ≤ length text.now }
    ensures value { result ≡ line_start text.now at }
    ensures within { result ≤ at }
{
    match memrchr(b'\n', &text[..at]) {
        Some(feed) => feed + 1,
        None => 0,
    }
}

/// The number of line feeds.
fn line_feeds(text: &[u8]) -> usize
    ensures value { result ≡ count_by is_feed text.now }
    ensures within { result ≤ length text.now }
{
    text.iter().filter(|byte| **byte == b'\n').count()
}

/// How many columns the bytes take. Most lines are ASCII, where each byte takes one.
#[tactic(auto, using(crate::proofs::SpotFacts::ascii_columns))]
fn columns(bytes: &[u8]) -> usize
    ensures value { result ≡ columns bytes.now }
    ensures within { result ≤ length bytes.now }
{
    if bytes.is_ascii() {
        return bytes.len();
    }
    let mut at = 0;
    let mut count = 0;
    while at < bytes.len() {
        at += size_at(bytes, at);
        count += 1;
    }
    count
}

/// How many bytes the character at a place takes, or 1 if none begins there. ASCII does not have to
/// be decoded.
#[tactic(auto, using(crate::proofs::SpotFacts::ascii_takes_one))]
#[inline(always)]
fn size_at(bytes: &[u8], at: usize) -> usize
    requires { at < length bytes.now }
    ensures value { result ≡ first_size (drop at bytes.now) }
    ensures some { 0 < result }
    ensures within { at + result ≤ length bytes.now }
{
    if bytes[at] < 0x80 {
        return 1;
    }
    first_size(&bytes[at..])
}

/// How many bytes the first UTF-8 character takes, or 1 if the bytes do not begin with a character.
pub fn first_size(bytes: &[u8]) -> usize
    requires { 0 < length bytes.now }
    ensures value { result ≡ first_size bytes.now }
    ensures some { 0 < result }
    ensures within { result ≤ length bytes.now }
{
    match decode_utf8(bytes) {
        (Some(_), size) => size,
        (None, _) => 1,
    }
}

/// Whether a byte is a space, a tab, a line feed, or a carriage return.
fn is_white(byte: u8) -> bool
    ensures { result ≡ is_white byte }
{
    matches!(byte, b' ' | b'\t' | b'\n' | b'\r')
}
