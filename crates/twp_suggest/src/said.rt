//! Numbers, townships, and ranges that are said again.
ghost use Rattle.std.specs.Prelude.{◌≡◌, IfOk, drop};
ghost use Rattle.twp_suggest.specs.Repeats.{is_loose, is_number_said};
ghost use Rattle.twp_suggest.specs.Repeats.{is_township_letter, is_township_said, solid};
ghost use Rattle.twp_suggest.specs.Repeats.{may_begin_number, may_begin_township};

use std::alloc::{AllocError, Global};
use twp_rules::{byte_at, digits_of, is_side};

/// Whether a byte is white space, a period, or a parenthesis.
pub(crate) fn is_loose(byte: u8) -> bool
    ensures { result ≡ is_loose byte }
{
    byte == b' '
        || byte == b'\t'
        || byte == b'\n'
        || byte == b'\r'
        || byte == b'.'
        || byte == b'('
        || byte == b')'
}

/// A text without them, in lowercase.
pub(crate) fn solid(alloc: Global, text: &[u8]) -> Result<Vec<u8>, AllocError>
    ensures { IfOk result (λ made. made.items ≡ solid text.now) }
{
    let mut made = Vec::new(alloc);
    for byte in text {
        if !is_loose(*byte) {
            made.push(byte.to_ascii_lowercase())?;
        }
    }
    Ok(made)
}

/// Whether bytes are a number.
pub(crate) fn is_number_said(bytes: &[u8]) -> bool
    ensures { result ≡ is_number_said bytes.now }
{
    bytes.len() > 0 && digits_of(bytes).len() == bytes.len()
}

/// Whether they are a township or a range: its letter, its number, and the letter of its side.
pub(crate) fn is_township_said(bytes: &[u8]) -> bool
    ensures { result ≡ is_township_said bytes.now }
{
    if !is_township_letter(byte_at(bytes, 0)) {
        return false;
    }
    let digits = digits_of(after_first(bytes)).len();
    digits > 0 && bytes.len() == digits + 2 && is_side(byte_at(bytes, digits + 1))
}

/// Bytes without the first one.
fn after_first(bytes: &[u8]) -> &[u8]
    ensures { result.now ≡ drop 1 bytes.now }
{
    match bytes {
        [_, rest @ ..] => rest,
        [] => bytes,
    }
}

/// Whether a byte is the letter of a township or a range.
fn is_township_letter(byte: u8) -> bool
    ensures { result ≡ is_township_letter byte }
{
    byte == b't' || byte == b'r'
}

/// Whether a number may begin after a byte.
pub(crate) fn may_begin_number(byte: u8) -> bool
    ensures { result ≡ may_begin_number byte }
{
    !byte.is_ascii_digit() && byte != b'/'
}

/// Whether a township or a range may.
pub(crate) fn may_begin_township(byte: u8) -> bool
    ensures { result ≡ may_begin_township byte }
{
    may_begin_number(byte) && !byte.is_ascii_alphabetic()
}
