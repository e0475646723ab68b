//! Hints on a refused sign: what is not allowed there, and what is. They are rows of a table, chosen by
//! the sign, what is expected at its place, and the signs beside it.

mod signs;
mod table;

use crate::descriptions::hints::signs::{fit_after, fit_before, fits, is_expected};
use crate::descriptions::hints::table::HINTS;
use std::alloc::{AllocError, Global};
use twp_diagnose::{Surroundings, TokenAt};
use twp_excerpt::write_escaped;

/// A hint that says what to write begins so, and names nothing else.
const WRITE: &str = "write ";

/// A hint that says what to delete begins so, and ends with another mark.
const DELETE: &str = "delete `";

/// The hint on a refused sign; empty if there is none.
pub(crate) fn hint_on(alloc: Global, sight: &Surroundings<'_>) -> Result<String, AllocError> {
    let mut hint = String::new(alloc);
    for row in HINTS.lines() {
        if let Some(template) = template_of(row, sight) {
            write_template(template, sight, &mut hint)?;
            break;
        }
    }
    Ok(hint)
}

/// What a row says, if it fits.
fn template_of(row: &'static str, sight: &Surroundings<'_>) -> Option<&'static str> {
    let (at, row) = row.split_once('|')?;
    if !fits(at.trim_ascii(), sight.at) {
        return None;
    }
    let (before, row) = row.split_once('|')?;
    let (expected, row) = row.split_once('|')?;
    let (after, template) = row.split_once('|')?;
    let is_here = fit_before(before.trim_ascii(), sight)
        && is_expected(expected.trim_ascii(), sight)
        && fit_after(after.trim_ascii(), sight);
    if is_here {
        Some(template.trim_ascii())
    } else {
        None
    }
}

/// Appends what a row says. `{at}` is the refused sign, `{before}` the one before it, and `{next}` the
/// one after it; `{quarters}` is the refused sign, whose letters are those of several quarters, with a
/// fraction after each of them.
fn write_template(
    template: &str,
    sight: &Surroundings<'_>,
    out: &mut String,
) -> Result<(), AllocError> {
    for piece in template.split('{') {
        match piece.split_once('}') {
            Some((name, words)) => {
                write_named(name, sight, out)?;
                out.push_str(words)?;
            }
            None => out.push_str(piece)?,
        }
    }
    Ok(())
}

/// Appends the sign with this name.
fn write_named(name: &str, sight: &Surroundings<'_>, out: &mut String) -> Result<(), AllocError> {
    match name {
        "before" => write_escaped(sight.before.bytes, out),
        "next" => {
            let TokenAt { bytes, .. } = sight.after(0);
            write_escaped(bytes, out)
        }
        "quarters" => write_quarters(sight.at.bytes, out),
        _ => write_escaped(sight.at.bytes, out),
    }
}

/// Appends the quarters with these letters.
fn write_quarters(letters: &[u8], out: &mut String) -> Result<(), AllocError> {
    for corner in letters.chunks(2) {
        write_escaped(corner, out)?;
        out.push_str("1/4")?;
    }
    Ok(())
}

/// Whether a reading does what a hint says, up to the refused sign and there. A hint that says neither to
/// write nor to delete something is about every reading.
pub(crate) fn does_as_hinted(hint: &str, sight: &Surroundings<'_>, reading: &[u8]) -> bool {
    if let Some(written) = hint.strip_prefix(WRITE) {
        return writes(written.as_bytes(), sight.ahead, reading);
    }
    if let Some(deleted) = hint.strip_prefix(DELETE) {
        let length = deleted.len().saturating_sub(1);
        let rest = sight.text.get(sight.start.saturating_add(length)..);
        return begins_with(reading, sight.ahead, next_word(rest.unwrap_or(b"")));
    }
    true
}

/// Whether a reading begins with a text and with what is written after it, or instead of some of its end.
fn writes(written: &[u8], before: &[u8], reading: &[u8]) -> bool {
    for count in 0..written.len() {
        let end = before.len().saturating_sub(count);
        if begins_with(reading, before.get(..end).unwrap_or(b""), written) {
            return true;
        }
    }
    false
}

/// Whether a reading begins with two texts, one after the other, apart from white space and case.
fn begins_with(reading: &[u8], first: &[u8], second: &[u8]) -> bool {
    match after_text(reading, first) {
        Some(rest) => after_text(rest, second).is_some(),
        None => false,
    }
}

/// What follows a text at the beginning of another, apart from white space and case; none if the other
/// begins otherwise.
fn after_text<'a>(whole: &'a [u8], text: &[u8]) -> Option<&'a [u8]> {
    let mut rest = whole.trim_ascii_start();
    for byte in text {
        if byte.is_ascii_whitespace() {
            continue;
        }
        let (found, after) = rest.split_first()?;
        if !found.eq_ignore_ascii_case(byte) {
            return None;
        }
        rest = after.trim_ascii_start();
    }
    Some(rest)
}

/// The first bytes of a text up to white space.
fn next_word(text: &[u8]) -> &[u8] {
    let text = text.trim_ascii_start();
    for (index, byte) in text.iter().enumerate() {
        if byte.is_ascii_whitespace() {
            return text.get(..index).unwrap_or(text);
        }
    }
    text
}
