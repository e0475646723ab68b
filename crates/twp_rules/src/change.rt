//! Changes of a text, and the text that they make.
ghost use Rattle.std.specs.Prelude.{◌≡◌, ◌≤◌, ◌++◌, true, IfOk, OnOk, length, drop, map, slice_range};
ghost use Rattle.twp_rules.specs.Changes.{AreChangesFrom, changed_from, seen};
ghost use Rattle.twp_rules.specs.Moves.{MayBeMade};

use crate::allowed::is_allowed;
use crate::apart::keep_apart;
use crate::keeping::keep_numbers;
use crate::moves::is_moved_text_written;
use crate::rule::Rule;
use std::alloc::{AllocError, Global};

/// A change of a text: bytes are left out, and others are written instead.
#[derive(Clone, Copy, PartialEq, Eq)]
pub struct Change<'a> {
    /// Where the bytes that are left out begin.
    pub start: usize,
    /// Where they end.
    pub end: usize,
    /// What is written instead.
    pub written: &'a [u8],
    /// The rule by which this is done.
    pub rule: Rule,
}

/// The text with changes, which are from left to right.
pub fn changed(alloc: Global, text: &[u8], changes: &[Change<'_>]) -> Result<Vec<u8>, AllocError>
    requires { AreChangesFrom 0 text.now (map seen changes.now) }
    ensures { IfOk result (λ made. made.items ≡ changed_from 0 text.now (map seen changes.now)) }
{
    let mut made = Vec::with_capacity(alloc, text.len().saturating_mul(2))?;
    let mut at = 0;
    for change in changes {
        append(&mut made, between(text, at, change.start))?;
        append(&mut made, change.written)?;
        at = change.end;
    }
    append(&mut made, after(text, at))?;
    Ok(made)
}

/// Appends bytes to a text. Usually there are none, since changes touch each other, or only leave
/// something out.
fn append(made: &mut Vec<u8>, bytes: &[u8]) -> Result<(), AllocError>
    ensures { OnOk result (made.new.items ≡ made.old.items ++ bytes.now) }
{
    if bytes.is_empty() {
        return Ok(());
    }
    made.extend_from_slice(bytes)
}

/// The bytes of a text from one place up to another.
pub(crate) fn between(text: &[u8], from: usize, to: usize) -> &[u8]
    requires order { from ≤ to }
    requires within { to ≤ length text.now }
    ensures { result.now ≡ slice_range text.now from to }
{
    &text[from..to]
}

/// The bytes of a text from a place on.
fn after(text: &[u8], from: usize) -> &[u8]
    requires { from ≤ length text.now }
    ensures { result.now ≡ drop from text.now }
{
    let (_, rest) = text.split_at(from);
    rest
}

/// Whether changes are from left to right, don't overlap, are allowed by their rules, keep numbers,
/// keep parts apart, and write what they move. Each is looked for by itself, in a loop of its own.
pub fn are_changes(text: &[u8], changes: &[Change<'_>]) -> bool
    ensures { result ≡ true → MayBeMade text.now (map seen changes.now) }
{
    are_allowed(text, changes)
        && keep_numbers(text, changes)
        && keep_apart(text, changes)
        && is_moved_text_written(text, changes)
}

/// Whether changes are from left to right, don't overlap, and are allowed by their rules.
fn are_allowed(text: &[u8], changes: &[Change<'_>]) -> bool
    ensures { result ≡ true → AreChangesFrom 0 text.now (map seen changes.now) }
{
    let mut at = 0;
    for change in changes {
        if change.start < at || change.end < change.start || text.len() < change.end {
            return false;
        }
        if !is_allowed(text, change) {
            return false;
        }
        at = change.end;
    }
    true
}
