//! What changes keep apart: parts that have something between them.
ghost use Rattle.std.specs.Prelude.{not, ◌≡◌, ◌≤◌, ◌&&◌, [], ◌∷◌, true, length, map};
ghost use Rattle.twp_rules.specs.Changes.{AreChangesFrom, seen};
ghost use Rattle.twp_rules.specs.Edges.{is_one_of};
ghost use Rattle.twp_rules.specs.Rules.{solid_before};
ghost use Rattle.twp_rules.specs.Words.{apart_marks};
ghost use Rattle.twp_rules.specs.Apart.{first_seam, inserts_comma, keep_apart, parts_run, begins_with_step, ends_after, ends_step};
ghost use Rattle.twp_rules.specs.Apart.{is_article, is_apart_at, is_blank, is_within_part};
ghost use Rattle.twp_rules.specs.Apart.{loses, loses_by, loses_seen};
ghost use Rattle.twp_rules.specs.Apart.{seam_after, seam_with};

use crate::change::{Change, between};
use crate::context::{after, before, solid_before};
use crate::endings::beside::*;
use crate::figures::{is_white, without_white};
use crate::keeping::rest_of;
use crate::naming::{byte_at, byte_before};
use crate::rule::Rule;
use crate::same::{are_same, begins_with, is_text};
use crate::seam::Seam;
use crate::words::land::*;

/// Whether changes keep parts apart.
#[tactic(auto, using(crate::proofs::ChangeFacts::next_apart, crate::proofs::ChangeFacts::start_within, crate::proofs::ChangeFacts::end_within))]
pub(crate) fn keep_apart(text: &[u8], changes: &[Change<'_>]) -> bool
    requires { AreChangesFrom 0 text.now (map seen changes.now) }
    ensures { result ≡ true → keep_apart text.now 0 first_seam (map seen changes.now) ≡ true }
{
    let mut at = 0;
    let mut seam = Seam {
        ends_step: false,
        lost: false,
    };
    for change in changes {
        let gap = between(text, at, change.start);
        let near = seam_after(seam, gap);
        if !is_apart(text, seam, near, gap, change) {
            return false;
        }
        seam = seam_with(text, near, change);
        at = change.end;
    }
    is_apart_at(seam, after(text, at))
}

/// Whether the text before a change, and the text that the change writes, are each kept apart from
/// what was written before them, and no run of steps is split.
fn is_apart(text: &[u8], seam: Seam, near: Seam, gap: &[u8], change: &Change<'_>) -> bool
    requires { change.now.start ≤ length text.now }
    ensures { result ≡ (is_apart_at seam gap.now && is_apart_at near change.now.written.now
        && not (parts_run text.now near (seen change.now))) }
{
    is_apart_at(seam, gap) && is_apart_at(near, change.written) && !parts_run(text, near, change)
}

/// Whether a comma is written between two steps that have nothing between them in the text.
fn parts_run(text: &[u8], seam: Seam, change: &Change<'_>) -> bool
    requires { change.now.start ≤ length text.now }
    ensures { result ≡ parts_run text.now seam (seen change.now) }
{
    seam.ends_step
        && inserts_comma(change)
        && !is_white(byte_before(text, change.start))
        && begins_with_step(rest_of(text, change.start))
}

/// Whether a comma is written from nothing.
fn inserts_comma(change: &Change<'_>) -> bool
    ensures { result ≡ inserts_comma (seen change.now) change.now.rule }
{
    match change.rule {
        Rule::Comma => change.start == change.end,
        _ => false,
    }
}

/// Whether no step at a seam is joined to one that something separated from it.
fn is_apart_at(seam: Seam, bytes: &[u8]) -> bool
    ensures { result ≡ is_apart_at seam bytes.now }
{
    !(seam.ends_step && seam.lost && begins_with_step(without_white(bytes)))
}

/// The seam after more bytes.
fn seam_after(seam: Seam, bytes: &[u8]) -> Seam
    ensures { result ≡ seam_after seam bytes.now }
{
    Seam {
        ends_step: ends_after(seam.ends_step, bytes),
        lost: seam.lost && is_blank(bytes),
    }
}

/// The seam after a change.
fn seam_with(text: &[u8], seam: Seam, change: &Change<'_>) -> Seam
    requires order { change.now.start ≤ change.now.end }
    requires within { change.now.end ≤ length text.now }
    ensures { result ≡ seam_with text.now seam (seen change.now) }
{
    let after = seam_after(seam, change.written);
    Seam {
        ends_step: after.ends_step,
        lost: after.lost || loses(text, change),
    }
}

/// Whether a change leaves out what may be between two parts, and writes nothing else.
fn loses(text: &[u8], change: &Change<'_>) -> bool
    requires order { change.now.start ≤ change.now.end }
    requires within { change.now.end ≤ length text.now }
    ensures { result ≡ loses text.now (seen change.now) }
{
    is_blank(change.written) && loses_seen(text, change, &text[change.start..change.end])
}

/// Whether what a change leaves out may be between two parts.
fn loses_seen(text: &[u8], change: &Change<'_>, left_out: &[u8]) -> bool
    requires { change.now.start ≤ length text.now }
    ensures { result ≡ loses_seen text.now (seen change.now) left_out.now }
{
    loses_by(change.rule, left_out)
        && !is_within_part(change.rule, text, change.end, left_out)
        && !is_article(text, change.start, left_out)
}

/// Whether what is left out may be within a part: a period, or a hyphen at the end of a line.
fn is_within_part(rule: Rule, text: &[u8], end: usize, left_out: &[u8]) -> bool
    ensures { result ≡ is_within_part rule text.now end left_out.now }
{
    match rule {
        Rule::OnePart => {
            are_same(left_out, b".")
                || (are_same(left_out, b"-") && matches!(byte_at(text, end), b'\n' | b'\r'))
        }
        _ => false,
    }
}

/// Whether `the` is after a mark, `and`, or `of`, and so not between two steps.
fn is_article(text: &[u8], start: usize, left_out: &[u8]) -> bool
    requires { start ≤ length text.now }
    ensures { result ≡ is_article text.now start left_out.now }
{
    is_text(left_out, b"the")
        && (is_after_mark(text, start) || has_before_articles(before(text, start)))
}

/// Whether a mark that sets a number apart is before a place, or nothing is before it.
fn is_after_mark(text: &[u8], at: usize) -> bool
    requires { at ≤ length text.now }
    ensures { result ≡ is_one_of (solid_before text.now at ∷ []) ((0 ∷ []) ∷ apart_marks) }
{
    let solid = solid_before(text, at);
    solid == 0 || is_in_apart_marks(solid)
}

/// Whether a rule leaves out what may be between two parts.
fn loses_by(rule: Rule, seen: &[u8]) -> bool
    ensures { result ≡ loses_by rule seen.now }
{
    match rule {
        Rule::Zeros | Rule::FractionDigit => false,
        _ => !is_blank(seen) && !is_in_words_in_parts(seen),
    }
}

/// Whether bytes are white space alone.
pub(crate) fn is_blank(bytes: &[u8]) -> bool
    ensures { result ≡ is_blank bytes.now }
{
    for byte in bytes {
        if !is_white(*byte) {
            return false;
        }
    }
    true
}

/// Whether bytes begin with a step of a part.
pub(crate) fn begins_with_step(bytes: &[u8]) -> bool
    ensures { result ≡ begins_with_step bytes.now }
{
    (begins_with(bytes, b"n")
        || begins_with(bytes, b"s")
        || begins_with(bytes, b"e")
        || begins_with(bytes, b"w"))
        && !begins_with(bytes, b"sec")
        && !begins_with(bytes, b"ex")
}

/// Whether bytes end with a step, if what is before them did: the last one that isn't white space decides.
#[tactic(auto, using(crate::proofs::SeamFacts::white_is_passed, crate::proofs::SeamFacts::last_decides, crate::proofs::SeamFacts::none_decides))]
pub(crate) fn ends_after(ends: bool, bytes: &[u8]) -> bool
    ensures { result ≡ ends_after ends bytes.now 0 bytes.now }
{
    for count in 0..bytes.len() {
        let at = bytes.len() - 1 - count;
        if !is_white(bytes[at]) {
            return ends_step(bytes, at);
        }
    }
    ends
}

/// Whether a byte ends a step: the digit of a fraction, or the sign for one.
fn ends_step(bytes: &[u8], at: usize) -> bool
    requires { at ≤ length bytes.now }
    ensures { result ≡ ends_step bytes.now at }
{
    let byte = byte_at(bytes, at);
    let before = byte_before(bytes, at);
    (matches!(byte, b'2' | b'4') && before == b'/') || (matches!(byte, 189 | 188) && before == 194)
}
