//! Texts whose tokens have no place that can be read in two ways, which is seen without a list of the tokens.
ghost use Rattle.std.specs.Prelude.{◌≡◌, IfSome, false, true, map};
ghost use Rattle.twp_grammar.specs.Tokens.{seen as token};
ghost use Rattle.twp_rules.specs.Changes.{seen};
ghost use Rattle.twp_suggest.specs.steps.Plain.{IsPlain, has_no_ampersand};
ghost use Rattle.twp_suggest.specs.steps.Plain.{are_plain_bytes, is_d, nothing_passed, parts_steps};
ghost use Rattle.twp_suggest.specs.steps.Plain.{is_gap, passed_with};

use crate::bytes::{byte_at, is_white};
use crate::part_tokens::{is_and, is_fraction, is_of};
use crate::sharing::{is_comma_by, is_f};
use crate::turned::ends_fraction;
use twp_grammar::{Token, Tokens};
use twp_read::begins_step;
use twp_rules::{Change, is_side};

/// What is known of the tokens so far.
#[derive(Clone, Copy)]
pub(crate) struct Passed {
    /// Whether one of them is `and`.
    has_and: bool,
    /// Whether one of them is `of`.
    has_of: bool,
    /// Whether the last one is the fraction of a step.
    is_fraction: bool,
    /// Where that one ends.
    end: usize,
}

/// Whether no token of what changes make of a text is at a place that can be read in two ways. Not inlined,
/// since few texts are asked for it.
#[tactic(auto, using(crate::proofs::PlainBytes::is_plain))]
#[inline(never)]
pub(crate) fn is_plain(text: &[u8], made: &[u8], changes: &[Change<'_>]) -> bool
    ensures ampersand { result ≡ true → has_no_ampersand text.now (map seen changes.now) ≡ true }
    ensures plain { result ≡ true → IsPlain nothing_passed 0 made.now }
{
    !has_ampersand(text, changes) && (are_plain_bytes(made) || has_plain_tokens(made))
}

/// Whether a comma is written for `&`.
fn has_ampersand(text: &[u8], changes: &[Change<'_>]) -> bool
    ensures { result ≡ false → has_no_ampersand text.now (map seen changes.now) ≡ true }
{
    let mut left = changes;
    while let [change, more @ ..] = left {
        if is_comma_by(change.rule, text, change.start, change.end) {
            return true;
        }
        left = more;
    }
    false
}

/// Whether the bytes of a text show that no token is at such a place, if all commas are commas: a text
/// without `of` or `and` has no F or no D, and few texts have white space after a step. This takes much less
/// time than to look at the tokens.
fn are_plain_bytes(made: &[u8]) -> bool
    ensures { result ≡ are_plain_bytes false false 0 0 made.now }
{
    let mut has_and = false;
    let mut has_of = false;
    let mut before = 0;
    let mut last = 0;
    let mut left = made;
    while let [byte, more @ ..] = left {
        if is_white(*byte) && parts_steps(before, last, more) {
            return false;
        }
        has_and = has_and || is_d(*byte);
        has_of = has_of || is_f(*byte);
        before = last;
        last = *byte;
        left = more;
    }
    !(has_and && has_of)
}

/// Whether white space between two bytes and others is after the fraction of a step, and another step, or
/// more white space, follows.
fn parts_steps(before: u8, last: u8, bytes: &[u8]) -> bool
    ensures { result ≡ parts_steps before last bytes.now }
{
    if !ends_fraction(before, last) {
        return false;
    }
    let next = byte_at(bytes, 0);
    is_side(next) || is_white(next)
}

/// Whether a byte is D, which of the words of a description only `and` has.
fn is_d(byte: u8) -> bool
    ensures { result ≡ is_d byte }
{
    byte == 100 || byte == 68
}

/// Whether no token is at such a place, if all commas are commas.
#[tactic(auto, using(crate::proofs::PlainFacts::none_left))]
fn has_plain_tokens(made: &[u8]) -> bool
    ensures { result ≡ true → IsPlain nothing_passed 0 made.now }
{
    let mut passed = Passed {
        has_and: false,
        has_of: false,
        is_fraction: false,
        end: 0,
    };
    let mut left = Tokens::new(made);
    while let Some(token) = left.next() {
        if is_gap(passed, &token) {
            return false;
        }
        let Some(next) = passed_with(passed, &token) else {
            return false;
        };
        passed = next;
    }
    !(passed.has_and && passed.has_of)
}

/// Whether white space is between the fraction of a step and the letters of another.
fn is_gap(it: Passed, next: &Token<'_>) -> bool
    ensures { result ≡ is_gap it (token next.now) }
{
    it.is_fraction && begins_step(next.kind) && it.end < next.at
}

/// What is known after one more token. None if the place of its end is too large for a number.
fn passed_with(it: Passed, next: &Token<'_>) -> Option<Passed>
    ensures { IfSome result (λ after. after ≡ passed_with it (token next.now)) }
{
    let end = next.at.checked_add(next.text.len())?;
    Some(Passed {
        has_and: it.has_and || is_and(next.kind),
        has_of: it.has_of || is_of(next.kind),
        is_fraction: is_fraction(next.kind),
        end,
    })
}
