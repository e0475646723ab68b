//! The tokens of a part of a section: how many `of` it has, where it ends, and the parts listed after it.
ghost use Rattle.std.specs.Prelude.{◌≡◌, map};
ghost use Rattle.twp_grammar.specs.Tokens.{seen as token};
ghost use Rattle.twp_read.specs.Doubts.{is_and, is_of};
ghost use Rattle.twp_suggest.specs.Sharing.{after_of, begins_part, is_fraction, first_at, is_comma};
ghost use Rattle.twp_suggest.specs.Sharing.{is_listed, is_nothing, is_part_of, is_the, last_part, leads_part};
ghost use Rattle.twp_suggest.specs.Sharing.{of_count, part_after_and, without_the};

use twp_grammar::{Kind, Token};
use twp_read::{begins_step, is_of_part, is_of_step};

/// Whether a token is a fraction.
pub(crate) fn is_fraction(kind: Kind) -> bool
    ensures { result ≡ is_fraction kind }
{
    matches!(kind, Kind::Half | Kind::Quarter)
}

/// How many `of` a part has, at most three.
pub(crate) fn of_count(part: &[Token<'_>]) -> usize
    ensures { result ≡ of_count (map token part.now) }
{
    if is_nothing(after_of(0, part)) {
        return 0;
    }
    if is_nothing(after_of(1, part)) {
        return 1;
    }
    if is_nothing(after_of(2, part)) { 2 } else { 3 }
}

/// The tokens after the `of` of a part that so many others are before, or nothing.
pub(crate) fn after_of<'a, 'b>(count: usize, part: &'b [Token<'a>]) -> &'b [Token<'a>]
    ensures { map token result.now ≡ after_of count (map token part.now) }
{
    let mut left = part;
    let mut others = count;
    while let [first, more @ ..] = left {
        if is_of(first.kind) {
            if others == 0 {
                return without_the(more);
            }
            others -= 1;
        } else if !is_of_part(first.kind) {
            return &[];
        }
        left = more;
    }
    left
}

/// Whether a token is `of`.
pub(crate) fn is_of(kind: Kind) -> bool
    ensures { result ≡ is_of kind }
{
    matches!(kind, Kind::Of)
}

/// Whether a token is `and`.
pub(crate) fn is_and(kind: Kind) -> bool
    ensures { result ≡ is_and kind }
{
    matches!(kind, Kind::And)
}

/// Whether a token is `the`.
fn is_the(kind: Kind) -> bool
    ensures { result ≡ is_the kind }
{
    matches!(kind, Kind::The)
}

/// Tokens without `the` before them.
fn without_the<'a, 'b>(tokens: &'b [Token<'a>]) -> &'b [Token<'a>]
    ensures { map token result.now ≡ without_the (map token tokens.now) }
{
    let [first, more @ ..] = tokens else {
        return tokens;
    };
    if is_the(first.kind) { more } else { tokens }
}

/// The part with more than so many `of` that is after `and` at the end of a list of parts.
pub(crate) fn last_part<'a, 'b>(count: usize, tokens: &'b [Token<'a>]) -> &'b [Token<'a>]
    ensures { map token result.now ≡ last_part count (map token tokens.now) }
{
    let mut left = tokens;
    while let [first, more @ ..] = left {
        if is_and(first.kind) && is_part_of(count, more) {
            return more;
        }
        if !is_listed(first.kind) {
            return &[];
        }
        left = more;
    }
    left
}

/// Whether a part with more than so many `of` is first.
fn is_part_of(count: usize, part: &[Token<'_>]) -> bool
    ensures { result ≡ is_part_of count (map token part.now) }
{
    begins_part(part) && !is_nothing(after_of(count, part))
}

/// The part after `and`, or nothing.
pub(crate) fn part_after_and<'a, 'b>(tokens: &'b [Token<'a>]) -> &'b [Token<'a>]
    ensures { map token result.now ≡ part_after_and (map token tokens.now) }
{
    let [first, more @ ..] = tokens else {
        return tokens;
    };
    if is_and(first.kind) && begins_part(more) {
        return more;
    }
    &[]
}

/// Whether there are no tokens.
fn is_nothing(tokens: &[Token<'_>]) -> bool
    ensures { result ≡ is_nothing (map token tokens.now) }
{
    matches!(tokens, [])
}

/// Whether tokens begin with a part.
pub(crate) fn begins_part(tokens: &[Token<'_>]) -> bool
    ensures { result ≡ begins_part (map token tokens.now) }
{
    let [first, ..] = tokens else {
        return false;
    };
    begins_step(first.kind)
}

/// The place of the first token, or of the end.
pub(crate) fn first_at(end: usize, tokens: &[Token<'_>]) -> usize
    ensures { result ≡ first_at end (map token tokens.now) }
{
    let [first, ..] = tokens else {
        return end;
    };
    first.at
}

/// Whether a token is a comma.
pub(crate) fn is_comma(kind: Kind) -> bool
    ensures { result ≡ is_comma kind }
{
    matches!(kind, Kind::Comma)
}

/// Whether a token may be before a part.
pub(crate) fn leads_part(kind: Kind) -> bool
    ensures { result ≡ leads_part kind }
{
    matches!(
        kind,
        Kind::Comma | Kind::Colon | Kind::And | Kind::Number(_)
    )
}

/// Whether a token is of a list of parts without `of`.
fn is_listed(kind: Kind) -> bool
    ensures { result ≡ is_listed kind }
{
    is_of_step(kind) || is_and(kind) || is_comma(kind)
}
