//! Two parts with `and` between them, of which one has an `of`: it may be for both.
ghost use Rattle.std.specs.Prelude.{◌≡◌, map};
ghost use Rattle.twp_grammar.specs.Tokens.{seen};
ghost use Rattle.twp_read.specs.Doubts.{part_at, shared_at, joins_part, begin_with_part_of, begin_with_of};
ghost use Rattle.twp_read.specs.Doubts.{spread_at, adds_part, begin_with_lone_part, after_steps, after_part};
ghost use Rattle.twp_read.specs.Doubts.{is_of_step, is_of_part};

use crate::doubt::{Doubt, DoubtfulPlace, begins_step};
use twp_grammar::{Kind, Token};

/// A part that may be of the land of the next one, or part of it.
pub(crate) fn part_at(more: &[Token<'_>]) -> Option<DoubtfulPlace>
    ensures { result ≡ part_at (map seen more.now) }
{
    match shared_at(more) {
        Some(place) => Some(place),
        None => spread_at(more),
    }
}

/// A part without `of`, `and`, and a part with `of`.
fn shared_at(more: &[Token<'_>]) -> Option<DoubtfulPlace>
    ensures { result ≡ shared_at (map seen more.now) }
{
    let [first, rest @ ..] = more else {
        return None;
    };
    if begins_step(first.kind) && joins_part(after_steps(rest)) {
        return Some(DoubtfulPlace {
            doubt: Doubt::Shared,
            at: first.at,
        });
    }
    None
}

/// Whether tokens begin with `and`, and a part that has an `of` follows.
fn joins_part(tokens: &[Token<'_>]) -> bool
    ensures { result ≡ joins_part (map seen tokens.now) }
{
    let [first, rest @ ..] = tokens else {
        return false;
    };
    first.kind == Kind::And && begin_with_part_of(rest)
}

/// Whether tokens begin with steps, and `of` follows.
fn begin_with_part_of(tokens: &[Token<'_>]) -> bool
    ensures { result ≡ begin_with_part_of (map seen tokens.now) }
{
    let [first, rest @ ..] = tokens else {
        return false;
    };
    begins_step(first.kind) && begin_with_of(after_steps(rest))
}

/// A part with `of`, `and`, and a part without `of`.
fn spread_at(more: &[Token<'_>]) -> Option<DoubtfulPlace>
    ensures { result ≡ spread_at (map seen more.now) }
{
    let [first, rest @ ..] = more else {
        return None;
    };
    if begin_with_part_of(more) && adds_part(after_part(rest)) {
        return Some(DoubtfulPlace {
            doubt: Doubt::Spread,
            at: first.at,
        });
    }
    None
}

/// Whether tokens begin with `and`, and a part that has no `of` follows.
fn adds_part(tokens: &[Token<'_>]) -> bool
    ensures { result ≡ adds_part (map seen tokens.now) }
{
    let [first, rest @ ..] = tokens else {
        return false;
    };
    first.kind == Kind::And && begin_with_lone_part(rest)
}

/// Whether tokens begin with steps, and no `of` follows.
fn begin_with_lone_part(tokens: &[Token<'_>]) -> bool
    ensures { result ≡ begin_with_lone_part (map seen tokens.now) }
{
    let [first, rest @ ..] = tokens else {
        return false;
    };
    begins_step(first.kind) && !begin_with_of(after_steps(rest))
}

/// Whether tokens begin with `of`.
fn begin_with_of(tokens: &[Token<'_>]) -> bool
    ensures { result ≡ begin_with_of (map seen tokens.now) }
{
    let [first, ..] = tokens else {
        return false;
    };
    first.kind == Kind::Of
}

/// The tokens after the letters and fractions that they begin with.
fn after_steps<'a, 'b>(tokens: &'b [Token<'a>]) -> &'b [Token<'a>]
    ensures { map seen result.now ≡ after_steps (map seen tokens.now) }
{
    let mut left = tokens;
    while let [first, rest @ ..] = left {
        if !is_of_step(first.kind) {
            break;
        }
        left = rest;
    }
    left
}

/// The tokens after the aliquot part that they begin with.
pub fn after_part<'a, 'b>(tokens: &'b [Token<'a>]) -> &'b [Token<'a>]
    ensures { map seen result.now ≡ after_part (map seen tokens.now) }
{
    let mut left = tokens;
    while let [first, rest @ ..] = left {
        if !is_of_part(first.kind) {
            break;
        }
        left = rest;
    }
    left
}

/// Whether a token is letters or a fraction of a step, `of`, or `the`.
pub fn is_of_part(kind: Kind) -> bool
    ensures { result ≡ is_of_part kind }
{
    is_of_step(kind) || matches!(kind, Kind::Of | Kind::The)
}

/// Whether a token is letters or a fraction of a step.
pub fn is_of_step(kind: Kind) -> bool
    ensures { result ≡ is_of_step kind }
{
    begins_step(kind) || matches!(kind, Kind::Half | Kind::Quarter)
}
