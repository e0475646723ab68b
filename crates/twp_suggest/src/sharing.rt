//! The other ways to read two parts with `and` between them, only one of which has an `of`, and two
//! steps with white space between them.
ghost use Rattle.std.specs.Prelude.{◌≡◌, ◌+◌, ◌-◌, IfOk, IfSome, map};
ghost use Rattle.twp_grammar.specs.Tokens.{seen as token};
ghost use Rattle.twp_rules.specs.Changes.{seen};
ghost use Rattle.twp_suggest.specs.Sharing.{HasJoinedTokens, apart_after, are_as_written, as_and, is_f};
ghost use Rattle.twp_suggest.specs.Sharing.{may_be_between, may_end_step, has_place, head_after, head_of};
ghost use Rattle.twp_suggest.specs.Sharing.{is_comma_by, is_for_and, is_sought, is_within, tail_after};
ghost use Rattle.twp_suggest.specs.Sharing.{tail_of};

use crate::bytes::{byte_at, is_white};
use crate::part_tokens::{
    after_of, begins_part, first_at, is_comma, is_fraction, last_part, leads_part, of_count,
    part_after_and,
};
use crate::turned::way_if;
use crate::way::Way;
use std::alloc::{AllocError, Global};
use twp_grammar::{Kind, Token, Tokens};
use twp_read::{after_part, begins_step};
use twp_rules::{Change, Rule, is_side};

/// There is room from the start for one token for each of this many bytes: most texts have fewer.
const BYTES_TO_TOKEN: usize = 2;

/// Changes that are looked for.
#[derive(Clone, Copy, PartialEq, Eq)]
pub(crate) enum SoughtChanges {
    /// Steps that are written again.
    Copies,
    /// Phrases that are left out.
    Phrases,
}

/// The tokens of what changes make of a text, with `and` for `&`. None if they can't be told.
pub(crate) fn joined_tokens<'b>(
    alloc: Global,
    text: &[u8],
    made: &'b [u8],
    changes: &[Change<'_>],
) -> Result<Option<Vec<Token<'b>>>, AllocError>
    ensures { IfOk result (λ it. IfSome it (λ tokens.
        HasJoinedTokens text.now made.now (map seen changes.now) (map token tokens.items))) }
{
    let mut tokens = Vec::with_capacity(alloc, made.len() / BYTES_TO_TOKEN)?;
    let mut left = Tokens::new(made);
    while let Some(token) = left.next() {
        let Some(joined) = as_and(text, changes, token) else {
            return Ok(None);
        };
        tokens.push(joined)?;
    }
    Ok(Some(tokens))
}

fn as_and<'b>(text: &[u8], changes: &[Change<'_>], found: Token<'b>) -> Option<Token<'b>>
    ensures { IfSome result (λ it. token it ≡ as_and text.now (map seen changes.now) (token found.entry)) }
{
    if !is_comma(found.kind) {
        return Some(found);
    }
    let is_for = is_for_and(text, found.at, changes)?;
    if !is_for {
        return Some(found);
    }
    Some(Token {
        kind: Kind::And,
        text: found.text,
        at: found.at,
    })
}

/// Whether a comma at a place of the text that changes make is written for `&`.
fn is_for_and(text: &[u8], seat: usize, changes: &[Change<'_>]) -> Option<bool>
    ensures { IfSome result (λ it. it ≡ is_for_and text.now seat 0 0 (map seen changes.now)) }
{
    let mut at = 0;
    let mut place = 0;
    let mut left = changes;
    while let [change, more @ ..] = left {
        let here = here(place, at, change.start)?;
        if is_comma_by(change.rule, text, change.start, change.end) && here == seat {
            return Some(true);
        }
        place = here.checked_add(change.written.len())?;
        at = change.end;
        left = more;
    }
    Some(false)
}

/// Whether a comma is written for `&`.
pub(crate) fn is_comma_by(rule: Rule, text: &[u8], start: usize, end: usize) -> bool
    ensures { result ≡ is_comma_by rule text.now start end }
{
    match rule {
        Rule::Comma => start < end && end - start == 1 && byte_at(text, start) == 38,
        _ => false,
    }
}

/// The place of a change in the text that changes make, after one that ends at a place of the text
/// and at a place of that text.
pub(crate) fn here(place: usize, at: usize, start: usize) -> Option<usize>
    ensures { IfSome result (λ it. it ≡ place + (start - at)) }
{
    place.checked_add(start.saturating_sub(at))
}

/// Whether `of` may be written in a text, or white space between two steps.
pub(crate) fn has_place(made: &[u8]) -> bool
    ensures { result ≡ has_place 0 made.now }
{
    let mut before = 0;
    let mut left = made;
    while let [byte, more @ ..] = left {
        if is_f(*byte) {
            return true;
        }
        if is_white(*byte) && may_be_between(before, *byte, byte_at(more, 0)) {
            return true;
        }
        before = *byte;
        left = more;
    }
    false
}

/// Whether a byte is F, which of the words of a description only `of` has.
pub(crate) fn is_f(byte: u8) -> bool
    ensures { result ≡ is_f byte }
{
    byte == 102 || byte == 70
}

/// Whether white space may be between a step and another.
fn may_be_between(before: u8, byte: u8, after: u8) -> bool
    ensures { result ≡ may_be_between before byte after }
{
    is_white(byte) && may_end_step(before) && (is_side(after) || is_white(after))
}

/// Whether a byte may be the last one of a step.
fn may_end_step(byte: u8) -> bool
    ensures { result ≡ may_end_step byte }
{
    byte == 50 || byte == 52 || byte == 188 || byte == 189
}

/// The other way to read a step and another with white space between them: as two parts.
pub(crate) fn apart_after(
    changes: &[Change<'_>],
    first: &Token<'_>,
    more: &[Token<'_>],
) -> Option<Option<Way>>
    ensures { IfSome result (λ way. way ≡ apart_after (map seen changes.now) (token first.now)
        (map token more.now)) }
{
    let [next, ..] = more else {
        return Some(None);
    };
    if !is_fraction(first.kind) || !begins_step(next.kind) {
        return Some(None);
    }
    let end = first.at.checked_add(first.text.len())?;
    let is_copied = is_within(
        SoughtChanges::Copies,
        first.at.saturating_sub(2),
        first.at,
        changes,
    )?;
    Some(way_if(end < next.at && !is_copied, Way::Apart(end)))
}

/// The other way to read a part that may be of the land of a later one, if it follows a token.
pub(crate) fn tail_after(
    changes: &[Change<'_>],
    end: usize,
    kind: Kind,
    more: &[Token<'_>],
) -> Option<Option<Way>>
    ensures { IfSome result (λ way. way ≡ tail_after (map seen changes.now) end kind (map token more.now)) }
{
    if !(leads_part(kind) && begins_part(more)) {
        return Some(None);
    }
    tail_of(changes, end, more)
}

/// The other way to read a part that may be partly of the next one, if it follows a token.
pub(crate) fn head_after(
    changes: &[Change<'_>],
    end: usize,
    kind: Kind,
    more: &[Token<'_>],
) -> Option<Option<Way>>
    ensures { IfSome result (λ way. way ≡ head_after (map seen changes.now) end kind (map token more.now)) }
{
    if !(leads_part(kind) && begins_part(more)) {
        return Some(None);
    }
    head_of(changes, end, more)
}

/// The land after `of` is of an earlier part too.
fn tail_of(changes: &[Change<'_>], end: usize, part: &[Token<'_>]) -> Option<Option<Way>>
    ensures { IfSome result (λ way. way ≡ tail_of (map seen changes.now) end (map token part.now)) }
{
    let count = of_count(part);
    let others = after_part(part);
    let last = last_part(count, others);
    let [token, ..] = last else {
        return Some(None);
    };
    let first = first_at(end, part);
    let next = first_at(end, others);
    let is_way = are_as_written(changes, first, token.at, first, next)?;
    let way = Way::Again(
        next,
        first_at(end, after_of(count, last)),
        first_at(end, after_part(last)),
    );
    Some(way_if(is_way, way))
}

/// What is before `of` is part of the next part too.
fn head_of(changes: &[Change<'_>], end: usize, part: &[Token<'_>]) -> Option<Option<Way>>
    ensures { IfSome result (λ way. way ≡ head_of (map seen changes.now) end (map token part.now)) }
{
    let other = part_after_and(after_part(part));
    let [token, ..] = other else {
        return Some(None);
    };
    let count = of_count(part);
    let fewer = of_count(other);
    if fewer >= count {
        return Some(None);
    }
    let first = first_at(end, part);
    let next = first_at(end, after_part(other));
    let is_way = are_as_written(changes, first, token.at, token.at, next)?;
    let head = after_of(count - fewer - 1, part);
    let way = Way::Again(token.at, first, first_at(end, head));
    Some(way_if(is_way, way))
}

/// Whether no phrase is left out between two places of the text that changes make, and no steps are
/// written again between two others.
fn are_as_written(
    changes: &[Change<'_>],
    from: usize,
    to: usize,
    first: usize,
    end: usize,
) -> Option<bool>
    ensures { IfSome result (λ it. it ≡ are_as_written (map seen changes.now) from to first end) }
{
    let has_phrase = is_within(SoughtChanges::Phrases, from, to, changes)?;
    let has_copy = is_within(SoughtChanges::Copies, first, end, changes)?;
    Some(!has_phrase && !has_copy)
}

/// Whether such a change is between two places of the text that changes make.
fn is_within(sought: SoughtChanges, from: usize, to: usize, changes: &[Change<'_>]) -> Option<bool>
    ensures { IfSome result (λ it. it ≡ is_within sought from to 0 0 (map seen changes.now)) }
{
    let mut at = 0;
    let mut place = 0;
    let mut left = changes;
    while let [change, more @ ..] = left {
        let here = here(place, at, change.start)?;
        if is_sought(sought, change.rule) && from <= here && here < to {
            return Some(true);
        }
        place = here.checked_add(change.written.len())?;
        at = change.end;
        left = more;
    }
    Some(false)
}

/// Whether a rule writes steps again, or leaves out a phrase.
fn is_sought(sought: SoughtChanges, rule: Rule) -> bool
    ensures { result ≡ is_sought sought rule }
{
    match (sought, rule) {
        (SoughtChanges::Copies, Rule::CopiedStep(_, _)) => true,
        (SoughtChanges::Phrases, Rule::Repeated)
        | (SoughtChanges::Phrases, Rule::MovedSection)
        | (SoughtChanges::Phrases, Rule::MovedHeading)
        | (SoughtChanges::Phrases, Rule::Meridian)
        | (SoughtChanges::Phrases, Rule::Acreage)
        | (SoughtChanges::Phrases, Rule::Label) => true,
        _ => false,
    }
}
