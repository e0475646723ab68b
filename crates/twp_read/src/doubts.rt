//! The doubtful places of a text, from left to right.
ghost use Rattle.std.specs.Prelude.{◌≡◌, ◌<◌, ◌+◌, nat_lt, [], map, IfOk, IfSome, MatchOption};
ghost use Rattle.twp_grammar.specs.Tokens.{HasTokens, seen};
ghost use Rattle.twp_read.specs.Doubts.{AreDoubts, IsFound, HasNoDoubtfulPlace, doubts, doubt_at};
ghost use Rattle.twp_read.specs.Doubts.{joined_at, several_at, padded_at, padded_number};
ghost use Rattle.twp_read.specs.Doubts.{are_several, begin_several, joins_number, begin_with_number};
ghost use Rattle.twp_read.specs.Doubts.{begin_with_and_number, is_number};

mod parts;

use crate::doubt::{Doubt, DoubtfulPlace, Doubts, begins_step, is_padded, is_singular};
use crate::doubts::parts::part_at;
pub use parts::{after_part, is_of_part, is_of_step};
use std::alloc::{AllocError, Global};
use twp_grammar::{Kind, Token, Tokens};

/// There is room from the start for one token for each of this many bytes: most texts have fewer.
const BYTES_TO_TOKEN: usize = 2;

/// The first doubtful place of a text, and how many more there are. None if there is no such place.
pub fn doubts_in(alloc: Global, text: &[u8]) -> Result<Option<Doubts>, AllocError>
    ensures { IfOk result (λ found.
        MatchOption found (HasNoDoubtfulPlace text.now) (AreDoubts text.now)) }
{
    let tokens = tokens_of(alloc, text)?;
    Ok(doubts_of(&tokens))
}

/// The tokens of a text.
fn tokens_of<'a>(alloc: Global, text: &'a [u8]) -> Result<Vec<Token<'a>>, AllocError>
    ensures { IfOk result (λ tokens. HasTokens 0 text.now (map seen tokens.items)) }
{
    let mut tokens = Vec::with_capacity(alloc, text.len() / BYTES_TO_TOKEN)?;
    let mut left = Tokens::new(text);
    while let Some(token) = left.next() {
        tokens.push(token)?;
    }
    Ok(tokens)
}

/// The doubtful places of tokens, found from the last one back to the first.
fn doubts_of(tokens: &[Token<'_>]) -> Option<Doubts>
    ensures { MatchOption result (doubts (map seen tokens.now) ≡ [])
        (IsFound (doubts (map seen tokens.now))) }
{
    let mut found = None;
    let mut index = tokens.len();
    while index > 0 {
        index -= 1;
        if let Some(first) = doubt_at(&tokens[index..]) {
            found = Some(Doubts {
                first,
                others: count_of(found),
            });
        }
    }
    found
}

/// How many doubtful places these are.
fn count_of(found: Option<Doubts>) -> usize
    requires { IfSome found (λ found. found.others < 0xFFFF_FFFF_FFFF_FFFF) }
    ensures { MatchOption found (result ≡ 0) (λ found. result ≡ found.others + 1) }
{
    match found {
        Some(found) => found.others + 1,
        None => 0,
    }
}

/// The doubtful place that tokens begin with, if they do.
fn doubt_at(tokens: &[Token<'_>]) -> Option<DoubtfulPlace>
    ensures { result ≡ doubt_at (map seen tokens.now) }
{
    let [first, more @ ..] = tokens else {
        return None;
    };
    match first.kind {
        Kind::Half | Kind::Quarter => joined_at(first, more),
        Kind::Sec | Kind::Lot => several_at(first, more),
        Kind::T | Kind::R => padded_at(more),
        Kind::Number(_) | Kind::Comma | Kind::Colon | Kind::And => part_at(more),
        _ => None,
    }
}

/// A step after the end of another, with white space between them.
fn joined_at(last: &Token<'_>, more: &[Token<'_>]) -> Option<DoubtfulPlace>
    ensures { result ≡ joined_at (seen last.now) (map seen more.now) }
{
    let [next, ..] = more else {
        return None;
    };
    if begins_step(next.kind) && is_before(last.at, last.text.len(), next.at) {
        return Some(DoubtfulPlace {
            doubt: Doubt::Joined,
            at: next.at,
        });
    }
    None
}

/// Whether a token of so many bytes at a place ends before another place.
#[tactic(auto, using(crate::proofs::DoubtFacts::is_after, crate::proofs::DoubtFacts::is_at_or_after, crate::proofs::DoubtFacts::is_too_long))]
fn is_before(at: usize, size: usize, next: usize) -> bool
    ensures { result ≡ nat_lt (at + size) next }
{
    at < next && size < next - at
}

/// A word in the singular, before several numbers.
fn several_at(word: &Token<'_>, more: &[Token<'_>]) -> Option<DoubtfulPlace>
    ensures { result ≡ several_at (seen word.now) (map seen more.now) }
{
    if is_singular(word.text) && are_several(more) {
        return Some(DoubtfulPlace {
            doubt: Doubt::Several,
            at: word.at,
        });
    }
    None
}

/// Whether several numbers follow a word, after a period if there is one.
fn are_several(more: &[Token<'_>]) -> bool
    ensures { result ≡ are_several (map seen more.now) }
{
    let [first, rest @ ..] = more else {
        return false;
    };
    match first.kind {
        Kind::Stop => begin_several(rest),
        _ => begin_several(more),
    }
}

/// Whether tokens begin with a number that is joined to another.
fn begin_several(tokens: &[Token<'_>]) -> bool
    ensures { result ≡ begin_several (map seen tokens.now) }
{
    let [first, join, rest @ ..] = tokens else {
        return false;
    };
    is_number(first.kind) && joins_number(join.kind, rest)
}

/// Whether a token of this kind joins a number to the one before it.
fn joins_number(join: Kind, rest: &[Token<'_>]) -> bool
    ensures { result ≡ joins_number join (map seen rest.now) }
{
    match join {
        Kind::To | Kind::And => begin_with_number(rest),
        Kind::Comma => begin_with_number(rest) || begin_with_and_number(rest),
        _ => false,
    }
}

/// Whether tokens begin with `and` and a number.
fn begin_with_and_number(tokens: &[Token<'_>]) -> bool
    ensures { result ≡ begin_with_and_number (map seen tokens.now) }
{
    let [first, rest @ ..] = tokens else {
        return false;
    };
    first.kind == Kind::And && begin_with_number(rest)
}

/// Whether tokens begin with a number.
fn begin_with_number(tokens: &[Token<'_>]) -> bool
    ensures { result ≡ begin_with_number (map seen tokens.now) }
{
    let [first, ..] = tokens else {
        return false;
    };
    is_number(first.kind)
}

/// A number that begins with a zero, after the letter of a heading and a period, if there is one.
fn padded_at(more: &[Token<'_>]) -> Option<DoubtfulPlace>
    ensures { result ≡ padded_at (map seen more.now) }
{
    let [first, rest @ ..] = more else {
        return None;
    };
    match first.kind {
        Kind::Stop => padded_number(rest),
        _ => padded_number(more),
    }
}

/// A number that begins with a zero, and has more digits.
fn padded_number(tokens: &[Token<'_>]) -> Option<DoubtfulPlace>
    ensures { result ≡ padded_number (map seen tokens.now) }
{
    let [number, ..] = tokens else {
        return None;
    };
    if is_number(number.kind) && is_padded(number.text) {
        return Some(DoubtfulPlace {
            doubt: Doubt::Padded,
            at: number.at,
        });
    }
    None
}

/// Whether a token is a number.
fn is_number(kind: Kind) -> bool
    ensures { result ≡ is_number kind }
{
    matches!(kind, Kind::Number(_))
}
