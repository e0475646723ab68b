//! What is underlined of a text: a token, an aliquot part, a heading, or a range.
ghost use Rattle.std.specs.Prelude.{◌≡◌, ◌<◌, ◌≤◌, List, [], ◌∷◌, length, IfSome};
ghost use Rattle.twp_grammar.specs.Tokens.{Token as SeenToken, is_white, seen};
ghost use Rattle.twp_diagnose.specs.Marks.{tokens_from, span_of, end_of, is_side, up_to_side, IsTokenSpan};
ghost use Rattle.twp_diagnose.specs.Marks.{IsChainSpan, IsHeadingSpan, IsRangeSpan};
ghost use Rattle.twp_diagnose.specs.steps.Marking.{AreLeft, HaveSameFrom, GivesFirstOf, TakesSecond};
ghost use Rattle.twp_diagnose.specs.steps.Marking.{TakesLink, EndsLinks, EndsPart, end_of_left, end_of_token};
ghost use Rattle.twp_diagnose.specs.steps.Marking.{after_of_word, after_the, is_of, is_the, is_step};

use twp_excerpt::Span;
use twp_grammar::{Kind, Token, Tokens};

/// The bytes of the token at a place of a text. None of them where no token stands
/// there.
pub fn token_span(text: &[u8], at: usize) -> Span
    ensures { IsTokenSpan text.now at result }
{
    let mut tokens = tokens_near(text, at);
    let Some(token) = seek(&mut tokens, at) else {
        return no_bytes(text, at);
    };
    Span {
        start: token.at,
        end: token.at + token.text.len(),
    }
}

/// The bytes of the aliquot part whose first token is at a place of a text, from its first byte
/// up to its last token's last: the longest part of the grammar that begins there. Where none does,
/// the bytes of the token.
#[tactic(auto, using(crate::proofs::MarkFacts::chain_found, crate::proofs::MarkFacts::chain_missing))]
pub fn chain_span(text: &[u8], at: usize) -> Span
    ensures { IsChainSpan text.now at result }
{
    let mut tokens = tokens_near(text, at);
    let Some(first) = seek(&mut tokens, at) else {
        return no_bytes(text, at);
    };
    Span {
        start: first.at,
        end: take_chain(&mut tokens, first),
    }
}

/// The bytes of a heading whose first token is at a place of a text, up to its range's side: the
/// first `E` or `W` after that token, or else the text's last token.
#[tactic(auto, using(crate::proofs::HeadingFacts::heading_found, crate::proofs::HeadingFacts::heading_missing))]
pub fn heading_span(text: &[u8], at: usize) -> Span
    ensures { IsHeadingSpan text.now at result }
{
    let mut tokens = tokens_near(text, at);
    let Some(first) = seek(&mut tokens, at) else {
        return no_bytes(text, at);
    };
    Span {
        start: first.at,
        end: take_to_side(&mut tokens, first.at + first.text.len()),
    }
}

/// The bytes from the token at a place of a text to the one at another.
#[tactic(auto, using(crate::proofs::HeadingFacts::range_found))]
pub fn range_span(text: &[u8], first: usize, last: usize) -> Span
    ensures { IsRangeSpan text.now first last result }
{
    Span {
        start: token_span(text, first).start,
        end: token_span(text, last).end,
    }
}

/// The tokens of a text, from one on that isn't after a place. If there is white space before the
/// place, those before it are left out: it parts them from the others.
fn tokens_near<'a>(text: &'a [u8], at: usize) -> Tokens<'a>
    ensures same { HaveSameFrom at text.now result }
    ensures end { end_of_left result ≡ length text.now }
{
    if 0 < at && at <= text.len() && is_white(text[at - 1]) {
        return Tokens::after(text, at);
    }
    Tokens::new(text)
}

/// Whether a byte is a space, a tab, a line feed, or a carriage return.
fn is_white(byte: u8) -> bool
    ensures { result ≡ is_white byte }
{
    matches!(byte, b' ' | b'\t' | b'\n' | b'\r')
}

/// No bytes, at a place of a text or at its end.
fn no_bytes(text: &[u8], at: usize) -> Span
    ensures { result ≡ span_of text.now at [] }
{
    let at = at.min(text.len());
    Span { start: at, end: at }
}

/// Takes the tokens up to the one at a place.
#[tactic(auto, using(crate::proofs::MarkFacts::passed_none, crate::proofs::MarkFacts::passed_more, crate::proofs::MarkFacts::passed_to, crate::proofs::MarkFacts::passed_all))]
fn seek<'a>(tokens: &mut Tokens<'a>, at: usize) -> Option<Token<'a>>
    ensures found { (list : List SeenToken) → AreLeft tokens.old list
        → GivesFirstOf (tokens_from at list) result tokens.new }
    ensures end { end_of_left tokens.new ≡ end_of_left tokens.old }
    ensures within { IfSome result (λ token. end_of_token token ≤ end_of_left tokens.old) }
{
    'tokens: while let Some(token) = next_token(tokens) {
        if token.at == at {
            return Some(token);
        }
    }
    None
}

/// Takes the rest of an aliquot part, after its first token, and gives where it ends. Where it is
/// none, that is the token's end.
#[tactic(auto, using(crate::proofs::ChainFacts::no_part, crate::proofs::ChainFacts::part_ends))]
fn take_chain(tokens: &mut Tokens<'_>, first: Token<'_>) -> usize
    requires first { end_of_token first ≤ usize.MAX }
    requires left { end_of_left tokens.old ≤ usize.MAX }
    ensures { (list : List SeenToken) → AreLeft tokens.old list
        → EndsPart (seen first.entry ∷ list) result }
{
    let Some(end) = take_second(tokens, first.kind) else {
        return first.at + first.text.len();
    };
    take_links(tokens, end)
}

/// Takes the further halves and quarters, after one that ends at a place, and gives where the last
/// of all ends.
#[tactic(auto, using(crate::proofs::StepFacts::links_begin, crate::proofs::StepFacts::links_go_on, crate::proofs::StepFacts::links_end))]
fn take_links(tokens: &mut Tokens<'_>, start: usize) -> usize
    requires { end_of_left tokens.old ≤ usize.MAX }
    ensures { (list : List SeenToken) → AreLeft tokens.old list → EndsLinks list start result }
{
    let mut end = start;
    'links: while let Some(further) = take_link(tokens) {
        end = further;
    }
    end
}

/// Takes the tokens up to a range's side, after one that ends at a place, and gives where the last
/// of all ends.
#[tactic(auto, using(crate::proofs::HeadingFacts::side_sought, crate::proofs::HeadingFacts::no_side_yet, crate::proofs::HeadingFacts::side_found, crate::proofs::HeadingFacts::no_side))]
fn take_to_side(tokens: &mut Tokens<'_>, start: usize) -> usize
    requires { end_of_left tokens.old ≤ usize.MAX }
    ensures { (list : List SeenToken) → AreLeft tokens.old list
        → result ≡ end_of start (up_to_side list) }
{
    let mut end = start;
    'tokens: while let Some(token) = next_token(tokens) {
        end = token.at + token.text.len();
        if is_side(token.kind) {
            return end;
        }
    }
    end
}

/// Whether a token is the side of a range.
fn is_side(kind: Kind) -> bool
    ensures { result ≡ is_side kind }
{
    matches!(kind, Kind::EastWest(_))
}

/// Takes a further half or quarter with what comes before it, and gives where it ends.
#[tactic(auto, using(crate::proofs::StepFacts::no_first, crate::proofs::StepFacts::link_taken))]
fn take_link(tokens: &mut Tokens<'_>) -> Option<usize>
    requires { end_of_left tokens.old ≤ usize.MAX }
    ensures taken { (list : List SeenToken) → AreLeft tokens.old list
        → TakesLink list result tokens.new }
    ensures end { end_of_left tokens.new ≡ end_of_left tokens.old }
    ensures less { IfSome result (λ _. length tokens.new.bytes < length tokens.old.bytes) }
{
    let first = first_of_step(tokens)?;
    take_second(tokens, first.kind)
}

/// Takes a token after `of`, `of the`, or nothing.
#[tactic(auto, using(crate::proofs::StepFacts::no_of, crate::proofs::StepFacts::after_an_of))]
fn first_of_step<'a>(tokens: &mut Tokens<'a>) -> Option<Token<'a>>
    ensures found { (list : List SeenToken) → AreLeft tokens.old list
        → GivesFirstOf (after_of_word list) result tokens.new }
    ensures end { end_of_left tokens.new ≡ end_of_left tokens.old }
    ensures less { IfSome result (λ _. length tokens.new.bytes < length tokens.old.bytes) }
{
    let first = next_token(tokens)?;
    if !is_of(first.kind) {
        return Some(first);
    }
    first_after_the(tokens)
}

/// Takes a token after `the` or nothing.
#[tactic(auto, using(crate::proofs::StepFacts::no_the, crate::proofs::StepFacts::after_a_the))]
fn first_after_the<'a>(tokens: &mut Tokens<'a>) -> Option<Token<'a>>
    ensures found { (list : List SeenToken) → AreLeft tokens.old list
        → GivesFirstOf (after_the list) result tokens.new }
    ensures end { end_of_left tokens.new ≡ end_of_left tokens.old }
    ensures less { IfSome result (λ _. length tokens.new.bytes < length tokens.old.bytes) }
{
    let first = next_token(tokens)?;
    if !is_the(first.kind) {
        return Some(first);
    }
    next_token(tokens)
}

/// Takes the token that makes a half or a quarter of the one before it, and gives where it ends.
#[tactic(auto, using(crate::proofs::StepFacts::second_taken, crate::proofs::StepFacts::no_second))]
fn take_second(tokens: &mut Tokens<'_>, first: Kind) -> Option<usize>
    requires { end_of_left tokens.old ≤ usize.MAX }
    ensures taken { (list : List SeenToken) → AreLeft tokens.old list
        → TakesSecond first list result tokens.new }
    ensures end { end_of_left tokens.new ≡ end_of_left tokens.old }
    ensures less { IfSome result (λ _. length tokens.new.bytes < length tokens.old.bytes) }
{
    let second = next_token(tokens)?;
    if !is_step(first, second.kind) {
        return None;
    }
    Some(second.at + second.text.len())
}

/// Whether a token is the word `of`.
fn is_of(kind: Kind) -> bool
    ensures { result ≡ is_of kind }
{
    matches!(kind, Kind::Of)
}

/// Whether a token is the word `the`.
fn is_the(kind: Kind) -> bool
    ensures { result ≡ is_the kind }
{
    matches!(kind, Kind::The)
}

/// Whether two tokens are a half or a quarter.
fn is_step(first: Kind, second: Kind) -> bool
    ensures { result ≡ is_step first second }
{
    match first {
        Kind::NorthSouth(_) | Kind::EastWest(_) => second == Kind::Half,
        Kind::Corner(_) => second == Kind::Quarter,
        _ => false,
    }
}

/// Takes the next token.
#[tactic(auto, using(crate::proofs::MarkFacts::next_found))]
pub(crate) fn next_token<'a>(tokens: &mut Tokens<'a>) -> Option<Token<'a>>
    ensures found { (list : List SeenToken) → AreLeft tokens.old list
        → GivesFirstOf list result tokens.new }
    ensures end { end_of_left tokens.new ≡ end_of_left tokens.old }
    ensures within { IfSome result (λ token. end_of_token token ≤ end_of_left tokens.old) }
    ensures less { IfSome result (λ _. length tokens.new.bytes < length tokens.old.bytes) }
{
    tokens.next()
}
