//! What a change of a reading assumes that its text doesn't say.
ghost use Rattle.std.specs.Prelude.{◌≡◌, [], ◌∷◌};
ghost use Rattle.twp_rules.specs.Changes.{seen};
ghost use Rattle.twp_rules.specs.Edges.{is_one_of};
ghost use Rattle.twp_suggest.specs.Assumptions.{are_sides, assumed};
ghost use Rattle.twp_suggest.specs.Assumptions.{assumed_by, begins_step, half_corner_ends};
ghost use Rattle.twp_suggest.specs.Assumptions.{if_joined, is_between_steps};
ghost use Rattle.twp_suggest.specs.Assumptions.{last_before, read_by, side_words};
ghost use Rattle.twp_suggest.specs.Assumptions.{words_of};

use crate::bytes::{after, between, byte_at, is_white, without_white};
use twp_rules::{Change, Rule, is_side, is_text, is_worn, word_of};

/// What a change of a reading assumes that the text doesn't say.
#[derive(Clone, Copy, PartialEq, Eq)]
pub enum Assumption {
    /// The meridian, the state, or the county that is left out is that of the plat.
    SameMeridian,
    /// The acreage that is left out is that of the land: it isn't compared.
    SameAcreage,
    /// What is left out isn't land.
    NotLand,
    /// What is left out is said before.
    SaidBefore,
    /// A letter or a digit is wrong: scanning, or a slip of the pen, made it of another one, or lost it.
    WrongLetter,
    /// No comma is missing: steps of a part that have no mark between them are one part.
    NoMissingComma,
}

impl Assumption {
    /// Whether it is about something that is left out of the text.
    pub fn is_of_left_out(self) -> bool {
        !matches!(self, Assumption::WrongLetter | Assumption::NoMissingComma)
    }

    /// What is assumed, in words.
    pub fn words(self) -> &'static str
        ensures { result.now ≡ words_of self }
    {
        match self {
            Assumption::SameMeridian => "the meridian, state, or county is that of the plat",
            Assumption::SameAcreage => "the acreage is not compared",
            Assumption::NotLand => "this is not land",
            Assumption::SaidBefore => "this repeats what is before it",
            Assumption::WrongLetter => "a letter or digit is wrong",
            Assumption::NoMissingComma => "no comma is missing",
        }
    }
}

/// What a change of a text assumes that the text doesn't say, if it assumes anything.
pub fn assumption_of(text: &[u8], change: &Change<'_>) -> Option<Assumption>
    ensures { result ≡ assumed text.now (seen change.now) }
{
    let read = read_by(change.rule, text, change.start, change.end);
    if is_worn(change.rule, read, change.written) {
        return Some(Assumption::WrongLetter);
    }
    assumed_by(change.rule, text, change.start, change.end)
}

/// What a rule reads of a text: what it copies, or what it looks at.
fn read_by(rule: Rule, text: &[u8], start: usize, end: usize) -> &[u8]
    ensures { result.now ≡ read_by rule text.now start end }
{
    match rule {
        Rule::Copied(first, last) => between(text, first, last),
        _ => between(text, start, end),
    }
}

/// What a rule assumes where it changes a text from one place up to another, and where nothing is worn.
fn assumed_by(rule: Rule, text: &[u8], start: usize, end: usize) -> Option<Assumption>
    ensures { result ≡ assumed_by rule text.now start end }
{
    match rule {
        Rule::Meridian => Some(Assumption::SameMeridian),
        Rule::Acreage => Some(Assumption::SameAcreage),
        Rule::Label => Some(Assumption::NotLand),
        Rule::Repeated => Some(Assumption::SaidBefore),
        Rule::Half => if_joined(begins_step(after(text, end))),
        Rule::Quarter => if_joined(begins_step(after(text, end))),
        Rule::OnePart => if_joined(is_between_steps(text, start, end)),
        _ => None,
    }
}

/// That no comma is missing, if a step follows another without a mark.
fn if_joined(joined: bool) -> Option<Assumption>
    ensures { result ≡ if_joined joined }
{
    if joined {
        Some(Assumption::NoMissingComma)
    } else {
        None
    }
}

/// Whether a step ends before a place, and another one begins after it.
fn is_between_steps(text: &[u8], start: usize, end: usize) -> bool
    ensures { result ≡ is_between_steps text.now start end }
{
    !is_half_corner_end(last_before(text, start)) && begins_step(without_white(after(text, end)))
}

/// Whether a text begins with a step of a part.
fn begins_step(rest: &[u8]) -> bool
    ensures { result ≡ begins_step rest.now }
{
    let word = word_of(rest);
    is_side_word(word) || (is_side(byte_at(rest, 0)) && are_sides(word))
}

/// Whether letters are all N, S, E, or W.
fn are_sides(word: &[u8]) -> bool
    ensures { result ≡ are_sides word.now }
{
    for byte in word {
        if !is_side(*byte) {
            return false;
        }
    }
    true
}

/// The last byte before a place that is neither white space nor a period, or 0.
#[tactic(auto, using(crate::proofs::PlaceFacts::passed_before, crate::proofs::PlaceFacts::last_is))]
fn last_before(text: &[u8], at: usize) -> u8
    ensures { result ≡ last_before text.now at }
{
    for count in 0..at {
        let byte = byte_at(text, at - 1 - count);
        if !is_white(byte) && byte != b'.' {
            return byte;
        }
    }
    0
}

/// Whether a byte is one of `half_corner_ends` of the specification.
fn is_half_corner_end(byte: u8) -> bool
    ensures { result ≡ is_one_of (byte ∷ []) half_corner_ends }
{
    let letter: &[u8] = &[byte];
    is_text(letter, b"n") || is_text(letter, b"s") || is_text(letter, b"h")
}

/// The table `side_words` of the specification.
fn is_side_word(word: &[u8]) -> bool
    ensures { result ≡ is_one_of word.now side_words }
{
    is_text(word, b"north")
        || is_text(word, b"south")
        || is_text(word, b"east")
        || is_text(word, b"west")
        || is_text(word, b"northeast")
        || is_text(word, b"northwest")
        || is_text(word, b"southeast")
        || is_text(word, b"southwest")
}
