//! Which item of a description is at a place, and which section it is about.
ghost use Rattle.std.specs.Prelude.{◌≡◌, ◌↔◌, ℕ, length, IsTrue, MatchOption, SomeIff};
ghost use Rattle.twp_grid.specs.Winding.{IsSection};
ghost use Rattle.twp_resolve.specs.PlaceFaults.{start_of};
ghost use Rattle.twp_sentences.specs.Underlined.{IsItemSpan};
ghost use Rattle.twp_sentences.specs.steps.NamedNumbers.{HasNoNumberAt, HasNumberAt, IsNumberAt, IsOneOfTwo};
ghost use Rattle.twp_sentences.specs.steps.NamedNumbers.{IsSectionAfter, IsSectionOfNumber, NoneHasNumberAt};

use twp_diagnose::{chain_span, heading_span, range_span, token_span};
use twp_excerpt::Span;
use twp_grammar::{Item, Numeral};
use twp_grid::{SECTIONS, Section};

/// Whether an item begins at a place: its first number, its first token, or its word.
pub(crate) fn begins_at(item: &Item, at: u32) -> bool
    ensures { IsTrue result ↔ (start_of item.now ≡ at) }
{
    place_of(item) == at
}

/// The place of an item.
fn place_of(item: &Item) -> u32
    ensures { result ≡ start_of item.now }
{
    match *item {
        Item::Heading { at, .. } => at,
        Item::Sections { first, .. } => first.at,
        Item::Lots { first, .. } => first.at,
        Item::Chain { at, .. } => at,
        Item::All { at } => at,
    }
}

/// The bytes of an item: a heading, a number or a range from its first number to its last, an
/// aliquot part, or a word.
pub(crate) fn item_span(text: &[u8], item: &Item) -> Span
    ensures { IsItemSpan text.now item.now result }
{
    match *item {
        Item::Heading { at, .. } => heading_span(text, at as usize),
        Item::Sections { first, last, .. } => range_span(text, first.at as usize, last.at as usize),
        Item::Lots { first, last } => range_span(text, first.at as usize, last.at as usize),
        Item::Chain { at, .. } => chain_span(text, at as usize),
        Item::All { at } => token_span(text, at as usize),
    }
}

/// The section of what follows an item. None where its number is no section's.
pub(crate) fn section_after(section: Option<Section>, item: &Item) -> Option<Section>
    ensures { IsSectionAfter section item.now result }
{
    match *item {
        Item::Sections { first, .. } => section_of(first),
        Item::Heading { .. } | Item::Lots { .. } | Item::Chain { .. } | Item::All { .. } => section,
    }
}

/// The section of a number.
fn section_of(number: Numeral) -> Option<Section>
    ensures { SomeIff result (IsSection number.value) number.value }
{
    if number.value > u16::from(SECTIONS) {
        return None;
    }
    Section::new(number.value as u8)
}

/// The numbers of a range of sections or of lots.
fn range_of(item: &Item) -> Option<(Numeral, Numeral)> {
    match *item {
        Item::Sections { first, last, .. } => Some((first, last)),
        Item::Lots { first, last } => Some((first, last)),
        _ => None,
    }
}

/// The number at a place, if a number of an item is there.
#[tactic(auto, using(crate::proofs::NumberFacts::none_more))]
pub(crate) fn number_at(items: &[Item], at: u32) -> Option<u16>
    ensures { MatchOption result (NoneHasNumberAt at items.now (length items.now)) (IsNumberAt at items.now) }
{
    for item in items {
        if let Some(number) = number_in(item, at) {
            return Some(number);
        }
    }
    None
}

/// The number of an item at a place, if one of its numbers is there.
fn number_in(item: &Item, at: u32) -> Option<u16>
    ensures { MatchOption result (HasNoNumberAt at item.now) (HasNumberAt at item.now) }
{
    match *item {
        Item::Sections { first, last, .. } => one_of(first, last, at),
        Item::Lots { first, last } => one_of(first, last, at),
        Item::Heading { .. } | Item::Chain { .. } | Item::All { .. } => None,
    }
}

/// The one of two numbers that is at a place, the first if both are.
fn one_of(first: Numeral, last: Numeral, at: u32) -> Option<u16>
    ensures { MatchOption result ((value : ℕ) → ¬ IsOneOfTwo at first last value) (IsOneOfTwo at first last) }
{
    if first.at == at {
        Some(first.value)
    } else if last.at == at {
        Some(last.value)
    } else {
        None
    }
}

/// The first and the last number of the range whose last number is at a place.
pub(crate) fn range_to(items: &[Item], at: u32) -> (u16, u16) {
    for item in items {
        let Some((first, last)) = range_of(item) else {
            continue;
        };
        if last.at == at {
            return (first.value, last.value);
        }
    }
    (0, 0)
}

/// The section of which the number at a place should be a lot.
#[tactic(auto, using(crate::proofs::NumberFacts::none_more, crate::proofs::NumberFacts::section_of_none))]
pub(crate) fn section_of_number(items: &[Item], at: u32) -> Option<Section>
    ensures { IsSectionOfNumber at items.now result }
{
    let mut section = None;
    for item in items {
        if number_in(item, at).is_some() {
            return section;
        }
        section = section_after(section, item);
    }
    section
}

/// Some bytes of a text.
pub(crate) fn bytes_of(text: &[u8], span: Span) -> &[u8] {
    let end = span.end.min(text.len());
    &text[span.start.min(end)..end]
}
