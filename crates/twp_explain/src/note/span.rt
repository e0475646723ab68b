//! Which tokens of a text a note is about.
use twp_grammar::{Kind, Tokens};
use twp_read::{Doubt, DoubtfulPlace, is_of_step};

/// How many bytes `and` takes.
const AND: usize = 3;

/// Tokens in a row of which a note speaks.
#[derive(Clone, Copy)]
pub enum NotedTokens {
    /// The steps of a part, `of`, and `the`.
    Part,
    /// Letters and fractions of steps.
    Steps,
    /// The same, and the `and` between parts.
    Parts,
    /// Numbers, and what joins them.
    Numbers,
    /// One number.
    Number,
}

impl NotedTokens {
    /// Whether a token is of such a row.
    fn contains(self, kind: Kind) -> bool {
        match self {
            NotedTokens::Part => is_of_step(kind) || matches!(kind, Kind::Of | Kind::The),
            NotedTokens::Steps => is_of_step(kind),
            NotedTokens::Parts => {
                is_of_step(kind) || matches!(kind, Kind::Of | Kind::The | Kind::And)
            }
            NotedTokens::Numbers => is_of_list(kind),
            NotedTokens::Number => matches!(kind, Kind::Number(_)),
        }
    }
}

/// Whether a token is a number of a list, or joins two numbers.
fn is_of_list(kind: Kind) -> bool {
    matches!(
        kind,
        Kind::Number(_) | Kind::Comma | Kind::And | Kind::To | Kind::Inclusive
    )
}

/// Where what is underlined ends: the part, both parts, the list of numbers, or the number.
pub(crate) fn end_of_place(bytes: &[u8], place: DoubtfulPlace) -> usize {
    match place.doubt {
        Doubt::Joined => end_of_row(bytes, place.at, NotedTokens::Part),
        Doubt::Shared => end_of_row(bytes, place.at, NotedTokens::Parts),
        Doubt::Spread => end_of_row(bytes, after_and(bytes, place.at), NotedTokens::Steps),
        Doubt::Several => end_of_list(bytes, after_word(bytes, place.at)),
        Doubt::Padded => end_of_row(bytes, place.at, NotedTokens::Number),
    }
}

/// Where a row of tokens ends that begins at a place.
pub(crate) fn end_of_row(bytes: &[u8], at: usize, row: NotedTokens) -> usize {
    let at = at.min(bytes.len());
    let mut end = at;
    let mut tokens = Tokens::after(bytes, at);
    while let Some(token) = tokens.next() {
        if !row.contains(token.kind) {
            return end;
        }
        end = token.at.saturating_add(token.text.len());
    }
    end
}

/// Where a list of numbers ends that begins at a place: with its last number, or with `inclusive`.
pub(crate) fn end_of_list(bytes: &[u8], at: usize) -> usize {
    let at = at.min(bytes.len());
    let mut end = at;
    let mut tokens = Tokens::after(bytes, at);
    while let Some(token) = tokens.next() {
        if !is_of_list(token.kind) {
            return end;
        }
        if matches!(token.kind, Kind::Number(_) | Kind::Inclusive) {
            end = token.at.saturating_add(token.text.len());
        }
    }
    end
}

/// Where the part begins that continues at a place.
pub(crate) fn start_of_part(bytes: &[u8], at: usize) -> usize {
    let at = at.min(bytes.len());
    let mut start = at;
    let mut is_within = false;
    let mut tokens = Tokens::new(bytes.get(..at).unwrap_or(b""));
    while let Some(token) = tokens.next() {
        if !NotedTokens::Part.contains(token.kind) {
            is_within = false;
        } else if !is_within {
            start = token.at.min(at);
            is_within = true;
        }
    }
    start
}

/// The place after the word at a place, and the period after it, if there is one.
pub(crate) fn after_word(bytes: &[u8], at: usize) -> usize {
    let at = at.min(bytes.len());
    let mut end = at;
    let mut tokens = Tokens::after(bytes, at);
    while let Some(token) = tokens.next() {
        if !matches!(token.kind, Kind::Sec | Kind::Lot | Kind::Stop) {
            return end;
        }
        end = token.at.saturating_add(token.text.len());
    }
    end
}

/// The number of the section that a place is in: the last one before it that follows the word.
pub(crate) fn section_at(bytes: &[u8], at: usize) -> Option<u16> {
    let mut section = None;
    let mut is_next = false;
    let mut tokens = Tokens::new(bytes.get(..at).unwrap_or(b""));
    while let Some(token) = tokens.next() {
        match token.kind {
            Kind::Sec => is_next = true,
            Kind::Number(number) if is_next => {
                section = Some(number);
                is_next = false;
            }
            _ => {}
        }
    }
    section
}

/// The first number from a place on.
pub(crate) fn number_from(bytes: &[u8], at: usize) -> Option<u16> {
    let mut tokens = Tokens::after(bytes, at.min(bytes.len()));
    while let Some(token) = tokens.next() {
        if let Kind::Number(number) = token.kind {
            return Some(number);
        }
    }
    None
}

/// The place after the first number from a place on, and after what joins it to the next one.
pub(crate) fn second_number(bytes: &[u8], at: usize) -> usize {
    let at = at.min(bytes.len());
    let mut numbers: u32 = 0;
    let mut tokens = Tokens::after(bytes, at);
    while let Some(token) = tokens.next() {
        if let Kind::Number(_) = token.kind {
            numbers = numbers.saturating_add(1);
            if numbers == 2 {
                return token.at.min(bytes.len());
            }
        }
    }
    bytes.len()
}

/// The place after the first `and` from a place on, or the end.
pub(crate) fn after_and(bytes: &[u8], at: usize) -> usize {
    place_of(bytes, at, Kind::And)
        .saturating_add(AND)
        .min(bytes.len())
}

/// The place of the last token of a kind from a place up to another, or the first place.
pub(crate) fn last_place_of(bytes: &[u8], from: usize, to: usize, kind: Kind) -> usize {
    let to = to.min(bytes.len());
    let from = from.min(to);
    let mut last = from;
    let mut tokens = Tokens::after(bytes.get(..to).unwrap_or(b""), from);
    while let Some(token) = tokens.next() {
        if token.kind == kind {
            last = token.at.min(to);
        }
    }
    last
}

/// The place of the first token of a kind from a place on, or the end.
pub(crate) fn place_of(bytes: &[u8], at: usize, kind: Kind) -> usize {
    let at = at.min(bytes.len());
    let mut tokens = Tokens::after(bytes, at);
    while let Some(token) = tokens.next() {
        if token.kind == kind {
            return token.at.min(bytes.len());
        }
    }
    bytes.len()
}
