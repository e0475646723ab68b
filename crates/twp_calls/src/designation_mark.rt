ghost use Rattle.std.specs.Prelude.{◌≡◌, length};
ghost use Rattle.std.specs.Str.{str_to_ascii_lowercase};
ghost use Rattle.twp_grammar.specs.Tokens.{same_bytes};
ghost use Rattle.twp_calls.specs.DesignationTexts.{mark_of, mark_of_digits, mark_of_byte, mark_of_word};
ghost use Rattle.twp_calls.specs.DesignationTexts.{meaning_among, name_words, direction_words, unit_words};
ghost use Rattle.twp_calls.specs.DesignationTexts.{higher_numbers};

use twp_grammar::{Kind, Token};
use twp_grid::{EastWest, NorthSouth};
use twp_rules::are_same;

/// What a token is in a township's name.
#[derive(Clone, Copy, PartialEq, Eq)]
pub enum DesignationMark {
    /// `T`, `Twp`, or `Township`.
    Township,
    /// `R`, `Rng`, or `Range`.
    Range,
    /// A number that is complete: digits, or a word from ten to nineteen.
    Number(u8),
    /// A word from one to nine.
    Unit(u8),
    /// `twenty` or `thirty`.
    Tens(u8),
    /// The four digits of a register, without the fraction digit.
    Filled(u8),
    /// A direction from a base line.
    NorthSouth(NorthSouth),
    /// A direction from a principal meridian.
    EastWest(EastWest),
    /// `.`.
    Stop,
    /// `,`.
    Comma,
    /// `-`.
    Hyphen,
    /// `/`.
    Slash,
    /// What no township has.
    Other,
}

impl DesignationMark {
    /// What a token is in a township's name.
    pub fn of(token: &Token<'_>) -> DesignationMark
        ensures { result ≡ mark_of token.now.kind token.now.text.now }
    {
        match token.kind {
            Kind::T => DesignationMark::Township,
            Kind::R => DesignationMark::Range,
            Kind::NorthSouth(side) => DesignationMark::NorthSouth(side),
            Kind::EastWest(side) => DesignationMark::EastWest(side),
            Kind::Number(value) => of_digits(token.text.len(), value),
            Kind::Comma => DesignationMark::Comma,
            Kind::Stop => DesignationMark::Stop,
            Kind::BadByte => of_byte(token.text),
            Kind::Other => of_word(token.text),
            _ => DesignationMark::Other,
        }
    }
}

/// A number with this many digits.
fn of_digits(digits: usize, value: u16) -> DesignationMark
    ensures { result ≡ mark_of_digits digits value }
{
    if digits <= 3 {
        if 1 <= value && value <= 99 {
            DesignationMark::Number(value as u8)
        } else {
            DesignationMark::Other
        }
    } else if value % 10 == 0 && 1 <= value / 10 && value / 10 <= 99 {
        DesignationMark::Filled((value / 10) as u8)
    } else {
        DesignationMark::Other
    }
}

/// A byte that begins no token.
fn of_byte(text: &[u8]) -> DesignationMark
    ensures { result ≡ mark_of_byte text.now }
{
    if are_same(text, b"-") {
        DesignationMark::Hyphen
    } else if are_same(text, b"/") {
        DesignationMark::Slash
    } else {
        DesignationMark::Other
    }
}

/// A word, in either case.
fn of_word(text: &[u8]) -> DesignationMark
    ensures { result ≡ mark_of_word text.now }
{
    if let Some(mark) = name(text) {
        return mark;
    }
    if let Some(mark) = direction(text) {
        return mark;
    }
    if let Some(mark) = unit(text) {
        return mark;
    }
    match further_number(text) {
        Some(mark) => mark,
        None => DesignationMark::Other,
    }
}

/// A word before the number of a township or of a range.
fn name(text: &[u8]) -> Option<DesignationMark>
    ensures { result ≡ meaning_among (str_to_ascii_lowercase text.now) name_words }
{
    if is_word(text, b"township") {
        return Some(DesignationMark::Township);
    }
    if is_word(text, b"twp") {
        return Some(DesignationMark::Township);
    }
    if is_word(text, b"twsp") {
        return Some(DesignationMark::Township);
    }
    if is_word(text, b"tp") {
        return Some(DesignationMark::Township);
    }
    if is_word(text, b"range") {
        return Some(DesignationMark::Range);
    }
    if is_word(text, b"rng") {
        return Some(DesignationMark::Range);
    }
    if is_word(text, b"rge") {
        return Some(DesignationMark::Range);
    }
    if is_word(text, b"rg") {
        return Some(DesignationMark::Range);
    }
    None
}

/// A direction in words.
fn direction(text: &[u8]) -> Option<DesignationMark>
    ensures { result ≡ meaning_among (str_to_ascii_lowercase text.now) direction_words }
{
    if is_word(text, b"north") {
        return Some(DesignationMark::NorthSouth(NorthSouth::N));
    }
    if is_word(text, b"south") {
        return Some(DesignationMark::NorthSouth(NorthSouth::S));
    }
    if is_word(text, b"east") {
        return Some(DesignationMark::EastWest(EastWest::E));
    }
    if is_word(text, b"west") {
        return Some(DesignationMark::EastWest(EastWest::W));
    }
    None
}

/// A number from one to nine in words.
fn unit(text: &[u8]) -> Option<DesignationMark>
    ensures { result ≡ meaning_among (str_to_ascii_lowercase text.now) unit_words }
{
    if is_word(text, b"one") {
        return Some(DesignationMark::Unit(1));
    }
    if is_word(text, b"two") {
        return Some(DesignationMark::Unit(2));
    }
    if is_word(text, b"three") {
        return Some(DesignationMark::Unit(3));
    }
    if is_word(text, b"four") {
        return Some(DesignationMark::Unit(4));
    }
    if is_word(text, b"five") {
        return Some(DesignationMark::Unit(5));
    }
    if is_word(text, b"six") {
        return Some(DesignationMark::Unit(6));
    }
    if is_word(text, b"seven") {
        return Some(DesignationMark::Unit(7));
    }
    if is_word(text, b"eight") {
        return Some(DesignationMark::Unit(8));
    }
    if is_word(text, b"nine") {
        return Some(DesignationMark::Unit(9));
    }
    None
}

/// A number from ten on in words, or twenty or thirty.
fn further_number(text: &[u8]) -> Option<DesignationMark>
    ensures { result ≡ meaning_among (str_to_ascii_lowercase text.now) higher_numbers }
{
    if is_word(text, b"ten") {
        return Some(DesignationMark::Number(10));
    }
    if is_word(text, b"eleven") {
        return Some(DesignationMark::Number(11));
    }
    if is_word(text, b"twelve") {
        return Some(DesignationMark::Number(12));
    }
    if is_word(text, b"thirteen") {
        return Some(DesignationMark::Number(13));
    }
    if is_word(text, b"fourteen") {
        return Some(DesignationMark::Number(14));
    }
    if is_word(text, b"fifteen") {
        return Some(DesignationMark::Number(15));
    }
    if is_word(text, b"sixteen") {
        return Some(DesignationMark::Number(16));
    }
    if is_word(text, b"seventeen") {
        return Some(DesignationMark::Number(17));
    }
    if is_word(text, b"eighteen") {
        return Some(DesignationMark::Number(18));
    }
    if is_word(text, b"nineteen") {
        return Some(DesignationMark::Number(19));
    }
    if is_word(text, b"twenty") {
        return Some(DesignationMark::Tens(20));
    }
    if is_word(text, b"thirty") {
        return Some(DesignationMark::Tens(30));
    }
    None
}

/// Whether a word, in either case, is the given one, which is in lowercase.
fn is_word(text: &[u8], word: &[u8]) -> bool
    requires { str_to_ascii_lowercase word.now ≡ word.now }
    ensures { result ≡ same_bytes (str_to_ascii_lowercase text.now) word.now }
{
    text.eq_ignore_ascii_case(word)
}
