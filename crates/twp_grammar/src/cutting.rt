ghost use Rattle.std.specs.Prelude.{◌≡◌, ◌+◌, ◌-◌, ◌<◌, ◌≤◌, true, Some, IfSome, length, take};
ghost use Rattle.std.specs.Prelude.{drop};
ghost use Rattle.std.specs.Prelude.{slice_index};
ghost use Rattle.std.specs.Char.{is_ascii_alphabetic, is_ascii_digit};
ghost use Rattle.std.specs.List.{prefix_len};
ghost use Rattle.std.specs.Str.Parse.{AllDigits, digits_value};
ghost use Rattle.std.specs.Str.{str_to_ascii_lowercase};
ghost use Rattle.twp_grammar.specs.Tokens.{kind_among, long_words};
ghost use Rattle.twp_grammar.specs.declared.tokens.Kind.TheVariants.{Number};
ghost use Rattle.twp_grammar.specs.Cutting.{lexeme, small_letter, cut_word, cut_number};
ghost use Rattle.twp_grammar.specs.Cutting.{cut_digits};
ghost use Rattle.twp_grammar.specs.Cutting.{cut_mark, cut};

use crate::tokens::{Kind, Lexeme};
use crate::word::{self, one_letter, three_letters, two_letters};

/// How many letters of a long word are known.
const KNOWN: usize = 4;

/// The token that begins at a place of a text.
#[inline(always)]
#[tactic(auto, unfolding(crate::specs::Cutting::cut))]
pub fn lexeme_at(text: &[u8], at: usize) -> Lexeme
    requires { at < length text.now }
    ensures { result ≡ cut (drop at text.now) }
{
    let byte = byte_at(text, at, 0);
    if let Some(letter) = small_letter(byte) {
        return word(text, at, letter);
    }
    if byte.is_ascii_digit() {
        return digits(text, at);
    }
    mark(text, at)
}

/// The byte this many bytes ahead of a place, or 0 past the end.
#[inline(always)]
#[tactic(auto, using(crate::proofs::ByteFacts::byte_ahead, crate::proofs::ByteFacts::past_end))]
pub fn byte_at(text: &[u8], at: usize, ahead: usize) -> u8
    requires { at + ahead ≤ length text.now }
    ensures value { result ≡ slice_index (drop at text.now) ahead }
    ensures inside { 0 < result → at + ahead < length text.now }
{
    let index = at + ahead;
    if index < text.len() { text[index] } else { 0 }
}

/// The letter this many bytes ahead of a place, in lowercase.
#[inline(always)]
#[tactic(auto, using(crate::proofs::LetterFacts::letter_counts))]
fn letter_at(text: &[u8], at: usize, ahead: usize) -> Option<u8>
    requires { at + ahead ≤ length text.now }
    ensures letter { result ≡ small_letter (slice_index (drop at text.now) ahead) }
    ensures inside { IfSome result (λ _. at + ahead < length text.now) }
{
    small_letter(byte_at(text, at, ahead))
}

/// The bytes from a place on.
#[inline(always)]
fn bytes_from(text: &[u8], at: usize) -> &[u8]
    requires { at ≤ length text.now }
    ensures { result.now ≡ drop at text.now }
{
    let (_, bytes) = text.split_at(at);
    bytes
}

/// A letter in lowercase. In ASCII the two cases differ in one bit.
#[inline(always)]
#[tactic(auto, using(crate::proofs::LetterFacts::by_its_bit))]
fn small_letter(byte: u8) -> Option<u8>
    ensures { result ≡ small_letter byte }
{
    let small = byte | 0x20;
    if small.is_ascii_lowercase() {
        Some(small)
    } else {
        None
    }
}

/// A word, whose first letter is known.
#[inline(always)]
#[tactic(auto, using(crate::proofs::WordFacts::word_facts))]
fn word(text: &[u8], at: usize, first: u8) -> Lexeme
    requires place { at < length text.now }
    requires letter { small_letter (slice_index (drop at text.now) 0) ≡ Some first }
    ensures { result ≡ cut_word (drop at text.now) }
{
    let Some(second) = letter_at(text, at, 1) else {
        return Lexeme {
            kind: one_letter(first),
            size: 1,
        };
    };
    let Some(third) = letter_at(text, at, 2) else {
        return Lexeme {
            kind: two_letters(first, second),
            size: 2,
        };
    };
    let Some(_) = letter_at(text, at, 3) else {
        return Lexeme {
            kind: three_letters(first, second, third),
            size: 3,
        };
    };
    long_word(text, at)
}

/// A word of four letters or more. Those after the first four are counted.
#[inline(never)]
fn long_word(text: &[u8], at: usize) -> Lexeme
    requires place { at < length text.now }
    requires long { 3 < prefix_len is_ascii_alphabetic (drop at text.now) }
    ensures { result ≡ cut_word (drop at text.now) }
{
    let size = KNOWN + count_letters(text, at + KNOWN);
    Lexeme {
        kind: kind_of_long(text, at, size),
        size,
    }
}

/// How many letters are at a place.
#[inline(always)]
fn count_letters(text: &[u8], at: usize) -> usize
    requires { at ≤ length text.now }
    ensures value { result ≡ prefix_len is_ascii_alphabetic (drop at text.now) }
    ensures range { result ≤ length (drop at text.now) }
{
    bytes_from(text, at)
        .iter()
        .take_while(|byte| byte.is_ascii_alphabetic())
        .count()
}

/// What the word of this many letters at a place is, which are four or more.
#[inline(always)]
fn kind_of_long(text: &[u8], at: usize, size: usize) -> Kind
    requires place { at ≤ length text.now }
    requires size { size ≤ length (drop at text.now) }
    ensures { result ≡ kind_among
        (str_to_ascii_lowercase (take size (drop at text.now))) long_words }
{
    word::long_word(&bytes_from(text, at)[..size])
}

/// How many digits are at a place.
#[inline(never)]
fn count_digits(text: &[u8], at: usize) -> usize
    requires { at ≤ length text.now }
    ensures value { result ≡ prefix_len is_ascii_digit (drop at text.now) }
    ensures range { result ≤ length (drop at text.now) }
{
    bytes_from(text, at)
        .iter()
        .take_while(|byte| byte.is_ascii_digit())
        .count()
}

/// A half, a quarter or a number. Usually there is only one digit.
#[inline(always)]
#[tactic(auto, using(crate::proofs::Numerals::digits_alone), unfolding(crate::specs::Cutting::cut_digits))]
pub fn digits(text: &[u8], at: usize) -> Lexeme
    requires place { at < length text.now }
    requires digit { is_ascii_digit (slice_index (drop at text.now) 0) ≡ true }
    ensures { result ≡ cut_digits (drop at text.now) }
{
    let first = byte_at(text, at, 0);
    let second = byte_at(text, at, 1);
    if second.is_ascii_digit() {
        return number(text, at, first, second);
    }
    if second == b'/' {
        return before_slash(text, at, first);
    }
    one_digit(first)
}

/// A half or a quarter, or a digit with a slash after it that makes neither.
#[tactic(auto, using(crate::proofs::Numerals::digits_alone), unfolding(crate::specs::Cutting::cut_digits))]
fn before_slash(text: &[u8], at: usize, first: u8) -> Lexeme
    requires place { at + 1 < length text.now }
    requires first { first ≡ slice_index (drop at text.now) 0 }
    requires digit { is_ascii_digit first ≡ true }
    requires slash { slice_index (drop at text.now) 1 ≡ 47 }
    ensures { result ≡ cut_digits (drop at text.now) }
{
    match (first, byte_at(text, at, 2)) {
        (b'1', b'2') => Lexeme {
            kind: Kind::Half,
            size: 3,
        },
        (b'1', b'4') => Lexeme {
            kind: Kind::Quarter,
            size: 3,
        },
        _ => one_digit(first),
    }
}

/// The number of one digit.
#[inline(always)]
fn one_digit(digit: u8) -> Lexeme
    requires { is_ascii_digit digit ≡ true }
    ensures { result ≡ lexeme (Number (digit - 48)) 1 }
{
    Lexeme {
        kind: Kind::Number(u16::from(digit - b'0')),
        size: 1,
    }
}

/// Two digits or more, of which the first two are known: a number, or too many. Usually there are
/// two.
#[inline(always)]
#[tactic(auto, using(crate::proofs::Numerals::two_digits))]
fn number(text: &[u8], at: usize, first: u8, second: u8) -> Lexeme
    requires place { at + 1 < length text.now }
    requires first { first ≡ slice_index (drop at text.now) 0 }
    requires digit { is_ascii_digit first ≡ true }
    requires second { second ≡ slice_index (drop at text.now) 1 }
    requires second_digit { is_ascii_digit second ≡ true }
    ensures { result ≡ cut_number (drop at text.now) }
{
    if byte_at(text, at, 2).is_ascii_digit() {
        return long_number(text, at);
    }
    Lexeme {
        kind: Kind::Number(10 * u16::from(first - b'0') + u16::from(second - b'0')),
        size: 2,
    }
}

/// Digits of any count: a number, or too many.
#[tactic(auto, using(crate::proofs::Numerals::numbers))]
fn long_number(text: &[u8], at: usize) -> Lexeme
    requires { at ≤ length text.now }
    ensures { result ≡ cut_number (drop at text.now) }
{
    let size = count_digits(text, at);
    if size > 4 {
        return Lexeme {
            kind: Kind::BadNumber,
            size,
        };
    }
    Lexeme {
        kind: Kind::Number(value_at(text, at, size)),
        size,
    }
}

/// The number that this many digits at a place spell, up to four.
#[inline(never)]
fn value_at(text: &[u8], at: usize, size: usize) -> u16
    requires place { at ≤ length text.now }
    requires size { size ≤ length (drop at text.now) }
    requires digits { AllDigits 10 (take size (drop at text.now)) }
    requires few { size ≤ 4 }
    ensures { result ≡ digits_value 10 (take size (drop at text.now)) }
{
    value(&bytes_from(text, at)[..size])
}

/// The number that up to four digits spell.
fn value(digits: &[u8]) -> u16
    requires digits { AllDigits 10 digits.now }
    requires few { length digits.now ≤ 4 }
    ensures { result ≡ digits_value 10 digits.now }
{
    let mut value = 0;
    for byte in digits {
        value = 10 * value + u16::from(*byte - b'0');
    }
    value
}

/// A mark, or a byte that begins no token.
#[inline(always)]
#[tactic(auto, unfolding(crate::specs::Cutting::cut_mark))]
fn mark(text: &[u8], at: usize) -> Lexeme
    requires { at < length text.now }
    ensures { result ≡ cut_mark
        (slice_index (drop at text.now) 0) (slice_index (drop at text.now) 1) }
{
    let (kind, size) = match byte_at(text, at, 0) {
        b',' => (Kind::Comma, 1),
        b'.' => (Kind::Stop, 1),
        b';' => (Kind::Semicolon, 1),
        b':' => (Kind::Colon, 1),
        0xC2 => match byte_at(text, at, 1) {
            0xBD => (Kind::Half, 2),
            0xBC => (Kind::Quarter, 2),
            _ => (Kind::BadByte, 1),
        },
        _ => (Kind::BadByte, 1),
    };
    Lexeme { kind, size }
}
