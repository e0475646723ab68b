//! Text that a terminal shows in full: invisible characters, and bytes that are not UTF-8, are
//! escaped.
ghost use Rattle.std.specs.Prelude.{◌≡◌, ◌<◌, ◌≤◌, ◌++◌, ◌==◌, ◌∷◌, [], true, length, string_bytes, OnOk};
ghost use Rattle.std.specs.Prelude.{if◌then◌else◌};
ghost use Rattle.std.specs.Fmt.{digits};
ghost use Rattle.std.specs.List.{list_all};
ghost use Rattle.twp_excerpt.specs.declared.escaped.Look.TheVariants.{Plain, Letter};
ghost use Rattle.twp_excerpt.specs.Shown.{AddsShown, IsShownText, is_shown};
ghost use Rattle.twp_excerpt.specs.Signs.{Adding, Sign as SignOf, escaped, first_sign, width, hex_digit};
ghost use Rattle.twp_excerpt.specs.Signs.{letter_escape, byte_escape, code_escape};
ghost use Rattle.twp_excerpt.specs.steps.Looks.{IsSafe, IsDrawn, IsDrawnLast, IsDrawnInLine};
ghost use Rattle.twp_excerpt.specs.steps.Looks.{is_printable, look_of, look_text};

use crate::spot::is_shown;
use bstr::{decode_last_utf8, decode_utf8};
use std::alloc::AllocError;
use unicode_width::UnicodeWidthChar;

/// Appends a text that is safe to show in a terminal. Visible characters, including backslashes,
/// are left as they are. Line feeds, carriage returns, and tabs are written `\n`, `\r`, and `\t`;
/// other ASCII control characters, and bytes that belong to no UTF-8 character, as `\x1B`; and all
/// other characters as `\u{202E}`: those that are invisible, and those that reverse, join, or hide
/// others. If memory runs out, only a prefix of that text is appended.
pub fn write_escaped(bytes: &[u8], out: &mut String) -> Result<(), AllocError>
    ensures escaped { Adding (escaped bytes.now) result (string_bytes out.old) (string_bytes out.new) }
    ensures safe { AddsShown (string_bytes out.old) (string_bytes out.new) }
    ensures same { IsShownText bytes.now → OnOk result
        (string_bytes out.new ≡ string_bytes out.old ++ bytes.now) }
{
    let mut at = 0;
    while at < bytes.len() {
        let sign = Sign::first(&bytes[at..]);
        sign.look.write(out)?;
        at += sign.size;
    }
    Ok(())
}

/// How a character, or a byte that belongs to none, is shown.
#[derive(Clone, Copy)]
pub(crate) enum Look {
    /// As the character itself.
    Plain(char),
    /// As a backslash and this letter.
    Letter(char),
    /// As `\x` and the byte's two hexadecimal digits.
    Byte(u8),
    /// As `\u` and the character's hexadecimal digits in braces.
    Code(char),
}

/// The first character of some bytes, or their first byte if that belongs to no character.
#[derive(Clone, Copy)]
pub(crate) struct Sign {
    pub(crate) look: Look,
    /// How many bytes the sign takes.
    pub(crate) size: usize,
}

impl Sign {
    /// The sign at the start of some bytes.
    pub(crate) fn first(bytes: &[u8]) -> Sign
        requires { 0 < length bytes.now }
        ensures safe { IsSafe result.look }
        ensures some { 0 < result.size }
        ensures within { result.size ≤ length bytes.now }
        ensures first { IsDrawn (first_sign bytes.now) result }
    {
        match decode_utf8(bytes) {
            (Some(character), size) => Sign {
                look: Look::of(character),
                size,
            },
            (None, _) => Sign {
                look: Look::Byte(bytes[0]),
                size: 1,
            },
        }
    }

    /// The sign at the end of some bytes.
    pub(crate) fn last(bytes: &[u8]) -> Sign
        requires { 0 < length bytes.now }
        ensures safe { IsSafe result.look }
        ensures some { 0 < result.size }
        ensures within { result.size ≤ length bytes.now }
        ensures last { IsDrawnLast bytes.now result }
    {
        match decode_last_utf8(bytes) {
            (Some(character), size) => Sign {
                look: Look::of(character),
                size,
            },
            (None, _) => Sign {
                look: Look::Byte(bytes[bytes.len() - 1]),
                size: 1,
            },
        }
    }

    /// How the sign is shown in a line, where a tab is shown as a space.
    pub(crate) fn in_line(self) -> Sign
        requires { IsSafe self.look }
        ensures safe { IsSafe result.look }
        ensures size { result.size ≡ self.size }
        ensures drawn { (sign : SignOf) → IsDrawn sign self → IsDrawnInLine sign result }
    {
        match self.look {
            Look::Letter(letter) => Sign {
                look: Look::of_letter_in_line(letter),
                size: self.size,
            },
            _ => self,
        }
    }
}

impl Look {
    /// How a character is shown.
    fn of(character: char) -> Look
        ensures safe { IsSafe result }
        ensures look { result ≡ look_of character }
    {
        if is_shown(character) {
            return Look::Plain(character);
        }
        match character {
            '\n' => Look::Letter('n'),
            '\r' => Look::Letter('r'),
            '\t' => Look::Letter('t'),
            _ if character.is_ascii() => Look::Byte(character as u8),
            _ => Look::Code(character),
        }
    }

    /// How an escape with a letter is shown in a line: a tab as a space, and any other as the
    /// escape.
    fn of_letter_in_line(letter: char) -> Look
        requires { is_printable letter ≡ true }
        ensures safe { IsSafe result }
        ensures look { result ≡ (if letter == 116 then Plain 32 else Letter letter) }
    {
        if letter == 't' {
            return Look::Plain(' ');
        }
        Look::Letter(letter)
    }

    /// How many columns it takes when shown.
    pub(crate) fn columns(self) -> usize
        requires { IsSafe self }
        ensures width { result ≡ width (look_text self) }
        ensures few { result ≤ 12 }
    {
        match self {
            Look::Plain(character) => character.width().unwrap_or(0),
            Look::Letter(_) => 2,
            Look::Byte(_) => 4,
            Look::Code(character) => 4 + hex_digits(character as u32),
        }
    }

    /// Appends the character or the escape.
    pub(crate) fn write(self, out: &mut String) -> Result<(), AllocError>
        requires { IsSafe self }
        ensures added { Adding (look_text self) result (string_bytes out.old) (string_bytes out.new) }
        ensures safe { AddsShown (string_bytes out.old) (string_bytes out.new) }
    {
        match self {
            Look::Plain(character) => push_shown(character, out),
            Look::Letter(letter) => write_letter(letter, out),
            Look::Byte(byte) => write_byte(byte, out),
            Look::Code(character) => write_code(character, out),
        }
    }
}

/// Appends a backslash and a letter.
fn write_letter(letter: char, out: &mut String) -> Result<(), AllocError>
    requires { is_printable letter ≡ true }
    ensures { Adding (letter_escape letter) result (string_bytes out.old) (string_bytes out.new) }
{
    push_printable("\\", out)?;
    push_shown(letter, out)
}

/// Appends a byte as `\x1B`.
fn write_byte(byte: u8, out: &mut String) -> Result<(), AllocError>
    ensures { Adding (byte_escape byte) result (string_bytes out.old) (string_bytes out.new) }
{
    push_printable("\\x", out)?;
    push_hex_digit(byte / 16, out)?;
    push_hex_digit(byte % 16, out)
}

/// Appends a character as `\u{202E}`.
fn write_code(character: char, out: &mut String) -> Result<(), AllocError>
    ensures { Adding (code_escape character) result (string_bytes out.old) (string_bytes out.new) }
{
    push_printable("\\u{", out)?;
    write_hex(character as u32, out)?;
    push_printable("}", out)
}

/// Appends a number in hexadecimal digits.
fn write_hex(number: u32, out: &mut String) -> Result<(), AllocError>
    ensures { Adding (digits 16 true number) result (string_bytes out.old) (string_bytes out.new) }
{
    if number < 16 {
        return push_hex_digit(number as u8, out);
    }
    write_hex(number / 16, out)?;
    push_hex_digit((number % 16) as u8, out)
}

/// How many hexadecimal digits a number has.
fn hex_digits(number: u32) -> usize
    ensures value { result ≡ length (digits 16 true number) }
    ensures few { result ≤ 8 }
{
    if number < 16 {
        return 1;
    }
    hex_digits(number / 16) + 1
}

/// Appends a hexadecimal digit.
fn push_hex_digit(digit: u8, out: &mut String) -> Result<(), AllocError>
    requires { digit < 16 }
    ensures { Adding (hex_digit digit ∷ []) result (string_bytes out.old) (string_bytes out.new) }
{
    push_shown(digit_character(digit) as char, out)
}

/// A hexadecimal digit.
fn digit_character(digit: u8) -> u8
    requires { digit < 16 }
    ensures value { result ≡ hex_digit digit }
    ensures printable { (0x20 ≤ result) × (result ≤ 0x7E) }
{
    if digit < 10 {
        b'0' + digit
    } else {
        b'A' - 10 + digit
    }
}

/// Appends a character that is shown.
pub(crate) fn push_shown(character: char, out: &mut String) -> Result<(), AllocError>
    requires { is_shown character ≡ true }
    ensures added { Adding (character ∷ []) result (string_bytes out.old) (string_bytes out.new) }
    ensures safe { AddsShown (string_bytes out.old) (string_bytes out.new) }
{
    out.push(character)
}

/// Appends printable ASCII.
pub(crate) fn push_printable(text: &str, out: &mut String) -> Result<(), AllocError>
    requires { list_all is_printable text.now ≡ true }
    ensures added { Adding text.now result (string_bytes out.old) (string_bytes out.new) }
    ensures safe { AddsShown (string_bytes out.old) (string_bytes out.new) }
{
    out.push_str(text)
}
