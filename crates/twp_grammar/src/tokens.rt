ghost use Rattle.std.specs.Prelude.{◌≡◌, ◌≤◌, drop, length};
ghost use Rattle.twp_grammar.specs.Cutting.{GivesFirst};
ghost use Rattle.std.specs.Iterator.{at_most};

use crate::cutting::lexeme_at;
use crate::word::after_white;
use std::marker::Model;
use twp_grid::{Corner, EastWest, NorthSouth};

/// What a token of a description is. The words are those of the Specifications for Descriptions of
/// Land, in uppercase or lowercase letters.
#[derive(Clone, Copy, PartialEq, Eq)]
pub enum Kind {
    /// `sec`, `secs`, `section`, or `sections`.
    Sec,
    /// `lot` or `lots`.
    Lot,
    /// `all`.
    All,
    /// `and`.
    And,
    /// `to`, `thru`, or `through`.
    To,
    /// `inclusive`.
    Inclusive,
    /// `of`.
    Of,
    /// `the`.
    The,
    /// `t`, the township's letter.
    T,
    /// `r`, the range's letter.
    R,
    /// `n` or `s`: a direction from a base line, or a half.
    NorthSouth(NorthSouth),
    /// `e` or `w`: a direction from a principal meridian, or a half.
    EastWest(EastWest),
    /// `ne`, `nw`, `sw`, or `se`: a quarter.
    Corner(Corner),
    /// `1/2` or U+00BD.
    Half,
    /// `1/4` or U+00BC.
    Quarter,
    /// One to four digits, and their value, 0 to 9999.
    Number(u16),
    /// `,`.
    Comma,
    /// `;`.
    Semicolon,
    /// `:`.
    Colon,
    /// `.`.
    Stop,
    /// Any other word.
    Other,
    /// More than four digits.
    BadNumber,
    /// A byte that begins no other token.
    BadByte,
}

/// A token that begins at a place: its kind, and its length in bytes.
#[derive(Clone, Copy, PartialEq, Eq)]
pub struct Lexeme {
    /// What the token is.
    pub kind: Kind,
    /// How many bytes it takes.
    pub size: usize,
}

/// A piece of a description: a word, a number, a half or a quarter, a mark, or something else.
#[derive(Clone, Copy, PartialEq, Eq)]
pub struct Token<'a> {
    /// What the token is.
    pub kind: Kind,
    /// The bytes of the token: a slice of the text, at offset `at`.
    pub text: &'a [u8],
    /// The offset of its first byte in the text.
    pub at: usize,
}

/// The first token of a text at a place or after it.
#[inline(always)]
pub fn first_token(text: &[u8], from: usize) -> Option<Token<'_>>
    requires { from ≤ length text.now }
    ensures { GivesFirst text.now from result }
{
    let at = after_white(text, from);
    if at >= text.len() {
        return None;
    }
    let Lexeme { kind, size } = lexeme_at(text, at);
    let (_, left) = text.split_at(at);
    let (text, _) = left.split_at(size);
    Some(Token { kind, text, at })
}

/// The tokens of a description, from left to right. White space between them is left out. A byte
/// that begins no token is one of kind `BadByte`, and more than four digits are one of kind
/// `BadNumber`.
#[derive(Drop)]
pub struct Tokens<'a> {
    text: &'a [u8],
    /// Where the remaining bytes begin.
    at: usize,
}

impl<'a> Model for Tokens<'a> {
    ghost use Rattle.std.specs.Prelude.{◌≤◌, drop, length};
    ghost use Rattle.twp_grammar.specs.Tokens.{Left};

    ghost Value = { Left };

    ghost view = { λ s. record { at = s.at; bytes = drop s.at s.text.now } };

    ghost invariant = { λ s. s.at ≤ length s.text.now };
}

impl<'a> Tokens<'a> {
    ghost use Rattle.twp_grammar.specs.Tokens.{Left};

    /// The tokens of a text, which is at 0.
    pub fn new(text: &'a [u8]) -> Tokens<'a>
        ensures { result ≡ record { at = 0; bytes = text.now } }
    {
        Tokens { text, at: 0 }
    }

    /// The tokens of a text that are at a place or after it.
    pub fn after(text: &'a [u8], at: usize) -> Tokens<'a>
        requires { at ≤ length text.now }
        ensures { result ≡ record { at = at; bytes = drop at text.now } }
    {
        Tokens { text, at }
    }
}

impl<'a> Iterator for Tokens<'a> {
    type Item = Token<'a>;

    ghost use Rattle.std.specs.Prelude.{length};
    ghost use Rattle.twp_grammar.specs.Tokens.{GivesToken};

    ghost next_gives = { GivesToken };

    ghost remaining = { λ s. at_most (length s.bytes) };

    fn next(&mut self) -> Option<Token<'a>> {
        let token = first_token(self.text, self.at);
        self.at = match token {
            Some(token) => token.at + token.text.len(),
            None => self.text.len(),
        };
        token
    }
}
