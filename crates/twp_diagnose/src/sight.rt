//! What is seen of a text where it is refused.
ghost use Rattle.std.specs.Prelude.{◌≡◌, ◌≤◌, ◌↔◌, length, drop, IsTrue};
ghost use Rattle.std.specs.List.{AllPass};
ghost use Rattle.twp_excerpt.specs.Spots.{is_white};
ghost use Rattle.twp_grammar.specs.declared.tokens.Kind.TheVariants.{BadByte};
ghost use Rattle.twp_diagnose.specs.Sights.{is_apart, shown_place, IsSignAfter, TakesSign};

use crate::mark::next_token;
use twp_excerpt::{end_of_text, first_size};
use twp_grammar::{Expected, Kind, Tokens};
use twp_grid::Refusal;

/// A token of a text, or a character that is not allowed in a description. It has no bytes where the
/// text begins or ends.
#[derive(Clone, Copy)]
pub struct TokenAt<'a> {
    /// Its bytes.
    pub bytes: &'a [u8],
    /// Whether it ends where the refused one begins; of a sign after that, whether neither a comma
    /// nor a period is between it and the sign before it.
    pub is_joined: bool,
}

/// What is at a refused place and around it.
#[derive(Clone, Copy)]
pub struct Surroundings<'a> {
    /// The refusal's number.
    pub number: u8,
    /// What was expected at the place, for a fault of syntax.
    pub expected: Option<Expected>,
    /// Where the sign at the place begins in the text, or where the text ends but for white space.
    pub start: usize,
    /// The text.
    pub text: &'a [u8],
    /// The text before that place.
    pub ahead: &'a [u8],
    /// The sign before the place.
    pub before: TokenAt<'a>,
    /// The sign at the place.
    pub at: TokenAt<'a>,
    /// The text after that sign.
    pub rest: &'a [u8],
}

impl<'a> Surroundings<'a> {
    /// What is seen of a text where it is refused.
    pub fn of(text: &'a [u8], refusal: Refusal, expected: Option<Expected>) -> Surroundings<'a>
        ensures start { result.start ≡ shown_place text.now refusal.at }
        ensures sign { TakesSign (drop refusal.at text.now) (length result.at.bytes.now) }
    {
        let at = (refusal.at as usize).min(text.len());
        let (ahead, after) = text.split_at(at);
        let (sign, rest) = after.split_at(size_of_sign(after));
        Surroundings {
            number: refusal.number,
            expected,
            start: if sign.is_empty() {
                end_of_text(text)
            } else {
                at
            },
            text,
            ahead,
            before: last_sign(ahead),
            at: TokenAt {
                bytes: sign,
                is_joined: false,
            },
            rest,
        }
    }

    /// The sign this many signs after the refused one, from 0. Commas and periods don't count.
    #[tactic(auto, using(crate::proofs::AfterFacts::sought, crate::proofs::AfterFacts::apart_passed, crate::proofs::AfterFacts::sign_passed, crate::proofs::AfterFacts::sign_found, crate::proofs::AfterFacts::no_sign_left))]
    pub fn after(&self, index: usize) -> TokenAt<'a>
        ensures { IsSignAfter self.now.rest.now index result.bytes.now }
    {
        let mut tokens = Tokens::new(self.rest);
        let mut left = index;
        let mut is_joined = true;
        'tokens: while let Some(token) = next_token(&mut tokens) {
            if is_apart(token.kind) {
                is_joined = false;
                continue;
            }
            if left == 0 {
                return TokenAt {
                    bytes: token.text,
                    is_joined,
                };
            }
            left -= 1;
            is_joined = true;
        }
        NOTHING
    }
}

/// Whether a token is a comma or a period, which set signs apart.
fn is_apart(kind: Kind) -> bool
    ensures { result ≡ is_apart kind }
{
    matches!(kind, Kind::Comma | Kind::Stop)
}

/// What is where a text begins or ends.
const NOTHING: TokenAt<'static> = TokenAt {
    bytes: &[],
    is_joined: false,
};

/// How many bytes the sign takes that begins some bytes: all of its token, all of a character that
/// begins no token, or one byte that begins no character. None where nothing but white space follows.
fn size_of_sign(bytes: &[u8]) -> usize
    ensures within { result ≤ length bytes.now }
    ensures white { result ≡ 0 → AllPass is_white bytes.now }
    ensures dark { AllPass is_white bytes.now → result ≡ 0 }
    ensures sign { TakesSign bytes.now result }
{
    let Some(token) = Tokens::new(bytes).next() else {
        return 0;
    };
    if is_bad_byte(token.kind) {
        return first_size(bytes);
    }
    token.text.len()
}

/// Whether a token is a byte that begins none.
fn is_bad_byte(kind: Kind) -> bool
    ensures { IsTrue result ↔ (kind ≡ BadByte) }
{
    matches!(kind, Kind::BadByte)
}

/// The last sign of some bytes.
fn last_sign(bytes: &[u8]) -> TokenAt<'_> {
    let mut last = NOTHING;
    for token in Tokens::new(bytes) {
        last = TokenAt {
            bytes: token.text,
            is_joined: bytes.len() - token.text.len().min(bytes.len()) == token.at,
        };
    }
    last
}
