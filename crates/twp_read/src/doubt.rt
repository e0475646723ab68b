//! Places that can be read in two ways, though the grammar reads them in one, and the tokens that can make a
//! place doubtful.
ghost use Rattle.std.specs.Prelude.{◌≡◌};
ghost use Rattle.twp_read.specs.Doubts.{begins_step, is_padded, is_singular};

use twp_grammar::Kind;

/// Why a place of a description can be read in two ways.
#[derive(Clone, Copy, PartialEq, Eq)]
pub enum Doubt {
    /// White space between two steps, without `of`, as in `NE1/4 SW1/4`: one part, or two.
    Joined,
    /// A part without `of`, `and`, and a part with `of`, as in `W1/2 and NE1/4 of SE1/4`: two parts, or both
    /// of the SE1/4.
    Shared,
    /// A part with `of`, `and`, and a part without `of`, as in `E1/2 of NE1/4 and SE1/4`: the E1/2 of the
    /// NE1/4 and the whole SE1/4, or the E1/2 of both.
    Spread,
    /// The word `sec`, `section`, or `lot`, in the singular, and several numbers, as in `Sec 5, 1, 2`: three
    /// sections, or two lots of section 5.
    Several,
    /// A number of a heading that begins with a zero, as in `T. 0020 N.`: township 20, or township 2, since
    /// registers write a fraction digit last.
    Padded,
}

/// A place that can be read in two ways, and why.
#[derive(Clone, Copy, PartialEq, Eq)]
pub struct DoubtfulPlace {
    pub doubt: Doubt,
    /// The offset of the second step, the first part, the word, or the number.
    pub at: usize,
}

/// The doubtful places of a text.
#[derive(Clone, Copy, PartialEq, Eq)]
pub struct Doubts {
    pub first: DoubtfulPlace,
    /// How many more there are.
    pub others: usize,
}

/// Whether a text may have a doubtful place.
#[derive(Clone, Copy, PartialEq, Eq)]
pub enum Clarity {
    /// It has none.
    Clear,
    /// It has one, or one is not ruled out.
    Unclear,
}

/// Whether a word is in the singular: `sec` and `lot` have three letters, and `section` has seven.
#[inline(always)]
pub fn is_singular(word: &[u8]) -> bool
    ensures { result ≡ is_singular word.now }
{
    word.len() == 3 || word.len() == 7
}

/// Whether the digits of a number are a zero and more.
#[inline(always)]
pub fn is_padded(digits: &[u8]) -> bool
    ensures { result ≡ is_padded digits.now }
{
    digits.len() > 1 && digits[0] == b'0'
}

/// Whether a token is the letters of a step.
#[inline(always)]
pub fn begins_step(kind: Kind) -> bool
    ensures { result ≡ begins_step kind }
{
    matches!(
        kind,
        Kind::NorthSouth(_) | Kind::EastWest(_) | Kind::Corner(_)
    )
}
