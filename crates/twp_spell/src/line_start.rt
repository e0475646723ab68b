//! The start of a line, up to its section's number, which is appended to a text in one piece.
ghost use Rattle.std.specs.Prelude.{◌≡◌, ◌+◌, ◌++◌, ◌≤◌, [], length, true, false, codes, decimal, OnOk};
ghost use Rattle.twp_spell.specs.CanonicalText.{heading_line, line_end};
ghost use Rattle.twp_spell.specs.CanonicalText.{north_south_letter, east_west_letter};
ghost use Rattle.twp_spell.specs.steps.Spelling.{START_MOST, NUMBER_MOST};

use std::alloc::AllocError;
use std::marker::Model;
use twp_grid::{EastWest, NorthSouth, Township};

/// There is room for the longest heading, `T. 255 N., R. 255 W.,`, the end of its line, and
/// `sec. 36`, in bytes.
const START_BYTES: usize = 32;

/// The start of a line. It needs no allocation.
#[derive(Drop)]
pub(crate) struct LineStart {
    bytes: [u8; START_BYTES],
    len: usize,
}

impl Model for LineStart {
    ghost use Rattle.std.specs.Prelude.{◌≤◌, ℕ, List, take};

    ghost Value = { List ℕ };

    ghost view = { λ start. take start.len start.bytes };

    ghost use Rattle.twp_spell.specs.steps.Spelling.{START_MOST};

    ghost invariant = { λ start. start.len ≤ START_MOST };
}

impl LineStart {
    /// Begins the first line, after the heading's line, or a later one, after the end of the previous
    /// line; both without the section's number. It is filled in place, since returning it would copy it.
    #[inline(always)]
    pub(crate) fn begin(&mut self, township: Township, is_first: bool)
        requires { self.old ≡ [] }
        ensures first { is_first ≡ true → self.new ≡ heading_line township ++ codes "sec. " }
        ensures after { is_first ≡ false → self.new ≡ (codes ";" ++ line_end) ++ codes "sec. " }
        ensures room { length self.new + NUMBER_MOST ≤ START_MOST }
    {
        if !is_first {
            self.push(b";\nsec. ");
            return;
        }
        self.push(b"T. ");
        self.push_number(township.number());
        self.push(after_number(township.north_south()));
        self.push_number(township.range());
        self.push(after_range(township.east_west()));
    }

    /// Nothing yet.
    #[inline(always)]
    pub(crate) fn empty() -> LineStart
        ensures { result ≡ [] }
    {
        LineStart {
            bytes: [0; START_BYTES],
            len: 0,
        }
    }

    /// Adds a text.
    #[inline(always)]
    fn push(&mut self, piece: &[u8])
        requires { length self.old + length piece.now ≤ START_MOST }
        ensures { self.new ≡ self.old ++ piece.now }
    {
        let after = self.len + piece.len();
        self.bytes[self.len..after].copy_from_slice(piece);
        self.len = after;
    }

    /// Adds a number in decimal.
    #[inline(always)]
    pub(crate) fn push_number(&mut self, number: u8)
        requires { length self.old + NUMBER_MOST ≤ START_MOST }
        ensures text { self.new ≡ self.old ++ decimal number }
        ensures most { length self.new ≤ length self.old + NUMBER_MOST }
    {
        if number < 10 {
            return self.push(&[b'0' + number]);
        }
        let last = b'0' + number % 10;
        if number < 100 {
            return self.push(&[b'0' + number / 10, last]);
        }
        self.push(&[b'0' + number / 100, b'0' + number % 100 / 10, last]);
    }

    /// Appends it to a text.
    #[inline(always)]
    pub(crate) fn append_to(&self, text: &mut Vec<u8>) -> Result<(), AllocError>
        ensures { OnOk result (text.new.items ≡ text.old.items ++ self.now) }
    {
        text.extend_from_slice(&self.bytes[..self.len])
    }
}

/// The heading between the number of the township and that of the range.
#[inline(always)]
fn after_number(direction: NorthSouth) -> &'static [u8; 8]
    ensures { result.now ≡ codes " " ++ north_south_letter direction ++ codes "., R. " }
{
    match direction {
        NorthSouth::N => b" N., R. ",
        NorthSouth::S => b" S., R. ",
    }
}

/// The end of the heading after the number of the range, and the text before a section's number.
#[inline(always)]
fn after_range(direction: EastWest) -> &'static [u8; 10]
    ensures { result.now
        ≡ codes " " ++ east_west_letter direction ++ codes ".," ++ line_end ++ codes "sec. " }
{
    match direction {
        EastWest::E => b" E.,\nsec. ",
        EastWest::W => b" W.,\nsec. ",
    }
}
