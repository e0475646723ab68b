//! The half and the quarters of a square, as they are written; and a buffer for a few written parts, which
//! are appended to a text together.
ghost use Rattle.std.specs.Prelude.{◌≡◌, ◌↔◌, ◌+◌, ◌++◌, ◌≤◌, Some, length, IsTrue, OnOk};
ghost use Rattle.std.specs.Prelude.{MatchOption, codes, []};
ghost use Rattle.twp_grammar.specs.declared.item.Step.TheVariants.{Half, Quarter};
ghost use Rattle.twp_spell.specs.WrittenParts.{IsOnSide};
ghost use Rattle.twp_spell.specs.CanonicalText.{step_text};
ghost use Rattle.twp_spell.specs.steps.Spelling.{PART_MOST, BUFFER_MOST, quarter_on};

use crate::full_quarters::{PATH_BYTES, PATH_QUARTER_BYTES, Path, quarter_text};
use std::alloc::AllocError;
use std::marker::Model;
use twp_grid::{Corner, Side};

/// The chosen half, if the quarter lies in it.
#[inline(always)]
pub(crate) fn half_at(chosen: Option<Side>, corner: Corner) -> Option<Side>
    ensures { MatchOption result
        ((side : Side) → chosen ≡ Some side → ¬ IsOnSide side corner)
        (λ side. (chosen ≡ Some side) × IsOnSide side corner) }
{
    let Some(side) = chosen else {
        return None;
    };
    if is_on_side(side, corner) {
        return Some(side);
    }
    None
}

/// Adds a half, if this is the first of its quarters.
#[inline(always)]
pub(crate) fn push_half_if_first(side: Side, corner: Corner, path: &Path, buffer: &mut PartBuffer)
    requires { length buffer.old + PART_MOST ≤ BUFFER_MOST }
    ensures first { (quarter_on side ≡ corner)
        → (buffer.new ≡ buffer.old ++ (codes ", " ++ (step_text (Half side) ++ path.now))) }
    ensures second { ¬ (quarter_on side ≡ corner) → (buffer.new ≡ buffer.old) }
    ensures most { length buffer.new ≤ length buffer.old + PART_MOST }
{
    if first_quarter(side) == corner {
        buffer.push_half(side, path);
    }
}

/// Appends a half, if this is the first of its quarters.
#[inline(never)]
pub(crate) fn write_half_if_first(
    side: Side,
    corner: Corner,
    path: &Path,
    text: &mut Vec<u8>,
) -> Result<(), AllocError>
    ensures first { (quarter_on side ≡ corner) → OnOk result
        (text.new.items ≡ text.old.items ++ (codes ", " ++ (step_text (Half side) ++ path.now))) }
    ensures second { ¬ (quarter_on side ≡ corner) → OnOk result (text.new.items ≡ text.old.items) }
{
    if first_quarter(side) != corner {
        return Ok(());
    }
    text.extend_from_slice(half_step(side))?;
    write_path(path, text)
}

/// Appends a quarter that is full.
#[inline(never)]
pub(crate) fn write_full_quarter(
    corner: Corner,
    path: &Path,
    text: &mut Vec<u8>,
) -> Result<(), AllocError>
    ensures { OnOk result (text.new.items
        ≡ text.old.items ++ ((codes ", " ++ step_text (Quarter corner)) ++ path.now)) }
{
    text.extend_from_slice(quarter_step(corner))?;
    write_path(path, text)
}

/// Appends a path. That of the section itself is empty, and most parts are its halves and quarters.
#[inline(always)]
fn write_path(path: &Path, text: &mut Vec<u8>) -> Result<(), AllocError>
    ensures { OnOk result (text.new.items ≡ text.old.items ++ path.now) }
{
    if path.len() == 0 {
        return Ok(());
    }
    text.extend_from_slice(path.written())
}

/// Whether a square's quarter lies in its half.
#[inline(always)]
fn is_on_side(side: Side, corner: Corner) -> bool
    ensures { IsTrue result ↔ IsOnSide side corner }
{
    match side {
        Side::N => corner == Corner::NE || corner == Corner::NW,
        Side::S => corner == Corner::SW || corner == Corner::SE,
        Side::E => corner == Corner::NE || corner == Corner::SE,
        Side::W => corner == Corner::NW || corner == Corner::SW,
    }
}

/// The first of a half's two quarters.
#[tactic(auto, unfolding(crate::specs::steps::Spelling::quarter_on))]
pub(crate) fn first_quarter(side: Side) -> Corner
    ensures { result ≡ quarter_on side }
{
    match side {
        Side::N => Corner::NE,
        Side::S => Corner::SW,
        Side::E => Corner::NE,
        Side::W => Corner::NW,
    }
}

/// The length of a half after a comma, in bytes.
const HALF_BYTES: usize = 6;

/// The length of a quarter after a comma, in bytes.
const QUARTER_BYTES: usize = 7;

/// The bytes that are kept for a place: a quarter after a comma, the quarter that contains it, and
/// a path.
const PLACE_BYTES: usize = QUARTER_BYTES + PATH_QUARTER_BYTES + PATH_BYTES;

/// The number of places along a side of a fine square, which two quarterings divide into its
/// places.
pub(crate) const FINE_SIDE: u8 = 1 << 2;

/// The length of as many parts as a fine square has places, in bytes.
const BUFFER_BYTES: usize = FINE_SIDE as usize * FINE_SIDE as usize * PLACE_BYTES;

/// Parts as they are written, each after a comma. They need no allocation.
#[derive(Drop)]
pub(crate) struct PartBuffer {
    bytes: [u8; BUFFER_BYTES],
    len: usize,
}

impl Model for PartBuffer {
    ghost use Rattle.std.specs.Prelude.{◌≤◌, ℕ, List, take};

    ghost Value = { List ℕ };

    ghost view = { λ buffer. take buffer.len buffer.bytes };

    ghost use Rattle.twp_spell.specs.steps.Spelling.{BUFFER_MOST};

    ghost invariant = { λ buffer. buffer.len ≤ BUFFER_MOST };
}

impl PartBuffer {
    /// No parts.
    #[inline(always)]
    pub(crate) fn new() -> PartBuffer
        ensures { result ≡ [] }
    {
        PartBuffer {
            bytes: [0; BUFFER_BYTES],
            len: 0,
        }
    }

    /// Adds a quarter of the square that a path reaches. All bytes of the path are copied, because
    /// a copy of a known length is fast; the next part overwrites those after the path's end.
    #[inline(always)]
    pub(crate) fn push_quarter(&mut self, corner: Corner, path: &Path)
        requires { length self.old + PART_MOST ≤ BUFFER_MOST }
        ensures text { self.new ≡ self.old ++ ((codes ", " ++ step_text (Quarter corner)) ++ path.now) }
        ensures most { length self.new ≤ length self.old + PART_MOST }
    {
        let after = self.len + QUARTER_BYTES;
        self.bytes[self.len..after].copy_from_slice(quarter_step(corner));
        self.bytes[after..after + PATH_BYTES].copy_from_slice(path.bytes());
        self.len = after + path.len();
    }

    /// Adds a half of the square that a path reaches.
    #[inline(always)]
    pub(crate) fn push_half(&mut self, side: Side, path: &Path)
        requires { length self.old + PART_MOST ≤ BUFFER_MOST }
        ensures text { self.new ≡ self.old ++ ((codes ", " ++ step_text (Half side)) ++ path.now) }
        ensures most { length self.new ≤ length self.old + PART_MOST }
    {
        let after = self.len + HALF_BYTES;
        self.bytes[self.len..after].copy_from_slice(half_step(side));
        self.bytes[after..after + PATH_BYTES].copy_from_slice(path.bytes());
        self.len = after + path.len();
    }

    /// Adds a quarter of a quarter of the square that a path reaches.
    #[inline(always)]
    pub(crate) fn push_inner(&mut self, corner: Corner, outer: Corner, path: &Path)
        requires { length self.old + PART_MOST ≤ BUFFER_MOST }
        ensures text { self.new ≡ self.old
            ++ ((codes ", " ++ step_text (Quarter corner)) ++ (step_text (Quarter outer) ++ path.now)) }
        ensures most { length self.new ≤ length self.old + PART_MOST }
    {
        let middle = self.len + QUARTER_BYTES;
        let after = middle + PATH_QUARTER_BYTES;
        self.bytes[self.len..middle].copy_from_slice(quarter_step(corner));
        self.bytes[middle..after].copy_from_slice(quarter_text(outer));
        self.bytes[after..after + PATH_BYTES].copy_from_slice(path.bytes());
        self.len = after + path.len();
    }

    /// Appends the parts to a text.
    #[inline(always)]
    pub(crate) fn append_to(&self, text: &mut Vec<u8>) -> Result<(), AllocError>
        ensures { OnOk result (text.new.items ≡ text.old.items ++ self.now) }
    {
        text.extend_from_slice(&self.bytes[..self.len])
    }
}

/// The half toward a side, as it is written after a comma.
#[inline(always)]
pub(crate) fn half_step(side: Side) -> &'static [u8; HALF_BYTES]
    ensures { result.now ≡ codes ", " ++ step_text (Half side) }
{
    match side {
        Side::N => b", N1/2",
        Side::S => b", S1/2",
        Side::E => b", E1/2",
        Side::W => b", W1/2",
    }
}

/// The quarter at a corner, as it is written after a comma.
#[inline(always)]
pub(crate) fn quarter_step(corner: Corner) -> &'static [u8; QUARTER_BYTES]
    ensures { result.now ≡ codes ", " ++ step_text (Quarter corner) }
{
    match corner {
        Corner::NE => b", NE1/4",
        Corner::NW => b", NW1/4",
        Corner::SW => b", SW1/4",
        Corner::SE => b", SE1/4",
    }
}
