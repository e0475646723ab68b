//! The written parts of a fine square, which two quarterings divide into places, given which of its
//! places are in the land.
ghost use Rattle.std.specs.Prelude.{◌≡◌, ◌+◌, ◌*◌, ◌≤◌, [], ◌∷◌, ℕ, Bool, List, length, None};
ghost use Rattle.twp_grid.specs.Places.{PLACE_DIGITS};
ghost use Rattle.twp_grid.specs.declared.block.Corner.{Corner};
ghost use Rattle.twp_spell.specs.WrittenParts.{IsFull};
ghost use Rattle.twp_spell.specs.WrittenParts.Part.{square};
ghost use Rattle.twp_spell.specs.steps.Spelling.{AreOfSquare, AreOfQuarter, AreWritten, AreFull};
ghost use Rattle.twp_spell.specs.steps.Spelling.{PART_MOST, BUFFER_MOST, chosen_of, quarters_text};

use crate::full_quarters::{FullQuarters, Path};
use crate::part_text::{PartBuffer, half_at, push_half_if_first};
use twp_grid::Corner;

/// Adds the written parts of a fine square that is not full. Each of its quarters has four places.
#[inline(always)]
pub(crate) fn push_fine_square(
    full: FullQuarters,
    ne: FullQuarters,
    nw: FullQuarters,
    sw: FullQuarters,
    se: FullQuarters,
    path: &Path,
    buffer: &mut PartBuffer,
)
    requires { buffer.old ≡ [] }
    ensures { (held : ℕ → ℕ → Bool) (quarters : List Corner) → length quarters + 2 ≡ PLACE_DIGITS
        → path.now ≡ quarters_text quarters
        → ¬ IsFull PLACE_DIGITS held (square quarters)
        → AreFull PLACE_DIGITS held quarters full
        → AreFull PLACE_DIGITS held (Corner.NE ∷ quarters) ne
        → AreFull PLACE_DIGITS held (Corner.NW ∷ quarters) nw
        → AreFull PLACE_DIGITS held (Corner.SW ∷ quarters) sw
        → AreFull PLACE_DIGITS held (Corner.SE ∷ quarters) se
        → AreWritten (AreOfSquare PLACE_DIGITS held quarters) buffer.old buffer.new }
{
    if full.has_half() {
        push_quarter_of(full, ne, Corner::NE, path, buffer);
        push_quarter_of(full, nw, Corner::NW, path, buffer);
        push_quarter_of(full, sw, Corner::SW, path, buffer);
        push_quarter_of(full, se, Corner::SE, path, buffer);
        return;
    }
    push_single_quarter(full, ne, Corner::NE, path, buffer);
    push_single_quarter(full, nw, Corner::NW, path, buffer);
    push_single_quarter(full, sw, Corner::SW, path, buffer);
    push_single_quarter(full, se, Corner::SE, path, buffer);
}

/// Adds the written parts that begin in a quarter of such a square.
#[inline(never)]
fn push_quarter_of(
    full: FullQuarters,
    places: FullQuarters,
    corner: Corner,
    path: &Path,
    buffer: &mut PartBuffer,
)
    requires { length buffer.old + 4 * PART_MOST ≤ BUFFER_MOST }
    ensures parts { (held : ℕ → ℕ → Bool) (quarters : List Corner)
        → length quarters + 2 ≡ PLACE_DIGITS
        → path.now ≡ quarters_text quarters
        → ¬ IsFull PLACE_DIGITS held (square quarters)
        → AreFull PLACE_DIGITS held quarters full
        → AreFull PLACE_DIGITS held (corner ∷ quarters) places
        → AreWritten (AreOfQuarter PLACE_DIGITS held quarters corner) buffer.old buffer.new }
    ensures most { length buffer.new ≤ length buffer.old + 4 * PART_MOST }
{
    if let Some(side) = half_at(full.chosen_half(), corner) {
        return push_half_if_first(side, corner, path, buffer);
    }
    if full.at(corner) {
        return buffer.push_quarter(corner, path);
    }
    push_places(places, &path.quarter(corner), buffer)
}

/// Adds the written parts that begin in a quarter of such a square, if none of its halves is full.
#[inline(always)]
fn push_single_quarter(
    full: FullQuarters,
    places: FullQuarters,
    corner: Corner,
    path: &Path,
    buffer: &mut PartBuffer,
)
    requires { length buffer.old + 4 * PART_MOST ≤ BUFFER_MOST }
    ensures parts { (held : ℕ → ℕ → Bool) (quarters : List Corner)
        → length quarters + 2 ≡ PLACE_DIGITS
        → path.now ≡ quarters_text quarters
        → ¬ IsFull PLACE_DIGITS held (square quarters)
        → AreFull PLACE_DIGITS held quarters full
        → (chosen_of full ≡ None)
        → AreFull PLACE_DIGITS held (corner ∷ quarters) places
        → AreWritten (AreOfQuarter PLACE_DIGITS held quarters corner) buffer.old buffer.new }
    ensures most { length buffer.new ≤ length buffer.old + 4 * PART_MOST }
{
    if full.at(corner) {
        return buffer.push_quarter(corner, path);
    }
    if places.has_half() {
        return push_places(places, &path.quarter(corner), buffer);
    }
    push_single_places(places, corner, path, buffer)
}

/// Adds the written parts of a square of four places that is not full.
#[inline(never)]
fn push_places(full: FullQuarters, path: &Path, buffer: &mut PartBuffer)
    requires { length buffer.old + 4 * PART_MOST ≤ BUFFER_MOST }
    ensures parts { (held : ℕ → ℕ → Bool) (quarters : List Corner)
        → length quarters + 1 ≡ PLACE_DIGITS
        → path.now ≡ quarters_text quarters
        → ¬ IsFull PLACE_DIGITS held (square quarters)
        → AreFull PLACE_DIGITS held quarters full
        → AreWritten (AreOfSquare PLACE_DIGITS held quarters) buffer.old buffer.new }
    ensures most { length buffer.new ≤ length buffer.old + 4 * PART_MOST }
{
    push_place(full, Corner::NE, path, buffer);
    push_place(full, Corner::NW, path, buffer);
    push_place(full, Corner::SW, path, buffer);
    push_place(full, Corner::SE, path, buffer);
}

/// Adds the written part that begins in a place of such a square, if one does.
#[inline(always)]
fn push_place(full: FullQuarters, corner: Corner, path: &Path, buffer: &mut PartBuffer)
    requires { length buffer.old + PART_MOST ≤ BUFFER_MOST }
    ensures parts { (held : ℕ → ℕ → Bool) (quarters : List Corner)
        → length quarters + 1 ≡ PLACE_DIGITS
        → path.now ≡ quarters_text quarters
        → ¬ IsFull PLACE_DIGITS held (square quarters)
        → AreFull PLACE_DIGITS held quarters full
        → AreWritten (AreOfQuarter PLACE_DIGITS held quarters corner) buffer.old buffer.new }
    ensures most { length buffer.new ≤ length buffer.old + PART_MOST }
{
    if let Some(side) = half_at(full.chosen_half(), corner) {
        return push_half_if_first(side, corner, path, buffer);
    }
    if full.at(corner) {
        return buffer.push_quarter(corner, path);
    }
}

/// Adds the written parts of a quarter of such a square, if none of the quarter's halves is full:
/// the places in the land.
#[inline(always)]
fn push_single_places(full: FullQuarters, outer: Corner, path: &Path, buffer: &mut PartBuffer)
    requires { length buffer.old + 4 * PART_MOST ≤ BUFFER_MOST }
    ensures parts { (held : ℕ → ℕ → Bool) (quarters : List Corner)
        → length quarters + 2 ≡ PLACE_DIGITS
        → path.now ≡ quarters_text quarters
        → ¬ IsFull PLACE_DIGITS held (square (outer ∷ quarters))
        → AreFull PLACE_DIGITS held (outer ∷ quarters) full
        → (chosen_of full ≡ None)
        → AreWritten (AreOfSquare PLACE_DIGITS held (outer ∷ quarters)) buffer.old buffer.new }
    ensures most { length buffer.new ≤ length buffer.old + 4 * PART_MOST }
{
    push_single_place(full, Corner::NE, outer, path, buffer);
    push_single_place(full, Corner::NW, outer, path, buffer);
    push_single_place(full, Corner::SW, outer, path, buffer);
    push_single_place(full, Corner::SE, outer, path, buffer);
}

/// Adds a place of such a quarter, if it is in the land.
#[inline(always)]
fn push_single_place(
    full: FullQuarters,
    corner: Corner,
    outer: Corner,
    path: &Path,
    buffer: &mut PartBuffer,
)
    requires { length buffer.old + PART_MOST ≤ BUFFER_MOST }
    ensures parts { (held : ℕ → ℕ → Bool) (quarters : List Corner)
        → length quarters + 2 ≡ PLACE_DIGITS
        → path.now ≡ quarters_text quarters
        → ¬ IsFull PLACE_DIGITS held (square (outer ∷ quarters))
        → AreFull PLACE_DIGITS held (outer ∷ quarters) full
        → (chosen_of full ≡ None)
        → AreWritten (AreOfQuarter PLACE_DIGITS held (outer ∷ quarters) corner)
        buffer.old buffer.new }
    ensures most { length buffer.new ≤ length buffer.old + PART_MOST }
{
    if full.at(corner) {
        return buffer.push_inner(corner, outer, path);
    }
}
