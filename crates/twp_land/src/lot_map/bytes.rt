//! The bytes of a section's positions, or of a position's places, all at once: those of a section as a
//! vector; and the loops have no early exit, so LLVM handles many steps together.
ghost use Rattle.std.specs.Prelude.{◌≡◌, ◌≢◌, ◌+◌, ◌-◌, ◌*◌, ◌≤◌, ◌<◌, ◌&&◌, ◌↔◌, ℕ, IsTrue, get_or};
ghost use Rattle.std.specs.Prelude.{length, nat_le, nat_lt};
ghost use Rattle.std.specs.Prelude.{map, drop, min, if◌then◌else◌};
ghost use Rattle.std.specs.Simd.Lanes.{chunk, mask_l};
ghost use Rattle.twp_land.specs.steps.LotBytes.{AreColumns, AreNone, IsLowest, bytes_less};
ghost use Rattle.twp_land.specs.declared.lot_map.bytes.Columns.{Columns};

use crate::lot_map::{DIVIDED_BYTES, NO_LAND, PLACES_OF_POSITION, POSITION_BYTES, POSITIONS};
use std::simd::prelude::*;
use twp_grid::Section;

/// Columns of half a position, which is its four southern or northern rows.
#[derive(Clone, Copy)]
pub enum Columns {
    /// All eight.
    All,
    /// The four in the east.
    East,
    /// The four in the west.
    West,
}

/// Which places of half a position have marks from a least to a greatest.
#[derive(Clone, Copy)]
pub enum Extent {
    /// Those in these columns.
    Held(Columns),
    /// None of them.
    Nothing,
    /// None of the whole position.
    Empty,
    /// Perhaps others.
    Mixed,
}

/// A bit for each place of half a position: in all columns, in those in the east, and in those in the
/// west.
const ALL_BITS: u64 = 0xffff_ffff;

const EAST_BITS: u64 = 0x0f0f_0f0f;

const WEST_BITS: u64 = 0xf0f0_f0f0;

/// The bytes of a section's positions.
#[inline(always)]
fn section_bytes(positions: &[u8; POSITION_BYTES], section: Section) -> u8x16
    ensures bytes { result ≡ chunk ((section - 1) * 16) 16 positions.now }
    ensures fits { (section - 1) * 16 + 16 ≤ length positions.now }
{
    u8x16::from_slice(&positions[usize::from(section.number() - 1) * POSITIONS..])
}

/// Whether each of them is less than a number.
#[inline(always)]
pub(crate) fn are_below(positions: &[u8; POSITION_BYTES], section: Section, least: u8) -> bool
    ensures { IsTrue result → (index : ℕ) → index < 16
        → get_or positions.now ((section - 1) * 16 + index) 0 < least }
{
    let bytes = section_bytes(positions, section);
    u8x16::splat(least).simd_le(bytes).to_bitmask() == 0
}

/// Whether one of them is a number.
#[inline(always)]
pub(crate) fn has_byte(positions: &[u8; POSITION_BYTES], section: Section, byte: u8) -> bool
    ensures { IsTrue result → (index : ℕ) × (index < 16)
        × (get_or positions.now ((section - 1) * 16 + index) 0 ≡ byte) }
{
    let bytes = section_bytes(positions, section);
    bytes.simd_eq(u8x16::splat(byte)).to_bitmask() != 0
}

/// A bit for each position of a section from an index on: whether its byte is from a least to a
/// greatest.
#[inline(always)]
fn later_between(
    positions: &[u8; POSITION_BYTES],
    section: Section,
    from: usize,
    least: u8,
    most: u8,
) -> u64
    requires from { from ≤ 16 }
    requires range { least ≤ most }
    ensures bits { result ≡ mask_l (map (λ byte. nat_le byte (most - least))
        (drop from (bytes_less least (chunk ((section - 1) * 16) 16 positions.now)))) }
    ensures fits { (section - 1) * 16 + 16 ≤ length positions.now }
{
    let more = section_bytes(positions, section) - u8x16::splat(least);
    more.simd_le(u8x16::splat(most - least)).to_bitmask() >> from
}

/// The first position of a section, from an index on, whose byte is from a least to a greatest; 16 if
/// there is none.
#[inline(always)]
pub(crate) fn first_between(
    positions: &[u8; POSITION_BYTES],
    section: Section,
    from: usize,
    least: u8,
    most: u8,
) -> usize
    requires from { from ≤ 16 }
    requires range { least ≤ most }
    ensures from { from ≤ result }
    ensures within { result ≤ 16 }
    ensures passed { (index : ℕ) → from ≤ index → index < result
        → least ≤ get_or positions.now ((section - 1) * 16 + index) 0
        → ¬ (get_or positions.now ((section - 1) * 16 + index) 0 ≤ most) }
    ensures bytes { (index : ℕ) → get_or positions.now index 0 < 256 }
{
    let sought = later_between(positions, section, from, least, most);
    if sought == 0 {
        return POSITIONS;
    }
    from + sought.trailing_zeros() as usize
}

/// The lowest mark of a divided position that is greater than a number; 100 if there is none.
#[inline(never)]
pub(crate) fn lowest_in(divided: &[u8; DIVIDED_BYTES], first: usize, after: u8) -> u8
    requires fits { first + 64 ≤ 8192 }
    requires after { after < 100 }
    ensures { IsLowest divided.now first 64 after result }
{
    let mut lowest = NO_LAND;
    for within in 0..PLACES_OF_POSITION {
        lowest = lowest.min(mark_after(divided[first + within], after));
    }
    lowest
}

/// The mark of a byte, if it is greater than a number, or else 100.
#[inline(always)]
fn mark_after(byte: u8, after: u8) -> u8
    ensures { result ≡ (if nat_lt after byte then min byte 100 else 100) }
{
    if after < byte {
        return byte.min(NO_LAND);
    }
    NO_LAND
}

/// Which places of half a divided position have marks from a least to a greatest, by the index of the
/// first byte of the half.
#[inline(always)]
pub(crate) fn extent_in(divided: &[u8; DIVIDED_BYTES], first: usize, least: u8, most: u8) -> Extent
    requires fits { first + 32 ≤ 8192 }
    requires range { least ≤ most }
    ensures held { (columns : Columns) → result ≡ Extent.Held columns
        → AreColumns divided.now first least most columns }
    ensures nothing { result ≡ Extent.Nothing → AreNone divided.now first 32 least most }
    ensures half { result ≢ Extent.Empty }
{
    if least > NO_LAND {
        return Extent::Mixed;
    }
    let bits = half_bits(divided, first, least, top_of(most));
    if bits == 0 {
        return Extent::Nothing;
    }
    if bits == ALL_BITS {
        return Extent::Held(Columns::All);
    }
    if bits == EAST_BITS {
        return Extent::Held(Columns::East);
    }
    if bits == WEST_BITS {
        return Extent::Held(Columns::West);
    }
    Extent::Mixed
}

/// The bytes of half a divided position.
#[inline(always)]
fn half_bytes(divided: &[u8; DIVIDED_BYTES], first: usize) -> u8x32
    requires { first + 32 ≤ 8192 }
    ensures bytes { result ≡ chunk first 32 divided.now }
    ensures fits { first + 32 ≤ length divided.now }
{
    u8x32::from_slice(&divided[first..])
}

/// A bit for each place of half a divided position: whether its byte is from a least to a greatest.
#[inline(always)]
fn half_bits(divided: &[u8; DIVIDED_BYTES], first: usize, least: u8, most: u8) -> u64
    requires fits { first + 32 ≤ 8192 }
    requires range { least ≤ most }
    ensures bits { result ≡ mask_l (map (λ byte. nat_le byte (most - least))
        (bytes_less least (chunk first 32 divided.now))) }
    ensures fits { first + 32 ≤ length divided.now }
{
    let more = half_bytes(divided, first) - u8x32::splat(least);
    more.simd_le(u8x32::splat(most - least)).to_bitmask()
}

/// The greatest byte of a mark that is at most this: each byte that is greater than that of no land marks
/// none, too.
#[inline(always)]
fn top_of(most: u8) -> u8
    ensures least { most ≤ result }
    ensures marks { (byte : ℕ) → byte < 256 → (min byte 100 ≤ most ↔ byte ≤ result) }
{
    if most >= NO_LAND {
        return u8::MAX;
    }
    most
}

/// Whether a mark is from a least to a greatest.
#[inline(always)]
pub(crate) fn is_between(mark: u8, least: u8, most: u8) -> bool
    ensures { result ≡ (nat_le least mark && nat_le mark most) }
{
    (least <= mark) & (mark <= most)
}
