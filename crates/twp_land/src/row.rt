ghost use Rattle.std.specs.Prelude.{◌≡◌, ◌+◌, ◌-◌, ◌*◌, ◌^◌, ◌≤◌, length, count_ones, ◌↔◌, IsTrue};
ghost use Rattle.twp_grid.specs.Places.{PLACE_DIGITS, places_across};
ghost use Rattle.twp_grid.specs.Spans.{IsDyadic};
ghost use Rattle.twp_land.specs.steps.BitLanes.{AreBlockLanes, AreLanes, ones_in_lanes, LANE_BITS};
ghost use Rattle.twp_land.specs.steps.RowTests.{SomeHeld, EachHeld, count_in_row, IsFilled};
ghost use Rattle.twp_land.specs.steps.RowTests.{IsCleared, AreAlike, ShareInRow, IsJoined};
ghost use Rattle.twp_land.specs.steps.RowTests.{IsCommon, HasAllOf, IsTaken};

use std::simd::prelude::*;
use twp_grid::{Block, PLACES_ACROSS};

/// A row's places: a bit for each column.
pub(crate) type Lane = u32;

/// A row of a section's places as a lane of bits.
pub(crate) type LaneVector = u32x32;

/// The bit of each row, in the row's lane.
const ROW_BITS: [Lane; PLACES_ACROSS] = [
    1, 2, 4, 8, 16, 32, 64, 128, 256, 512, 1024, 2048, 4096, 8192, 16384, 32768, 65536, 131072,
    262144, 524288, 1048576, 2097152, 4194304, 8388608, 16777216, 33554432, 67108864, 134217728,
    268435456, 536870912, 1073741824, 2147483648,
];

/// A vector with the lanes of a section's rows.
#[inline(always)]
pub(crate) fn vector(lanes: &[Lane]) -> LaneVector
    requires { length lanes.now ≡ places_across PLACE_DIGITS }
    ensures lanes { result ≡ lanes.now }
    ensures below { AreLanes lanes.now }
{
    LaneVector::from_slice(lanes)
}

/// A number of one bits, from a start on.
#[inline(always)]
pub(crate) fn ones(start: u8, len: u8) -> Lane
    requires { start + len ≤ places_across PLACE_DIGITS }
    ensures { result ≡ 2 ^ (start + len) - 2 ^ start }
{
    (((1_u64 << len) - 1) << start) as Lane
}

/// The bits of a block's columns.
#[inline(always)]
pub(crate) fn column_bits(block: Block) -> Lane
    ensures value { result
        ≡ 2 ^ (block.columns.start + block.columns.len) - 2 ^ block.columns.start }
    ensures dyadic { IsDyadic PLACE_DIGITS block.columns }
{
    ones(block.column(), block.width())
}

/// The bits of a block's columns, in the lane of each of its rows.
#[inline(always)]
pub(crate) fn block_lanes(block: Block) -> LaneVector
    ensures lanes { AreBlockLanes block result }
    ensures rows { IsDyadic PLACE_DIGITS block.rows }
    ensures columns { IsDyadic PLACE_DIGITS block.columns }
{
    let rows = LaneVector::splat(ones(block.row(), block.height()));
    let columns = LaneVector::splat(column_bits(block));
    // The compiler knows an array that is passed by value, but not what is read by a reference. So
    // the lanes of a known block are constants.
    let row_bits = LaneVector::from_array(ROW_BITS);
    (rows & row_bits)
        .simd_eq(row_bits)
        .select(columns, LaneVector::splat(0))
}

/// How many bits of all lanes are one. Two lanes at a time make a word, since x86-64-v2 counts the
/// bits of a word by one instruction, and those of a vector by a table of half bytes.
#[inline(always)]
pub(crate) fn count_bits(lanes: &[Lane; PLACES_ACROSS]) -> u32
    ensures { result ≡ ones_in_lanes lanes.now }
{
    let mut count = 0;
    for pair in 0..PLACES_ACROSS / 2 {
        count += count_pair(lanes[2 * pair], lanes[2 * pair + 1]);
    }
    count
}

/// How many bits of two lanes are one.
#[inline(always)]
fn count_pair(low: Lane, high: Lane) -> u32
    ensures count { result ≡ count_ones low + count_ones high }
    ensures most { result ≤ 2 * LANE_BITS }
{
    (u64::from(low) + (u64::from(high) << 32)).count_ones()
}

/// A row of a section's places: whether the set contains each, from the east.
pub(crate) type Row = [bool; PLACES_ACROSS];

/// Whether the row contains any of this many places from a start.
pub(crate) fn some_held(row: &Row, start: usize, len: usize) -> bool
    requires { start + len ≤ places_across PLACE_DIGITS }
    ensures { IsTrue result ↔ SomeHeld row.now start len }
{
    for along in 0..len {
        if row[start + along] {
            return true;
        }
    }
    false
}

/// Whether the row contains all of this many places from a start.
pub(crate) fn each_held(row: &Row, start: usize, len: usize) -> bool
    requires { start + len ≤ places_across PLACE_DIGITS }
    ensures { IsTrue result ↔ EachHeld row.now start len }
{
    for along in 0..len {
        if !row[start + along] {
            return false;
        }
    }
    true
}

/// How many of this many places from a start the row contains.
pub(crate) fn count_held(row: &Row, start: usize, len: usize) -> u32
    requires { start + len ≤ places_across PLACE_DIGITS }
    ensures count { result ≡ count_in_row row.now start len }
    ensures most { result ≤ len }
{
    let mut count = 0;
    for along in 0..len {
        if row[start + along] {
            count += 1;
        }
    }
    count
}

/// The row with this many places from a start added.
pub(crate) fn filled(row: &Row, start: usize, len: usize) -> Row
    requires { start + len ≤ places_across PLACE_DIGITS }
    ensures { IsFilled row.now (record { start = start; len = len }) result }
{
    let mut filled = *row;
    for along in 0..len {
        filled[start + along] = true;
    }
    filled
}

/// The row with this many places from a start removed.
pub(crate) fn cleared(row: &Row, start: usize, len: usize) -> Row
    requires { start + len ≤ places_across PLACE_DIGITS }
    ensures { IsCleared row.now (record { start = start; len = len }) result }
{
    let mut cleared = *row;
    for along in 0..len {
        cleared[start + along] = false;
    }
    cleared
}

/// Whether both rows contain the same places.
pub(crate) fn alike(row: &Row, other: &Row) -> bool
    ensures { IsTrue result ↔ AreAlike row.now other.now }
{
    for column in 0..PLACES_ACROSS {
        if row[column] != other[column] {
            return false;
        }
    }
    true
}

/// Whether the row contains every place of another.
pub(crate) fn contains(row: &Row, other: &Row) -> bool
    ensures { IsTrue result ↔ HasAllOf row.now other.now }
{
    for column in 0..PLACES_ACROSS {
        if other[column] && !row[column] {
            return false;
        }
    }
    true
}

/// Whether the rows share a place.
pub(crate) fn share(row: &Row, other: &Row) -> bool
    ensures { IsTrue result ↔ ShareInRow row.now other.now }
{
    for column in 0..PLACES_ACROSS {
        if row[column] && other[column] {
            return true;
        }
    }
    false
}

/// The row with the places of another added.
pub(crate) fn joined(row: &Row, other: &Row) -> Row
    ensures { IsJoined row.now other.now result }
{
    let mut joined = *row;
    for column in 0..PLACES_ACROSS {
        joined[column] = row[column] || other[column];
    }
    joined
}

/// The row without the places of another.
pub(crate) fn taken(row: &Row, other: &Row) -> Row
    ensures { IsTaken row.now other.now result }
{
    let mut taken = *row;
    for column in 0..PLACES_ACROSS {
        taken[column] = row[column] && !other[column];
    }
    taken
}

/// The row with only the places that another also contains.
pub(crate) fn common(row: &Row, other: &Row) -> Row
    ensures { IsCommon row.now other.now result }
{
    let mut common = *row;
    for column in 0..PLACES_ACROSS {
        common[column] = row[column] && other[column];
    }
    common
}

/// A block's rows and columns as indexes.
#[derive(Clone, Copy)]
pub(crate) struct Window {
    pub(crate) row: usize,
    pub(crate) height: usize,
    pub(crate) column: usize,
    pub(crate) width: usize,
}

impl Window {
    pub(crate) fn of(block: Block) -> Window
        ensures row { result.row ≡ block.rows.start }
        ensures height { result.height ≡ block.rows.len }
        ensures column { result.column ≡ block.columns.start }
        ensures width { result.width ≡ block.columns.len }
        ensures rows { IsDyadic PLACE_DIGITS block.rows }
        ensures columns { IsDyadic PLACE_DIGITS block.columns }
    {
        Window {
            row: usize::from(block.row()),
            height: usize::from(block.height()),
            column: usize::from(block.column()),
            width: usize::from(block.width()),
        }
    }
}
