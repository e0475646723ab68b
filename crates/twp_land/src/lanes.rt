ghost use Rattle.std.specs.Prelude.{◌≡◌, ◌+◌, ◌-◌, true, false};
ghost use Rattle.twp_grid.specs.Places.{PLACE_DIGITS};
ghost use Rattle.twp_grid.specs.Spans.{IsDyadic};
ghost use Rattle.twp_land.specs.Storage.{held_by_lane, nothing_held};

use crate::plot::Plot;
use crate::row::{Lane, block_lanes, column_bits, count_bits, vector};
use crate::sections::Sections;
use std::simd::prelude::*;
use twp_grid::{Block, PLACES_ACROSS};

/// A `Land` that stores a bit for each place, in lanes.
pub type Lanes = Sections<LaneRows>;

/// A section's places as lanes of bits: a lane for each row, from the south, and in it a bit for
/// each column, from the east.
///
/// The smallest parts, which make up long lists, have one or two rows of places. To test whether
/// the set meets such a block, or to add it, the lanes of its first and its last row are enough,
/// and no vector of all lanes is made for it. For a block with more rows, all lanes are used at
/// once.
#[derive(Clone, Copy)]
pub struct LaneRows {
    lanes: [Lane; PLACES_ACROSS],
    /// Whether places were added. Most sections of a land have none, and are passed over by this.
    touched: bool,
    ghost untouched: { touched ≡ false → held_by_lane lanes ≡ nothing_held },
}

/// The most rows of a block that has only a first and a last row.
const LOW: u8 = 2;

/// The first and the last row of a block.
#[inline(always)]
fn end_rows(block: Block) -> (usize, usize)
    ensures first { result.0 ≡ block.rows.start }
    ensures last { result.1 ≡ block.rows.start + block.rows.len - 1 }
    ensures dyadic { IsDyadic PLACE_DIGITS block.rows }
{
    let first = usize::from(block.row());
    (first, first + usize::from(block.height()) - 1)
}

impl LaneRows {
    /// The set whose places are the one bits of the lanes.
    #[inline(always)]
    pub(crate) fn of_lanes(lanes: &[Lane; PLACES_ACROSS]) -> LaneRows
        ensures { ⟦<LaneRows as Plot>⟧.held result ≡ held_by_lane lanes.now }
    {
        LaneRows {
            lanes: *lanes,
            touched: true,
        }
    }

    /// Notes that places are added.
    #[inline(always)]
    fn touch(&mut self)
        ensures lanes { self.new.lanes ≡ self.old.lanes }
        ensures touched { self.new.touched ≡ true }
    {
        self.touched = true;
    }

    /// The lanes, with a one bit for each place.
    #[inline(always)]
    pub(crate) fn lanes(&self) -> [Lane; PLACES_ACROSS]
        ensures { held_by_lane result ≡ ⟦<LaneRows as Plot>⟧.held self.now }
    {
        self.lanes
    }
}

impl Plot for LaneRows {
    ghost use Rattle.twp_land.specs.Storage.{held_by_lane};

    ghost held = { λ plot. held_by_lane plot.lanes };

    ghost use Rattle.twp_land.specs.steps.Within.{lane_within};

    ghost within = { λ plot column row held. lane_within plot.lanes column row held };

    fn empty() -> Self {
        LaneRows {
            lanes: [0; PLACES_ACROSS],
            touched: false,
        }
    }

    #[inline]
    fn holds(&self, column: u8, row: u8) -> bool {
        (self.lanes[usize::from(row)] >> column) & 1 == 1
    }

    #[inline]
    fn meets(&self, block: Block) -> bool {
        if block.height() <= LOW {
            let bits = column_bits(block);
            let (first, last) = end_rows(block);
            return (self.lanes[first] & bits) | (self.lanes[last] & bits) != 0;
        }
        (vector(&self.lanes) & block_lanes(block)).reduce_or() != 0
    }

    #[inline]
    fn full(&self, block: Block) -> bool {
        let block = block_lanes(block);
        ((vector(&self.lanes) & block) ^ block).reduce_or() == 0
    }

    #[inline]
    fn is_untouched(&self) -> bool {
        !self.touched
    }

    #[inline]
    fn count(&self, block: Block) -> u32 {
        let held = vector(&self.lanes) & block_lanes(block);
        count_bits(&held.to_array())
    }

    #[inline]
    fn add(&mut self, block: Block) {
        self.touch();
        if block.height() <= LOW {
            let bits = column_bits(block);
            let (first, last) = end_rows(block);
            let joined = self.lanes[first] | bits;
            self.lanes[last] |= bits;
            self.lanes[first] = joined;
            return;
        }
        let held = vector(&self.lanes) | block_lanes(block);
        held.copy_to_slice(&mut self.lanes);
    }

    #[inline]
    fn remove(&mut self, block: Block) {
        let held = vector(&self.lanes) & !block_lanes(block);
        held.copy_to_slice(&mut self.lanes);
    }

    #[inline]
    fn same_plot(&self, other: &Self) -> bool {
        (vector(&self.lanes) ^ vector(&other.lanes)).reduce_or() == 0
    }

    #[inline]
    fn holds_plot(&self, other: &Self) -> bool {
        (!vector(&self.lanes) & vector(&other.lanes)).reduce_or() == 0
    }

    #[inline]
    fn meets_plot(&self, other: &Self) -> bool {
        (vector(&self.lanes) & vector(&other.lanes)).reduce_or() != 0
    }

    #[inline]
    fn add_plot(&mut self, other: &Self) {
        self.touch();
        let held = vector(&self.lanes) | vector(&other.lanes);
        held.copy_to_slice(&mut self.lanes);
    }

    #[inline]
    fn take_away_plot(&mut self, other: &Self) {
        let held = vector(&self.lanes) & !vector(&other.lanes);
        held.copy_to_slice(&mut self.lanes);
    }

    #[inline]
    fn keep_common_plot(&mut self, other: &Self) {
        let held = vector(&self.lanes) & vector(&other.lanes);
        held.copy_to_slice(&mut self.lanes);
    }
}
