//! The halves of a square that may have land. Most land in a section lies in one quarter of a square
//! or in one half, so a test or two of halves take the place of tests of each quarter.
ghost use Rattle.std.specs.Prelude.{◌≡◌, ◌↔◌, ◌∷◌, ℕ, Bool, false, List, Option, IsTrue};
ghost use Rattle.twp_grid.specs.Places.{PLACE_DIGITS};
ghost use Rattle.twp_grid.specs.Blocks.{CanQuarter};
ghost use Rattle.twp_grid.specs.declared.block.Side.TheVariants.{N, S, E, W};
ghost use Rattle.twp_grid.specs.declared.block.Corner.{Corner};
ghost use Rattle.twp_spell.specs.WrittenParts.{IsFull};
ghost use Rattle.twp_spell.specs.WrittenParts.Part.{square};
ghost use Rattle.twp_grid.specs.Lands.{off_lots};
ghost use Rattle.twp_grid.specs.Lands.{Layout, lotting};
ghost use Rattle.twp_spell.specs.steps.Spelling.{IsBlockOf, AreFull};
ghost use Rattle.twp_spell.specs.steps.OpenHalves.{open_at, IsHalfEmpty, AreOpen};

use crate::blocks::half_toward;
use crate::full_quarters::FullQuarters;
use crate::written_parts::quarter_is_full;
use twp_grid::{Block, Corner, Section, Side};
use twp_land::{Lotting, PlaceSet};

/// The halves of a square that may have land that belongs to no lot. The others have none.
#[derive(Clone, Copy)]
pub struct OpenHalves {
    pub north: bool,
    pub south: bool,
    pub east: bool,
    pub west: bool,
}

/// Each half may have land.
const EACH: OpenHalves = OpenHalves {
    north: true,
    south: true,
    east: true,
    west: true,
};

impl OpenHalves {
    /// Whether the quarter at a corner may have land: both halves that it lies in may.
    #[inline(always)]
    pub fn at(self, corner: Corner) -> bool
        ensures { result ≡ open_at self corner }
    {
        match corner {
            Corner::NE => self.north && self.east,
            Corner::NW => self.north && self.west,
            Corner::SW => self.south && self.west,
            Corner::SE => self.south && self.east,
        }
    }
}

/// Finds halves of a square that have no land. If both the north and the south have some, it looks
/// no further: the quarters have to be tested one by one.
#[inline(always)]
pub(crate) fn open_halves<L: PlaceSet>(land: &L, section: Section, block: Block) -> OpenHalves
    requires { CanQuarter block }
    ensures { (layout : Layout) (quarters : List Corner) → IsBlockOf PLACE_DIGITS (square quarters) block
        → AreOpen PLACE_DIGITS (off_lots (lotting layout) section (L.places land.now section))
        quarters result }
{
    if !half_meets(land, section, block, Side::S) {
        return open_across(land, section, block, true, false);
    }
    if !half_meets(land, section, block, Side::N) {
        return open_across(land, section, block, false, true);
    }
    EACH
}

/// The same, given which of the north and the south may have land.
#[inline(always)]
fn open_across<L: PlaceSet>(
    land: &L,
    section: Section,
    block: Block,
    north: bool,
    south: bool,
) -> OpenHalves
    requires { CanQuarter block }
    ensures { (layout : Layout) (quarters : List Corner) → IsBlockOf PLACE_DIGITS (square quarters) block
        → (north ≡ false → IsHalfEmpty PLACE_DIGITS
        (off_lots (lotting layout) section (L.places land.now section)) quarters N)
        → (south ≡ false → IsHalfEmpty PLACE_DIGITS
        (off_lots (lotting layout) section (L.places land.now section)) quarters S)
        → AreOpen PLACE_DIGITS (off_lots (lotting layout) section (L.places land.now section))
        quarters result }
{
    if !half_meets(land, section, block, Side::W) {
        return OpenHalves {
            north,
            south,
            east: true,
            west: false,
        };
    }
    let east = half_meets(land, section, block, Side::E);
    OpenHalves {
        north,
        south,
        east,
        west: true,
    }
}

/// Whether the land meets a half of a block.
#[inline(always)]
fn half_meets<L: PlaceSet>(land: &L, section: Section, block: Block, side: Side) -> bool
    requires { CanQuarter block }
    ensures { (layout : Layout) (quarters : List Corner) → IsBlockOf PLACE_DIGITS (square quarters) block
        → result ≡ false → IsHalfEmpty PLACE_DIGITS
        (off_lots (lotting layout) section (L.places land.now section)) quarters side }
{
    land.meets(section, half_toward(block, side))
}

/// Which quarters of a square are full, given which halves may have land.
#[inline(always)]
pub(crate) fn full_open_quarters<L: PlaceSet, P: Lotting>(
    land: &L,
    section: Section,
    block: Block,
    halves: OpenHalves,
    lots: &P,
) -> FullQuarters
    requires { CanQuarter block }
    ensures { (quarters : List Corner) → IsBlockOf PLACE_DIGITS (square quarters) block
        → AreOpen PLACE_DIGITS (off_lots (lotting (P.layout lots.now)) section (L.places land.now section))
        quarters halves
        → AreFull PLACE_DIGITS (off_lots (lotting (P.layout lots.now)) section (L.places land.now section))
        quarters result }
{
    FullQuarters {
        ne: open_quarter_is_full(land, section, block, halves, Corner::NE, lots),
        nw: open_quarter_is_full(land, section, block, halves, Corner::NW, lots),
        sw: open_quarter_is_full(land, section, block, halves, Corner::SW, lots),
        se: open_quarter_is_full(land, section, block, halves, Corner::SE, lots),
    }
}

/// Whether a quarter of a square is full, given which halves may have land.
#[inline(always)]
fn open_quarter_is_full<L: PlaceSet, P: Lotting>(
    land: &L,
    section: Section,
    block: Block,
    halves: OpenHalves,
    corner: Corner,
    lots: &P,
) -> bool
    requires { CanQuarter block }
    ensures { (quarters : List Corner) → IsBlockOf PLACE_DIGITS (square quarters) block
        → AreOpen PLACE_DIGITS (off_lots (lotting (P.layout lots.now)) section (L.places land.now section))
        quarters halves
        → (IsTrue result ↔ IsFull PLACE_DIGITS
        (off_lots (lotting (P.layout lots.now)) section (L.places land.now section))
        (square (corner ∷ quarters))) }
{
    if !halves.at(corner) {
        return false;
    }
    quarter_is_full(land, section, block, corner, lots)
}
