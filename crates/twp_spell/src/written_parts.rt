//! The written parts of a section, quarter by quarter.
ghost use Rattle.std.specs.Prelude.{◌≡◌, ◌↔◌, ◌+◌, ◌<◌, [], ◌∷◌, ℕ, Bool, List, IsTrue, OnOk};
ghost use Rattle.twp_grid.specs.Places.{PLACE_DIGITS, places_across};
ghost use Rattle.twp_grid.specs.Blocks.{quarter_of, CanQuarter};
ghost use Rattle.twp_grid.specs.Spans.{whole_block};
ghost use Rattle.twp_grid.specs.declared.block.Corner.{Corner};
ghost use Rattle.twp_spell.specs.WrittenParts.{Part, IsFull, AreWrittenParts};
ghost use Rattle.twp_spell.specs.WrittenParts.Part.{square};
ghost use Rattle.twp_grid.specs.Lands.{Layout, off_lots, lotting, HoldsEach, HoldsLotPlace};
ghost use Rattle.twp_spell.specs.steps.Spelling.{IsBlockOf, AreOfSquare, AreOfQuarter};
ghost use Rattle.twp_spell.specs.steps.OpenHalves.{AreOpen};
ghost use Rattle.twp_spell.specs.steps.Spelling.{AreWritten, AreFull, FINE_SIDE, quarters_text};

use crate::fine_parts::push_fine_square;
use crate::full_quarters::{FullQuarters, Path};
use crate::open_halves::{OpenHalves, full_open_quarters, open_halves};
use crate::part_text::{FINE_SIDE, PartBuffer, half_at, write_full_quarter, write_half_if_first};
use std::alloc::AllocError;
use twp_grid::{Block, Corner, Section};
use twp_land::{Lotting, PlaceSet};

/// Appends the written parts of the land in a section off its lots, each after a comma. The land
/// does not contain the whole section.
pub(crate) fn write_parts<L: PlaceSet, P: Lotting>(
    land: &L,
    section: Section,
    lots: &P,
    text: &mut Vec<u8>,
) -> Result<(), AllocError>
    ensures { ¬ HoldsEach (lotting (P.layout lots.now)) section (L.places land.now section)
        → OnOk result (AreWritten (AreWrittenParts PLACE_DIGITS
        (off_lots (lotting (P.layout lots.now)) section (L.places land.now section)))
        text.old.items text.new.items) }
{
    let halves = open_halves(land, section, Block::whole());
    let full = full_open_quarters(land, section, Block::whole(), halves, lots);
    write_quarter_of_section(land, section, halves, full, Corner::NE, lots, text)?;
    write_quarter_of_section(land, section, halves, full, Corner::NW, lots, text)?;
    write_quarter_of_section(land, section, halves, full, Corner::SW, lots, text)?;
    write_quarter_of_section(land, section, halves, full, Corner::SE, lots, text)
}

/// Appends the written parts that begin in a quarter of a section that is not full. It is inlined,
/// with what it does for the quarter's own quarters, so that the blocks are known when the code is
/// compiled: most parts are no smaller than these, and a test of a known block takes half of the
/// instructions.
#[inline(always)]
fn write_quarter_of_section<L: PlaceSet, P: Lotting>(
    land: &L,
    section: Section,
    halves: OpenHalves,
    full: FullQuarters,
    corner: Corner,
    lots: &P,
    text: &mut Vec<u8>,
) -> Result<(), AllocError>
    ensures { ¬ IsFull PLACE_DIGITS (off_lots (lotting (P.layout lots.now)) section (L.places land.now section))
        (square [])
        → AreOpen PLACE_DIGITS (off_lots (lotting (P.layout lots.now)) section (L.places land.now section)) [] halves
        → AreFull PLACE_DIGITS (off_lots (lotting (P.layout lots.now)) section (L.places land.now section)) [] full
        → OnOk result (AreWritten (AreOfQuarter PLACE_DIGITS
        (off_lots (lotting (P.layout lots.now)) section (L.places land.now section)) [] corner)
        text.old.items text.new.items) }
{
    let path = Path::whole();
    if let Some(side) = half_at(full.chosen_half(), corner) {
        return write_half_if_first(side, corner, &path, text);
    }
    if full.at(corner) {
        return write_full_quarter(corner, &path, text);
    }
    if !halves.at(corner) {
        return Ok(());
    }
    let quarter = quarter_of_section(corner);
    if !land.meets(section, quarter) {
        return Ok(());
    }
    write_coarse_square(land, section, quarter, &path.quarter(corner), lots, text)
}

/// The quarter of a section at a corner.
#[inline(always)]
fn quarter_of_section(corner: Corner) -> Block
    ensures quarter { result ≡ quarter_of (whole_block PLACE_DIGITS) corner }
    ensures divisible { CanQuarter result }
{
    Block::whole().quarter(corner).unwrap()
}

/// Appends the written parts of a square that is not full, each after a comma.
#[cycle(descent)]
fn write_square<L: PlaceSet, P: Lotting>(
    land: &L,
    section: Section,
    block: Block,
    path: &Path,
    lots: &P,
    text: &mut Vec<u8>,
) -> Result<(), AllocError>
    requires { CanQuarter block }
    ensures { (quarters : List Corner) → IsBlockOf PLACE_DIGITS (square quarters) block
        → path.now ≡ quarters_text quarters
        → ¬ IsFull PLACE_DIGITS (off_lots (lotting (P.layout lots.now)) section (L.places land.now section))
        (square quarters)
        → OnOk result (AreWritten (AreOfSquare PLACE_DIGITS
        (off_lots (lotting (P.layout lots.now)) section (L.places land.now section)) quarters)
        text.old.items text.new.items) }
{
    if block.width() == FINE_SIDE && block.height() == FINE_SIDE {
        if !lots.holds_of_lot(section, block) {
            return write_fine_square(land, section, block, path, text);
        }
        if lots.is_of_lots(section, block) {
            return Ok(());
        }
    }
    if !land.meets(section, block) {
        return Ok(());
    }
    write_coarse_square(land, section, block, path, lots, text)
}

/// Appends the written parts of a square that is not full, quarter by quarter.
#[cycle(descent)]
#[inline(always)]
fn write_coarse_square<L: PlaceSet, P: Lotting>(
    land: &L,
    section: Section,
    block: Block,
    path: &Path,
    lots: &P,
    text: &mut Vec<u8>,
) -> Result<(), AllocError>
    requires { CanQuarter block }
    ensures { (quarters : List Corner) → IsBlockOf PLACE_DIGITS (square quarters) block
        → path.now ≡ quarters_text quarters
        → ¬ IsFull PLACE_DIGITS (off_lots (lotting (P.layout lots.now)) section (L.places land.now section))
        (square quarters)
        → OnOk result (AreWritten (AreOfSquare PLACE_DIGITS
        (off_lots (lotting (P.layout lots.now)) section (L.places land.now section)) quarters)
        text.old.items text.new.items) }
{
    let halves = open_halves(land, section, block);
    let full = full_open_quarters(land, section, block, halves, lots);
    write_quarter(
        land,
        section,
        block,
        halves,
        full,
        Corner::NE,
        path,
        lots,
        text,
    )?;
    write_quarter(
        land,
        section,
        block,
        halves,
        full,
        Corner::NW,
        path,
        lots,
        text,
    )?;
    write_quarter(
        land,
        section,
        block,
        halves,
        full,
        Corner::SW,
        path,
        lots,
        text,
    )?;
    write_quarter(
        land,
        section,
        block,
        halves,
        full,
        Corner::SE,
        path,
        lots,
        text,
    )
}

/// Appends the written parts that begin in a quarter of a square that is not full.
#[cycle(descent)]
#[inline(always)]
fn write_quarter<L: PlaceSet, P: Lotting>(
    land: &L,
    section: Section,
    block: Block,
    halves: OpenHalves,
    full: FullQuarters,
    corner: Corner,
    path: &Path,
    lots: &P,
    text: &mut Vec<u8>,
) -> Result<(), AllocError>
    requires { CanQuarter block }
    ensures { (quarters : List Corner) → IsBlockOf PLACE_DIGITS (square quarters) block
        → path.now ≡ quarters_text quarters
        → ¬ IsFull PLACE_DIGITS (off_lots (lotting (P.layout lots.now)) section (L.places land.now section))
        (square quarters)
        → AreOpen PLACE_DIGITS (off_lots (lotting (P.layout lots.now)) section (L.places land.now section))
        quarters halves
        → AreFull PLACE_DIGITS (off_lots (lotting (P.layout lots.now)) section (L.places land.now section))
        quarters full
        → OnOk result (AreWritten (AreOfQuarter PLACE_DIGITS
        (off_lots (lotting (P.layout lots.now)) section (L.places land.now section)) quarters corner)
        text.old.items text.new.items) }
{
    if let Some(side) = half_at(full.chosen_half(), corner) {
        return write_half_if_first(side, corner, path, text);
    }
    if full.at(corner) {
        return write_full_quarter(corner, path, text);
    }
    if !halves.at(corner) {
        return Ok(());
    }
    let quarter = block.quarter(corner).unwrap();
    // A place cannot be divided further.
    if quarter.width() == 1 {
        return Ok(());
    }
    if quarter.height() == 1 {
        return Ok(());
    }
    write_square(land, section, quarter, &path.quarter(corner), lots, text)
}

/// Appends the written parts of a fine square that is not full and contains no land of a lot, testing
/// each of its places.
#[inline(never)]
fn write_fine_square<L: PlaceSet>(
    land: &L,
    section: Section,
    block: Block,
    path: &Path,
    text: &mut Vec<u8>,
) -> Result<(), AllocError>
    requires width { block.columns.len ≡ FINE_SIDE }
    requires height { block.rows.len ≡ FINE_SIDE }
    ensures { (layout : Layout) (quarters : List Corner) → ¬ HoldsLotPlace (lotting layout) section block
        → IsBlockOf PLACE_DIGITS (square quarters) block → path.now ≡ quarters_text quarters
        → ¬ IsFull PLACE_DIGITS (off_lots (lotting layout) section (L.places land.now section))
        (square quarters)
        → OnOk result (AreWritten (AreOfSquare PLACE_DIGITS
        (off_lots (lotting layout) section (L.places land.now section)) quarters)
        text.old.items text.new.items) }
{
    let column = block.column();
    let row = block.row();
    let ne = held_places(land, section, column, row + 2);
    let nw = held_places(land, section, column + 2, row + 2);
    let sw = held_places(land, section, column + 2, row);
    let se = held_places(land, section, column, row);
    let full = FullQuarters {
        ne: ne.all(),
        nw: nw.all(),
        sw: sw.all(),
        se: se.all(),
    };
    let mut buffer = PartBuffer::new();
    push_fine_square(full, ne, nw, sw, se, path, &mut buffer);
    buffer.append_to(text)
}

/// Which quarters of a square are full.
#[inline(always)]
pub(crate) fn full_quarters<L: PlaceSet, P: Lotting>(
    land: &L,
    section: Section,
    block: Block,
    lots: &P,
) -> FullQuarters
    requires { CanQuarter block }
    ensures { (quarters : List Corner) → IsBlockOf PLACE_DIGITS (square quarters) block
        → AreFull PLACE_DIGITS (off_lots (lotting (P.layout lots.now)) section (L.places land.now section))
        quarters result }
{
    FullQuarters {
        ne: quarter_is_full(land, section, block, Corner::NE, lots),
        nw: quarter_is_full(land, section, block, Corner::NW, lots),
        sw: quarter_is_full(land, section, block, Corner::SW, lots),
        se: quarter_is_full(land, section, block, Corner::SE, lots),
    }
}

/// Which of four places are in the land. The one in the southeast has this column and row.
#[inline(always)]
fn held_places<L: PlaceSet>(land: &L, section: Section, column: u8, row: u8) -> FullQuarters
    requires column { column + 1 < places_across PLACE_DIGITS }
    requires row { row + 1 < places_across PLACE_DIGITS }
    ensures ne { result.ne ≡ L.places land.now section column (row + 1) }
    ensures nw { result.nw ≡ L.places land.now section (column + 1) (row + 1) }
    ensures sw { result.sw ≡ L.places land.now section (column + 1) row }
    ensures se { result.se ≡ L.places land.now section column row }
{
    FullQuarters {
        ne: land.holds(section, column, row + 1),
        nw: land.holds(section, column + 1, row + 1),
        sw: land.holds(section, column + 1, row),
        se: land.holds(section, column, row),
    }
}

/// Whether a quarter of a block consists of places in the land that belong to no lot.
#[inline(always)]
pub(crate) fn quarter_is_full<L: PlaceSet, P: Lotting>(
    land: &L,
    section: Section,
    block: Block,
    corner: Corner,
    lots: &P,
) -> bool
    requires { CanQuarter block }
    ensures { (quarters : List Corner) → IsBlockOf PLACE_DIGITS (square quarters) block
        → (IsTrue result ↔ IsFull PLACE_DIGITS
        (off_lots (lotting (P.layout lots.now)) section (L.places land.now section))
        (square (corner ∷ quarters))) }
{
    is_full(land, section, block.quarter(corner).unwrap(), lots)
}

/// Whether a block consists of places in the land that belong to no lot.
#[inline(always)]
pub(crate) fn is_full<L: PlaceSet, P: Lotting>(
    land: &L,
    section: Section,
    block: Block,
    lots: &P,
) -> bool
    ensures { (part : Part) → IsBlockOf PLACE_DIGITS part block
        → (IsTrue result ↔ IsFull PLACE_DIGITS
        (off_lots (lotting (P.layout lots.now)) section (L.places land.now section)) part) }
{
    land.full(section, block) && !lots.holds_of_lot(section, block)
}
