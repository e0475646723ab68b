//! The written parts of a section as blocks.
ghost use Rattle.std.specs.Prelude.{◌≡◌, ◌++◌, [], ◌∷◌, List, IfOk, OnOk};
ghost use Rattle.twp_grid.specs.Blocks.{CanQuarter, half_of};
ghost use Rattle.twp_grid.specs.Places.{PLACE_DIGITS};
ghost use Rattle.twp_grid.specs.declared.block.Corner.{Corner};
ghost use Rattle.twp_grid.specs.Lands.{off_lots};
ghost use Rattle.twp_grid.specs.Lands.{lotting};
ghost use Rattle.twp_spell.specs.PartBlocks.{AreWrittenBlocks};
ghost use Rattle.twp_spell.specs.WrittenParts.{IsFull};
ghost use Rattle.twp_spell.specs.WrittenParts.Part.{square};
ghost use Rattle.twp_spell.specs.steps.Gathering.{AreGathered};
ghost use Rattle.twp_spell.specs.steps.Spelling.{IsBlockOf, AreOfSquare, AreOfQuarter, AreFull};
ghost use Rattle.twp_spell.specs.steps.Spelling.{quarter_on};

use crate::full_quarters::FullQuarters;
use crate::part_text::{first_quarter, half_at};
use crate::written_parts::{full_quarters, is_full};
use std::alloc::{AllocError, Global};
use twp_grid::{Block, Corner, Section, Side};
use twp_land::{Lotting, PlaceSet};

/// The blocks of the parts that the land in a section off its lots is written as, in their order.
pub fn part_blocks<L: PlaceSet, P: Lotting>(
    alloc: Global,
    land: &L,
    section: Section,
    lots: &P,
) -> Result<Vec<Block>, AllocError>
    ensures { IfOk result (λ blocks. AreWrittenBlocks PLACE_DIGITS
        (off_lots (lotting (P.layout lots.now)) section (L.places land.now section)) blocks.items) }
{
    let mut blocks = Vec::new(alloc);
    let whole = Block::whole();
    if is_full(land, section, whole, lots) {
        gather(whole, &mut blocks)?;
        return Ok(blocks);
    }
    gather_square(land, section, whole, lots, &mut blocks)?;
    Ok(blocks)
}

/// Appends the blocks of the written parts of a square that is not full.
#[cycle(descent)]
fn gather_square<L: PlaceSet, P: Lotting>(
    land: &L,
    section: Section,
    block: Block,
    lots: &P,
    blocks: &mut Vec<Block>,
) -> Result<(), AllocError>
    requires { CanQuarter block }
    ensures { (quarters : List Corner) → IsBlockOf PLACE_DIGITS (square quarters) block
        → ¬ IsFull PLACE_DIGITS (off_lots (lotting (P.layout lots.now)) section (L.places land.now section))
        (square quarters)
        → OnOk result (AreGathered PLACE_DIGITS (AreOfSquare PLACE_DIGITS
        (off_lots (lotting (P.layout lots.now)) section (L.places land.now section)) quarters)
        blocks.old.items blocks.new.items) }
{
    if !land.meets(section, block) {
        return Ok(());
    }
    let full = full_quarters(land, section, block, lots);
    gather_quarter(land, section, block, full, Corner::NE, lots, blocks)?;
    gather_quarter(land, section, block, full, Corner::NW, lots, blocks)?;
    gather_quarter(land, section, block, full, Corner::SW, lots, blocks)?;
    gather_quarter(land, section, block, full, Corner::SE, lots, blocks)
}

/// Appends the blocks of the written parts that begin in a quarter of a square that is not full.
#[cycle(descent)]
fn gather_quarter<L: PlaceSet, P: Lotting>(
    land: &L,
    section: Section,
    block: Block,
    full: FullQuarters,
    corner: Corner,
    lots: &P,
    blocks: &mut Vec<Block>,
) -> Result<(), AllocError>
    requires { CanQuarter block }
    ensures { (quarters : List Corner) → IsBlockOf PLACE_DIGITS (square quarters) block
        → ¬ IsFull PLACE_DIGITS (off_lots (lotting (P.layout lots.now)) section (L.places land.now section))
        (square quarters)
        → AreFull PLACE_DIGITS (off_lots (lotting (P.layout lots.now)) section (L.places land.now section))
        quarters full
        → OnOk result (AreGathered PLACE_DIGITS (AreOfQuarter PLACE_DIGITS
        (off_lots (lotting (P.layout lots.now)) section (L.places land.now section)) quarters corner)
        blocks.old.items blocks.new.items) }
{
    if let Some(side) = half_at(full.chosen_half(), corner) {
        return gather_half_if_first(block, side, corner, blocks);
    }
    let quarter = block.quarter(corner).unwrap();
    if full.at(corner) {
        return gather(quarter, blocks);
    }
    if quarter.width() == 1 {
        return Ok(());
    }
    if quarter.height() == 1 {
        return Ok(());
    }
    gather_square(land, section, quarter, lots, blocks)
}

/// Appends a half of a block, if this is the first of its quarters.
fn gather_half_if_first(
    block: Block,
    side: Side,
    corner: Corner,
    blocks: &mut Vec<Block>,
) -> Result<(), AllocError>
    requires { CanQuarter block }
    ensures first { (quarter_on side ≡ corner)
        → OnOk result (blocks.new.items ≡ blocks.old.items ++ (half_of block side ∷ [])) }
    ensures second { ¬ (quarter_on side ≡ corner)
        → OnOk result (blocks.new.items ≡ blocks.old.items) }
{
    if first_quarter(side) != corner {
        return Ok(());
    }
    gather(half_toward(block, side), blocks)
}

/// The half of a block toward a side.
#[inline(always)]
pub(crate) fn half_toward(block: Block, side: Side) -> Block
    requires { CanQuarter block }
    ensures { result ≡ half_of block side }
{
    block.half(side).unwrap()
}

/// Appends a block.
fn gather(block: Block, blocks: &mut Vec<Block>) -> Result<(), AllocError>
    ensures { OnOk result (blocks.new.items ≡ blocks.old.items ++ (block ∷ [])) }
{
    blocks.push(block)?;
    Ok(())
}
