//! The written parts of land as data.
ghost use Rattle.std.specs.Prelude.{◌≡◌, ◌≢◌, ◌≤◌, ℕ, IfOk, OnOk};
ghost use Rattle.std.specs.List.{Contains};
ghost use Rattle.twp_grid.specs.Lots.{number_of_lots};
ghost use Rattle.twp_grid.specs.Winding.{IsSection};
ghost use Rattle.twp_calls.specs.Answers.{ACCEPTED};
ghost use Rattle.twp_calls.specs.LandParts.{AreLandParts, IsLandPartsCall, IsPartsPut, part_with};
ghost use Rattle.twp_calls.specs.steps.PartSteps.{AddsSection, AddsLots, AddsBlocks};

use crate::answer::TownshipAnswer;
use crate::land::TownshipLand;
use crate::many::counted;
use crate::verdict::{ACCEPTED, NO_LAND, NO_MEMORY, NO_ROOM, OTHER_PLAT};
use std::alloc::{AllocError, Global};
use twp_grid::{Block, SECTIONS, Section};
use twp_land::{Land, StandardLots};
use twp_spell::{held_lots, part_blocks};

/// A written part of land: a lot, or a block of places off the lots.
#[repr(C)]
#[derive(Clone, Copy)]
pub struct TownshipPart {
    /// The section's number.
    pub section: u8,
    /// The lot's number, or 0 for a block.
    pub lot: u8,
    /// The block's first column, from the east.
    pub column: u8,
    /// The block's first row, from the south.
    pub row: u8,
    /// The block's width, in places.
    pub columns: u8,
    /// The block's height, in places.
    pub rows: u8,
}

impl TownshipPart {
    /// A block of a section, with the lot that it is, or 0.
    fn of(section: Section, lot: u8, block: Block) -> TownshipPart
        ensures { result ≡ part_with section lot block }
    {
        TownshipPart {
            section: section.number(),
            lot,
            column: block.column(),
            row: block.row(),
            columns: block.width(),
            rows: block.height(),
        }
    }
}

/// The written parts of land, whose texts make the canonical text.
pub fn township_land_parts(
    alloc: Global,
    land: &TownshipLand,
    parts: &mut [TownshipPart],
) -> TownshipAnswer
    ensures answer { IsLandPartsCall land.now parts.old parts.new result }
    ensures kept { result.verdict ≢ ACCEPTED → parts.new ≡ parts.old }
{
    let own_lots = land.own_lots;
    let Some(land) = land.land() else {
        return TownshipAnswer::bare(NO_LAND);
    };
    if own_lots != 0 {
        return TownshipAnswer::bare(OTHER_PLAT);
    }
    match parts_of(alloc, &land.places) {
        Ok(found) => put_parts(&found, parts),
        Err(_) => TownshipAnswer::bare(NO_MEMORY),
    }
}

/// Puts parts at the front of the room for them, or nothing if there is too little.
fn put_parts(found: &[TownshipPart], room: &mut [TownshipPart]) -> TownshipAnswer
    ensures put { IsPartsPut found.now room.old room.new result }
    ensures kept { result.verdict ≢ ACCEPTED → room.new ≡ room.old }
{
    if room.len() < found.len() {
        return counted(NO_ROOM, found.len());
    }
    room[..found.len()].copy_from_slice(found);
    counted(ACCEPTED, found.len())
}

/// The written parts of all sections.
fn parts_of<L: Land>(alloc: Global, land: &L) -> Result<Vec<TownshipPart>, AllocError>
    ensures { IfOk result (λ parts. AreLandParts (L.places land.now) parts.items) }
{
    let mut parts = Vec::new(alloc);
    for number in 1..SECTIONS + 1 {
        let section = Section::new(number).unwrap();
        add_section(alloc, land, section, &mut parts)?;
    }
    Ok(parts)
}

/// Appends the written parts of a section.
fn add_section<L: Land>(
    alloc: Global,
    land: &L,
    section: Section,
    parts: &mut Vec<TownshipPart>,
) -> Result<(), AllocError>
    requires { IsSection section }
    ensures { OnOk result (AddsSection section (L.places land.now section)
        parts.old.items parts.new.items) }
{
    let whole = Block::whole();
    if land.full(section, whole) {
        parts.push(TownshipPart::of(section, 0, whole))?;
        return Ok(());
    }
    let lots = held_lots(alloc, land, section, &StandardLots)?;
    add_lots(section, &lots, parts)?;
    let blocks = part_blocks(alloc, land, section, &StandardLots)?;
    add_blocks(section, &blocks, parts)
}

/// Appends lots of a section.
fn add_lots(section: Section, lots: &[u8], parts: &mut Vec<TownshipPart>) -> Result<(), AllocError>
    requires { (lot : ℕ) → Contains lots.now lot → (1 ≤ lot) × (lot ≤ number_of_lots section) }
    ensures { OnOk result (AddsLots section lots.now parts.old.items parts.new.items) }
{
    for index in 0..lots.len() {
        let lot = lots[index];
        let block = Block::of_lot(section, lot).unwrap();
        parts.push(TownshipPart::of(section, lot, block))?;
    }
    Ok(())
}

/// Appends blocks of a section.
fn add_blocks(
    section: Section,
    blocks: &[Block],
    parts: &mut Vec<TownshipPart>,
) -> Result<(), AllocError>
    ensures { OnOk result (AddsBlocks section blocks.now parts.old.items parts.new.items) }
{
    for index in 0..blocks.len() {
        parts.push(TownshipPart::of(section, 0, blocks[index]))?;
    }
    Ok(())
}
