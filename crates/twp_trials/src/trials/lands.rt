//! Both kinds of land, on blocks that look random.

use crate::mixed::Mixed;
use std::io;
use twp_grid::{Block, PLACE_DIGITS, PLACES_ACROSS, SECTIONS, Section, Side};
use twp_land::{Grid, Land, Lanes};

/// The places of a section, 32 by 32.
const PLACES: u32 = PLACES_ACROSS as u32 * PLACES_ACROSS as u32;

/// How many spans of a section's columns, or rows, result from halving: 1 + 2 + 4 + 8 + 16 + 32.
const SPANS: u8 = 63;

/// Counts the places of each section one by one.
pub fn try_counts(rt: &HostRuntime) -> io::Result<()> {
    print_counts::<Grid>(rt, "Grid")?;
    print_counts::<Lanes>(rt, "Lanes")
}

/// Adds 200 blocks, and compares `count` with `holds`: for each of the 36 sections as a whole, and
/// for each of their 36 * 1,024 = 36,864 places. Sections that were contained wholly or not at all
/// would show little.
fn print_counts<L: Land>(rt: &HostRuntime, kind: &str) -> io::Result<()> {
    let mut mixed = Mixed::new();
    let mut land = L::empty();
    for _ in 0..200u32 {
        let section = mixed.section();
        land.add(section, mixed.block());
    }
    let mut equal = 0u32;
    let mut equal_places = 0u32;
    let mut is_some_held_in_part = false;
    for number in 1..SECTIONS + 1 {
        let section = Section::new(number).unwrap();
        let count = land.count(section, Block::whole());
        if count == held(&land, section) {
            equal = equal.saturating_add(1);
        }
        equal_places = equal_places.saturating_add(counted_places(&land, section));
        is_some_held_in_part |= 0 < count && count < PLACES;
    }
    rt.print(kind)?;
    rt.print(" after 200 adds: some section is held in part: ")?;
    rt.println(is_some_held_in_part)?;
    rt.print(kind)?;
    rt.print(" after 200 adds: sections of which count is the number of places that are held: ")?;
    rt.println(equal)?;
    rt.print(kind)?;
    rt.print(" after 200 adds: places of which count is 1 if held, and 0 if not: ")?;
    rt.println(equal_places)
}

/// For how many places of a section `count` shows whether the land contains them. Places have the
/// last 32 numbers of spans, 32 to 63.
fn counted_places<L: Land>(land: &L, section: Section) -> u32 {
    let mut counted = 0u32;
    for columns in SPANS / 2 + 1..SPANS + 1 {
        for rows in SPANS / 2 + 1..SPANS + 1 {
            let Some(place) = block_of(columns, rows) else {
                continue;
            };
            let is_held = land.holds(section, place.column(), place.row());
            if land.count(section, place) == u32::from(is_held) {
                counted = counted.saturating_add(1);
            }
        }
    }
    counted
}

/// How many places of a section the land contains, place by place.
fn held<L: Land>(land: &L, section: Section) -> u32 {
    let mut held = 0u32;
    for column in 0..PLACES_ACROSS as u8 {
        for row in 0..PLACES_ACROSS as u8 {
            held = held.saturating_add(u32::from(land.holds(section, column, row)));
        }
    }
    held
}

/// Changes land of each kind in the same way, and compares the answers for all blocks of all
/// sections: 63 * 63 = 3,969 in each of 36 sections, 142,884 in all.
pub fn try_both_kinds(rt: &HostRuntime) -> io::Result<()> {
    let grid: Grid = changed();
    let lanes: Lanes = changed();
    let mut compared = 0u32;
    let mut differing = 0u32;
    let mut is_some_held_in_part = false;
    for number in 1..SECTIONS + 1 {
        let section = Section::new(number).unwrap();
        let (blocks, unlike) = compare(&grid, &lanes, section);
        compared = compared.saturating_add(blocks);
        differing = differing.saturating_add(unlike);
        let count = held(&grid, section);
        is_some_held_in_part |= 0 < count && count < PLACES;
    }
    rt.print("Grid and Lanes after 1000 adds and removes: some section is held in part: ")?;
    rt.println(is_some_held_in_part)?;
    rt.print("Grid and Lanes after 1000 adds and removes: blocks compared: ")?;
    rt.println(compared)?;
    rt.print("Grid and Lanes after 1000 adds and removes: meets, full or count differs on: ")?;
    rt.println(differing)
}

/// Land after 1,000 blocks were added and removed, the same ones each time.
fn changed<L: Land>() -> L {
    let mut mixed = Mixed::new();
    let mut land = L::empty();
    for _ in 0..1_000u32 {
        let section = mixed.section();
        let block = mixed.block();
        if mixed.choice() {
            land.add(section, block);
        } else {
            land.remove(section, block);
        }
    }
    land
}

/// For how many blocks of a section two lands were compared, and for how many they differ.
fn compare<A: Land, B: Land>(one: &A, other: &B, section: Section) -> (u32, u32) {
    let mut compared = 0u32;
    let mut differing = 0u32;
    for columns in 1..SPANS + 1 {
        for rows in 1..SPANS + 1 {
            let Some(block) = block_of(columns, rows) else {
                continue;
            };
            compared = compared.saturating_add(1);
            if !is_alike(one, other, section, block) {
                differing = differing.saturating_add(1);
            }
        }
    }
    (compared, differing)
}

/// Whether two lands give the same answers for a block.
fn is_alike<A: Land, B: Land>(one: &A, other: &B, section: Section, block: Block) -> bool {
    one.meets(section, block) == other.meets(section, block)
        && one.full(section, block) == other.full(section, block)
        && one.count(section, block) == other.count(section, block)
}

/// The block whose columns and rows have these numbers.
fn block_of(columns: u8, rows: u8) -> Option<Block> {
    let block = halved(Block::whole(), columns, Side::E, Side::W)?;
    halved(block, rows, Side::S, Side::N)
}

/// A block halved toward the sides that a number's binary digits ask for, from the last digit to
/// the second: 0 for one side, 1 for the other. So 1 halves nothing, 2 and 3 halve once, and 32 to
/// 63 halve five times, each in a different way.
fn halved(block: Block, number: u8, zero: Side, one: Side) -> Option<Block> {
    let mut block = block;
    let mut digits = number;
    for _ in 0..PLACE_DIGITS {
        if digits <= 1 {
            break;
        }
        block = block.half(if digits % 2 == 0 { zero } else { one })?;
        digits /= 2;
    }
    Some(block)
}
