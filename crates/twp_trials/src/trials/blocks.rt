//! Blocks: quarters of a section, taken again and again, and the blocks of lots. A section has 32
//! columns of places, counted from the east, and 32 rows, counted from the south.

use std::io;
use twp_grid::{Block, Corner, Section, Side};

/// Each quarter is half as wide as the one before: 16, 8, 4, 2, and 1 places. A northern one begins
/// at row 16, 24, 28, 30, or 31, a western one at the column with that number, and the others at 0.
/// The sixth would halve one place.
pub fn try_blocks(rt: &HostRuntime) -> io::Result<()> {
    for (name, corner) in [
        ("NE", Corner::NE),
        ("NW", Corner::NW),
        ("SW", Corner::SW),
        ("SE", Corner::SE),
    ] {
        for times in 1..7u8 {
            rt.print("Block::whole().quarter(")?;
            rt.print(name)?;
            rt.print(") x ")?;
            rt.print(times)?;
            print_block(rt, "", quartered(corner, times))?;
        }
    }
    for (name, side) in [
        ("N", Side::N),
        ("S", Side::S),
        ("E", Side::E),
        ("W", Side::W),
    ] {
        rt.print("Block::whole().quarter(NE) x 5, then half(")?;
        rt.print(name)?;
        print_block(rt, ")", half_of_place(side))?;
    }
    try_lots(rt)
}

/// A corner's quarter of the whole section, the same quarter of that quarter, and so on, this many
/// times.
fn quartered(corner: Corner, times: u8) -> Option<Block> {
    let mut block = Block::whole();
    for _ in 0..times {
        block = block.quarter(corner)?;
    }
    Some(block)
}

/// A half of the place in the northeast corner of a section.
fn half_of_place(side: Side) -> Option<Block> {
    quartered(Corner::NE, 5)?.half(side)
}

/// Each lot is 8 by 8 places. The seven of section 6 are numbered along the northern row of
/// positions from the east, and then down the western column.
fn try_lots(rt: &HostRuntime) -> io::Result<()> {
    let section = Section::new(6).unwrap();
    for lot in 1..9u8 {
        rt.print("Block::of_lot(section 6, lot ")?;
        rt.print(lot)?;
        print_block(rt, ")", Block::of_lot(section, lot))?;
    }
    Ok(())
}

/// Ends a line with a block.
fn print_block(rt: &HostRuntime, call_end: &str, block: Option<Block>) -> io::Result<()> {
    rt.print(call_end)?;
    let Some(block) = block else {
        return rt.println(": None");
    };
    let (column, row) = (block.column(), block.row());
    let (width, height) = (block.width(), block.height());
    println!(rt; ": column {column}, row {row}, width {width}, height {height}")
}
