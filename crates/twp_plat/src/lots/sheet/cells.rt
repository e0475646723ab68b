//! The cells of a line.
ghost use Rattle.std.specs.Prelude.{◌≡◌, ◌==◌, IfOk, option_map};
ghost use Rattle.csv.specs.Records.{fields_of};
ghost use Rattle.twp_plat.specs.steps.CellCuts.{effect_of, bare_effect, cells_of};

use csv::ByteRecord;
use std::alloc::{AllocError, Global};

/// The byte that separates cells in a lot table.
pub const COMMA: u8 = b',';

/// A byte that may separate cells in a spreadsheet's text.
pub const SEMICOLON: u8 = b';';

/// Another such byte.
pub const TAB: u8 = b'\t';

/// The byte before and after a quoted cell.
pub const QUOTATION_MARK: u8 = b'"';

/// The place of a byte in its cell.
#[derive(Clone, Copy)]
pub enum CellPlace {
    /// At the cell's first byte.
    Start,
    /// In a cell without quotation marks.
    Bare,
    /// Within quotation marks.
    Quoted,
    /// After a quotation mark that ends the cell, unless it is the first of two.
    AfterQuote,
}

/// What a byte does to the cell at hand.
#[derive(Clone, Copy)]
pub enum Effect {
    /// It is a byte of the cell. The next byte is at this place.
    Joins(CellPlace),
    /// It is a quotation mark, and no byte of the cell.
    Opens(CellPlace),
    /// It separates the cell from the next.
    EndsCell,
    /// It is a quotation mark where none may be, or is after one that ends the cell.
    Fails,
}

/// What a byte does.
fn effect_of(separator: u8, place: CellPlace, byte: u8) -> Effect
    ensures { result ≡ effect_of separator place byte }
{
    match place {
        CellPlace::Start => {
            if byte == QUOTATION_MARK {
                Effect::Opens(CellPlace::Quoted)
            } else {
                bare_effect(separator, byte)
            }
        }
        CellPlace::Bare => {
            if byte == QUOTATION_MARK {
                Effect::Fails
            } else {
                bare_effect(separator, byte)
            }
        }
        CellPlace::Quoted => {
            if byte == QUOTATION_MARK {
                Effect::Opens(CellPlace::AfterQuote)
            } else {
                Effect::Joins(CellPlace::Quoted)
            }
        }
        CellPlace::AfterQuote => {
            if byte == QUOTATION_MARK {
                Effect::Joins(CellPlace::Quoted)
            } else if byte == separator {
                Effect::EndsCell
            } else {
                Effect::Fails
            }
        }
    }
}

/// What a byte that is not a quotation mark does, outside of quotation marks.
fn bare_effect(separator: u8, byte: u8) -> Effect
    ensures { result ≡ bare_effect (byte == separator) }
{
    if byte == separator {
        Effect::EndsCell
    } else {
        Effect::Joins(CellPlace::Bare)
    }
}

/// The cells of a line, if it is a row.
pub fn cells_of(alloc: Global, separator: u8, line: &[u8]) -> Result<Option<ByteRecord>, AllocError>
    ensures { IfOk result (λ found. option_map fields_of found ≡ cells_of separator line.now) }
{
    let mut cells = ByteRecord::new(alloc);
    let mut cell = Vec::new(alloc);
    let mut place = CellPlace::Start;
    for byte in line {
        match effect_of(separator, place, *byte) {
            Effect::Joins(next) => {
                cell.push(*byte)?;
                place = next;
            }
            Effect::Opens(next) => {
                place = next;
            }
            Effect::EndsCell => {
                cells.push_field(cell.as_slice())?;
                cell.clear();
                place = CellPlace::Start;
            }
            Effect::Fails => {
                return Ok(None);
            }
        }
    }
    if let CellPlace::Quoted = place {
        return Ok(None);
    }
    cells.push_field(cell.as_slice())?;
    Ok(Some(cells))
}
