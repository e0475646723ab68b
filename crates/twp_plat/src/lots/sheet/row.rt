//! A row of the plain table.
ghost use Rattle.std.specs.Prelude.{◌≡◌, ◌++◌, [], IfOk, OnOk, ◌<◌, length, take, slice_index_or};
ghost use Rattle.std.specs.Char.{is_ascii_digit};
ghost use Rattle.std.specs.List.{list_all, list_any};
ghost use Rattle.csv.specs.Records.{fields_of};
ghost use Rattle.twp_plat.specs.PlainTables.{has_byte_order_mark, is_separator, is_mark, needs_quotes};
ghost use Rattle.twp_plat.specs.PlainTables.{cell_text, with_quotes_doubled, is_digits};
ghost use Rattle.twp_plat.specs.PlainTables.{has_one_decimal, with_two_decimals};
ghost use Rattle.twp_plat.specs.PlainTables.{with_acres, trimmed, row_text, plain_row};

use crate::lots::sheet::cells::{COMMA, QUOTATION_MARK, SEMICOLON, TAB};
use csv::ByteRecord;
use std::alloc::{AllocError, Global};

/// The index of the cell for the acreage.
const ACRES: usize = 2;

/// The byte between whole acres and their decimals.
const DECIMAL_POINT: u8 = b'.';

/// Appends the plain row of these cells.
pub fn write_row(
    alloc: Global,
    plain: &mut Vec<u8>,
    cells: &mut ByteRecord,
) -> Result<(), AllocError>
    ensures { OnOk result (plain.new.items ≡ plain.old.items ++ plain_row (fields_of cells.old)) }
{
    let count = filled_count(cells);
    cells.truncate(count);
    write_cells(alloc, plain, cells)
}

/// The number of the cells without the empty ones at the end.
fn filled_count(cells: &ByteRecord) -> usize
    ensures { take result (fields_of cells.now) ≡ trimmed (fields_of cells.now) }
{
    let mut count = cells.len();
    while count > 0 && cell_at(cells, count - 1).is_empty() {
        count -= 1;
    }
    count
}

/// The cell at an index.
#[tactic(auto, using(crate::proofs::lots::sheet::CellFacts::field_at_is))]
fn cell_at(cells: &ByteRecord, index: usize) -> &[u8]
    requires { index < length (fields_of cells.now) }
    ensures { result.now ≡ slice_index_or (fields_of cells.now) index [] }
{
    cells.get(index).unwrap()
}

/// Appends cells, with commas between them.
fn write_cells(alloc: Global, plain: &mut Vec<u8>, cells: &ByteRecord) -> Result<(), AllocError>
    ensures { OnOk result (plain.new.items
        ≡ plain.old.items ++ row_text (with_acres (fields_of cells.now))) }
{
    if cells.is_empty() {
        return Ok(());
    }
    write_cell(plain, cell_at(cells, 0))?;
    for index in 1..cells.len() {
        plain.push(COMMA)?;
        write_cell_at(alloc, plain, cells, index)?;
    }
    Ok(())
}

/// Appends the cell at an index.
fn write_cell_at(
    alloc: Global,
    plain: &mut Vec<u8>,
    cells: &ByteRecord,
    index: usize,
) -> Result<(), AllocError>
    requires { index < length (fields_of cells.now) }
    ensures { OnOk result (plain.new.items ≡ plain.old.items
        ++ cell_text (slice_index_or (with_acres (fields_of cells.now)) index [])) }
{
    let cell = cell_at(cells, index);
    if index != ACRES {
        return write_cell(plain, cell);
    }
    let acres = with_two_decimals(alloc, cell)?;
    write_cell(plain, acres.as_slice())
}

/// A number with two decimals, or any other cell as it is.
fn with_two_decimals(alloc: Global, cell: &[u8]) -> Result<Vec<u8>, AllocError>
    ensures { IfOk result (λ made. made.items ≡ with_two_decimals cell.now) }
{
    let mut made = Vec::from_slice(alloc, cell)?;
    if is_digits(cell) {
        made.extend_from_slice(b".00")?;
    } else if has_one_decimal(cell) {
        made.extend_from_slice(b"0")?;
    }
    Ok(made)
}

/// Whether the text is one or more digits.
fn is_digits(text: &[u8]) -> bool
    ensures { result ≡ is_digits text.now }
{
    !text.is_empty() && has_only_digits(text)
}

/// Whether every byte is a digit.
fn has_only_digits(text: &[u8]) -> bool
    ensures { result ≡ list_all is_ascii_digit text.now }
{
    text.iter().all(|byte| byte.is_ascii_digit())
}

/// Whether the text is digits, a decimal point, and one digit.
fn has_one_decimal(text: &[u8]) -> bool
    ensures { result ≡ has_one_decimal text.now }
{
    if text.len() < 3 {
        return false;
    }
    let at = text.len() - 2;
    is_digits(&text[..at]) && text[at] == DECIMAL_POINT && text[at + 1].is_ascii_digit()
}

/// Appends a cell, in quotation marks if it needs them.
fn write_cell(plain: &mut Vec<u8>, cell: &[u8]) -> Result<(), AllocError>
    ensures { OnOk result (plain.new.items ≡ plain.old.items ++ cell_text cell.now) }
{
    if !needs_quotes(cell) {
        return plain.extend_from_slice(cell);
    }
    plain.push(QUOTATION_MARK)?;
    write_doubled(plain, cell)?;
    plain.push(QUOTATION_MARK)?;
    Ok(())
}

/// Appends the bytes of a cell, and each quotation mark twice.
fn write_doubled(plain: &mut Vec<u8>, cell: &[u8]) -> Result<(), AllocError>
    ensures { OnOk result (plain.new.items ≡ plain.old.items ++ with_quotes_doubled cell.now) }
{
    for byte in cell {
        if *byte == QUOTATION_MARK {
            plain.push(QUOTATION_MARK)?;
        }
        plain.push(*byte)?;
    }
    Ok(())
}

/// Whether a cell is quoted in a plain row.
fn needs_quotes(cell: &[u8]) -> bool
    ensures { result ≡ needs_quotes cell.now }
{
    has_byte_order_mark(cell) || has_mark(cell)
}

/// Whether a cell has a byte that may separate or quote cells.
fn has_mark(cell: &[u8]) -> bool
    ensures { result ≡ list_any is_mark cell.now }
{
    cell.iter().any(|byte| is_mark(*byte))
}

/// Whether a byte may separate or quote cells.
fn is_mark(byte: u8) -> bool
    ensures { result ≡ is_mark byte }
{
    is_separator(byte) || byte == QUOTATION_MARK
}

/// Whether a byte may separate cells.
fn is_separator(byte: u8) -> bool
    ensures { result ≡ is_separator byte }
{
    byte == COMMA || byte == SEMICOLON || byte == TAB
}

/// Whether a text begins with a byte order mark.
pub fn has_byte_order_mark(text: &[u8]) -> bool
    ensures { result ≡ has_byte_order_mark text.now }
{
    text.len() >= 3 && text[0] == 0xEF && text[1] == 0xBB && text[2] == 0xBF
}
