//! The plain table of a lot table as a spreadsheet saves it.
mod cells;
mod row;

ghost use Rattle.std.specs.Prelude.{◌≡◌, ◌++◌, IfOk, OnOk, ◌≤◌, length};
ghost use Rattle.std.specs.List.{position_or_len};
ghost use Rattle.twp_plat.specs.PlainTables.{IsPlainTable, is_line_end, unclosed_after, first_line};
ghost use Rattle.twp_plat.specs.PlainTables.{byte_order_mark_of, after_byte_order_mark};
ghost use Rattle.twp_plat.specs.steps.CellCuts.{separator_of, is_separated};
ghost use Rattle.twp_plat.specs.steps.CellCuts.{plain_line, plain_lines};

use crate::lots::sheet::cells::{COMMA, QUOTATION_MARK, SEMICOLON, TAB, cells_of};
use crate::lots::sheet::row::{has_byte_order_mark, write_row};
use std::alloc::{AllocError, Global};

/// The plain table of a lot table as a spreadsheet saves it: line by line, without the empty cells
/// at the end of a row, with commas for semicolons or tabs, and with two decimals in the third cell.
/// The lines keep their numbers, so a refusal of the plain table is at the right line of the text.
pub fn plain_table(alloc: Global, text: &[u8]) -> Result<Vec<u8>, AllocError>
    ensures { IfOk result (λ plain. IsPlainTable text.now plain.items) }
{
    let (mark, rest) = split_byte_order_mark(text);
    let mut plain = Vec::from_slice(alloc, mark)?;
    write_lines(alloc, &mut plain, rest)?;
    Ok(plain)
}

/// The byte order mark of a text, if it has one, and the rest of the text.
fn split_byte_order_mark(text: &[u8]) -> (&[u8], &[u8])
    ensures mark { result.0.now ≡ byte_order_mark_of text.now }
    ensures rest { result.1.now ≡ after_byte_order_mark text.now }
{
    if has_byte_order_mark(text) {
        text.split_at(3)
    } else {
        text.split_at(0)
    }
}

/// Appends the plain lines of a text without a byte order mark.
fn write_lines(alloc: Global, plain: &mut Vec<u8>, text: &[u8]) -> Result<(), AllocError>
    ensures { OnOk result (plain.new.items ≡ plain.old.items ++ plain_lines text.now) }
{
    let separator = separator_of(alloc, first_line(text))?;
    let mut unclosed = false;
    let mut start = 0;
    for (at, byte) in text.iter().enumerate() {
        if is_line_end(*byte) {
            let line = &text[start..at];
            write_line(alloc, plain, separator, unclosed, line)?;
            plain.push(*byte)?;
            unclosed = is_unclosed_after(unclosed, line);
            start = at + 1;
        }
    }
    write_line(alloc, plain, separator, unclosed, &text[start..])
}

/// The bytes before the first line end.
fn first_line(text: &[u8]) -> &[u8]
    ensures { result.now ≡ first_line text.now }
{
    &text[..line_end(text)]
}

/// The index of the first line end, or the text's length if there is none.
fn line_end(text: &[u8]) -> usize
    ensures end { result ≡ position_or_len is_line_end text.now }
    ensures within { result ≤ length text.now }
{
    text.iter().take_while(|byte| !is_line_end(**byte)).count()
}

/// Whether a byte ends a line.
fn is_line_end(byte: u8) -> bool
    ensures { result ≡ is_line_end byte }
{
    byte == b'\n' || byte == b'\r'
}

/// The separator of a text with this first line.
fn separator_of(alloc: Global, line: &[u8]) -> Result<u8, AllocError>
    ensures { IfOk result (λ separator. separator ≡ separator_of line.now) }
{
    if is_separated(alloc, COMMA, line)? {
        return Ok(COMMA);
    }
    if is_separated(alloc, SEMICOLON, line)? {
        return Ok(SEMICOLON);
    }
    if is_separated(alloc, TAB, line)? {
        return Ok(TAB);
    }
    Ok(COMMA)
}

/// Whether the line is a row of two or more cells.
fn is_separated(alloc: Global, separator: u8, line: &[u8]) -> Result<bool, AllocError>
    ensures { IfOk result (λ is. is ≡ is_separated separator line.now) }
{
    match cells_of(alloc, separator, line)? {
        Some(cells) => Ok(cells.len() >= 2),
        None => Ok(false),
    }
}

/// Appends the plain line of a line, before which quotation marks are open or not.
fn write_line(
    alloc: Global,
    plain: &mut Vec<u8>,
    separator: u8,
    unclosed: bool,
    line: &[u8],
) -> Result<(), AllocError>
    ensures { OnOk result (plain.new.items
        ≡ plain.old.items ++ plain_line separator unclosed line.now) }
{
    if unclosed {
        return plain.extend_from_slice(line);
    }
    if let Some(mut cells) = cells_of(alloc, separator, line)? {
        return write_row(alloc, plain, &mut cells);
    }
    if let Some(mut cells) = cells_of(alloc, COMMA, line)? {
        return write_row(alloc, plain, &mut cells);
    }
    plain.extend_from_slice(line)
}

/// Whether quotation marks are open after these bytes.
fn is_unclosed_after(before: bool, line: &[u8]) -> bool
    ensures { result ≡ unclosed_after before line.now }
{
    let mut unclosed = before;
    for byte in line {
        if *byte == QUOTATION_MARK {
            unclosed = !unclosed;
        }
    }
    unclosed
}
