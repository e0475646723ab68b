//! Text broken into lines no wider than those of an excerpt.
ghost use Rattle.std.specs.Prelude.{◌≡◌, ◌≤◌, true, string_bytes, IfOk, OnOk};
ghost use Rattle.std.specs.List.{list_all};
ghost use Rattle.twp_excerpt.specs.Shown.{AddsEnded, AddsLines};
ghost use Rattle.twp_excerpt.specs.steps.Looks.{is_printable};

use crate::escaped::{Sign, push_printable};
use crate::excerpt::{COLUMNS, end_line};
use crate::kept_part::{DOTS, front_of};
use std::alloc::AllocError;

/// The indentation of lines after the first.
const INDENT: &str = "  ";

/// The columns that words may take in a line. The last line leaves room for a space and two dots.
const LAST_LINE: usize = COLUMNS - 1 - DOTS.len();

/// A place for a word on one of the lines.
#[derive(Clone, Copy)]
struct WordPlace {
    /// The columns of the line before the place.
    columns: usize,
    /// Whether a word precedes it on the line.
    is_after_word: bool,
    /// How many more lines can begin.
    lines: usize,
    /// Whether the last line is full, and dots were written.
    is_full: bool,
    /// How many lines end before the place.
    line: u32,
    /// The lines that continue the one before: the bit of a line is 2 to the power of its number, from 0.
    continued: u32,
}

impl WordPlace {
    /// The place after the first word of the next line, which begins a line of its own or continues this one.
    fn on_next_line(self, columns: usize, is_continued: bool) -> WordPlace {
        let line = self.line.saturating_add(1);
        WordPlace {
            columns,
            is_after_word: true,
            lines: self.lines.saturating_sub(1),
            is_full: false,
            line,
            continued: if is_continued {
                self.continued | bit_of(line)
            } else {
                self.continued
            },
        }
    }
}

/// The bit of a line after the first. A sentence, and the help on it, have three lines at most.
fn bit_of(line: u32) -> u32 {
    match line {
        1 => 2,
        2 => 4,
        _ => 0,
    }
}

/// How many columns a text takes after it is escaped.
pub fn columns_of(text: &str) -> usize {
    let bytes = text.as_bytes();
    let mut at = 0;
    let mut columns: usize = 0;
    while at < bytes.len() {
        let sign = Sign::first(&bytes[at..]);
        columns = columns.saturating_add(sign.look.columns());
        at += sign.size;
    }
    columns
}

/// Appends a text to a line on which some columns are taken, and ends the line. Text that is too wide is
/// broken at spaces into lines of at most 100 columns, up to a number of lines; those after the first are
/// indented by two spaces. A word after a space and a line feed begins a new line. If the text does not
/// fit, the rest is omitted, and two dots mark the omission. The text is escaped. If memory runs out,
/// only a prefix of those lines is appended. Returns which of the lines were broken off the one before
/// because it was too wide: bit 1 is for the second line, and bit 2 for the third.
#[tactic(auto, using(crate::proofs::ShownFacts::adds_trans))]
pub fn write_wrapped(
    text: &str,
    columns: usize,
    lines: usize,
    out: &mut String,
) -> Result<u32, AllocError>
    ensures safe { AddsLines (string_bytes out.old) (string_bytes out.new) }
    ensures ended { OnOk result (AddsEnded (string_bytes out.old) (string_bytes out.new)) }
{
    let mut place = WordPlace {
        columns,
        is_after_word: false,
        lines: lines.saturating_sub(1),
        is_full: false,
        line: 0,
        continued: 0,
    };
    for word in text.split(' ') {
        if !place.is_full {
            place = write_word(word, place, out)?;
        }
    }
    end_line(out)?;
    Ok(place.continued)
}

/// Appends a word at a place, or at the beginning of the next line if it doesn't fit there or a line feed is
/// before it.
#[tactic(auto, using(crate::proofs::ShownFacts::adds_trans, crate::proofs::ShownFacts::lines_of_shown))]
fn write_word(word: &str, place: WordPlace, out: &mut String) -> Result<WordPlace, AllocError>
    ensures safe { AddsLines (string_bytes out.old) (string_bytes out.new) }
{
    let gap = if place.is_after_word { " " } else { "" };
    let is_next = word.starts_with('\n');
    let word = word.strip_prefix('\n').unwrap_or(word);
    let columns = place
        .columns
        .saturating_add(gap.len())
        .saturating_add(columns_of(word));
    let most = if place.lines == 0 { LAST_LINE } else { COLUMNS };
    if columns <= most && !is_next {
        write_after(gap, word, COLUMNS, out)?;
        return Ok(WordPlace {
            columns,
            is_after_word: true,
            ..place
        });
    }
    if place.lines == 0 {
        write_after(gap, DOTS, COLUMNS, out)?;
        return Ok(WordPlace {
            is_full: true,
            ..place
        });
    }
    end_line(out)?;
    let columns = write_after(INDENT, word, LAST_LINE - INDENT.len(), out)?;
    Ok(place.on_next_line(INDENT.len() + columns, !is_next))
}

/// Appends some spaces and the prefix of a word that fits in a number of columns. Returns the
/// columns of that prefix.
#[tactic(auto, using(crate::proofs::ShownFacts::adds_trans, crate::proofs::ShownFacts::lines_of_shown))]
fn write_after(spaces: &str, word: &str, room: usize, out: &mut String) -> Result<usize, AllocError>
    requires spaces { list_all is_printable spaces.now ≡ true }
    requires room { (2 ≤ room) × (room ≤ 100) }
    ensures safe { AddsLines (string_bytes out.old) (string_bytes out.new) }
    ensures fits { IfOk result (λ columns. columns ≤ 100) }
{
    push_printable(spaces, out)?;
    let front = front_of(word.as_bytes(), room);
    front.write_front(out)?;
    Ok(front.columns)
}
