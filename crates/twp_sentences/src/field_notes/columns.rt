//! Records of field notes that have too few fields or too many: how that came about, where nothing
//! else can be meant.

use crate::field_notes::half_mile_hints::{Distances, is_in_limits};
use twp_diagnose::{Record, is_short_number, thousandths_of};
use twp_grid::{Line, Run};
use twp_measure::Length;
use twp_notes::{FIELDS, section_of};

/// Whether the third field is left out, which is empty on the township boundary: a line lies there
/// beside the record's section, and the fields that follow may be its distances. No neighbor is
/// taken for one: its number is 36 at most, and a half mile has more chains.
pub(crate) fn lacks_neighbor(record: &Record<'_>) -> bool {
    if record.len() != FIELDS - 1 {
        return false;
    }
    match line_beside(record, b"") {
        Some(line) => may_be_of(line, length_at(record, 2), length_at(record, 3)),
        None => false,
    }
}

/// Whether a record goes on after the fields of a line: the sixth can't be the decimals of the
/// fifth.
pub(crate) fn goes_on(record: &Record<'_>) -> bool {
    if record.len() <= FIELDS || length_at(record, 3).is_none() || length_at(record, 4).is_none() {
        return false;
    }
    let next = record.text(FIELDS).trim_ascii_start();
    record.text(4).contains(&b'.') || !matches!(next.first(), Some(b'0'..=b'9'))
}

/// Whether commas in place of points cut a record's distances in two, or one of them, where the
/// other is whole: with points they may be those of its line, but the fourth and fifth field as they
/// are may not.
pub(crate) fn has_cut_distances(record: &Record<'_>) -> bool {
    let Some(line) = line_beside(record, record.text(2)) else {
        return false;
    };
    let is_cut = if record.len() == FIELDS + 1 {
        may_be_of(line, cut_length_at(record, 3), length_at(record, 5))
            || may_be_of(line, length_at(record, 3), cut_length_at(record, 4))
    } else {
        record.len() == FIELDS + 2
            && may_be_of(line, cut_length_at(record, 3), cut_length_at(record, 5))
    };
    is_cut && !may_be_of(line, length_at(record, 3), length_at(record, 4))
}

/// The line of a record's run between its section and a neighbor, or on the township boundary where
/// that is nothing.
fn line_beside(record: &Record<'_>, neighbor: &[u8]) -> Option<Line> {
    let run = match record.text(0) {
        b"N" => Run::North,
        b"W" => Run::West,
        _ => return None,
    };
    let section = section_of(record.text(1))?;
    if neighbor.is_empty() {
        return Line::find(run, section, None);
    }
    Line::find(run, section, Some(section_of(neighbor)?))
}

/// The length that a field is, in thousandths of a chain.
fn length_at(record: &Record<'_>, field: usize) -> Option<u32> {
    match Length::read(record.text(field)) {
        Ok(length) => Some(length.thousandths()),
        Err(_) => None,
    }
}

/// The length that a field is with the next one as its decimals.
fn cut_length_at(record: &Record<'_>, field: usize) -> Option<u32> {
    let whole = record.text(field);
    let decimals = record.text(field.saturating_add(1));
    if !is_short_number(whole, 2) || !is_short_number(decimals, 3) {
        return None;
    }
    u32::try_from(thousandths_of(whole, decimals)?).ok()
}

/// Whether these are distances that a line of a plat may have.
fn may_be_of(line: Line, quarter: Option<u32>, corner: Option<u32>) -> bool {
    match (quarter, corner) {
        (Some(quarter), Some(corner)) => is_in_limits(line, Distances { quarter, corner }),
        _ => false,
    }
}
