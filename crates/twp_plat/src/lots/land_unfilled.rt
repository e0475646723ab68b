//! Quarter-quarters that a lot lies in and that also contain land in no part of a record.
ghost use Rattle.std.specs.Prelude.{◌≡◌, ◌≤◌, ◌<◌, ◌↔◌, IsTrue};
ghost use Rattle.twp_plat.specs.steps.Unfilled.{IsLeast, earlier_of, mark_within, IsRecordOfMark};
ghost use Rattle.twp_plat.specs.steps.Unfilled.{HasFreePlace};
ghost use Rattle.twp_plat.specs.steps.Unfilled.{HasMarkedPlace};
ghost use Rattle.twp_plat.specs.steps.Unfilled.{IsLotRecordAt, IsUnfilledAt, IsUnfilledIn, IsUnfilledRecord};
ghost use Rattle.twp_plat.specs.steps.Unfilled.{AreMarksOfLots};

use crate::lots::land_entries::LotEntries;
use crate::lots::land_record::NO_LAND;
use twp_grid::{SECTIONS, Section};
use twp_land::LotMarks;

/// The number of positions in a section, and of places in a position.
const POSITIONS: usize = 16;

const PLACES_OF_POSITION: usize = 64;

/// The number of the first record of a lot that lies in a quarter-quarter with a place in no part.
pub(crate) fn first_unfilled(marks: &LotMarks, lots: &LotEntries) -> Option<u32>
    requires { AreMarksOfLots marks.now.sections lots.now }
    ensures { IsLeast result (IsUnfilledRecord marks.now.sections lots.now.records) }
{
    let mut first = None;
    for number in 1..SECTIONS + 1 {
        let section = Section::new(number).unwrap();
        first = earlier(first, first_unfilled_in(marks, lots, section));
    }
    first
}

/// The first such record of a section.
fn first_unfilled_in(marks: &LotMarks, lots: &LotEntries, section: Section) -> Option<u32>
    requires { AreMarksOfLots marks.now.sections lots.now }
    ensures { IsLeast result (IsUnfilledIn marks.now.sections lots.now.records section) }
{
    let mut first = None;
    if !lots.has_lots(section) {
        return first;
    }
    for position in 0..POSITIONS {
        first = earlier(first, first_unfilled_at(marks, lots, section, position));
    }
    first
}

/// The first such record of a position.
fn first_unfilled_at(
    marks: &LotMarks,
    lots: &LotEntries,
    section: Section,
    position: usize,
) -> Option<u32>
    requires { position < POSITIONS }
    ensures { IsLeast result (IsUnfilledAt marks.now.sections lots.now.records section position) }
{
    if !has_free_place(marks, section, position) {
        return None;
    }
    if !has_mark(marks, section, position) {
        return None;
    }
    first_lot_at(marks, lots, section, position)
}

/// Whether a place of a position is in no part. This loop and the next have no early exit, so LLVM
/// looks at many places at once.
fn has_free_place(marks: &LotMarks, section: Section, position: usize) -> bool
    requires { position < POSITIONS }
    ensures { IsTrue result ↔ HasFreePlace marks.now.sections section position }
{
    let mut is_free = false;
    for within in 0..PLACES_OF_POSITION {
        let mark = marks.mark(section, position * PLACES_OF_POSITION + within);
        is_free = is_free | (mark == 0);
    }
    is_free
}

/// Whether a place of a position has a mark.
fn has_mark(marks: &LotMarks, section: Section, position: usize) -> bool
    requires { position < POSITIONS }
    ensures { IsTrue result ↔ HasMarkedPlace marks.now.sections section position }
{
    let mut is_marked = false;
    for within in 0..PLACES_OF_POSITION {
        let mark = marks.mark(section, position * PLACES_OF_POSITION + within);
        is_marked = is_marked | (mark != 0);
    }
    is_marked
}

/// The first record of a lot that lies in a position.
fn first_lot_at(
    marks: &LotMarks,
    lots: &LotEntries,
    section: Section,
    position: usize,
) -> Option<u32>
    requires { position < POSITIONS }
    ensures { IsLeast result (IsLotRecordAt marks.now.sections lots.now.records section position) }
{
    let mut first = None;
    for within in 0..PLACES_OF_POSITION {
        let mark = marks.mark(section, position * PLACES_OF_POSITION + within);
        first = earlier(first, record_of(lots, section, mark));
    }
    first
}

/// The number of the record of the lot with a mark, if it is that of a lot.
fn record_of(lots: &LotEntries, section: Section, mark: u8) -> Option<u32>
    ensures { IsLeast result (IsRecordOfMark lots.now.records section mark) }
{
    if mark == 0 || mark >= NO_LAND {
        return None;
    }
    Some(lots.record(section, mark))
}

/// The smaller of two numbers, of which any may be absent.
fn earlier(first: Option<u32>, second: Option<u32>) -> Option<u32>
    ensures { result ≡ earlier_of first second }
{
    match first {
        None => second,
        Some(one) => match second {
            None => first,
            Some(other) => Some(one.min(other)),
        },
    }
}
