ghost use Rattle.std.specs.Prelude.{◌≡◌, ◌≢◌, ◌+◌, ◌-◌, ◌*◌, ◌≤◌, ◌<◌, ℕ, IsTrue, false};
ghost use Rattle.std.specs.Prelude.{get_or, []};
ghost use Rattle.twp_grid.specs.Winding.{SECTION_COUNT};
ghost use Rattle.twp_grid.specs.Spans.{rectangle, span_from};
ghost use Rattle.twp_land.specs.LotMaps.{place_number};
ghost use Rattle.twp_land.specs.LotMarks.{HasMark, IsPainted, mark_at, marks_of};
ghost use Rattle.twp_land.specs.steps.Marked.{PLACES};

use twp_grid::{Block, PLACES_TO_POSITION, SECTIONS, Section};

/// The number of places in a section.
pub(crate) const PLACES: usize = 1024;

/// The number of places in a position.
const PLACES_OF_POSITION: usize = 64;

/// A mark for each place of a township: 0 for land in no lot, 1 to 99 for land in the lot with this
/// number, and 100 for no land.
#[derive(Drop)]
pub struct LotMarks {
    sections: [[u8; PLACES]; SECTIONS as usize],
}

impl LotMarks {
    /// Marks of which none is set.
    pub fn none() -> LotMarks
        ensures { (section column row : ℕ) → mark_at (marks_of result.sections section) column row ≡ 0 }
    {
        LotMarks {
            sections: [[0; PLACES]; SECTIONS as usize],
        }
    }

    /// The mark of a place of a section, by the number of the place.
    pub fn mark(&self, section: Section, number: usize) -> u8
        requires { number < PLACES }
        ensures { result ≡ get_or (marks_of self.now.sections section) number 0 }
    {
        self.sections[usize::from(section.number() - 1)][number]
    }

    /// The marks of the places of a section, by its index from 0 and by the numbers of the places.
    pub(crate) fn section(&self, index: usize) -> &[u8; PLACES]
        requires { index < SECTION_COUNT }
        ensures { result.now ≡ get_or self.now.sections index [] }
    {
        &self.sections[index]
    }

    /// Marks the places of a block, unless one of them has a mark. Returns whether none had; if one
    /// had, the marks have no meaning any more.
    pub fn paint(&mut self, section: Section, block: Block, mark: u8) -> bool
        ensures painted { IsTrue result → IsPainted block mark
            (marks_of self.old.sections section) (marks_of self.new.sections section) }
        ensures others { (other : ℕ) → other ≢ section → 1 ≤ other
            → marks_of self.new.sections other ≡ marks_of self.old.sections other }
        ensures taken { result ≡ false → HasMark (marks_of self.old.sections section) block }
    {
        paint_block(
            &mut self.sections[usize::from(section.number() - 1)],
            block,
            mark,
        )
    }
}

/// The same for the marks of one section. A block with eight columns and rows, or more, is made up of
/// whole positions.
fn paint_block(marks: &mut [u8; PLACES], block: Block, mark: u8) -> bool
    ensures painted { IsTrue result → IsPainted block mark marks.old marks.new }
    ensures taken { result ≡ false → HasMark marks.old block }
{
    if block.width() >= PLACES_TO_POSITION && block.height() >= PLACES_TO_POSITION {
        return paint_positions(marks, block, mark);
    }
    let start = block.column();
    let end = start + block.width();
    for row in block.row()..block.row() + block.height() {
        if !paint_row(marks, row, start, end, mark) {
            return false;
        }
    }
    true
}

/// The same for a block of whole positions.
fn paint_positions(marks: &mut [u8; PLACES], block: Block, mark: u8) -> bool
    requires width { 8 ≤ block.columns.len }
    requires height { 8 ≤ block.rows.len }
    ensures painted { IsTrue result → IsPainted block mark marks.old marks.new }
    ensures taken { result ≡ false → HasMark marks.old block }
{
    let start = block.column() / PLACES_TO_POSITION;
    let end = start + block.width() / PLACES_TO_POSITION;
    let first = block.row() / PLACES_TO_POSITION;
    for row in first..first + block.height() / PLACES_TO_POSITION {
        if !paint_tier(marks, row, start, end, mark) {
            return false;
        }
    }
    true
}

/// The same for the positions of one row, by their columns from the east.
fn paint_tier(marks: &mut [u8; PLACES], row: u8, start: u8, end: u8, mark: u8) -> bool
    requires row { row < 4 }
    requires start { start ≤ end }
    requires end { end ≤ 4 }
    ensures painted { IsTrue result → IsPainted
        (rectangle (span_from (start * 8) ((end - start) * 8)) (span_from (row * 8) 8)) mark marks.old marks.new }
    ensures taken { result ≡ false → HasMark marks.old
        (rectangle (span_from (start * 8) ((end - start) * 8)) (span_from (row * 8) 8)) }
{
    for column in start..end {
        if !paint_position(marks, column, row, mark) {
            return false;
        }
    }
    true
}

/// The same for one position. The loops have no early exit, so LLVM handles many places at once.
fn paint_position(marks: &mut [u8; PLACES], column: u8, row: u8, mark: u8) -> bool
    requires column { column < 4 }
    requires row { row < 4 }
    ensures painted { IsTrue result → IsPainted
        (rectangle (span_from (column * 8) 8) (span_from (row * 8) 8)) mark marks.old marks.new }
    ensures taken { result ≡ false → HasMark marks.old
        (rectangle (span_from (column * 8) 8) (span_from (row * 8) 8)) }
{
    let first = usize::from(row * 4 + column) * PLACES_OF_POSITION;
    if has_marks(marks, first) {
        return false;
    }
    for within in 0..PLACES_OF_POSITION {
        marks[first + within] = mark;
    }
    true
}

/// Whether one of the places of a position, from a first number on, has a mark.
fn has_marks(marks: &[u8; PLACES], first: usize) -> bool
    requires { first + 64 ≤ PLACES }
    ensures marked { IsTrue result
        → (within : ℕ) × (within < 64) × (get_or marks.now (first + within) 0 ≢ 0) }
    ensures free { result ≡ false
        → (within : ℕ) → within < 64 → get_or marks.now (first + within) 0 ≡ 0 }
{
    let mut is_marked = false;
    for within in 0..PLACES_OF_POSITION {
        is_marked = is_marked | (marks[first + within] != 0);
    }
    is_marked
}

/// The same for the places of one row.
fn paint_row(marks: &mut [u8; PLACES], row: u8, start: u8, end: u8, mark: u8) -> bool
    requires row { row < 32 }
    requires start { start ≤ end }
    requires end { end ≤ 32 }
    ensures painted { IsTrue result → IsPainted
        (rectangle (span_from start (end - start)) (span_from row 1)) mark marks.old marks.new }
    ensures taken { result ≡ false → HasMark marks.old
        (rectangle (span_from start (end - start)) (span_from row 1)) }
{
    for column in start..end {
        let number = place_number(column, row);
        if marks[number] != 0 {
            return false;
        }
        marks[number] = mark;
    }
    true
}

/// The number of a place in its section.
pub(crate) fn place_number(column: u8, row: u8) -> usize
    requires column { column < 32 }
    requires row { row < 32 }
    ensures number { result ≡ place_number column row }
    ensures below { result < PLACES }
{
    usize::from(row / 8 * 4 + column / 8) * 64 + usize::from(row % 8 * 8 + column % 8)
}
