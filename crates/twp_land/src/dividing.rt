//! From a mark for each place to a byte for each position.
ghost use Rattle.std.specs.Prelude.{◌≡◌, ◌==◌, ◌+◌, ◌*◌, ◌≤◌, ◌<◌, ℕ, false, MatchOption, get_or, min};
ghost use Rattle.twp_grid.specs.Lots.{POSITIONS};
ghost use Rattle.twp_grid.specs.Winding.{SECTION_COUNT};
ghost use Rattle.twp_land.specs.LotMarks.{DIVIDED_MOST, HasMarks, all_below, are_alike, divided_count};
ghost use Rattle.twp_land.specs.LotMaps.{PLACES_OF_POSITION, mark_of, layout_of_bytes};
ghost use Rattle.twp_land.specs.steps.Dividing.{AreDivided};
ghost use Rattle.twp_land.specs.steps.Marked.{PLACES};

use crate::lot_map::{DIVIDED_BYTES, LotMap, POSITION_BYTES};
use crate::lot_marks::{LotMarks, PLACES};
use twp_grid::SECTIONS;

/// The number of positions in a section.
const POSITIONS: usize = 16;

/// The number of places in a position.
const PLACES_OF_POSITION: usize = 64;

/// How many positions of a township can be divided.
const DIVIDED_MOST: usize = 128;

/// The mark of a place without land.
const NO_LAND: u8 = 100;

/// The lots that marks give. `None` if more than 128 positions have places with different marks.
pub fn map_of_marks(marks: &LotMarks) -> Option<LotMap>
    ensures { MatchOption result (DIVIDED_MOST < divided_count marks.now.sections)
        (λ map. (divided_count marks.now.sections ≤ DIVIDED_MOST)
        × HasMarks map.positions map.divided marks.now.sections) }
{
    let mut positions = [0; POSITION_BYTES];
    let mut divided = [0; DIVIDED_BYTES];
    let mut used = 0;
    for index in 0..SECTIONS as usize {
        if has_marks(marks.section(index)) {
            let Some(end) = add_section(&mut positions, &mut divided, used, marks, index) else {
                return None;
            };
            used = end;
        }
    }
    Some(LotMap::new(&positions, &divided))
}

/// Whether one of a section's places has a mark. The loop has no early exit, so LLVM looks at many
/// places at once.
fn has_marks(marks: &[u8; PLACES]) -> bool
    ensures { result ≡ false → (number : ℕ) → get_or marks.now number 0 ≡ 0 }
{
    let mut is_marked = false;
    for number in 0..PLACES {
        is_marked = is_marked | (marks[number] != 0);
    }
    is_marked
}

/// Adds the bytes of the positions of a section, by its index from 0, to those of the sections before.
/// Returns how many positions are divided so far. `None` if they are too many.
fn add_section(
    positions: &mut [u8; POSITION_BYTES],
    divided: &mut [u8; DIVIDED_BYTES],
    before: usize,
    marks: &LotMarks,
    index: usize,
) -> Option<usize>
    requires index { index < SECTION_COUNT }
    requires before { AreDivided marks.now.sections (index * POSITIONS) before
        positions.old divided.old }
    ensures sections { MatchOption result (DIVIDED_MOST < divided_count marks.now.sections)
        (λ used. AreDivided marks.now.sections ((index + 1) * POSITIONS) used
        positions.new divided.new) }
    ensures others { (i d : ℕ) → (index + 1) * POSITIONS ≤ i
        → get_or positions.new i d ≡ get_or positions.old i d }
{
    let section = marks.section(index);
    let mut used = before;
    for position in 0..POSITIONS {
        let first = position * PLACES_OF_POSITION;
        if are_alike(section, first) {
            positions[index * POSITIONS + position] = at_most(section[first]);
        } else {
            if used == DIVIDED_MOST {
                return None;
            }
            positions[index * POSITIONS + position] = NO_LAND + 1 + used as u8;
            copy_marks(divided, used * PLACES_OF_POSITION, section, first);
            used += 1;
        }
    }
    Some(used)
}

/// A mark, or that of a place without land if it is greater.
fn at_most(mark: u8) -> u8
    ensures { result ≡ min mark 100 }
{
    if mark > NO_LAND {
        return NO_LAND;
    }
    mark
}

/// Whether the places of a position have the same mark, by the number of the first of them.
fn are_alike(marks: &[u8; PLACES], first: usize) -> bool
    requires { first + 64 ≤ PLACES }
    ensures { result ≡ are_alike marks.now first }
{
    are_all(marks, first, marks[first])
}

/// Whether the places of a position have this mark. The loop has no early exit, so LLVM compares many
/// places at once. If it was inlined, LLVM would leave out the first place, whose mark this is, and
/// compare the other 63 in smaller groups.
#[inline(never)]
fn are_all(marks: &[u8; PLACES], first: usize, mark: u8) -> bool
    requires { first + 64 ≤ PLACES }
    ensures { result ≡ all_below PLACES_OF_POSITION
        (λ n. get_or marks.now (first + n) 0 == mark) }
{
    let mut alike = true;
    for within in 0..PLACES_OF_POSITION {
        alike = alike & (marks[first + within] == mark);
    }
    alike
}

/// Copies the marks of a position, by the number of its first place.
fn copy_marks(divided: &mut [u8; DIVIDED_BYTES], to: usize, marks: &[u8; PLACES], first: usize)
    requires to { to + 64 ≤ 8192 }
    requires first { first + 64 ≤ PLACES }
    ensures copied { (within d : ℕ) → within < 64
        → get_or divided.new (to + within) d ≡ get_or marks.now (first + within) 0 }
    ensures others { (index d : ℕ) → index < to → get_or divided.new index d ≡ get_or divided.old index d }
{
    for within in 0..PLACES_OF_POSITION {
        divided[to + within] = marks[first + within];
    }
}
