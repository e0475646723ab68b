//! The marks of a map's places, by position and by section.
ghost use Rattle.std.specs.Prelude.{◌≡◌, ◌≢◌, ◌+◌, ◌-◌, ◌*◌, ◌%◌, ◌≤◌, ◌<◌, ◌&&◌, ◌↔◌, ℕ, IsTrue, true};
ghost use Rattle.std.specs.Prelude.{nat_le};
ghost use Rattle.std.specs.Option.{SomeIff};
ghost use Rattle.twp_grid.specs.Lands.{Meets};
ghost use Rattle.twp_land.specs.LotMaps.{mark_in, mark_of};
ghost use Rattle.twp_land.specs.declared.lot_map.bytes.Columns.{Columns};
ghost use Rattle.twp_land.specs.steps.LotBytes.{in_columns};
ghost use Rattle.twp_land.specs.steps.Marked.{PLACES, marked};

use crate::lot_map::bytes::{
    Columns, Extent, are_below, extent_in, first_between, is_between, lowest_in,
};
use crate::lot_map::{
    DIVIDED_BYTES, LotMap, NO_LAND, PLACES, PLACES_OF_HALF, PLACES_OF_POSITION, POSITIONS,
};
use crate::lot_marks::place_number;
use twp_grid::{Block, Section};

impl LotMap {
    /// Which places of half a position have marks from a least to a greatest, by the byte of the
    /// position, if a place is the first of the half.
    #[inline(always)]
    pub(super) fn extent(&self, position: u8, place: usize, least: u8, most: u8) -> Extent
        requires { least ≤ most }
        ensures first { result ≢ Extent.Mixed → place % 32 ≡ 0 }
        ensures held { (columns : Columns) → result ≡ Extent.Held columns → (within : ℕ) → within < 32
            → (nat_le least (mark_in self.now.divided position (place % 64 + within))
            && nat_le (mark_in self.now.divided position (place % 64 + within)) most)
            ≡ in_columns columns within }
        ensures nothing { result ≡ Extent.Nothing → (within : ℕ) → within < 32
            → least ≤ mark_in self.now.divided position (place % 64 + within)
            → ¬ (mark_in self.now.divided position (place % 64 + within) ≤ most) }
        ensures whole { result ≡ Extent.Empty → place % 64 ≡ 0 }
        ensures empty { result ≡ Extent.Empty → (within : ℕ) → within < 64
            → least ≤ mark_in self.now.divided position within
            → ¬ (mark_in self.now.divided position within ≤ most) }
    {
        if place % PLACES_OF_HALF != 0 {
            return Extent::Mixed;
        }
        if position <= NO_LAND {
            if is_between(position, least, most) {
                return Extent::Held(Columns::All);
            }
            return Extent::Nothing;
        }
        let Some(first) = divided_index(position) else {
            return Extent::Mixed;
        };
        if place % PLACES_OF_POSITION != 0 {
            return extent_in(&self.divided, first + PLACES_OF_HALF, least, most);
        }
        let south = extent_in(&self.divided, first, least, most);
        if let Extent::Nothing = south {
            if let Extent::Nothing = extent_in(&self.divided, first + PLACES_OF_HALF, least, most) {
                return Extent::Empty;
            }
        }
        south
    }

    /// A place itself; or if it is the first one of a position, the first place of the next position,
    /// from this one on, that is divided, or has a mark from a least to a greatest.
    #[inline(always)]
    pub(super) fn passed(&self, section: Section, place: usize, least: u8, most: u8) -> usize
        requires { least ≤ most }
        ensures from { place ≤ result }
        ensures passed { (number : ℕ) → place ≤ number → number < result
            → least ≤ mark_of self.now.positions self.now.divided section number
            → ¬ (mark_of self.now.positions self.now.divided section number ≤ most) }
    {
        if place % PLACES_OF_POSITION != 0 || place >= PLACES {
            return place;
        }
        let from = place / PLACES_OF_POSITION;
        let whole = first_between(&self.positions, section, from, least, most);
        let divided = first_between(&self.positions, section, from, NO_LAND + 1, u8::MAX);
        PLACES_OF_POSITION * whole.min(divided)
    }

    /// Whether no place of a section has a mark from a least on, as its positions show. If it isn't
    /// so, there still may be none.
    #[inline(always)]
    pub(super) fn has_none_from(&self, section: Section, least: u8) -> bool
        requires { least ≤ 100 }
        ensures { IsTrue result → (number : ℕ) → number < PLACES
            → mark_of self.now.positions self.now.divided section number < least }
    {
        are_below(&self.positions, section, least)
    }

    /// The lowest mark of a position that is greater than a number; 100 if there is none.
    #[inline(always)]
    fn lowest_at(&self, position: u8, after: u8) -> u8
        requires { after < 100 }
        ensures more { after < result }
        ensures most { result ≤ 100 }
        ensures is { result < 100
            → (within : ℕ) × (within < 64) × (mark_in self.now.divided position within ≡ result) }
        ensures least { (within : ℕ) → within < 64 → after < mark_in self.now.divided position within
            → result ≤ mark_in self.now.divided position within }
    {
        if position <= NO_LAND {
            if after < position {
                return position;
            }
            return NO_LAND;
        }
        match divided_index(position) {
            Some(first) => lowest_in(&self.divided, first, after),
            None => NO_LAND,
        }
    }

    /// The lowest mark of a section that is greater than a number; 100 if there is none.
    pub(super) fn lowest(&self, section: Section, after: u8) -> u8
        requires { after < 100 }
        ensures more { after < result }
        ensures most { result ≤ 100 }
        ensures is { result < 100 → (number : ℕ) × (number < PLACES)
            × (mark_of self.now.positions self.now.divided section number ≡ result) }
        ensures least { (number : ℕ) → number < PLACES
            → after < mark_of self.now.positions self.now.divided section number
            → result ≤ mark_of self.now.positions self.now.divided section number }
    {
        let mut lowest = NO_LAND;
        for index in 0..POSITIONS {
            let here = self.lowest_at(self.position(section, index * PLACES_OF_POSITION), after);
            if here < lowest {
                lowest = here;
            }
        }
        lowest
    }

    /// Whether a row of a section contains a place with a mark from a least to a greatest, from one
    /// column up to another.
    fn row_meets(&self, section: Section, row: u8, columns: (u8, u8), least: u8, most: u8) -> bool
        requires row { row < 32 }
        requires columns { columns.1 ≤ 32 }
        ensures { IsTrue result ↔ ((column : ℕ) × (columns.0 ≤ column) × (column < columns.1)
            × (marked self.now.positions self.now.divided section least most column row ≡ true)) }
    {
        for column in columns.0..columns.1 {
            let number = place_number(column, row);
            let mark = self.mark(self.position(section, number), number);
            if is_between(mark, least, most) {
                return true;
            }
        }
        false
    }

    /// Whether a block within a position contains a place with a mark from a least to a greatest.
    pub(super) fn small_meets(&self, section: Section, block: Block, least: u8, most: u8) -> bool
        requires width { block.columns.len ≤ 8 }
        requires height { block.rows.len ≤ 8 }
        ensures { IsTrue result
            ↔ Meets (marked self.now.positions self.now.divided section least most) block }
    {
        let position = self.position(section, place_number(block.column(), block.row()));
        if position <= NO_LAND {
            return is_between(position, least, most);
        }
        let columns = (block.column(), block.column() + block.width());
        for row in block.row()..block.row() + block.height() {
            if self.row_meets(section, row, columns, least, most) {
                return true;
            }
        }
        false
    }
}

/// The index of the first place of a divided position, by the byte of the position. `None` if there
/// are no bytes for its places.
#[inline(always)]
fn divided_index(position: u8) -> Option<usize>
    requires { 100 < position }
    ensures { SomeIff result ((position - 101) * 64 < 8192) ((position - 101) * 64) }
{
    let first = usize::from(position - NO_LAND - 1) * PLACES_OF_POSITION;
    if first >= DIVIDED_BYTES {
        return None;
    }
    Some(first)
}
