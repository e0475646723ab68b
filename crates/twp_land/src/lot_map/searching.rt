//! The places of a section with marks in a range, one block after another.
ghost use Rattle.std.specs.Prelude.{◌≡◌, ◌+◌, ◌*◌, ◌%◌, ◌/◌, ◌≤◌, ◌<◌, ◌↔◌, ℕ, IsTrue, true};
ghost use Rattle.std.specs.Prelude.{IfSome, MatchOption};
ghost use Rattle.twp_grid.specs.Places.{PLACE_DIGITS};
ghost use Rattle.twp_grid.specs.Lands.{Meets};
ghost use Rattle.twp_grid.specs.Spans.{in_rectangle, place_block, position_block};
ghost use Rattle.twp_land.specs.LotMaps.{place_number};
ghost use Rattle.twp_land.specs.steps.LotBytes.{column_count, first_column};
ghost use Rattle.twp_land.specs.steps.Marked.{PLACES, marked, NoneLeft, IsNextBlock};

use crate::lot_map::bytes::{Columns, Extent, first_between, is_between};
use crate::lot_map::{LotMap, NO_LAND, PLACES, PLACES_OF_HALF, PLACES_OF_POSITION, POSITIONS};
use crate::lot_marks::place_number;
use crate::lots::share_place;
use twp_grid::{Block, PLACES_TO_POSITION, Section, Side};

/// A block of places, and the number after those of its places.
#[derive(Clone, Copy)]
pub(super) struct Marked {
    pub(super) block: Block,
    pub(super) end: usize,
}

impl LotMap {
    /// The first block of a section, from a place's number on, whose places have marks from a least
    /// to a greatest: a whole position, or a single place. `None` if no such place is left. Inlined,
    /// except for a search through divided positions.
    #[inline(always)]
    pub(super) fn next(&self, section: Section, from: usize, least: u8, most: u8) -> Option<Marked>
        requires { least ≤ most }
        ensures next { MatchOption result
            (NoneLeft (marked self.now.positions self.now.divided section least most) from)
            (λ found. IsNextBlock (marked self.now.positions self.now.divided section least most) from
            found.block found.end) }
    {
        let at = self.passed(section, from, least, most);
        if at >= PLACES {
            return None;
        }
        if at % PLACES_OF_POSITION == 0 {
            let position = self.position(section, at);
            if position <= NO_LAND && is_between(position, least, most) {
                return Some(Marked {
                    block: position_at(at),
                    end: at + PLACES_OF_POSITION,
                });
            }
        }
        self.search(section, from, least, most)
    }

    /// The same, position by position, and in divided positions place by place.
    #[inline(never)]
    fn search(&self, section: Section, from: usize, least: u8, most: u8) -> Option<Marked>
        requires { least ≤ most }
        ensures next { MatchOption result
            (NoneLeft (marked self.now.positions self.now.divided section least most) from)
            (λ found. IsNextBlock (marked self.now.positions self.now.divided section least most) from
            found.block found.end) }
    {
        let mut at = self.passed(section, from, least, most);
        'places: while at < PLACES {
            let position = self.position(section, at);
            if at % PLACES_OF_POSITION == 0 && position <= NO_LAND {
                if is_between(position, least, most) {
                    return Some(Marked {
                        block: position_at(at),
                        end: at + PLACES_OF_POSITION,
                    });
                }
            }
            match self.extent(position, at, least, most) {
                Extent::Held(columns) => {
                    return Some(Marked {
                        block: half_at(at, columns),
                        end: at + PLACES_OF_HALF,
                    });
                }
                Extent::Empty => {
                    at = self.passed(section, at + PLACES_OF_POSITION, least, most);
                }
                Extent::Nothing => at = self.passed(section, at + PLACES_OF_HALF, least, most),
                Extent::Mixed => {
                    let mark = self.mark(position, at);
                    if is_between(mark, least, most) {
                        return Some(Marked {
                            block: place_at(at),
                            end: at + 1,
                        });
                    }
                    at += 1;
                }
            }
        }
        None
    }

    /// The position that a lot of a section consists of, if it is known to be one position.
    #[inline(always)]
    pub(super) fn only_position(&self, section: Section, number: u8) -> Option<Block>
        ensures { IfSome result (λ block. IsNextBlock
            (marked self.now.positions self.now.divided section number number) 0 block PLACES) }
    {
        let index = first_between(&self.positions, section, 0, number, number);
        if index >= POSITIONS || number > NO_LAND {
            return None;
        }
        let at = index * PLACES_OF_POSITION;
        if self.position(section, at) != number {
            return None;
        }
        if self.passed(section, 0, number, number) != at {
            return None;
        }
        if self.passed(section, at + PLACES_OF_POSITION, number, number) < PLACES {
            return None;
        }
        Some(position_at(at))
    }

    /// Whether a block of a section contains a place with a mark from a least to a greatest. Inlined,
    /// except for a search.
    #[inline(always)]
    pub(super) fn meets(&self, section: Section, block: Block, least: u8, most: u8) -> bool
        requires most { least ≤ 100 }
        requires range { least ≤ most }
        ensures { IsTrue result
            ↔ Meets (marked self.now.positions self.now.divided section least most) block }
    {
        if self.has_none_from(section, least) {
            return false;
        }
        if block.width() <= PLACES_TO_POSITION && block.height() <= PLACES_TO_POSITION {
            let position = self.position(section, place_number(block.column(), block.row()));
            if position <= NO_LAND {
                return is_between(position, least, most);
            }
        }
        self.search_block(section, block, least, most)
    }

    /// The same, block by block, or in a block within a position place by place.
    #[inline(never)]
    fn search_block(&self, section: Section, block: Block, least: u8, most: u8) -> bool
        requires { least ≤ most }
        ensures { IsTrue result
            ↔ Meets (marked self.now.positions self.now.divided section least most) block }
    {
        if block.width() <= PLACES_TO_POSITION && block.height() <= PLACES_TO_POSITION {
            return self.small_meets(section, block, least, most);
        }
        let first = place_number(block.column(), block.row());
        let last = last_place(block);
        let mut from = first - first % PLACES_OF_POSITION;
        while let Some(found) = self.next(section, from, least, most) {
            if share_place(found.block, block) {
                return true;
            }
            if found.end > last {
                return false;
            }
            from = found.end;
        }
        false
    }
}

/// The number of a block's last place.
#[inline(always)]
fn last_place(block: Block) -> usize
    ensures { (column row : ℕ) → in_rectangle block column row ≡ true → place_number column row ≤ result }
{
    place_number(
        block.column() + (block.width() - 1),
        block.row() + (block.height() - 1),
    )
}

/// The position whose places are numbered from this on.
fn position_at(number: usize) -> Block
    requires { number < PLACES }
    ensures { result ≡ position_block PLACE_DIGITS (number / 64 % 4) (number / 64 / 4) }
{
    let position = number / PLACES_OF_POSITION;
    Block::position((position % 4) as u8, (position / 4) as u8).unwrap()
}

/// Columns of half a position, by the number of the first place of the half.
fn half_at(number: usize, columns: Columns) -> Block
    requires number { number < PLACES }
    requires first { number % 32 ≡ 0 }
    ensures start { result.columns.start ≡ number / 64 % 4 * 8 + first_column columns }
    ensures width { result.columns.len ≡ column_count columns }
    ensures row { result.rows.start ≡ number / 64 / 4 * 8 + number % 64 / 8 }
    ensures height { result.rows.len ≡ 4 }
{
    let side = if number % PLACES_OF_POSITION == 0 {
        Side::S
    } else {
        Side::N
    };
    let half = position_at(number).half(side).unwrap();
    match columns {
        Columns::All => half,
        Columns::East => half.half(Side::E).unwrap(),
        Columns::West => half.half(Side::W).unwrap(),
    }
}

/// The place with this number.
fn place_at(number: usize) -> Block
    requires { number < PLACES }
    ensures { result ≡ place_block (number / 64 % 4 * 8 + number % 8)
        (number / 64 / 4 * 8 + number % 64 / 8) }
{
    let position = number / PLACES_OF_POSITION;
    let within = number % PLACES_OF_POSITION;
    let column = position % 4 * 8 + within % 8;
    let row = position / 4 * 8 + within / 8;
    Block::place(column as u8, row as u8).unwrap()
}
