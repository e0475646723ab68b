ghost use Rattle.std.specs.Prelude.{◌≡◌, ◌<◌, ◌≤◌, ◌↔◌, option_map, IsSome};
ghost use Rattle.std.specs.Option.{SomeIff};
ghost use Rattle.twp_grid.specs.Lots.{POSITIONS_ACROSS, IsPosition, position_of_lot};
ghost use Rattle.twp_grid.specs.Lots.{number_of_lots};
ghost use Rattle.twp_grid.specs.Places.{PLACE_DIGITS};
ghost use Rattle.twp_grid.specs.Winding.{IsSection};

use crate::lot::{POSITIONS_ACROSS, lot_place};
use crate::section::Section;
use std::marker::Model;

/// How many times a side of a section can be halved (this project's limit).
pub const PLACE_DIGITS: usize = 5;

/// The number of places along a side of a section.
pub const PLACES_ACROSS: usize = 1 << PLACE_DIGITS;

/// The number of places along a side of a position.
pub const PLACES_TO_POSITION: u8 = PLACES_ACROSS as u8 / POSITIONS_ACROSS;

/// Consecutive columns or rows of places, such as result from halving a section's side.
#[derive(Clone, Copy, PartialEq, Eq)]
pub(crate) struct Interval {
    start: usize,
    len: usize,
}

impl Model for Interval {
    ghost use Rattle.twp_grid.specs.Spans.{Interval as Columns};

    ghost Value = { Columns };

    ghost use Rattle.twp_grid.specs.Places.{PLACE_DIGITS};
    ghost use Rattle.twp_grid.specs.Spans.{span_from, IsDyadic};

    ghost view = { λ span. span_from span.start span.len };

    ghost invariant = { λ span. IsDyadic PLACE_DIGITS (span_from span.start span.len) };

    ghost inverse = { λ span. record { start = span.start; len = span.len } };
}

impl Interval {
    ghost use Rattle.twp_grid.specs.Places.{places_across};
    ghost use Rattle.twp_grid.specs.Spans.{IsDyadic, whole_span, position_span, span_from, lower_half};
    ghost use Rattle.twp_grid.specs.Spans.{upper_half};

    /// All columns or rows of a section.
    pub(crate) fn whole() -> Interval
        ensures { result ≡ whole_span PLACE_DIGITS }
    {
        Interval {
            start: 0,
            len: PLACES_ACROSS,
        }
    }

    /// The columns or rows of a position, 0 to 3. `None` outside this range.
    pub(crate) fn position(position: u8) -> Option<Interval>
        ensures { SomeIff result (position < POSITIONS_ACROSS)
            (position_span PLACE_DIGITS position) }
    {
        if position >= POSITIONS_ACROSS {
            return None;
        }
        Some(Interval {
            start: usize::from(position) * usize::from(PLACES_TO_POSITION),
            len: usize::from(PLACES_TO_POSITION),
        })
    }

    /// A single column or row. `None` outside the section.
    pub(crate) fn place(number: u8) -> Option<Interval>
        ensures { SomeIff result (number < places_across PLACE_DIGITS) (span_from number 1) }
    {
        if usize::from(number) >= PLACES_ACROSS {
            return None;
        }
        Some(Interval {
            start: usize::from(number),
            len: 1,
        })
    }

    /// The half with the smaller numbers, in the east or the south. `None` for a single place.
    pub(crate) fn lower(self) -> Option<Interval>
        ensures { SomeIff result (1 < self.len) (lower_half self) }
    {
        if self.len == 1 {
            return None;
        }
        Some(Interval {
            start: self.start,
            len: self.len / 2,
        })
    }

    /// The half with the larger numbers, in the west or the north. `None` for a single place.
    pub(crate) fn upper(self) -> Option<Interval>
        ensures { SomeIff result (1 < self.len) (upper_half self) }
    {
        if self.len == 1 {
            return None;
        }
        let len = self.len / 2;
        Some(Interval {
            start: self.start + len,
            len,
        })
    }

    /// The first column or row, from 0.
    pub(crate) fn start(self) -> u8
        ensures value { result ≡ self.start }
        ensures dyadic { IsDyadic PLACE_DIGITS self }
    {
        self.start as u8
    }

    /// How many columns or rows there are, from 1 to `PLACES_ACROSS`.
    pub(crate) fn len(self) -> u8
        ensures value { result ≡ self.len }
        ensures dyadic { IsDyadic PLACE_DIGITS self }
    {
        self.len as u8
    }
}

/// A side of a section or of a part of it.
#[derive(Clone, Copy, Debug, PartialEq, Eq)]
pub enum Side {
    /// The north side.
    N,
    /// The south side.
    S,
    /// The east side.
    E,
    /// The west side.
    W,
}

/// A corner of a section or of a part of it.
#[derive(Clone, Copy, Debug, PartialEq, Eq)]
pub enum Corner {
    /// The northeast corner.
    NE,
    /// The northwest corner.
    NW,
    /// The southwest corner.
    SW,
    /// The southeast corner.
    SE,
}

/// A rectangle of a section's places: the whole section, a position, and each half and quarter of a
/// block; these are the aliquot parts (Specifications for Descriptions of Land). A place's column
/// is counted from the east and its row from the south, from 0 to less than `PLACES_ACROSS`.
#[derive(Clone, Copy, PartialEq, Eq)]
pub struct Block {
    columns: Interval,
    rows: Interval,
}

impl Model for Block {
    ghost use Rattle.twp_grid.specs.Spans.{Rectangle, rectangle};

    ghost Value = { Rectangle };

    ghost view = { λ block. rectangle block.columns block.rows };

    ghost inverse = { λ block. record { columns = block.columns; rows = block.rows } };
}

impl Block {
    ghost use Rattle.twp_grid.specs.Places.{IsPlace};
    ghost use Rattle.twp_grid.specs.Spans.{IsDyadic, whole_block, position_block, place_block};
    ghost use Rattle.twp_grid.specs.Blocks.{half_of, CanHalve, quarter_of, CanQuarter};

    /// All places of a section.
    pub fn whole() -> Block
        ensures { result ≡ whole_block PLACE_DIGITS }
    {
        Block {
            columns: Interval::whole(),
            rows: Interval::whole(),
        }
    }

    /// The position at a column from the east and a row from the south, 0 to 3. `None` outside this
    /// range.
    pub fn position(column: u8, row: u8) -> Option<Block>
        ensures { SomeIff result (IsPosition column row) (position_block PLACE_DIGITS column row) }
    {
        Some(Block {
            columns: Interval::position(column)?,
            rows: Interval::position(row)?,
        })
    }

    /// The place at a column from the east and a row from the south. `None` outside the section.
    pub fn place(column: u8, row: u8) -> Option<Block>
        ensures { SomeIff result (IsPlace PLACE_DIGITS column row) (place_block column row) }
    {
        Some(Block {
            columns: Interval::place(column)?,
            rows: Interval::place(row)?,
        })
    }

    /// The position that a lot of a section fills. `None` if the section has no such lot.
    pub fn of_lot(section: Section, lot: u8) -> Option<Block>
        ensures block { result
            ≡ option_map (λ (column, row). position_block PLACE_DIGITS column row)
            (position_of_lot section lot) }
        ensures has { IsSome result ↔ ((1 ≤ lot) × (lot ≤ number_of_lots section)) }
        ensures section { IsSection section }
    {
        let (column, row) = lot_place(section, lot)?;
        Block::position(column, row)
    }

    /// The half toward a side. `None` if the side to be halved is one place.
    pub fn half(self, side: Side) -> Option<Block>
        ensures { SomeIff result (CanHalve self side) (half_of self side) }
    {
        let Block { columns, rows } = self;
        Some(match side {
            Side::N => Block {
                columns,
                rows: rows.upper()?,
            },
            Side::S => Block {
                columns,
                rows: rows.lower()?,
            },
            Side::E => Block {
                columns: columns.lower()?,
                rows,
            },
            Side::W => Block {
                columns: columns.upper()?,
                rows,
            },
        })
    }

    /// The quarter at a corner. `None` if a side is one place.
    pub fn quarter(self, corner: Corner) -> Option<Block>
        ensures { SomeIff result (CanQuarter self) (quarter_of self corner) }
    {
        let Block { columns, rows } = self;
        let rows = match corner {
            Corner::NE | Corner::NW => rows.upper()?,
            Corner::SW | Corner::SE => rows.lower()?,
        };
        let columns = match corner {
            Corner::NE | Corner::SE => columns.lower()?,
            Corner::NW | Corner::SW => columns.upper()?,
        };
        Some(Block { columns, rows })
    }

    /// The easternmost column, less than `PLACES_ACROSS`.
    pub fn column(self) -> u8
        ensures value { result ≡ self.columns.start }
        ensures dyadic { IsDyadic PLACE_DIGITS self.columns }
    {
        self.columns.start()
    }

    /// The southernmost row, less than `PLACES_ACROSS`.
    pub fn row(self) -> u8
        ensures value { result ≡ self.rows.start }
        ensures dyadic { IsDyadic PLACE_DIGITS self.rows }
    {
        self.rows.start()
    }

    /// How many columns, from 1 to `PLACES_ACROSS`.
    pub fn width(self) -> u8
        ensures value { result ≡ self.columns.len }
        ensures dyadic { IsDyadic PLACE_DIGITS self.columns }
    {
        self.columns.len()
    }

    /// How many rows, from 1 to `PLACES_ACROSS`.
    pub fn height(self) -> u8
        ensures value { result ≡ self.rows.len }
        ensures dyadic { IsDyadic PLACE_DIGITS self.rows }
    {
        self.rows.len()
    }
}
