ghost use Rattle.std.specs.Prelude.{◌≡◌, ℕ, ◌≤◌, ◌<◌};
ghost use Rattle.std.specs.Option.{SomeIff};
ghost use Rattle.twp_grid.specs.Winding.{SECTIONS_ACROSS, IsSection, LiesAt};

use std::marker::Model;

/// The number of sections in a township.
pub const SECTIONS: u8 = 36;

/// One of a township's 36 sections, by its number. The numbers wind back and forth: in row 0, 1 to
/// 6 from the east; in row 1, 7 to 12 from the west; and so on to 36 in the southeast corner
/// (Manual of Surveying Instructions 2009, chapter 3).
#[derive(Clone, Copy, PartialEq, Eq)]
pub struct Section {
    number: u8,
}

/// The place of a section in its township: its row is counted from the north and its column from
/// the east, 0 to 5.
#[derive(Clone, Copy)]
pub(crate) struct Standing {
    pub(crate) row: u8,
    pub(crate) column: u8,
}

impl Model for Section {
    ghost Value = { ℕ };

    ghost view = { λ section. section.number };

    ghost invariant = { λ section. IsSection section.number };

    ghost inverse = { λ n. record { number = n } };
}

impl Section {
    /// The section with a number from 1 to 36.
    pub fn new(number: u8) -> Option<Section>
        ensures { SomeIff result (IsSection number) number }
    {
        if 1 <= number && number <= SECTIONS {
            Some(Section { number })
        } else {
            None
        }
    }

    /// The section at a row counted from the north and a column counted from the east, 0 to 5.
    pub fn at(row: u8, column: u8) -> Section
        requires row { row < SECTIONS_ACROSS }
        requires column { column < SECTIONS_ACROSS }
        ensures { LiesAt result row column }
    {
        let offset = if row % 2 == 0 { column } else { 5 - column };
        Section {
            number: 6 * row + offset + 1,
        }
    }

    /// The section's number, 1 to 36.
    pub fn number(self) -> u8
        ensures value { result ≡ self }
        ensures range { IsSection result }
    {
        self.number
    }

    /// The row, 0 in the north to 5 in the south.
    pub fn row(self) -> u8
        ensures { (column : ℕ) × LiesAt self result column }
    {
        self.standing().row
    }

    /// The column, 0 in the east to 5 in the west.
    pub fn column(self) -> u8
        ensures { (row : ℕ) × LiesAt self row result }
    {
        self.standing().column
    }

    /// The row and the column.
    #[tactic(auto, using(crate::proofs::WindingFacts::where_it_stands))]
    pub(crate) fn standing(self) -> Standing
        ensures { LiesAt self result.row result.column }
    {
        let Section { number } = self;
        let row = (number - 1) / 6;
        let offset = (number - 1) % 6;
        let column = if row % 2 == 0 { offset } else { 5 - offset };
        Standing { row, column }
    }
}
