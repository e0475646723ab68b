ghost use Rattle.std.specs.Prelude.{◌≡◌, ◌<◌, ◌↔◌, IsTrue};
ghost use Rattle.std.specs.Option.{SomeIff};
ghost use Rattle.twp_grid.specs.Finding.{Finds};
ghost use Rattle.twp_grid.specs.Winding.{SECTIONS_ACROSS};

use crate::section::{Section, Standing};
use std::marker::Model;

/// The direction in which a line is run, as its field notes give it.
#[derive(Clone, Copy, PartialEq, Eq)]
pub enum Run {
    /// From the south end to the north end.
    North,
    /// From the east end to the west end.
    West,
}

/// The number of section lines in a township.
pub const LINES: usize = 84;

/// One of a township's 84 section lines, each a mile, by its index: first the north-run lines,
/// seven to a row from the east, then the west-run lines, six to a tier from the east (this
/// project's rule).
#[derive(Clone, Copy, PartialEq, Eq)]
pub struct Line {
    index: u8,
}

impl Model for Line {
    ghost use Rattle.std.specs.Prelude.{ℕ};

    ghost Value = { ℕ };

    ghost use Rattle.twp_grid.specs.Lines.{IsLine};

    ghost view = { λ line. line.index };

    ghost invariant = { λ line. IsLine line.index };

    ghost inverse = { λ n. record { index = n } };
}

impl Line {
    ghost use Rattle.twp_grid.specs.Lines.{LINES_ACROSS, IsLine, IsClosing, IsLineOf, north_run};
    ghost use Rattle.twp_grid.specs.Lines.{west_run};

    /// The line between two different sections, in either order, or with `None` the line between a
    /// section and the township's outside. `None` if there is no such line.
    pub fn find(run: Run, section: Section, other: Option<Section>) -> Option<Line>
        ensures { Finds result (IsLineOf run section other) }
    {
        match other {
            Some(other) => Line::between(run, section, other),
            None => Line::on_boundary(run, section),
        }
    }

    /// The line between two sections that are side by side.
    #[tactic(auto, using(crate::proofs::LineFacts::shared_ends))]
    fn between(run: Run, section: Section, other: Section) -> Option<Line>
        ensures { Finds result (IsLineOf run section (Some other)) }
    {
        let here = section.standing();
        let there = other.standing();
        match run {
            Run::North => {
                if here.row == there.row && here.column.abs_diff(there.column) == 1 {
                    Some(Line::north_run(here.row, here.column.max(there.column)))
                } else {
                    None
                }
            }
            Run::West => {
                if here.column == there.column && here.row.abs_diff(there.row) == 1 {
                    Some(Line::west_run(here.row.max(there.row), here.column))
                } else {
                    None
                }
            }
        }
    }

    /// The line between a section on the township's boundary and the outside.
    fn on_boundary(run: Run, section: Section) -> Option<Line>
        ensures { Finds result (IsLineOf run section None) }
    {
        let Standing { row, column } = section.standing();
        match run {
            Run::North => match column {
                0 => Some(Line::north_run(row, 0)),
                5 => Some(Line::north_run(row, 6)),
                _ => None,
            },
            Run::West => match row {
                0 => Some(Line::west_run(0, column)),
                5 => Some(Line::west_run(6, column)),
                _ => None,
            },
        }
    }

    /// A north-run line, by its row and its meridian, counted from the east.
    fn north_run(row: u8, meridian: u8) -> Line
        requires row { row < SECTIONS_ACROSS }
        requires meridian { meridian < LINES_ACROSS }
        ensures { result ≡ north_run row meridian }
    {
        Line {
            index: 7 * row + meridian,
        }
    }

    /// A west-run line, by its tier, counted from the north, and its column.
    fn west_run(tier: u8, column: u8) -> Line
        requires tier { tier < LINES_ACROSS }
        requires column { column < SECTIONS_ACROSS }
        ensures { result ≡ west_run tier column }
    {
        Line {
            index: 42 + 6 * tier + column,
        }
    }

    /// The line with an index from 0 to 83.
    pub fn at_index(index: u8) -> Option<Line>
        ensures { SomeIff result (IsLine index) index }
    {
        if usize::from(index) < LINES {
            Some(Line { index })
        } else {
            None
        }
    }

    /// The index, 0 to 83.
    pub fn index(self) -> u8
        ensures value { result ≡ self }
        ensures range { IsLine result }
    {
        self.index
    }

    /// Whether excess or deficiency in measurement is thrown into the line's last half mile: the
    /// north-run lines of the northern row and the west-run lines of the western column (Manual of
    /// Surveying Instructions 2009, chapter 3).
    #[tactic(auto, using(crate::proofs::LineFacts::closing_lines))]
    pub fn is_closing(self) -> bool
        ensures { IsTrue result ↔ IsClosing self }
    {
        let Line { index } = self;
        index < 7 || (index >= 42 && index % 6 == 5)
    }
}

ghost use Rattle.twp_grid.specs.Lines.{AreSides};

/// A section's east, west, north, and south lines.
pub fn sides(section: Section) -> [Line; 4]
    ensures { AreSides section result }
{
    let Standing { row, column } = section.standing();
    [
        Line::north_run(row, column),
        Line::north_run(row, column + 1),
        Line::west_run(row, column),
        Line::west_run(row + 1, column),
    ]
}
