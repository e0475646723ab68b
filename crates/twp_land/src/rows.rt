ghost use Rattle.twp_land.specs.Storage.{held_by_row};

use crate::plot::Plot;
use crate::row::{
    Row, Window, alike, cleared, common, contains, count_held, each_held, filled, joined, share,
    some_held, taken,
};
use crate::sections::Sections;
use twp_grid::{Block, PLACES_ACROSS};

/// A `Land` that stores a test for each place, in rows.
pub type Grid = Sections<Rows>;

/// A section's places as rows of tests, from the south.
#[derive(Clone, Copy)]
pub struct Rows {
    rows: [Row; PLACES_ACROSS],
}

impl Plot for Rows {
    ghost held = { λ plot. held_by_row plot.rows };

    ghost use Rattle.twp_land.specs.steps.Within.{row_within};

    ghost within = { λ plot column row held. row_within plot.rows column row held };

    fn empty() -> Self {
        Rows {
            rows: [[false; PLACES_ACROSS]; PLACES_ACROSS],
        }
    }

    fn holds(&self, column: u8, row: u8) -> bool {
        self.rows[usize::from(row)][usize::from(column)]
    }

    fn meets(&self, block: Block) -> bool {
        let window = Window::of(block);
        for up in 0..window.height {
            if some_held(&self.rows[window.row + up], window.column, window.width) {
                return true;
            }
        }
        false
    }

    fn full(&self, block: Block) -> bool {
        let window = Window::of(block);
        for up in 0..window.height {
            if !each_held(&self.rows[window.row + up], window.column, window.width) {
                return false;
            }
        }
        true
    }

    fn count(&self, block: Block) -> u32 {
        let window = Window::of(block);
        let mut count = 0;
        for up in 0..window.height {
            count += count_held(&self.rows[window.row + up], window.column, window.width);
        }
        count
    }

    fn add(&mut self, block: Block) {
        let window = Window::of(block);
        for up in 0..window.height {
            self.rows[window.row + up] = filled(
                &self.rows[window.row + up],
                window.column,
                window.width,
            );
        }
    }

    fn remove(&mut self, block: Block) {
        let window = Window::of(block);
        for up in 0..window.height {
            self.rows[window.row + up] = cleared(
                &self.rows[window.row + up],
                window.column,
                window.width,
            );
        }
    }

    fn same_plot(&self, other: &Self) -> bool {
        for row in 0..PLACES_ACROSS {
            if !alike(&self.rows[row], &other.rows[row]) {
                return false;
            }
        }
        true
    }

    fn holds_plot(&self, other: &Self) -> bool {
        for row in 0..PLACES_ACROSS {
            if !contains(&self.rows[row], &other.rows[row]) {
                return false;
            }
        }
        true
    }

    fn meets_plot(&self, other: &Self) -> bool {
        for row in 0..PLACES_ACROSS {
            if share(&self.rows[row], &other.rows[row]) {
                return true;
            }
        }
        false
    }

    fn add_plot(&mut self, other: &Self) {
        for row in 0..PLACES_ACROSS {
            self.rows[row] = joined(&self.rows[row], &other.rows[row]);
        }
    }

    fn take_away_plot(&mut self, other: &Self) {
        for row in 0..PLACES_ACROSS {
            self.rows[row] = taken(&self.rows[row], &other.rows[row]);
        }
    }

    fn keep_common_plot(&mut self, other: &Self) {
        for row in 0..PLACES_ACROSS {
            self.rows[row] = common(&self.rows[row], &other.rows[row]);
        }
    }
}
