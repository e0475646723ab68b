ghost use Rattle.std.specs.Prelude.{◌≡◌, ◌+◌, ◌*◌, ◌≤◌, ◌<◌, pos, ◌+ℤ◌, ◌-ℤ◌, ◌*ℤ◌};
ghost use Rattle.twp_grid.specs.Lots.{POSITIONS_ACROSS};
ghost use Rattle.twp_plat.specs.Closing.{CLOSING_MOST};
ghost use Rattle.twp_plat.specs.Pieces.{ratio, whole, IsSame};
ghost use Rattle.twp_plat.specs.steps.SideLimits.{HaveRegularLines};
ghost use Rattle.twp_plat.specs.Pieces.{piece, line_length, divisor_of};
ghost use Rattle.twp_plat.specs.Formula.{west_length, north_length, both_ends, both_widths};
ghost use Rattle.twp_plat.specs.Formula.{both_heights};

use crate::plat::QUARTER_MILE;
use std::marker::Model;

/// The closing quarters of a section's four lines, in thousandths of a chain.
#[derive(Clone, Copy)]
pub struct SideQuarters {
    pub east: u32,
    pub west: u32,
    pub north: u32,
    pub south: u32,
}

impl Model for SideQuarters {
    ghost use Rattle.twp_plat.specs.Plats.{ClosingQuarters};
    ghost use Rattle.twp_plat.specs.steps.SideLimits.{AreInLimits};

    ghost Value = { ClosingQuarters };

    ghost view = { λ q. record { east = q.east; west = q.west; north = q.north; south = q.south } };

    ghost invariant = { λ q. AreInLimits
        (record { east = q.east; west = q.west; north = q.north; south = q.south }) };

    ghost inverse = { λ q.
        record { east = q.east; west = q.west; north = q.north; south = q.south } };
}

/// A quarter mile, and three of them, after which a line's closing quarter begins.
const QUARTER: u64 = QUARTER_MILE as u64;

const THREE_QUARTERS: u64 = 3 * QUARTER;

impl SideQuarters {
    /// The area of a position in whole units, for a section with regular lines, whose pieces are
    /// all whole.
    pub fn whole_units(self, column: u8, row: u8) -> u64
        requires regular { HaveRegularLines self }
        requires column { column < POSITIONS_ACROSS }
        requires row { row < POSITIONS_ACROSS }
        ensures piece { IsSame (piece self column row) (whole result) }
        ensures most { result ≤ CLOSING_MOST * CLOSING_MOST }
    {
        self.parts(column, row) / self.divisor()
    }

    /// The area of a position in parts of a unit: four times its mean width times its mean height,
    /// times the lengths of the lines along which these vary.
    pub fn parts(self, column: u8, row: u8) -> u64
        requires column { column < POSITIONS_ACROSS }
        requires row { row < POSITIONS_ACROSS }
        ensures piece { IsSame (piece self column row) (ratio (pos result) (divisor_of self)) }
        ensures most { result ≤ CLOSING_MOST * CLOSING_MOST * divisor_of self }
    {
        self.doubled_width(column, row) * self.doubled_height(column, row)
    }

    /// How many parts make one unit.
    pub fn divisor(self) -> u64
        ensures value { result ≡ divisor_of self }
        ensures range { 0 < result }
    {
        4 * self.north_line() * self.west_line()
    }

    /// Twice the mean width of a position, times the west line's length.
    fn doubled_width(self, column: u8, row: u8) -> u64
        requires { row < POSITIONS_ACROSS }
        ensures value { pos result ≡ both_widths self column row }
        ensures most { result ≤ 2 * CLOSING_MOST * west_length self }
    {
        let length = self.west_line();
        if column != 3 {
            return 2 * QUARTER * length;
        }
        doubled_mean(self.south, self.north, length, doubled_middle(length, row))
    }

    /// Twice the mean height of a position, times the north line's length.
    fn doubled_height(self, column: u8, row: u8) -> u64
        requires { column < POSITIONS_ACROSS }
        ensures value { pos result ≡ both_heights self column row }
        ensures most { result ≤ 2 * CLOSING_MOST * north_length self }
    {
        let length = self.north_line();
        if row != 3 {
            return 2 * QUARTER * length;
        }
        doubled_mean(self.east, self.west, length, doubled_middle(length, column))
    }

    /// The length of the west line.
    fn west_line(self) -> u64
        ensures value { result ≡ west_length self }
        ensures range { (line_length 0 ≤ result) × (result ≤ line_length CLOSING_MOST) }
    {
        THREE_QUARTERS + u64::from(self.west)
    }

    /// The length of the north line.
    fn north_line(self) -> u64
        ensures value { result ≡ north_length self }
        ensures range { (line_length 0 ≤ result) × (result ≤ line_length CLOSING_MOST) }
    {
        THREE_QUARTERS + u64::from(self.north)
    }
}

/// Twice the distance of a quarter mile's middle from the start of a line with this length.
fn doubled_middle(length: u64, number: u8) -> u64
    requires length { (line_length 0 ≤ length) × (length ≤ line_length CLOSING_MOST) }
    requires number { number < POSITIONS_ACROSS }
    ensures value { result ≡ both_ends length number }
    ensures most { result ≤ 2 * length }
{
    if number == 3 {
        THREE_QUARTERS + length
    } else {
        QUARTER * (2 * u64::from(number) + 1)
    }
}

/// Twice the mean of a width or a height between two points of a line along which it varies
/// linearly from `start` to `end`, times the line's length. `doubled_middle` is twice the distance
/// of the points' middle from the line's start.
fn doubled_mean(start: u32, end: u32, length: u64, doubled_middle: u64) -> u64
    requires start { start ≤ CLOSING_MOST }
    requires end { end ≤ CLOSING_MOST }
    requires length { length ≤ line_length CLOSING_MOST }
    requires middle { doubled_middle ≤ 2 * length }
    ensures value { pos result ≡ pos (2 * start * length)
        +ℤ (pos end -ℤ pos start) *ℤ pos doubled_middle }
    ensures most { result ≤ 2 * CLOSING_MOST * length }
{
    u64::from(start) * (2 * length - doubled_middle) + u64::from(end) * doubled_middle
}
