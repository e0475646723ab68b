//! The plat of field notes; which numbers can be its closing quarters; and the closing quarter of a line,
//! or the line's fault.
ghost use Rattle.std.specs.Prelude.{◌≡◌, ◌*◌, ◌≤◌, ◌<◌, pos, ◌↔◌, IsTrue};
ghost use Rattle.std.specs.Option.{SomeIff};
ghost use Rattle.twp_grid.specs.Lots.{POSITIONS_ACROSS};
ghost use Rattle.twp_plat.specs.Closing.{CLOSING_MOST, IsRegular};
ghost use Rattle.twp_plat.specs.Plats.{IsPlat, AreClosingQuarters, closing_quarter_of};
ghost use Rattle.twp_plat.specs.Plats.{IsQuarterOnPlat, plat_of_parts, AreQuartersOnPlat};
ghost use Rattle.twp_plat.specs.PlatFaults.{AnswersPlat};
ghost use Rattle.twp_plat.specs.Pieces.{IsPieceArea, over_of, OVER_MOST};
ghost use Rattle.twp_grid.specs.Lines.{LINE_COUNT};
ghost use Rattle.twp_plat.specs.steps.LineFaults.{AnswersLine};

use crate::fault::{HalfMile, PlatFault};
use crate::piece::SideQuarters;
use std::marker::Model;
use twp_grid::{LINES, Line, Section, Township, sides};
use twp_measure::Area;
use twp_notes::{Notes, Returned};

/// The section in the township's northwest corner, whose north and west lines are both closing
/// lines.
const CORNER_SECTION: u8 = 6;

/// The plat of a township, made from its field notes: the measurements from which the areas of its
/// sections' positions are computed.
#[derive(Clone, Drop, PartialEq, Eq)]
pub struct Plat {
    township: Township,
    closing_quarters: [u32; LINES],
}

impl Model for Plat {
    ghost use Rattle.twp_plat.specs.Plats.{SurveyPlat, IsPlat};

    ghost Value = { SurveyPlat };

    ghost view = { λ plat.
        record { township = plat.township; closing_quarters = plat.closing_quarters } };

    ghost invariant = { λ plat. IsPlat
        (record { township = plat.township; closing_quarters = plat.closing_quarters }) };

    ghost inverse = { λ plat.
        record { township = plat.township; closing_quarters = plat.closing_quarters } };
}

impl Plat {
    /// The plat of the notes, or the first of their lines' faults. Each half mile must be 40
    /// chains, within a quarter of a chain, but the second half of a closing line must leave 5 to
    /// 25 chains for its last quarter mile (this project's rule; for the closing lines, Manual of
    /// Surveying Instructions 2009, chapter 3).
    pub fn protract(notes: &Notes) -> Result<Plat, PlatFault>
        ensures { AnswersPlat notes.now result }
    {
        let mut closing_quarters = [0; LINES];
        for index in 0..LINES as u8 {
            let line = Line::at_index(index).unwrap();
            closing_quarters[usize::from(index)] = closing_quarter(line, notes.line(line))?;
        }
        Ok(Plat {
            township: notes.township(),
            closing_quarters,
        })
    }

    /// The plat of a township with these closing quarters, by the indexes of their lines, in
    /// thousandths of a chain. `None` if no notes make such a plat: if the closing quarter of a
    /// closing line is not 5 to 25 chains, or that of another line is not 20 chains (this project's
    /// rule).
    pub fn of_parts(township: Township, closing_quarters: &[u32; LINES]) -> Option<Plat>
        ensures { SomeIff result (IsPlat (plat_of_parts township closing_quarters.now))
            (plat_of_parts township closing_quarters.now) }
    {
        if !are_on_plat(closing_quarters) {
            return None;
        }
        Some(Plat {
            township,
            closing_quarters: *closing_quarters,
        })
    }

    /// The closing quarters of the lines, by index, in thousandths of a chain.
    pub fn closing_quarters(&self) -> &[u32; LINES]
        ensures value { result.now ≡ self.now.closing_quarters }
        ensures plat { IsPlat self.now }
    {
        &self.closing_quarters
    }

    /// The area of a section's position, by its column from the east and its row from the south:
    /// its mean width times its mean height, interpolated between the section's lines (this
    /// project's rule).
    pub fn piece_area(&self, section: Section, column: u8, row: u8) -> Area
        requires column { column < POSITIONS_ACROSS }
        requires row { row < POSITIONS_ACROSS }
        ensures piece { IsPieceArea self.now section column row result }
        ensures over { result.over ≡ over_of self.now }
        ensures most { result.units ≤ CLOSING_MOST * CLOSING_MOST * result.over }
    {
        Area::new(self.units(section, column, row), self.over()).unwrap()
    }

    /// The denominator of each area on the plat: four times the product of the lengths of section
    /// 6's north and west lines.
    pub fn over(&self) -> u64
        ensures value { result ≡ over_of self.now }
        ensures range { (0 < result) × (result ≤ OVER_MOST) }
        ensures plat { IsPlat self.now }
    {
        self.quarters(Section::at(0, 5)).divisor()
    }

    /// The township that the plat shows.
    pub fn township(&self) -> Township
        ensures { result ≡ self.now.township }
    {
        self.township
    }

    /// A position's area in parts of the plat's denominator; outside section 6 it is a whole number
    /// of units.
    fn units(&self, section: Section, column: u8, row: u8) -> u128
        requires column { column < POSITIONS_ACROSS }
        requires row { row < POSITIONS_ACROSS }
        ensures piece { IsPieceArea self.now section column row
            (record { units = result; over = over_of self.now }) }
        ensures most { result ≤ CLOSING_MOST * CLOSING_MOST * over_of self.now }
    {
        let quarters = self.quarters(section);
        if section.number() == CORNER_SECTION {
            return u128::from(quarters.parts(column, row));
        }
        u128::from(quarters.whole_units(column, row)) * u128::from(self.over())
    }

    /// The closing quarters of a section's lines.
    fn quarters(&self, section: Section) -> SideQuarters
        ensures quarters { AreClosingQuarters self.now section result }
        ensures plat { IsPlat self.now }
    {
        let [east, west, north, south] = sides(section);
        SideQuarters {
            east: self.closing_quarter(east),
            west: self.closing_quarter(west),
            north: self.closing_quarter(north),
            south: self.closing_quarter(south),
        }
    }

    /// The closing quarter of a line.
    fn closing_quarter(&self, line: Line) -> u32
        ensures value { result ≡ closing_quarter_of self.now line }
        ensures within { IsQuarterOnPlat line result }
        ensures plat { IsPlat self.now }
    {
        self.closing_quarters[usize::from(line.index())]
    }
}

/// The least closing quarter that each line can have, by index: 5 chains for a closing line, and a
/// quarter mile for another.
const LEAST: [u32; LINES] = [
    5_000, 5_000, 5_000, 5_000, 5_000, 5_000, 5_000, 20_000, 20_000, 20_000, 20_000, 20_000,
    20_000, 20_000, 20_000, 20_000, 20_000, 20_000, 20_000, 20_000, 20_000, 20_000, 20_000, 20_000,
    20_000, 20_000, 20_000, 20_000, 20_000, 20_000, 20_000, 20_000, 20_000, 20_000, 20_000, 20_000,
    20_000, 20_000, 20_000, 20_000, 20_000, 20_000, 20_000, 20_000, 20_000, 20_000, 20_000, 5_000,
    20_000, 20_000, 20_000, 20_000, 20_000, 5_000, 20_000, 20_000, 20_000, 20_000, 20_000, 5_000,
    20_000, 20_000, 20_000, 20_000, 20_000, 5_000, 20_000, 20_000, 20_000, 20_000, 20_000, 5_000,
    20_000, 20_000, 20_000, 20_000, 20_000, 5_000, 20_000, 20_000, 20_000, 20_000, 20_000, 5_000,
];

/// By how much more than the least one each line's closing quarter can be, by index: 20 chains for a
/// closing line, and nothing for another.
const SPAN: [u32; LINES] = [
    20_000, 20_000, 20_000, 20_000, 20_000, 20_000, 20_000, 0, 0, 0, 0, 0, 0, 0, 0, 0, 0, 0, 0, 0,
    0, 0, 0, 0, 0, 0, 0, 0, 0, 0, 0, 0, 0, 0, 0, 0, 0, 0, 0, 0, 0, 0, 0, 0, 0, 0, 0, 20_000, 0, 0,
    0, 0, 0, 20_000, 0, 0, 0, 0, 0, 20_000, 0, 0, 0, 0, 0, 20_000, 0, 0, 0, 0, 0, 20_000, 0, 0, 0,
    0, 0, 20_000, 0, 0, 0, 0, 0, 20_000,
];

/// Whether each line can have the closing quarter at its index. The loop never ends early, so several
/// lines are compared at once.
pub fn are_on_plat(closing_quarters: &[u32; LINES]) -> bool
    ensures { IsTrue result ↔ AreQuartersOnPlat closing_quarters.now }
{
    let mut outside = 0;
    for index in 0..LINES {
        outside += outside_limits(index, closing_quarters[index]);
    }
    outside == 0
}

/// 0 if a line, by its index, can have a closing quarter, and 1 if it can't. One comparison tests both
/// limits: what is less than the least one wraps around.
#[inline(always)]
fn outside_limits(index: usize, quarter: u32) -> u32
    requires { index < LINE_COUNT }
    ensures none { (result ≡ 0) ↔ IsQuarterOnPlat index quarter }
    ensures most { result ≤ 1 }
{
    if quarter.wrapping_sub(LEAST[index]) > SPAN[index] {
        return 1;
    }
    0
}

/// A quarter mile, in thousandths of a chain.
pub const QUARTER_MILE: u32 = 20_000;

/// The least length of a half mile, other than a closing line's second, in thousandths of a chain
/// (this project's rule, like the limits below).
pub const HALF_LEAST: u32 = 39_750;

/// The greatest length of such a half mile, in thousandths of a chain.
pub const HALF_MOST: u32 = 40_250;

/// The least length of a closing quarter, in thousandths of a chain.
pub const CLOSING_LEAST: u32 = 5_000;

/// The greatest length of a closing quarter, in thousandths of a chain.
pub const CLOSING_MOST: u32 = 25_000;

/// The closing quarter of a line, in thousandths of a chain, or the line's fault. The first half
/// mile is checked before the second.
pub fn closing_quarter(line: Line, returned: Returned) -> Result<u32, PlatFault>
    ensures { AnswersLine line returned result }
{
    let quarter = returned.quarter.thousandths();
    let corner = returned.corner.thousandths();
    let place = line.index();
    if !is_regular(quarter) {
        return Err(PlatFault::Irregular {
            line: place,
            half: HalfMile::First,
        });
    }
    if line.is_closing() {
        let last = corner.saturating_sub(quarter + QUARTER_MILE);
        if last < CLOSING_LEAST {
            return Err(PlatFault::ClosingShort(place));
        }
        if last > CLOSING_MOST {
            return Err(PlatFault::ClosingLong(place));
        }
        return Ok(last);
    }
    if !is_regular(corner.saturating_sub(quarter)) {
        return Err(PlatFault::Irregular {
            line: place,
            half: HalfMile::Second,
        });
    }
    Ok(QUARTER_MILE)
}

/// Whether a half mile is 40 chains, within the tolerance.
fn is_regular(half: u32) -> bool
    ensures { IsTrue result ↔ IsRegular (pos half) }
{
    HALF_LEAST <= half && half <= HALF_MOST
}
