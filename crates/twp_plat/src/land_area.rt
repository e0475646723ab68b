//! The areas of land, of sections, and of the township; and the two accounts of land, which differ in how
//! they count whole lots.
ghost use Rattle.std.specs.Prelude.{◌≡◌, ℕ, ◌*◌, ◌≤◌, ◌<◌, Some};
ghost use Rattle.twp_grid.specs.Places.{PLACE_DIGITS};
ghost use Rattle.twp_grid.specs.Lands.{HasWholeLots};
ghost use Rattle.twp_grid.specs.Lands.{STANDARD_LOTS};
ghost use Rattle.twp_plat.specs.Pieces.{OVER_MOST, over_of, ArePieces, IsSectionArea};
ghost use Rattle.twp_plat.specs.Pieces.{IsTownshipArea};
ghost use Rattle.twp_plat.specs.LandAreas.{places_of_position, section_sum, IsLandArea};
ghost use Rattle.twp_plat.specs.PlatAccounts.{IsPlatArea, IsAreaBy};
ghost use Rattle.twp_plat.specs.steps.Accounts.{over_by, AreUnitsBy};
ghost use Rattle.twp_plat.specs.steps.Bounds.{REGULAR_PLACE_UNITS, SECTION_PLACES_MOST};
ghost use Rattle.twp_plat.specs.steps.Bounds.{SECTION_UNITS_MOST};
ghost use Rattle.twp_grid.specs.Lots.{POSITIONS_ACROSS, POSITIONS, number_of_lots, position_of_lot};
ghost use Rattle.twp_grid.specs.Spans.{total, over_positions};
ghost use Rattle.twp_plat.specs.Closing.{CLOSING_MOST};
ghost use Rattle.twp_plat.specs.Plats.{IsPlat};

use crate::plat::{Plat, QUARTER_MILE};
use twp_grid::{
    Block, PLACES_TO_POSITION, POSITIONS_ACROSS, SECTIONS, Section, lot_count, lot_place,
};
use twp_land::{Land, PlaceSet};
use twp_measure::{Area, HUNDREDTH_OF_AN_ACRE};

/// The number of places in a position.
const PLACES_OF_POSITION: u32 = PLACES_TO_POSITION as u32 * PLACES_TO_POSITION as u32;

/// The area of a position that is not a lot, in square thousandths of a chain.
const REGULAR_POSITION: u128 = QUARTER_MILE as u128 * QUARTER_MILE as u128;

/// The area of a place in such a position.
const REGULAR_PLACE: u128 = REGULAR_POSITION / PLACES_OF_POSITION as u128;

/// The exact area of land: each place counts for its share of its position's area on the plat,
/// which is the same for all places of the position, and nothing is rounded (this project's rule; a
/// lot is taken whole: Specifications for Descriptions of Land).
pub fn area_of<L: Land>(plat: &Plat, land: &L) -> Area
    requires whole { HasWholeLots STANDARD_LOTS (L.places land.now) }
    ensures { IsLandArea PLACE_DIGITS plat.now (L.places land.now) result }
{
    area_by(Account::Exact, plat, land)
}

/// The plat area of land: each lot counts for its acreage as the plat shows it, and each place off
/// the lots for its share of 40 acres (this project's rule).
pub fn plat_area_of<L: Land>(plat: &Plat, land: &L) -> Area
    requires whole { HasWholeLots STANDARD_LOTS (L.places land.now) }
    ensures { IsPlatArea PLACE_DIGITS plat.now (L.places land.now) result }
{
    area_by(Account::Plat, plat, land)
}

/// The area of land by an account: `area_of` or `plat_area_of`.
pub fn area_by<L: PlaceSet>(account: Account, plat: &Plat, land: &L) -> Area
    requires whole { HasWholeLots STANDARD_LOTS (L.places land.now) }
    ensures { IsAreaBy account PLACE_DIGITS plat.now (L.places land.now) result }
{
    let over = account.over(plat);
    let Some((first, last)) = land.sections() else {
        return Area::zero(over);
    };
    let mut units = 0;
    for number in first.number()..last.number() + 1 {
        let section = Section::new(number).unwrap();
        if land.is_untouched(section) {
            continue;
        }
        units += units_in_section(account, plat, land, section);
    }
    Area::new(units, over).unwrap()
}

/// The area of the land in a section, in parts of the account's denominator. Most sections have no lots.
#[inline(always)]
fn units_in_section<L: PlaceSet>(account: Account, plat: &Plat, land: &L, section: Section) -> u128
    requires whole { HasWholeLots STANDARD_LOTS (L.places land.now) }
    ensures sum { (units : ℕ → ℕ → ℕ → ℕ) → AreUnitsBy account plat.now units
        → places_of_position PLACE_DIGITS * result
        ≡ section_sum PLACE_DIGITS (units section) (L.places land.now section) }
    ensures most { result ≤ SECTION_UNITS_MOST * over_by account plat.now }
{
    if lot_count(section) != 0 {
        return units_with_lots(account, plat, land, section);
    }
    regular_units(land.count(section, Block::whole()), account.over(plat))
}

/// The same in a section that may have lots. The land contains each lot wholly or not at all, so one place of a lot decides whether its units are added; the places
/// off the lots are counted.
#[inline(never)]
fn units_with_lots<L: PlaceSet>(account: Account, plat: &Plat, land: &L, section: Section) -> u128
    requires whole { HasWholeLots STANDARD_LOTS (L.places land.now) }
    ensures sum { (units : ℕ → ℕ → ℕ → ℕ) → AreUnitsBy account plat.now units
        → places_of_position PLACE_DIGITS * result
        ≡ section_sum PLACE_DIGITS (units section) (L.places land.now section) }
    ensures most { result ≤ SECTION_UNITS_MOST * over_by account plat.now }
{
    let over = account.over(plat);
    let mut off_lots = land.count(section, Block::whole());
    let mut units = 0;
    for lot in 1..lot_count(section) + 1 {
        let (column, row) = lot_place(section, lot).unwrap();
        if land.holds(
            section,
            column * PLACES_TO_POSITION,
            row * PLACES_TO_POSITION,
        ) {
            off_lots -= PLACES_OF_POSITION;
            units += account.lot_units(plat, section, lot);
        }
    }
    units + regular_units(off_lots, over)
}

/// The area of a number of places that lie in no lot, in parts of a denominator.
fn regular_units(places: u32, over: u64) -> u128
    requires places { places ≤ SECTION_PLACES_MOST }
    requires over { over ≤ OVER_MOST }
    ensures { result ≡ REGULAR_PLACE_UNITS * (over * places) }
{
    REGULAR_PLACE * (u128::from(over) * u128::from(places))
}

impl Plat {
    /// The area of a section: the exact sum of its positions' areas.
    pub fn section_area(&self, section: Section) -> Area
        ensures sum { IsSectionArea self.now section result }
        ensures units { (pieces : ℕ → ℕ → ℕ → ℕ) → ArePieces self.now pieces
            → result.units ≡ over_positions (pieces section) }
        ensures most { result.units ≤ POSITIONS * (CLOSING_MOST * CLOSING_MOST * OVER_MOST) }
    {
        let mut area = Area::zero(self.over());
        for row in 0..POSITIONS_ACROSS {
            area = area.plus(&self.row_area(section, row));
        }
        area
    }

    /// The area of the township: the exact sum of its 36 sections' areas.
    pub fn township_area(&self) -> Area
        ensures sum { IsTownshipArea self.now result }
    {
        let mut area = Area::zero(self.over());
        for number in 1..SECTIONS + 1 {
            let section = Section::new(number).unwrap();
            area = area.plus(&self.section_area(section));
        }
        area
    }

    /// The area of the positions in one row of a section.
    fn row_area(&self, section: Section, row: u8) -> Area
        requires { row < POSITIONS_ACROSS }
        ensures over { result.over ≡ over_of self.now }
        ensures units { (pieces : ℕ → ℕ → ℕ → ℕ) → ArePieces self.now pieces
            → result.units ≡ total POSITIONS_ACROSS (λ column. pieces section column row) }
        ensures most { result.units ≤ POSITIONS_ACROSS * (CLOSING_MOST * CLOSING_MOST * OVER_MOST) }
    {
        let mut area = Area::zero(self.over());
        for column in 0..POSITIONS_ACROSS {
            area = area.plus(&self.piece_area(section, column, row));
        }
        area
    }
}

/// Which area the acreage run counts for a whole lot (this project's rule).
#[derive(Clone, Copy, PartialEq, Eq)]
pub enum Account {
    /// The exact area of its position.
    Exact,
    /// The acreage that the plat shows for it.
    Plat,
}

impl Account {
    /// The number that the account's areas are divided by.
    pub(crate) fn over(self, plat: &Plat) -> u64
        ensures value { result ≡ over_by self plat.now }
        ensures range { (0 < result) × (result ≤ OVER_MOST) }
        ensures plat { IsPlat plat.now }
    {
        let over = plat.over();
        match self {
            Account::Exact => over,
            Account::Plat => 1,
        }
    }

    /// The area of a lot of a section, in parts of the account's denominator.
    pub(crate) fn lot_units(self, plat: &Plat, section: Section, lot: u8) -> u128
        requires least { 1 ≤ lot }
        requires most { lot ≤ number_of_lots section }
        ensures units { (units : ℕ → ℕ → ℕ → ℕ) (column row : ℕ) → AreUnitsBy self plat.now units
            → position_of_lot section lot ≡ Some (column, row) → result ≡ units section column row }
        ensures most { result ≤ CLOSING_MOST * CLOSING_MOST * over_by self plat.now }
    {
        match self {
            Account::Exact => {
                let (column, row) = lot_place(section, lot).unwrap();
                plat.piece_area(section, column, row).units()
            }
            Account::Plat => {
                let hundredths = plat.lot_hundredths(section, lot).unwrap();
                HUNDREDTH_OF_AN_ACRE * u128::from(hundredths)
            }
        }
    }
}
