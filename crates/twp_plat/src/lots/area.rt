ghost use Rattle.std.specs.Prelude.{◌≡◌, ◌*◌, ◌≤◌, ℕ, IfOk, IfErr};
ghost use Rattle.twp_grid.specs.Winding.{IsSection};
ghost use Rattle.twp_grid.specs.Lands.{HasWholeLots};
ghost use Rattle.twp_plat.specs.LotTables.{figure_of, lots_of};
ghost use Rattle.twp_plat.specs.LotAreas.{IsLotArea, HasFigures, IsFirstLacking, Lacks};
ghost use Rattle.twp_plat.specs.steps.SectionUnits.{section_units, SECTION_MOST};
ghost use Rattle.twp_plat.specs.steps.LackingSteps.{IsFirstLackingIn};

use crate::lots::lacking::LackingLot;
use crate::lots::returned::ReturnedLots;
use crate::plat::QUARTER_MILE;
use twp_grid::{PLACES_TO_POSITION, Section};
use twp_land::{Land, Lotting, PlaceSet};
use twp_measure::{Area, HUNDREDTH_OF_AN_ACRE};

/// The number of places in a position.
const PLACES_OF_POSITION: u32 = PLACES_TO_POSITION as u32 * PLACES_TO_POSITION as u32;

/// The area of a place in no lot, in square thousandths of a chain.
const REGULAR_PLACE: u64 = QUARTER_MILE as u64 * QUARTER_MILE as u64 / PLACES_OF_POSITION as u64;

/// A hundredth of an acre, in the same units.
const HUNDREDTH: u64 = HUNDREDTH_OF_AN_ACRE as u64;

/// The area of land by the lots of a plat: each lot counts for the acreage that is returned for it,
/// and each place in no lot for its share of 40 acres. Nothing is rounded. The error is the first
/// lot of the land for which none is returned.
pub fn area_by_lots<L: Land>(lots: &ReturnedLots, land: &L) -> Result<Area, LackingLot>
    requires whole { HasWholeLots (lots_of lots.now) (L.places land.now) }
    ensures figures { IfOk result (λ _.
        HasFigures (lots_of lots.now) (figure_of lots.now) (L.places land.now)) }
    ensures area { IfOk result
        (IsLotArea (lots_of lots.now) (figure_of lots.now) (L.places land.now)) }
    ensures lacking { IfErr result (λ lot. IsFirstLacking (lots_of lots.now)
        (figure_of lots.now) (L.places land.now) lot.section lot.number) }
{
    let Some((first, last)) = land.sections() else {
        return Ok(Area::zero(1));
    };
    let mut units = 0;
    for number in first.number()..last.number() + 1 {
        let section = Section::new(number).unwrap();
        if land.is_untouched(section) {
            continue;
        }
        match units_in_section(lots, land, section) {
            Ok(more) => units += more,
            Err(lot) => return Err(lot),
        }
    }
    Ok(Area::new(u128::from(units), 1).unwrap())
}

/// The area of the land in a section, or the first lot of the land there that is lacking.
fn units_in_section<L: Land>(
    lots: &ReturnedLots,
    land: &L,
    section: Section,
) -> Result<u64, LackingLot>
    requires section { IsSection section }
    requires whole { HasWholeLots (lots_of lots.now) (L.places land.now) }
    ensures units { IfOk result (λ units. units
        ≡ section_units (lots_of lots.now) (figure_of lots.now) (L.places land.now) section) }
    ensures most { IfOk result (λ units. units ≤ SECTION_MOST) }
    ensures figures { IfOk result (λ _. (number : ℕ)
        → ¬ Lacks (lots_of lots.now) (figure_of lots.now) (L.places land.now) section number) }
    ensures lacking { IfErr result (λ lot. IsFirstLackingIn (lots_of lots.now)
        (figure_of lots.now) (L.places land.now) section lot.section lot.number) }
{
    let mut units = 0;
    let mut after = 0;
    while let Some(number) = lots.plat.next_lot(section, after) {
        if lots.plat.meets_lot(land, section, number) {
            let Some(figure) = lots.figure(section, number) else {
                return Err(LackingLot { section, number });
            };
            units += HUNDREDTH * u64::from(figure);
        }
        after = number;
    }
    Ok(units + REGULAR_PLACE * u64::from(lots.plat.off_lots_count(land, section)))
}
