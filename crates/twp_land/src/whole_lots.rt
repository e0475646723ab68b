//! Whether a set of places contains each lot of a plat wholly or not at all.
ghost use Rattle.std.specs.Prelude.{◌≡◌, ◌↔◌, ◌≤◌, ℕ, IsTrue};
ghost use Rattle.twp_grid.specs.Winding.{IsSection};
ghost use Rattle.twp_grid.specs.Lands.{lotting, HasWholeLots};
ghost use Rattle.twp_land.specs.steps.Relating.{HoldsWholeLots};

use crate::land::Land;
use crate::lotting::Lotting;
use crate::place_set::PlaceSet;
use twp_grid::Section;

/// Whether a set contains each lot wholly or not at all (a lot is taken whole: Specifications for
/// Descriptions of Land).
pub fn has_whole_lots_on<L: Land, P: Lotting>(land: &L, lots: &P) -> bool
    ensures { IsTrue result ↔ HasWholeLots (lotting (P.layout lots.now)) (L.places land.now) }
{
    let Some((first, last)) = land.sections() else {
        return true;
    };
    for number in first.number()..last.number() + 1 {
        let section = Section::new(number).unwrap();
        if land.is_untouched(section) {
            continue;
        }
        if !holds_lots_of(land, section, lots) {
            return false;
        }
    }
    true
}

/// Whether a set contains each lot of a section wholly or not at all, as land that is all of the section
/// does.
fn holds_lots_of<L: Land, P: Lotting>(land: &L, section: Section, lots: &P) -> bool
    requires { IsSection section }
    ensures { IsTrue result
        ↔ HoldsWholeLots (lotting (P.layout lots.now)) section (L.places land.now section) }
{
    if lots.holds_section(land, section) {
        return true;
    }
    let mut after = 0;
    while let Some(number) = lots.next_lot(section, after) {
        if lots.meets_lot(land, section, number) && !lots.holds_lot(land, section, number) {
            return false;
        }
        after = number;
    }
    true
}
