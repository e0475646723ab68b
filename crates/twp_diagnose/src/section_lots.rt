//! The lots of a section, and the land of a plat in it, as sets of places.
ghost use Rattle.std.specs.Prelude.{◌≡◌, ◌↔◌, ℕ, IsTrue};
ghost use Rattle.twp_grid.specs.Lands.{LOT_NUMBER_MOST, HasLot, IsLotHeld, IsWholeOrNot};
ghost use Rattle.twp_grid.specs.Lands.{lotting, section_places};
ghost use Rattle.twp_resolve.specs.steps.ResolvingSteps.{lots_from};

use twp_grid::Section;
use twp_land::{Land, Lotting};

/// Whether a set contains each lot of a section wholly or not at all: whether it contains no place of a lot
/// of which another place is missing.
#[inline(never)]
pub fn holds_whole_lots<L: Land, P: Lotting>(land: &L, section: Section, lots: &P) -> bool
    ensures { IsTrue result ↔ ((lot : ℕ) → IsWholeOrNot (lotting (P.layout lots.now)) section lot
        (L.places land.now section)) }
{
    let mut missing = L::empty();
    lots.add_section(&mut missing, section);
    missing.take_away(land);
    let mut last = 0;
    while let Some(number) = lots.next_lot(section, last) {
        if meet_lot(land, &missing, section, number, lots) {
            return false;
        }
        last = number;
    }
    true
}

/// Whether two sets each contain some place of a section's lot.
fn meet_lot<L: Land, P: Lotting>(
    land: &L,
    other: &L,
    section: Section,
    number: u8,
    lots: &P,
) -> bool
    requires { HasLot (lotting (P.layout lots.now)) section number }
    ensures { IsTrue result
        ↔ (IsLotHeld (lotting (P.layout lots.now)) section (L.places land.now section) number
        × IsLotHeld (lotting (P.layout lots.now)) section (L.places other.now section) number) }
{
    lots.meets_lot(land, section, number) && lots.meets_lot(other, section, number)
}

/// Replaces the places of a set by those of a section's lots.
pub(crate) fn fill_with_lots<L: Land, P: Lotting>(land: &mut L, section: Section, lots: &P)
    ensures { L.places land.new ≡ lots_from (lotting (P.layout lots.now)) section 1 LOT_NUMBER_MOST }
{
    land.clear();
    let mut last = 0;
    while let Some(number) = lots.next_lot(section, last) {
        lots.add_lot(land, section, number);
        last = number;
    }
}

/// Replaces the places of a set by those of a section at which the plat has land.
pub(crate) fn fill_with_section<L: Land, P: Lotting>(land: &mut L, section: Section, lots: &P)
    ensures { L.places land.new ≡ section_places (lotting (P.layout lots.now)) section }
{
    land.clear();
    lots.add_section(land, section);
}
