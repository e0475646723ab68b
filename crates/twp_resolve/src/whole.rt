//! The land of a description that names whole sections alone.
ghost use Rattle.std.specs.Prelude.{◌≤◌, ℕ, IsTrue, true};
ghost use Rattle.twp_grid.specs.Townships.{Designation};
ghost use Rattle.twp_grid.specs.Winding.{IsSection};
ghost use Rattle.twp_grid.specs.Lands.{HasWholeLots, STANDARD_LOTS};
ghost use Rattle.twp_grammar.specs.OnPlat.{IsLandOfItems};
ghost use Rattle.twp_grammar.specs.declared.item.Item.TheVariants.{Sections};
ghost use Rattle.twp_resolve.specs.steps.ResolvingSteps.{IsItemTaken, AreAdded, sections_from};

use crate::ranges::section_of;
use crate::resolving::resolve_heading;
use twp_grammar::{Item, Numeral};
use twp_grid::{Section, Township};
use twp_land::{PlaceSet, WholeSections};
use twp_read::Description;

/// Whether a description may name whole sections alone: if its last item names some. A look at one item costs
/// next to nothing if it doesn't.
#[inline(always)]
pub fn may_be_whole(description: &Description) -> bool {
    match description.items().last() {
        Some(Item::Sections { whole, .. }) => *whole,
        _ => false,
    }
}

/// Sets `land` to the land of a description on the plat of a regular township, if it names whole sections
/// alone and has no fault, and returns whether that is so. If it isn't, the content of `land` has no meaning.
pub fn resolve_whole(
    land: &mut WholeSections,
    description: &Description,
    township: Township,
) -> bool
    ensures land { IsTrue result → IsLandOfItems STANDARD_LOTS township description.now
        (⟦<WholeSections as PlaceSet>⟧.places land.new) }
    ensures whole_lots { IsTrue result
        → HasWholeLots STANDARD_LOTS (⟦<WholeSections as PlaceSet>⟧.places land.new) }
{
    let items = description.items();
    land.clear();
    for item in items {
        if !add_item(land, item, township) {
            return false;
        }
    }
    true
}

/// Adds the sections of an item, if they are whole and the set contains none of them, and returns whether
/// that is so. A heading adds none, and must be of the plat's township.
#[inline(always)]
fn add_item(land: &mut WholeSections, item: &Item, township: Township) -> bool
    ensures { IsTrue result → (section : ℕ) → IsItemTaken STANDARD_LOTS township section item.now
        (⟦<WholeSections as PlaceSet>⟧.places land.old) (⟦<WholeSections as PlaceSet>⟧.places land.new) }
{
    match item {
        Item::Heading {
            number,
            north_south,
            range,
            east_west,
            at,
        } => resolve_heading(*number, *north_south, *range, *east_west, *at, township).is_ok(),
        Item::Sections { first, last, whole } => *whole && add_run(land, *first, *last),
        Item::Lots { .. } | Item::Chain { .. } | Item::All { .. } => false,
    }
}

/// Adds the sections from a first number to a last, if there are such sections and the set contains none of
/// them, and returns whether that is so.
#[inline(always)]
fn add_run(land: &mut WholeSections, first: Numeral, last: Numeral) -> bool
    ensures { IsTrue result → (township : Designation) (section : ℕ)
        → IsItemTaken STANDARD_LOTS township section (Sections first last true)
        (⟦<WholeSections as PlaceSet>⟧.places land.old) (⟦<WholeSections as PlaceSet>⟧.places land.new) }
{
    let Ok(from) = section_of(first) else {
        return false;
    };
    let Ok(to) = section_of(last) else {
        return false;
    };
    if last.value < first.value {
        return false;
    }
    add_sections(land, from.number(), to.number())
}

/// Adds the sections from a first number to a last, if the set contains none of them, and returns whether
/// that is so.
#[inline(always)]
fn add_sections(land: &mut WholeSections, first: u8, last: u8) -> bool
    requires first { IsSection first }
    requires last { IsSection last }
    requires order { first ≤ last }
    ensures { IsTrue result → AreAdded (sections_from STANDARD_LOTS first last)
        (⟦<WholeSections as PlaceSet>⟧.places land.old) (⟦<WholeSections as PlaceSet>⟧.places land.new) }
{
    for number in first..last + 1 {
        let section = Section::new(number).unwrap();
        if !land.add_whole(section) {
            return false;
        }
    }
    true
}
