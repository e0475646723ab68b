//! The land of a description, item by item; and room for the places of items.
ghost use Rattle.std.specs.Prelude.{◌≡◌, ◌≢◌, ◌↔◌, ◌⊎◌, ℕ, IsSome, IfOk, OnOk, IfErr, IsTrue};
ghost use Rattle.std.specs.Prelude.{is_ok, MatchResult};
ghost use Rattle.twp_grid.specs.Places.{PLACE_DIGITS};
ghost use Rattle.twp_grid.specs.Townships.{Designation, designation};
ghost use Rattle.twp_grid.specs.Lands.{HasWholeLots};
ghost use Rattle.twp_grid.specs.Lands.{lotting};
ghost use Rattle.twp_grammar.specs.ItemPlaces.{section_after};
ghost use Rattle.twp_grammar.specs.OnPlat.{AreOnPlat, IsLandOfItems};
ghost use Rattle.twp_resolve.specs.PlaceFaults.{IsFirstPlaceFault};
ghost use Rattle.twp_resolve.specs.steps.ResolvingSteps.{IsItemTaken, IsItemsFirstFault};
ghost use Rattle.twp_resolve.specs.steps.ResolvingSteps.{IsBeforeParts, number_of_section};
ghost use Rattle.twp_resolve.specs.steps.ResolvingSteps.{HasRoomFor, HaveRoom};
ghost use Rattle.twp_grid.specs.Winding.{IsSection};

use crate::chain::resolve_chain;
use crate::place_fault::PlaceFault;
use crate::ranges::{resolve_all, resolve_lots, resolve_sections};
use twp_grammar::Item;
use twp_grid::{EastWest, NorthSouth, SECTIONS, Section, Township};
use twp_land::{GrowingSet, Land, Lotting, PlaceSet};
use twp_read::Description;

/// The land that a description names on a plat with these lots: all places of its items, none of which
/// is named twice. A lot is taken whole, and an aliquot part that contains land of a lot is not on
/// the plat (Specifications for Descriptions of Land). The first fault is that of the first item
/// that has one.
pub fn resolve<L: Land, P: Lotting>(
    description: &Description,
    township: Township,
    lots: &P,
) -> Result<L, PlaceFault>
    ensures land { IfOk result
        (λ land. IsLandOfItems (lotting (P.layout lots.now)) township description.now (L.places land)) }
    ensures whole_lots { IfOk result (λ land. HasWholeLots (lotting (P.layout lots.now)) (L.places land)) }
    ensures refused { IfErr result (IsFirstPlaceFault (lotting (P.layout lots.now)) township description.now) }
    ensures on_plat { IsTrue (is_ok result) ↔ AreOnPlat (lotting (P.layout lots.now)) township description.now }
{
    let mut land = L::empty();
    resolve_into(&mut land, description, township, lots)?;
    Ok(land)
}

/// Sets `land` to the result of `resolve`. Its previous content is lost; after a fault, its content
/// has no meaning.
pub fn resolve_into<L: Land, P: Lotting>(
    land: &mut L,
    description: &Description,
    township: Township,
    lots: &P,
) -> Result<(), PlaceFault>
    ensures land { OnOk result
        (IsLandOfItems (lotting (P.layout lots.now)) township description.now (L.places land.new)) }
    ensures whole_lots { OnOk result (HasWholeLots (lotting (P.layout lots.now)) (L.places land.new)) }
    ensures refused { IfErr result (IsFirstPlaceFault (lotting (P.layout lots.now)) township description.now) }
    ensures on_plat { IsTrue (is_ok result) ↔ AreOnPlat (lotting (P.layout lots.now)) township description.now }
{
    let items = description.items();
    let mut section = None;
    PlaceSet::clear(land);
    for item in items {
        section = resolve_item(land, section, item, township, lots)?;
    }
    Ok(())
}

/// Sets a set of places to the result of `resolve`, if it has room for it. If it has not, the result is
/// `false`, and its content has no meaning, as after a fault.
pub fn resolve_if_room<L: GrowingSet, P: Lotting>(
    land: &mut L,
    description: &Description,
    township: Township,
    lots: &P,
) -> Result<bool, PlaceFault>
    ensures land { IfOk result (λ has_room. IsTrue has_room
        → IsLandOfItems (lotting (P.layout lots.now)) township description.now (L.places land.new)) }
    ensures whole_lots { IfOk result (λ has_room. IsTrue has_room
        → HasWholeLots (lotting (P.layout lots.now)) (L.places land.new)) }
    ensures refused { IfErr result (IsFirstPlaceFault (lotting (P.layout lots.now)) township description.now) }
{
    let items = description.items();
    let mut section = None;
    land.clear();
    for item in items {
        if !make_room_for(land, &section, item) {
            return Ok(false);
        }
        section = resolve_item(land, section, item, township, lots)?;
    }
    Ok(true)
}

/// Adds an item to the land of the items before it, which has room for it, and returns the section
/// of the next item.
pub(crate) fn resolve_item<L: GrowingSet, P: Lotting>(
    land: &mut L,
    section: Option<Section>,
    item: &Item,
    township: Township,
    lots: &P,
) -> Result<Option<Section>, PlaceFault>
    requires known { IsSome section ⊎ IsBeforeParts item.now }
    requires room { HasRoomFor (L.has_room land.old) (number_of_section section) item.now }
    ensures taken { IfOk result (λ after. IsItemTaken (lotting (P.layout lots.now)) township (number_of_section section)
        item.now (L.places land.old) (L.places land.new)) }
    ensures after { IfOk result (λ after. number_of_section after
        ≡ section_after (number_of_section section) item.now) }
    ensures refused { IfErr result (IsItemsFirstFault (lotting (P.layout lots.now)) township (number_of_section section)
        item.now (L.places land.old)) }
{
    match item {
        Item::Heading {
            number,
            north_south,
            range,
            east_west,
            at,
        } => resolve_heading(*number, *north_south, *range, *east_west, *at, township)?,
        Item::Sections { first, last, whole } => {
            return Ok(Some(resolve_sections(land, *first, *last, *whole, lots)?));
        }
        Item::Lots { first, last } => resolve_lots(land, section.unwrap(), *first, *last, lots)?,
        Item::Chain { steps, at } => resolve_chain(land, section.unwrap(), steps, *at, lots)?,
        Item::All { at } => resolve_all(land, section.unwrap(), *at, lots)?,
    }
    Ok(section)
}

/// Resolves a heading: it names the township of the plat, or it is refused.
pub(crate) fn resolve_heading(
    number: u16,
    north_south: NorthSouth,
    range: u16,
    east_west: EastWest,
    at: u32,
    township: Township,
) -> Result<(), PlaceFault>
    ensures { MatchResult result
        (λ _. designation number north_south range east_west ≡ township)
        (λ fault. (fault ≡ PlaceFault.OtherTownship at)
        × (designation number north_south range east_west ≢ township)) }
{
    if number == u16::from(township.number())
        && north_south == township.north_south()
        && range == u16::from(township.range())
        && east_west == township.east_west()
    {
        Ok(())
    } else {
        Err(PlaceFault::OtherTownship { at })
    }
}

/// The most items for which a set of places with room for one section is sought: with more, what is saved
/// is little beside what they take.
const ITEMS_MOST: usize = 16;

/// Whether a short description names land in one section alone, for which a set of places with room for
/// one is enough.
pub fn names_one_section(description: &Description) -> bool {
    let items = description.items();
    if items.len() > ITEMS_MOST {
        return false;
    }
    let mut is_named = false;
    for item in items {
        if let Item::Sections { first, last, .. } = item {
            if is_named || first.value != last.value {
                return false;
            }
            is_named = true;
        }
    }
    true
}

/// Makes room for the places of an item. `false` if there is none.
#[inline(always)]
pub(crate) fn make_room_for<L: GrowingSet>(
    land: &mut L,
    section: &Option<Section>,
    item: &Item,
) -> bool
    requires { IsSome section.now ⊎ IsBeforeParts item.now }
    ensures places { L.places land.new ≡ L.places land.old }
    ensures room { IsTrue result
        → HasRoomFor (L.has_room land.new) (number_of_section section.now) item.now }
{
    match item {
        Item::Heading { .. } => true,
        Item::Sections { first, last, whole } => {
            if !*whole {
                return true;
            }
            make_room_from(land, first.value, last.value)
        }
        Item::Lots { .. } | Item::Chain { .. } | Item::All { .. } => {
            land.make_room(section.unwrap())
        }
    }
}

/// Makes room for the places of the sections from a first number to a last. `false` if there is not
/// enough.
fn make_room_from<L: GrowingSet>(land: &mut L, first: u16, last: u16) -> bool
    ensures places { L.places land.new ≡ L.places land.old }
    ensures room { IsTrue result → HaveRoom (L.has_room land.new) first last }
{
    for number in first..last.min(u16::from(SECTIONS)) + 1 {
        let Some(section) = Section::new(number as u8) else {
            continue;
        };
        if !land.make_room(section) {
            return false;
        }
    }
    true
}
