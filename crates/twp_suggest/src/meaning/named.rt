//! The land that a text names, also by aliquot parts that include lots.
ghost use Rattle.std.specs.Prelude.{◌≡◌, ℕ, ◌≤◌, true, IfOk};
ghost use Rattle.twp_grid.specs.Winding.{IsSection};
ghost use Rattle.std.specs.List.{AllPairs};
ghost use Rattle.twp_grid.specs.Lands.{HasLots, HasWholeLots, SharePlace, lotting};
ghost use Rattle.twp_grammar.specs.declared.item.Item.TheVariants.{Chain, All, Sections as RangeOfSections, Lots as RangeOfLots};
ghost use Rattle.twp_grammar.specs.ItemPlaces.{item_of, item_places, land_of, parts_of, section_after};
ghost use Rattle.twp_suggest.specs.Descriptions.{AreNamed};
ghost use Rattle.twp_resolve.specs.steps.ResolvingSteps.{sections_from, lots_from, AreAdded, number_of_section};

use crate::meaning::no_reading::NoReading;
use crate::meaning::on_plat::read;
use std::alloc::{AllocError, Global};
use twp_diagnose::holds_whole_lots;
use twp_grammar::{Item, Numeral, Steps, chain_block};
use twp_grid::{Block, Section};
use twp_land::{Land, Lanes, Lotting, PlaceSet};
use twp_read::Description;

/// Items name what no township has, or the same land twice.
#[derive(Clone, Copy, PartialEq, Eq)]
struct Unnamed;

/// Whether a text names land of a plat with these lots, also by aliquot parts that include lots,
/// which `land` is then. It is filled in place, as in `find_land`. It names none if it names what
/// the plat doesn't have, land twice, or a part of a lot.
pub fn find_named_land<P: Lotting>(
    alloc: Global,
    text: &[u8],
    land: &mut Lanes,
    lots: &P,
) -> Result<bool, AllocError>
    ensures { IfOk result (λ it. it ≡ true →
        AreNamed (lotting (P.layout lots.now)) text.now (⟦<Lanes as PlaceSet>⟧.places land.new)) }
{
    match read(alloc, text)? {
        Some(description) => Ok(find_with_lots(&description, land, lots)),
        None => Ok(false),
    }
}

/// Whether a description names land, also by aliquot parts that include whole lots, which `land` is then.
pub(crate) fn find_with_lots<P: Lotting>(
    description: &Description,
    land: &mut Lanes,
    lots: &P,
) -> bool
    ensures named { result ≡ true → ⟦<Lanes as PlaceSet>⟧.places land.new
        ≡ land_of (lotting (P.layout lots.now)) (parts_of description.now) }
    ensures apart { result ≡ true → AllPairs (λ part more.
        ¬ SharePlace (item_places (lotting (P.layout lots.now)) part) (item_places (lotting (P.layout lots.now)) more))
        (parts_of description.now) }
    ensures whole { result ≡ true
        → HasWholeLots (lotting (P.layout lots.now)) (⟦<Lanes as PlaceSet>⟧.places land.new) }
    ensures on_land { result ≡ true → (section column row : ℕ)
        → ⟦<Lanes as PlaceSet>⟧.places land.new section column row ≡ true
        → (P.layout lots.now).has_land section column row ≡ true }
{
    let is_named = find_items(description, land, lots);
    if !is_named {
        return false;
    }
    let are_whole = has_whole_lots(land, lots);
    if !are_whole {
        return false;
    }
    is_on_land(land, lots)
}

/// Whether land contains each lot wholly or not at all. Only the sections between which it is are looked at,
/// of which most have no lots.
fn has_whole_lots<L: Land, P: Lotting>(land: &L, lots: &P) -> bool
    ensures { result ≡ true → HasWholeLots (lotting (P.layout lots.now)) (L.places land.now) }
{
    let Some((first, last)) = land.sections() else {
        return true;
    };
    for number in first.number()..last.number() + 1 {
        let section = Section::new(number).unwrap();
        if !holds_whole_lots(land, section, lots) {
            return false;
        }
    }
    true
}

/// Whether the plat has land at each place of a set.
fn is_on_land<L: Land, P: Lotting>(land: &L, lots: &P) -> bool
    ensures { result ≡ true → (section column row : ℕ) → L.places land.now section column row ≡ true
        → (P.layout lots.now).has_land section column row ≡ true }
{
    let Some((first, last)) = land.sections() else {
        return true;
    };
    for number in first.number()..last.number() + 1 {
        let section = Section::new(number).unwrap();
        if !is_on_land_in(land, section, lots) {
            return false;
        }
    }
    true
}

/// The same for the places of one section. Few sections have a place without land.
#[inline(always)]
fn is_on_land_in<L: Land, P: Lotting>(land: &L, section: Section, lots: &P) -> bool
    ensures { result ≡ true → (column row : ℕ) → L.places land.now section column row ≡ true
        → (P.layout lots.now).has_land section column row ≡ true }
{
    if !lots.lacks_land(section, Block::whole()) {
        return true;
    }
    has_none_off_plat(land, section, lots)
}

/// Whether no place of a set in a section is off the plat's land there.
#[inline(never)]
fn has_none_off_plat<L: Land, P: Lotting>(land: &L, section: Section, lots: &P) -> bool
    ensures { result ≡ true → (column row : ℕ) → L.places land.now section column row ≡ true
        → (P.layout lots.now).has_land section column row ≡ true }
{
    let mut on_plat = L::empty();
    if !lots.add_section(&mut on_plat, section) {
        return false;
    }
    let mut off_plat = L::empty();
    off_plat.add_land(land);
    off_plat.take_away(&on_plat);
    if off_plat.meets(section, Block::whole()) {
        return false;
    }
    true
}

/// Why a description whose land isn't on the plat is no reading: it names some land twice, or a part of a
/// lot.
#[inline(never)]
pub(crate) fn why_no_reading<P: Lotting>(description: &Description, lots: &P) -> NoReading {
    let mut land = Lanes::empty();
    if find_items(description, &mut land, lots) {
        return NoReading::Refused;
    }
    NoReading::Unfit
}

/// Whether the items of a description name land that a township has, and none of it twice; `land` is then all
/// places of its items.
#[tactic(auto, using(crate::proofs::meaning::NamedFacts::named_none, crate::proofs::meaning::NamedFacts::named_next, crate::proofs::meaning::NamedFacts::named_all))]
fn find_items<L: Land, P: Lotting>(description: &Description, land: &mut L, lots: &P) -> bool
    ensures named { result ≡ true
        → L.places land.new ≡ land_of (lotting (P.layout lots.now)) (parts_of description.now) }
    ensures apart { result ≡ true → AllPairs (λ part more.
        ¬ SharePlace (item_places (lotting (P.layout lots.now)) part) (item_places (lotting (P.layout lots.now)) more))
        (parts_of description.now) }
{
    let items = description.items();
    land.clear();
    let mut section = None;
    for item in items {
        let Ok(after) = add_item(land, section, item, lots) else {
            return false;
        };
        section = after;
    }
    true
}

/// Adds an item to the land of the items before it, and returns the section of the next item.
fn add_item<L: Land, P: Lotting>(
    land: &mut L,
    section: Option<Section>,
    item: &Item,
    lots: &P,
) -> Result<Option<Section>, Unnamed>
    ensures added { IfOk result (λ _. AreAdded
        (item_places (lotting (P.layout lots.now)) (item_of (number_of_section section) item.now))
        (L.places land.old) (L.places land.new)) }
    ensures after { IfOk result (λ after. number_of_section after
        ≡ section_after (number_of_section section) item.now) }
{
    match item {
        Item::Heading { .. } => Ok(section),
        Item::Sections { first, last, whole } => {
            let from = sections_named(land, *first, *last, *whole, lots)?;
            Ok(Some(from))
        }
        Item::Lots { first, last } => lots_named(land, section, *first, *last, lots),
        Item::Chain { steps, .. } => chain_named(land, section, steps, lots),
        Item::All { .. } => all_named(land, section, lots),
    }
}

/// Adds the sections from the first to the last, if they are whole, and returns the first.
fn sections_named<L: Land, P: Lotting>(
    land: &mut L,
    first: Numeral,
    last: Numeral,
    whole: bool,
    lots: &P,
) -> Result<Section, Unnamed>
    ensures added { IfOk result (λ _. (section : ℕ) → AreAdded
        (item_places (lotting (P.layout lots.now)) (item_of section (RangeOfSections first last whole)))
        (L.places land.old) (L.places land.new)) }
    ensures first { IfOk result (λ section. section ≡ first.value) }
{
    let from = section_of(first)?;
    let to = section_of(last)?;
    if last.value < first.value {
        return Err(Unnamed);
    }
    if whole {
        add_sections(land, from.number(), to.number(), lots)?;
    }
    Ok(from)
}

/// Adds the lots of a section from the first to the last.
fn lots_named<L: Land, P: Lotting>(
    land: &mut L,
    section: Option<Section>,
    first: Numeral,
    last: Numeral,
    lots: &P,
) -> Result<Option<Section>, Unnamed>
    ensures added { IfOk result (λ _. AreAdded
        (item_places (lotting (P.layout lots.now))
        (item_of (number_of_section section) (RangeOfLots first last)))
        (L.places land.old) (L.places land.new)) }
    ensures same { IfOk result (λ after. after ≡ section) }
{
    let Some(section) = section else {
        return Err(Unnamed);
    };
    if last.value < first.value {
        return Err(Unnamed);
    }
    if !lots.has_lots(section, first.value, last.value) {
        return Err(Unnamed);
    }
    add_lots(land, section, first.value, last.value, lots)?;
    Ok(Some(section))
}

/// Adds an aliquot part of a section.
fn chain_named<L: Land, P: Lotting>(
    land: &mut L,
    section: Option<Section>,
    steps: &Steps,
    lots: &P,
) -> Result<Option<Section>, Unnamed>
    ensures added { IfOk result (λ _. (at : ℕ) → AreAdded
        (item_places (lotting (P.layout lots.now))
        (item_of (number_of_section section) (Chain steps.now at)))
        (L.places land.old) (L.places land.new)) }
    ensures same { IfOk result (λ after. after ≡ section) }
{
    let Some(section) = section else {
        return Err(Unnamed);
    };
    let Some(block) = chain_block(steps) else {
        return Err(Unnamed);
    };
    if land.meets(section, block) {
        return Err(Unnamed);
    }
    land.add(section, block);
    Ok(Some(section))
}

/// Adds all of a section.
fn all_named<L: Land, P: Lotting>(
    land: &mut L,
    section: Option<Section>,
    lots: &P,
) -> Result<Option<Section>, Unnamed>
    ensures added { IfOk result (λ _. (at : ℕ) → AreAdded
        (item_places (lotting (P.layout lots.now)) (item_of (number_of_section section) (All at)))
        (L.places land.old) (L.places land.new)) }
    ensures same { IfOk result (λ after. after ≡ section) }
{
    let Some(section) = section else {
        return Err(Unnamed);
    };
    if !lots.has_land(section) {
        return Err(Unnamed);
    }
    if !lots.add_section(land, section) {
        return Err(Unnamed);
    }
    Ok(Some(section))
}

/// Adds the whole sections from a first number to a last.
fn add_sections<L: Land, P: Lotting>(
    land: &mut L,
    first: u8,
    last: u8,
    lots: &P,
) -> Result<(), Unnamed>
    requires first { IsSection first }
    requires last { IsSection last }
    requires order { first ≤ last }
    ensures { IfOk result (λ _. AreAdded (sections_from (lotting (P.layout lots.now)) first last)
        (L.places land.old) (L.places land.new)) }
{
    for number in first..last + 1 {
        let section = Section::new(number).unwrap();
        if !lots.has_land(section) {
            return Err(Unnamed);
        }
        if !lots.add_section(land, section) {
            return Err(Unnamed);
        }
    }
    Ok(())
}

/// Adds the lots of a section from a first number to a last.
fn add_lots<L: Land, P: Lotting>(
    land: &mut L,
    section: Section,
    first: u16,
    last: u16,
    lots: &P,
) -> Result<(), Unnamed>
    requires order { first ≤ last }
    requires have { HasLots (lotting (P.layout lots.now)) section first last }
    ensures { IfOk result (λ _. AreAdded (lots_from (lotting (P.layout lots.now)) section first last)
        (L.places land.old) (L.places land.new)) }
{
    for lot in first..last + 1 {
        if !lots.add_lot(land, section, lot as u8) {
            return Err(Unnamed);
        }
    }
    Ok(())
}

/// The section with a number.
fn section_of(number: Numeral) -> Result<Section, Unnamed>
    ensures { IfOk result (λ section. (section ≡ number.value) × IsSection number.value) }
{
    if number.value > 36 {
        return Err(Unnamed);
    }
    Section::new(number.value as u8).ok_or(Unnamed)
}
