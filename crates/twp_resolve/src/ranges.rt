ghost use Rattle.std.specs.Prelude.{◌≡◌, ℕ, ◌≤◌, ◌<◌, IsTrue, IfOk, IfErr, MatchResult};
ghost use Rattle.std.specs.Option.{SomeIff};
ghost use Rattle.twp_grammar.specs.OnPlat.{Each};
ghost use Rattle.twp_resolve.specs.PlaceFaults.{IsFirstUnlike};
ghost use Rattle.twp_grid.specs.Townships.{Designation};
ghost use Rattle.twp_grid.specs.Winding.{IsSection};
ghost use Rattle.twp_grid.specs.Lands.{SharePlace, Meets, block_places, union};
ghost use Rattle.twp_grid.specs.Lands.{lotting, HasLand, HasLots};
ghost use Rattle.twp_resolve.specs.steps.ResolvingSteps.{sections_from, lots_from, AreAdded};
ghost use Rattle.twp_resolve.specs.steps.ResolvingSteps.{IsItemTaken, IsItemsFirstFault, HaveRoom};
ghost use Rattle.twp_grammar.specs.declared.item.Item.TheVariants.{Sections, Lots, All};

use crate::place_fault::PlaceFault;
use twp_grammar::Numeral;
use twp_grid::{Block, Section};
use twp_land::{GrowingSet, Lotting};

/// Resolves the sections from the first to the last, and returns the first. If they are whole, they
/// are added; otherwise, parts of a single section follow.
pub(crate) fn resolve_sections<L: GrowingSet, P: Lotting>(
    land: &mut L,
    first: Numeral,
    last: Numeral,
    whole: bool,
    lots: &P,
) -> Result<Section, PlaceFault>
    requires { IsTrue whole → HaveRoom (L.has_room land.old) first.value last.value }
    ensures taken { IfOk result (λ _. (township : Designation) (section : ℕ)
        → IsItemTaken (lotting (P.layout lots.now)) township section (Sections first last whole)
        (L.places land.old) (L.places land.new)) }
    ensures first { IfOk result (λ section. section ≡ first.value) }
    ensures refused { IfErr result (λ fault. (township : Designation) (section : ℕ)
        → IsItemsFirstFault (lotting (P.layout lots.now)) township section (Sections first last whole)
        (L.places land.old) fault) }
{
    let from = section_of(first)?;
    let to = section_of(last)?;
    check_order(first, last)?;
    if !whole {
        return Ok(from);
    }
    check_land(first, last, lots)?;
    add_sections(land, from.number(), to.number(), first.at, lots)?;
    Ok(from)
}

/// Resolves `all` of a section.
pub(crate) fn resolve_all<L: GrowingSet, P: Lotting>(
    land: &mut L,
    section: Section,
    at: u32,
    lots: &P,
) -> Result<(), PlaceFault>
    requires { IsTrue (L.has_room land.old section) }
    ensures taken { IfOk result (λ _. (township : Designation)
        → IsItemTaken (lotting (P.layout lots.now)) township section (All at)
        (L.places land.old) (L.places land.new)) }
    ensures refused { IfErr result (λ fault. (township : Designation)
        → IsItemsFirstFault (lotting (P.layout lots.now)) township section (All at)
        (L.places land.old) fault) }
{
    if !lots.has_land(section) {
        return Err(PlaceFault::NoLand { at });
    }
    if !lots.add_section(land, section) {
        return Err(PlaceFault::Overlap { at });
    }
    Ok(())
}

/// Resolves the section's lots from the first to the last.
pub(crate) fn resolve_lots<L: GrowingSet, P: Lotting>(
    land: &mut L,
    section: Section,
    first: Numeral,
    last: Numeral,
    lots: &P,
) -> Result<(), PlaceFault>
    requires { IsTrue (L.has_room land.old section) }
    ensures taken { IfOk result (λ _. (township : Designation)
        → IsItemTaken (lotting (P.layout lots.now)) township section (Lots first last)
        (L.places land.old) (L.places land.new)) }
    ensures refused { IfErr result (λ fault. (township : Designation)
        → IsItemsFirstFault (lotting (P.layout lots.now)) township section (Lots first last) (L.places land.old) fault) }
{
    check_order(first, last)?;
    if !lots.has_lot(section, first.value) {
        return Err(PlaceFault::NoLot { at: first.at });
    }
    if !lots.has_lots(section, first.value, last.value) {
        return Err(PlaceFault::NoLot { at: last.at });
    }
    add_lots(land, section, first.value, last.value, first.at, lots)
}

/// Adds the section's lots from a first number to a last.
fn add_lots<L: GrowingSet, P: Lotting>(
    land: &mut L,
    section: Section,
    first: u16,
    last: u16,
    at: u32,
    lots: &P,
) -> Result<(), PlaceFault>
    requires room { IsTrue (L.has_room land.old section) }
    requires order { first ≤ last }
    requires have { HasLots (lotting (P.layout lots.now)) section first last }
    ensures { MatchResult result
        (λ _. AreAdded (lots_from (lotting (P.layout lots.now)) section first last)
        (L.places land.old) (L.places land.new))
        (λ fault. (fault ≡ PlaceFault.Overlap at)
        × SharePlace (L.places land.old) (lots_from (lotting (P.layout lots.now)) section first last)) }
{
    for number in first..last + 1 {
        if !lots.add_lot(land, section, number as u8) {
            return Err(PlaceFault::Overlap { at });
        }
    }
    Ok(())
}

/// Adds the land of the sections from a first number to a last.
fn add_sections<L: GrowingSet, P: Lotting>(
    land: &mut L,
    first: u8,
    last: u8,
    at: u32,
    lots: &P,
) -> Result<(), PlaceFault>
    requires room { HaveRoom (L.has_room land.old) first last }
    requires first { IsSection first }
    requires last { IsSection last }
    requires order { first ≤ last }
    ensures { MatchResult result
        (λ _. AreAdded (sections_from (lotting (P.layout lots.now)) first last)
        (L.places land.old) (L.places land.new))
        (λ fault. (fault ≡ PlaceFault.Overlap at)
        × SharePlace (L.places land.old) (sections_from (lotting (P.layout lots.now)) first last)) }
{
    for number in first..last + 1 {
        let section = Section::new(number).unwrap();
        if !lots.add_section(land, section) {
            return Err(PlaceFault::Overlap { at });
        }
    }
    Ok(())
}

/// Checks that there is land in each section from a first number to a last.
fn check_land<P: Lotting>(first: Numeral, last: Numeral, lots: &P) -> Result<(), PlaceFault>
    requires first { IsSection first.value }
    requires last { IsSection last.value }
    ensures { MatchResult result (λ _. Each (HasLand (lotting (P.layout lots.now))) first.value last.value)
        (λ fault. (at : ℕ) × (fault ≡ PlaceFault.NoLand at)
        × IsFirstUnlike (Each (HasLand (lotting (P.layout lots.now))) first.value) first last at) }
{
    for number in first.value..last.value + 1 {
        if !lots.has_land(Section::new(number as u8).unwrap()) {
            let at = if number == first.value {
                first.at
            } else {
                last.at
            };
            return Err(PlaceFault::NoLand { at });
        }
    }
    Ok(())
}

/// Checks that a range does not run backward.
fn check_order(first: Numeral, last: Numeral) -> Result<(), PlaceFault>
    ensures { MatchResult result (λ _. first.value ≤ last.value)
        (λ fault. (fault ≡ PlaceFault.Backward last.at) × (last.value < first.value)) }
{
    if last.value < first.value {
        return Err(PlaceFault::Backward { at: last.at });
    }
    Ok(())
}

/// The section with a number.
pub(crate) fn section_of(number: Numeral) -> Result<Section, PlaceFault>
    ensures { MatchResult result (λ section. (section ≡ number.value) × IsSection number.value)
        (λ fault. (fault ≡ PlaceFault.NoSection number.at) × ¬ IsSection number.value) }
{
    if number.value > 36 {
        return Err(PlaceFault::NoSection { at: number.at });
    }
    Section::new(number.value as u8).ok_or(PlaceFault::NoSection { at: number.at })
}

/// Adds a block of a section. It is refused as an overlap if the land contains a place of it.
pub(crate) fn add_block<L: GrowingSet>(
    land: &mut L,
    section: Section,
    block: Block,
    at: u32,
) -> Result<(), PlaceFault>
    requires { IsTrue (L.has_room land.old section) }
    ensures added { MatchResult result
        (λ _. (¬ Meets (L.places land.old section) block)
        × (L.places land.new ≡ union (L.places land.old) (block_places section block)))
        (λ fault. (fault ≡ PlaceFault.Overlap at) × Meets (L.places land.old section) block) }
    ensures room { L.has_room land.new ≡ L.has_room land.old }
{
    if !land.add_apart(section, block) {
        return Err(PlaceFault::Overlap { at });
    }
    Ok(())
}
