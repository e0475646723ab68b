//! The land that a text names on the plat of a township.
ghost use Rattle.std.specs.Prelude.{◌≡◌, true, false, IfOk, IfSome, List, None};
ghost use Rattle.twp_grammar.specs.declared.item.Item.{Item as Named};
ghost use Rattle.twp_grammar.specs.Sentences.{IsReadAs};
ghost use Rattle.twp_grid.specs.Lands.{lotting};
ghost use Rattle.twp_suggest.specs.Descriptions.{IsAccepted, IsLandOfText, IsOnlyLandOfText, NamesNoLand, NamesTownship};

use std::alloc::{AllocError, Global};
use twp_grammar::Item;
use twp_grid::{EastWest, NorthSouth, Township};
use twp_land::{Land, Lanes, Lotting, PlaceSet};
use twp_read::Description;
use twp_resolve::resolve_into;

/// The description that a text is read as. None if the reader refuses it.
pub(crate) fn read(alloc: Global, text: &[u8]) -> Result<Option<Description>, AllocError>
    ensures read { IfOk result (λ it. IfSome it (IsReadAs text.now)) }
    ensures only { IfOk result (λ it. IfSome it (λ found. (items : List Named)
        → IsReadAs text.now items → found ≡ items)) }
    ensures refused { IfOk result (λ it. it ≡ None → ¬ IsAccepted text.now) }
{
    match Description::read(alloc, text) {
        Ok(description) => Ok(Some(description)),
        Err(fault) => match fault.refusal() {
            Some(_) => Ok(None),
            None => Err(AllocError),
        },
    }
}

/// Whether a text names land on the plat of a township with these lots, which `land` is then. It is filled in
/// place, since a copy takes longer than to read most texts.
#[tactic(auto, using(crate::proofs::meaning::LandFacts::is_land))]
pub fn find_land<P: Lotting>(
    alloc: Global,
    text: &[u8],
    township: Township,
    land: &mut Lanes,
    lots: &P,
) -> Result<bool, AllocError>
    ensures land { IfOk result (λ it. it ≡ true →
        IsLandOfText (lotting (P.layout lots.now)) township text.now
        (⟦<Lanes as PlaceSet>⟧.places land.new)) }
    ensures only { IfOk result (λ it. it ≡ true →
        IsOnlyLandOfText (lotting (P.layout lots.now)) text.now (⟦<Lanes as PlaceSet>⟧.places land.new)) }
    ensures none { IfOk result (λ it. it ≡ false
        → NamesNoLand (lotting (P.layout lots.now)) township text.now) }
{
    let Some(description) = read(alloc, text)? else {
        return Ok(false);
    };
    match resolve_into(land, &description, township, lots) {
        Ok(()) => Ok(true),
        Err(_) => Ok(false),
    }
}

/// The township that the first item names, or any if it names none.
pub fn first_township(items: &[Item]) -> Option<Township>
    ensures { IfSome result (NamesTownship items.now) }
{
    match items.first() {
        Some(
            Item::Heading {
                number,
                north_south,
                range,
                east_west,
                ..
            },
        ) => {
            let tier = u8::try_from(*number).ok()?;
            let range = u8::try_from(*range).ok()?;
            Township::new(tier, *north_south, range, *east_west)
        }
        _ => Township::new(1, NorthSouth::N, 1, EastWest::E),
    }
}

/// The township that a text names, or any if it names none, if the text names land on its plat, which `land`
/// is then. It is filled in place, as in `find_land`. None if there is no such township, or no such text.
#[tactic(auto, using(crate::proofs::meaning::LandFacts::is_land))]
pub fn find_own_land<P: Lotting>(
    alloc: Global,
    text: &[u8],
    land: &mut Lanes,
    lots: &P,
) -> Result<Option<Township>, AllocError>
    ensures land { IfOk result (λ it. IfSome it (λ township.
        IsLandOfText (lotting (P.layout lots.now)) township text.now
        (⟦<Lanes as PlaceSet>⟧.places land.new))) }
    ensures only { IfOk result (λ it. IfSome it (λ _.
        IsOnlyLandOfText (lotting (P.layout lots.now)) text.now (⟦<Lanes as PlaceSet>⟧.places land.new))) }
{
    let Some(description) = read(alloc, text)? else {
        return Ok(None);
    };
    let Some(township) = first_township(description.items()) else {
        return Ok(None);
    };
    match resolve_into(land, &description, township, lots) {
        Ok(()) => Ok(Some(township)),
        Err(_) => Ok(None),
    }
}
