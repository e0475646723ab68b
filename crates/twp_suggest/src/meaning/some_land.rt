//! The land of a description in a township, also by aliquot parts that include whole lots.
ghost use Rattle.std.specs.Prelude.{◌≡◌, true, false, IfErr, IfOk, IsTrue, OnOk};
ghost use Rattle.twp_grammar.specs.OnPlat.{AreOnPlat};
ghost use Rattle.twp_grid.specs.Lands.{lotting};
ghost use Rattle.twp_grid.specs.Townships.{Designation};
ghost use Rattle.twp_suggest.specs.Descriptions.{IsOnlyLandOfText, IsSomeLandOfItems, NamesNoLand, NamesTownship};

use crate::meaning::named::{find_with_lots, why_no_reading};
use crate::meaning::no_reading::NoReading;
use crate::meaning::on_plat::{first_township, read};
use std::alloc::{AllocError, Global};
use twp_grammar::Item;
use twp_grid::Township;
use twp_land::{Land, Lanes, Lotting, PlaceSet};
use twp_read::Description;
use twp_resolve::resolve_into;

/// Whether a text names land of a township, also by aliquot parts that include whole lots, which
/// `land` is then. It is filled in place, as in `find_land`.
pub(crate) fn find_text_with_lots<P: Lotting>(
    alloc: Global,
    text: &[u8],
    township: Township,
    land: &mut Lanes,
    lots: &P,
) -> Result<bool, AllocError>
    ensures only { IfOk result (λ it. it ≡ true →
        IsOnlyLandOfText (lotting (P.layout lots.now)) text.now (⟦<Lanes as PlaceSet>⟧.places land.new)) }
    ensures none { IfOk result (λ it. it ≡ false
        → NamesNoLand (lotting (P.layout lots.now)) township text.now) }
{
    let Some(description) = read(alloc, text)? else {
        return Ok(false);
    };
    match find_some_land(&description, township, land, lots) {
        Ok(()) => Ok(true),
        Err(_) => Ok(false),
    }
}

/// Finds the land of a description in a township, also by aliquot parts that include whole lots,
/// which `land` is then.
#[tactic(auto, using(crate::proofs::meaning::LandFacts::land_on_plat, crate::proofs::meaning::LandFacts::land_with_lots, crate::proofs::meaning::LandFacts::not_on_plat))]
pub(crate) fn find_some_land<P: Lotting>(
    description: &Description,
    township: Township,
    land: &mut Lanes,
    lots: &P,
) -> Result<(), NoReading>
    ensures land { OnOk result (IsSomeLandOfItems (lotting (P.layout lots.now)) township description.now
        (⟦<Lanes as PlaceSet>⟧.places land.new)) }
    ensures off_plat { IfErr result (λ _. ¬ AreOnPlat (lotting (P.layout lots.now)) township description.now) }
{
    if let Ok(()) = resolve_into(land, description, township, lots) {
        return Ok(());
    }
    if names_township(description, township) {
        let is_named = find_with_lots(description, land, lots);
        if is_named {
            return Ok(());
        }
    }
    Err(why_no_reading(description, lots))
}

/// Whether a description begins with this township, or names none.
fn names_township(description: &Description, township: Township) -> bool
    ensures { IsTrue result → NamesTownship description.now township }
{
    if !names_heading(description) {
        return true;
    }
    match first_township(description.items()) {
        Some(own) => own == township,
        None => false,
    }
}

/// Whether a description begins with a township.
fn names_heading(description: &Description) -> bool
    ensures { result ≡ false → (township : Designation) → NamesTownship description.now township }
{
    matches!(description.items().first(), Some(Item::Heading { .. }))
}
