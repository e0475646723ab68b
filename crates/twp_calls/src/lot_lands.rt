//! The calls that answer for land by a lot table: on its plat, with its lots.
ghost use Rattle.std.specs.Prelude.{◌≡◌, ◌≢◌, IfErr, IfOk};
ghost use Rattle.twp_calls.specs.Answers.{ACCEPTED};
ghost use Rattle.twp_calls.specs.LotLandCalls.{IsLotsLandReadCall, IsLotsLandTextCall};
ghost use Rattle.twp_calls.specs.LotLandCalls.{IsLotsLandAcresCall, IsLotsLandAreaCall};
ghost use Rattle.twp_calls.specs.steps.LotSteps.{IsTableLand, IsNoTableLand};

use crate::answer::TownshipAnswer;
use crate::designation::is_same_township;
use crate::fraction::TownshipFraction;
use crate::land::{LandIn, TownshipLand};
use crate::lots::TownshipLots;
use crate::text::put;
use crate::verdict::{ACCEPTED, NO_LAND, NO_LOTS, NO_MEMORY, OTHER_PLAT, OTHER_TOWNSHIP};
use std::alloc::Global;
use twp_answers::land_of;
use twp_land::{Lanes, PlaceSet, has_whole_lots_on};
use twp_plat::area_by_lots;
use twp_spell::spell;

/// The land that a description names on the plat of a lot table.
pub fn township_lots_land_read(
    alloc: Global,
    lots: &TownshipLots,
    description: &[u8],
    land: &mut TownshipLand,
) -> TownshipAnswer
    ensures answer { IsLotsLandReadCall lots.now description.now land.new result }
    ensures kept { result.verdict ≢ ACCEPTED → land.new ≡ land.old }
{
    let Some(township) = lots.township.township() else {
        return TownshipAnswer::bare(NO_LOTS);
    };
    match land_of(alloc, township, description, &lots.lots.plat) {
        Ok(places) => {
            *land = TownshipLand::of(township, lots.plat(), &places);
            TownshipAnswer::bare(ACCEPTED)
        }
        Err(stop) => TownshipAnswer::of_stop(stop),
    }
}

/// The canonical text of land on the plat of a lot table.
pub fn township_lots_land_text(
    alloc: Global,
    lots: &TownshipLots,
    land: &TownshipLand,
    text: &mut [u8],
) -> TownshipAnswer
    ensures answer { IsLotsLandTextCall lots.now land.now text.old text.new result }
    ensures kept { result.verdict ≢ ACCEPTED → text.new ≡ text.old }
{
    match table_land(lots, land) {
        Ok(land) => match spell(alloc, &land.places, land.township, &lots.lots.plat) {
            Ok(spelled) => put(TownshipAnswer::bare(ACCEPTED), &spelled, text),
            Err(_) => TownshipAnswer::bare(NO_MEMORY),
        },
        Err(answer) => answer,
    }
}

/// The acres of land by a lot table.
pub fn township_lots_land_acres(lots: &TownshipLots, land: &TownshipLand) -> TownshipAnswer
    ensures { IsLotsLandAcresCall lots.now land.now result }
{
    match table_land(lots, land) {
        Ok(land) => match area_by_lots(&lots.lots, &land.places) {
            Ok(area) => TownshipAnswer::of_acres(area.hundredths()),
            Err(lot) => TownshipAnswer::of_refusal(lot.refusal()),
        },
        Err(answer) => answer,
    }
}

/// The exact area, of which `township_lots_land_acres` has the hundredths.
pub fn township_lots_land_area(
    lots: &TownshipLots,
    land: &TownshipLand,
    area: &mut TownshipFraction,
) -> TownshipAnswer
    ensures answer { IsLotsLandAreaCall lots.now land.now area.new result }
    ensures kept { result.verdict ≢ ACCEPTED → area.new ≡ area.old }
{
    match table_land(lots, land) {
        Ok(land) => match area_by_lots(&lots.lots, &land.places) {
            Ok(exact) => {
                *area = TownshipFraction::of(&exact);
                TownshipAnswer::bare(ACCEPTED)
            }
            Err(lot) => TownshipAnswer::of_refusal(lot.refusal()),
        },
        Err(answer) => answer,
    }
}

/// The land, if it is on the plat of a lot table, or the answer that says why it isn't.
fn table_land(lots: &TownshipLots, land: &TownshipLand) -> Result<LandIn, TownshipAnswer>
    ensures found { IfOk result (λ found. IsTableLand lots.now land.now found.township
        (⟦<Lanes as PlaceSet>⟧.places found.places)) }
    ensures none { IfErr result (λ answer. IsNoTableLand lots.now land.now answer) }
    ensures refused { IfErr result (λ answer. answer.verdict ≢ ACCEPTED) }
{
    let Some(township) = lots.township.township() else {
        return Err(TownshipAnswer::bare(NO_LOTS));
    };
    let plat = land.plat();
    let Some(land) = land.land() else {
        return Err(TownshipAnswer::bare(NO_LAND));
    };
    if !is_same_township(township, land.township) {
        return Err(TownshipAnswer::bare(OTHER_TOWNSHIP));
    }
    if !plat.is_measured_by(lots.plat()) {
        return Err(TownshipAnswer::bare(OTHER_PLAT));
    }
    // Land with the standard lots contains each of them wholly.
    if plat.own_lots == 0 {
        return Ok(land);
    }
    if !has_whole_lots_on(&land.places, &lots.lots.plat) {
        return Err(TownshipAnswer::bare(NO_LAND));
    }
    Ok(land)
}
