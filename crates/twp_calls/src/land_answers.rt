//! The calls that answer for land, which is plain data that the caller keeps. The lots are the standard ones.
ghost use Rattle.std.specs.Prelude.{◌≡◌, ◌≢◌};
ghost use Rattle.twp_calls.specs.Answers.{ACCEPTED};
ghost use Rattle.twp_calls.specs.LandCalls.{IsLandReadCall, IsLandAcresCall, IsLandAreaCall};
ghost use Rattle.twp_calls.specs.LandCalls.{IsLandTextCall};

use crate::account::account_of;
use crate::answer::TownshipAnswer;
use crate::designation::{TownshipDesignation, is_same_township};
use crate::fraction::TownshipFraction;
use crate::land::TownshipLand;
use crate::plat::TownshipPlat;
use crate::text::put;
use crate::verdict::{
    ACCEPTED, NO_ACCOUNT, NO_LAND, NO_MEMORY, NO_PLAT, NO_TOWNSHIP, OTHER_PLAT, OTHER_TOWNSHIP,
};
use crate::which_plat::REGULAR;
use std::alloc::Global;
use twp_answers::{acres_of, land_of};
use twp_land::StandardLots;
use twp_plat::area_by;
use twp_spell::spell;

/// The land that a description names in a township.
pub fn township_land_read(
    alloc: Global,
    township: &TownshipDesignation,
    description: &[u8],
    land: &mut TownshipLand,
) -> TownshipAnswer
    ensures answer { IsLandReadCall township.now description.now land.new result }
    ensures kept { result.verdict ≢ ACCEPTED → land.new ≡ land.old }
{
    let Some(township) = township.township() else {
        return TownshipAnswer::bare(NO_TOWNSHIP);
    };
    match land_of(alloc, township, description, &StandardLots) {
        Ok(places) => {
            *land = TownshipLand::of(township, REGULAR, &places);
            TownshipAnswer::bare(ACCEPTED)
        }
        Err(stop) => TownshipAnswer::of_stop(stop),
    }
}

/// The acres of land on a plat, by an account.
pub fn township_land_acres(plat: &TownshipPlat, land: &TownshipLand, account: u32) -> TownshipAnswer
    ensures { IsLandAcresCall plat.now land.now account result }
{
    let Some(plat) = plat.plat() else {
        return TownshipAnswer::bare(NO_PLAT);
    };
    let own_lots = land.own_lots;
    let Some(land) = land.land() else {
        return TownshipAnswer::bare(NO_LAND);
    };
    let Some(account) = account_of(account) else {
        return TownshipAnswer::bare(NO_ACCOUNT);
    };
    if !is_same_township(plat.township(), land.township) {
        return TownshipAnswer::bare(OTHER_TOWNSHIP);
    }
    if own_lots != 0 {
        return TownshipAnswer::bare(OTHER_PLAT);
    }
    TownshipAnswer::of_acres(acres_of(&plat, &land.places, account))
}

/// The exact area, of which `township_land_acres` has the hundredths.
pub fn township_land_area(
    plat: &TownshipPlat,
    land: &TownshipLand,
    account: u32,
    area: &mut TownshipFraction,
) -> TownshipAnswer
    ensures answer { IsLandAreaCall plat.now land.now account area.new result }
    ensures kept { result.verdict ≢ ACCEPTED → area.new ≡ area.old }
{
    let Some(plat) = plat.plat() else {
        return TownshipAnswer::bare(NO_PLAT);
    };
    let own_lots = land.own_lots;
    let Some(land) = land.land() else {
        return TownshipAnswer::bare(NO_LAND);
    };
    let Some(account) = account_of(account) else {
        return TownshipAnswer::bare(NO_ACCOUNT);
    };
    if !is_same_township(plat.township(), land.township) {
        return TownshipAnswer::bare(OTHER_TOWNSHIP);
    }
    if own_lots != 0 {
        return TownshipAnswer::bare(OTHER_PLAT);
    }
    *area = TownshipFraction::of(&area_by(account, &plat, &land.places));
    TownshipAnswer::bare(ACCEPTED)
}

/// The canonical text of land on a plat with the standard lots.
pub fn township_land_text(alloc: Global, land: &TownshipLand, text: &mut [u8]) -> TownshipAnswer
    ensures answer { IsLandTextCall land.now text.old text.new result }
    ensures kept { result.verdict ≢ ACCEPTED → text.new ≡ text.old }
{
    let own_lots = land.own_lots;
    let Some(land) = land.land() else {
        return TownshipAnswer::bare(NO_LAND);
    };
    if own_lots != 0 {
        return TownshipAnswer::bare(OTHER_PLAT);
    }
    match spell(alloc, &land.places, land.township, &StandardLots) {
        Ok(spelled) => put(TownshipAnswer::bare(ACCEPTED), &spelled, text),
        Err(_) => TownshipAnswer::bare(NO_MEMORY),
    }
}
