//! The calls on land as plain data, as C calls them.
ghost use Rattle.std.specs.Prelude.{◌≡◌, ◌≢◌};
ghost use Rattle.twp_calls.specs.Answers.{ACCEPTED};
ghost use Rattle.twp_calls.specs.LandCalls.{IsLandReadCall, IsLandAcresCall, IsLandAreaCall};
ghost use Rattle.twp_calls.specs.LandCalls.{IsLandTextCall, IsCombineCall, IsCompareCall};
ghost use Rattle.twp_calls.specs.LandParts.{IsLandPartsCall};

use std::alloc::Global;
use twp_calls::{
    TownshipAnswer, TownshipDesignation, TownshipFraction, TownshipLand, TownshipPart, TownshipPlat,
};

/// The land that a description names in a township.
#[unsafe(no_mangle)]
pub extern "C" fn township_land_read(
    alloc: Global,
    township: &TownshipDesignation,
    description: &[u8],
    land: &mut TownshipLand,
) -> TownshipAnswer
    ensures answer { IsLandReadCall township.now description.now land.new result }
    ensures kept { result.verdict ≢ ACCEPTED → land.new ≡ land.old }
{
    twp_calls::township_land_read(alloc, township, description, land)
}

/// The acres of land on a plat, by an account.
#[unsafe(no_mangle)]
pub extern "C" fn township_land_acres(
    plat: &TownshipPlat,
    land: &TownshipLand,
    account: u32,
) -> TownshipAnswer
    ensures { IsLandAcresCall plat.now land.now account result }
{
    twp_calls::township_land_acres(plat, land, account)
}

/// The exact area, of which `township_land_acres` has the hundredths.
#[unsafe(no_mangle)]
pub extern "C" fn township_land_area(
    plat: &TownshipPlat,
    land: &TownshipLand,
    account: u32,
    area: &mut TownshipFraction,
) -> TownshipAnswer
    ensures answer { IsLandAreaCall plat.now land.now account area.new result }
    ensures kept { result.verdict ≢ ACCEPTED → area.new ≡ area.old }
{
    twp_calls::township_land_area(plat, land, account, area)
}

/// The canonical text of land.
#[unsafe(no_mangle)]
pub extern "C" fn township_land_text(
    alloc: Global,
    land: &TownshipLand,
    text: &mut [u8],
) -> TownshipAnswer
    ensures answer { IsLandTextCall land.now text.old text.new result }
    ensures kept { result.verdict ≢ ACCEPTED → text.new ≡ text.old }
{
    twp_calls::township_land_text(alloc, land, text)
}

/// The written parts of land, whose texts make the canonical text.
#[unsafe(no_mangle)]
pub extern "C" fn township_land_parts(
    alloc: Global,
    land: &TownshipLand,
    parts: &mut [TownshipPart],
) -> TownshipAnswer
    ensures answer { IsLandPartsCall land.now parts.old parts.new result }
    ensures kept { result.verdict ≢ ACCEPTED → parts.new ≡ parts.old }
{
    twp_calls::township_land_parts(alloc, land, parts)
}

/// The land that an operation makes of two sets of land.
#[unsafe(no_mangle)]
pub extern "C" fn township_land_combine(
    first: &TownshipLand,
    second: &TownshipLand,
    operation: u32,
    land: &mut TownshipLand,
) -> TownshipAnswer
    ensures answer { IsCombineCall first.now second.now operation land.new result }
    ensures kept { result.verdict ≢ ACCEPTED → land.new ≡ land.old }
{
    twp_calls::township_land_combine(first, second, operation, land)
}

/// How one set of land compares to another.
#[unsafe(no_mangle)]
pub extern "C" fn township_land_compare(
    first: &TownshipLand,
    second: &TownshipLand,
    comparison: &mut u32,
) -> TownshipAnswer
    ensures answer { IsCompareCall first.now second.now comparison.new result }
    ensures kept { result.verdict ≢ ACCEPTED → comparison.new ≡ comparison.old }
{
    twp_calls::township_land_compare(first, second, comparison)
}
