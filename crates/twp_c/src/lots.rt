//! The calls by a lot table, as C calls them.
ghost use Rattle.std.specs.Prelude.{◌≡◌, ◌≢◌};
ghost use Rattle.twp_calls.specs.Answers.{ACCEPTED};
ghost use Rattle.twp_calls.specs.LotCalls.{IsLotsReadCall, IsLotsAcresCall, IsLotsAreaCall};
ghost use Rattle.twp_calls.specs.LotLandCalls.{IsLotsLandAcresCall, IsLotsLandAreaCall};
ghost use Rattle.twp_calls.specs.LotLandCalls.{IsLotsLandReadCall, IsLotsLandTextCall};
ghost use Rattle.twp_calls.specs.LotReports.{IsLotsReportCall};
ghost use Rattle.twp_calls.specs.LotsPlainCalls.{IsLotsPlainCall};

use std::alloc::Global;
use twp_calls::{TownshipAnswer, TownshipFraction, TownshipLand, TownshipLots, TownshipTract};

/// Reads a lot table.
#[unsafe(no_mangle)]
pub extern "C" fn township_lots_read(
    alloc: Global,
    table: &[u8],
    lots: &mut TownshipLots,
) -> TownshipAnswer
    ensures answer { IsLotsReadCall table.now lots.new result }
    ensures kept { result.verdict ≢ ACCEPTED → lots.new ≡ lots.old }
{
    twp_calls::township_lots_read(alloc, table, lots)
}

/// The plain table of a lot table as a spreadsheet saves it.
#[unsafe(no_mangle)]
pub extern "C" fn township_lots_plain(
    alloc: Global,
    table: &[u8],
    text: &mut [u8],
) -> TownshipAnswer
    ensures answer { IsLotsPlainCall table.now text.old text.new result }
    ensures kept { result.verdict ≢ ACCEPTED → text.new ≡ text.old }
{
    twp_calls::township_lots_plain(alloc, table, text)
}

/// The acres of a description by a lot table.
#[unsafe(no_mangle)]
pub extern "C" fn township_lots_acres(
    alloc: Global,
    lots: &TownshipLots,
    description: &[u8],
) -> TownshipAnswer
    ensures { IsLotsAcresCall lots.now description.now result }
{
    twp_calls::township_lots_acres(alloc, lots, description)
}

/// The exact area, of which `township_lots_acres` has the hundredths.
#[unsafe(no_mangle)]
pub extern "C" fn township_lots_area(
    alloc: Global,
    lots: &TownshipLots,
    description: &[u8],
    area: &mut TownshipFraction,
) -> TownshipAnswer
    ensures answer { IsLotsAreaCall lots.now description.now area.new result }
    ensures kept { result.verdict ≢ ACCEPTED → area.new ≡ area.old }
{
    twp_calls::township_lots_area(alloc, lots, description, area)
}

/// The land that a description names on the plat of a lot table.
#[unsafe(no_mangle)]
pub extern "C" fn township_lots_land_read(
    alloc: Global,
    lots: &TownshipLots,
    description: &[u8],
    land: &mut TownshipLand,
) -> TownshipAnswer
    ensures answer { IsLotsLandReadCall lots.now description.now land.new result }
    ensures kept { result.verdict ≢ ACCEPTED → land.new ≡ land.old }
{
    twp_calls::township_lots_land_read(alloc, lots, description, land)
}

/// The canonical text of land on the plat of a lot table.
#[unsafe(no_mangle)]
pub extern "C" fn township_lots_land_text(
    alloc: Global,
    lots: &TownshipLots,
    land: &TownshipLand,
    text: &mut [u8],
) -> TownshipAnswer
    ensures answer { IsLotsLandTextCall lots.now land.now text.old text.new result }
    ensures kept { result.verdict ≢ ACCEPTED → text.new ≡ text.old }
{
    twp_calls::township_lots_land_text(alloc, lots, land, text)
}

/// The acres of land by a lot table.
#[unsafe(no_mangle)]
pub extern "C" fn township_lots_land_acres(
    lots: &TownshipLots,
    land: &TownshipLand,
) -> TownshipAnswer
    ensures { IsLotsLandAcresCall lots.now land.now result }
{
    twp_calls::township_lots_land_acres(lots, land)
}

/// The exact area, of which `township_lots_land_acres` has the hundredths.
#[unsafe(no_mangle)]
pub extern "C" fn township_lots_land_area(
    lots: &TownshipLots,
    land: &TownshipLand,
    area: &mut TownshipFraction,
) -> TownshipAnswer
    ensures answer { IsLotsLandAreaCall lots.now land.now area.new result }
    ensures kept { result.verdict ≢ ACCEPTED → area.new ≡ area.old }
{
    twp_calls::township_lots_land_area(lots, land, area)
}

/// The account of a list of tracts by a lot table.
#[unsafe(no_mangle)]
pub extern "C" fn township_lots_report(
    alloc: Global,
    lots: &TownshipLots,
    list: &[u8],
    tracts: &mut [TownshipTract],
) -> TownshipAnswer
    ensures answer { IsLotsReportCall lots.now list.now tracts.old tracts.new result }
    ensures kept { result.verdict ≢ ACCEPTED → tracts.new ≡ tracts.old }
{
    twp_calls::township_lots_report(alloc, lots, list, tracts)
}
