//! The calls that answer on a plat, as C calls them.
ghost use Rattle.std.specs.Prelude.{◌≡◌, ◌≢◌};
ghost use Rattle.twp_calls.specs.Answers.{ACCEPTED};
ghost use Rattle.twp_calls.specs.Calls.{IsReadCall, IsAcresCall, IsAreaCall, IsNormalCall};
ghost use Rattle.twp_calls.specs.Calls.{IsPrintCall, IsReportCall};
ghost use Rattle.twp_calls.specs.WrittenNotes.{IsWriteNotesCall};

use std::alloc::Global;
use twp_calls::{TownshipAnswer, TownshipFraction, TownshipPlat};

/// Makes the plat of field notes.
#[unsafe(no_mangle)]
pub extern "C" fn township_read(
    alloc: Global,
    notes: &[u8],
    plat: &mut TownshipPlat,
) -> TownshipAnswer
    ensures answer { IsReadCall notes.now plat.new result }
    ensures kept { result.verdict ≢ ACCEPTED → plat.new ≡ plat.old }
{
    twp_calls::township_read(alloc, notes, plat)
}

/// Field notes that make a plat.
#[unsafe(no_mangle)]
pub extern "C" fn township_write_notes(
    alloc: Global,
    plat: &TownshipPlat,
    text: &mut [u8],
) -> TownshipAnswer
    ensures answer { IsWriteNotesCall plat.now text.old text.new result }
    ensures kept { result.verdict ≢ ACCEPTED → text.new ≡ text.old }
{
    twp_calls::township_write_notes(alloc, plat, text)
}

/// The acres of a description on a plat, by an account.
#[unsafe(no_mangle)]
pub extern "C" fn township_acres(
    alloc: Global,
    plat: &TownshipPlat,
    description: &[u8],
    account: u32,
) -> TownshipAnswer
    ensures { IsAcresCall plat.now description.now account result }
{
    twp_calls::township_acres(alloc, plat, description, account)
}

/// The exact area, of which `township_acres` has the hundredths.
#[unsafe(no_mangle)]
pub extern "C" fn township_area(
    alloc: Global,
    plat: &TownshipPlat,
    description: &[u8],
    account: u32,
    area: &mut TownshipFraction,
) -> TownshipAnswer
    ensures answer { IsAreaCall plat.now description.now account area.new result }
    ensures kept { result.verdict ≢ ACCEPTED → area.new ≡ area.old }
{
    twp_calls::township_area(alloc, plat, description, account, area)
}

/// The canonical text of the land described.
#[unsafe(no_mangle)]
pub extern "C" fn township_normal(
    alloc: Global,
    plat: &TownshipPlat,
    description: &[u8],
    text: &mut [u8],
) -> TownshipAnswer
    ensures answer { IsNormalCall plat.now description.now text.old text.new result }
    ensures kept { result.verdict ≢ ACCEPTED → text.new ≡ text.old }
{
    twp_calls::township_normal(alloc, plat, description, text)
}

/// The printed plat.
#[unsafe(no_mangle)]
pub extern "C" fn township_print(
    alloc: Global,
    plat: &TownshipPlat,
    text: &mut [u8],
) -> TownshipAnswer
    ensures answer { IsPrintCall plat.now text.old text.new result }
    ensures kept { result.verdict ≢ ACCEPTED → text.new ≡ text.old }
{
    twp_calls::township_print(alloc, plat, text)
}

/// The account of a list of tracts.
#[unsafe(no_mangle)]
pub extern "C" fn township_report(
    alloc: Global,
    plat: &TownshipPlat,
    list: &[u8],
    text: &mut [u8],
) -> TownshipAnswer
    ensures answer { IsReportCall plat.now list.now text.old text.new result }
    ensures kept { result.verdict ≢ ACCEPTED → text.new ≡ text.old }
{
    twp_calls::township_report(alloc, plat, list, text)
}
