//! The calls that answer on a plat. Each takes it as plain data, and bytes as a slice.
ghost use Rattle.std.specs.Prelude.{◌≡◌, ◌≢◌};
ghost use Rattle.twp_calls.specs.Answers.{ACCEPTED};
ghost use Rattle.twp_calls.specs.Calls.{IsReadCall, IsAcresCall, IsAreaCall, IsNormalCall};
ghost use Rattle.twp_calls.specs.Calls.{IsPrintCall, IsReportCall};

use crate::account::account_of;
use crate::answer::TownshipAnswer;
use crate::fraction::TownshipFraction;
use crate::plat::TownshipPlat;
use crate::reading::plat_of_notes;
use crate::text::put;
use crate::verdict::{ACCEPTED, NO_ACCOUNT, NO_MEMORY, NO_PLAT};
use std::alloc::Global;
use twp_answers::{account_on, acres_on, area_on, normal_on, print_plat};

/// Makes the plat of field notes.
pub fn township_read(alloc: Global, notes: &[u8], plat: &mut TownshipPlat) -> TownshipAnswer
    ensures answer { IsReadCall notes.now plat.new result }
    ensures kept { result.verdict ≢ ACCEPTED → plat.new ≡ plat.old }
{
    match plat_of_notes(alloc, notes) {
        Ok(read) => {
            *plat = TownshipPlat::of(&read);
            TownshipAnswer::bare(ACCEPTED)
        }
        Err(stop) => TownshipAnswer::of_stop(stop),
    }
}

/// The acres of a description on a plat, by an account.
pub fn township_acres(
    alloc: Global,
    plat: &TownshipPlat,
    description: &[u8],
    account: u32,
) -> TownshipAnswer
    ensures { IsAcresCall plat.now description.now account result }
{
    let Some(plat) = plat.plat() else {
        return TownshipAnswer::bare(NO_PLAT);
    };
    let Some(account) = account_of(account) else {
        return TownshipAnswer::bare(NO_ACCOUNT);
    };
    match acres_on(alloc, &plat, description, account) {
        Ok(hundredths) => TownshipAnswer::of_acres(hundredths),
        Err(stop) => TownshipAnswer::of_stop(stop),
    }
}

/// The exact area, of which `township_acres` has the hundredths.
pub fn township_area(
    alloc: Global,
    plat: &TownshipPlat,
    description: &[u8],
    account: u32,
    area: &mut TownshipFraction,
) -> TownshipAnswer
    ensures answer { IsAreaCall plat.now description.now account area.new result }
    ensures kept { result.verdict ≢ ACCEPTED → area.new ≡ area.old }
{
    let Some(plat) = plat.plat() else {
        return TownshipAnswer::bare(NO_PLAT);
    };
    let Some(account) = account_of(account) else {
        return TownshipAnswer::bare(NO_ACCOUNT);
    };
    match area_on(alloc, &plat, description, account) {
        Ok(exact) => {
            *area = TownshipFraction::of(&exact);
            TownshipAnswer::bare(ACCEPTED)
        }
        Err(stop) => TownshipAnswer::of_stop(stop),
    }
}

/// The canonical text of the land described.
pub fn township_normal(
    alloc: Global,
    plat: &TownshipPlat,
    description: &[u8],
    text: &mut [u8],
) -> TownshipAnswer
    ensures answer { IsNormalCall plat.now description.now text.old text.new result }
    ensures kept { result.verdict ≢ ACCEPTED → text.new ≡ text.old }
{
    let Some(plat) = plat.plat() else {
        return TownshipAnswer::bare(NO_PLAT);
    };
    match normal_on(alloc, &plat, description) {
        Ok(normal) => put(TownshipAnswer::bare(ACCEPTED), &normal, text),
        Err(stop) => TownshipAnswer::of_stop(stop),
    }
}

/// The printed plat.
pub fn township_print(alloc: Global, plat: &TownshipPlat, text: &mut [u8]) -> TownshipAnswer
    ensures answer { IsPrintCall plat.now text.old text.new result }
    ensures kept { result.verdict ≢ ACCEPTED → text.new ≡ text.old }
{
    let Some(plat) = plat.plat() else {
        return TownshipAnswer::bare(NO_PLAT);
    };
    match print_plat(alloc, &plat) {
        Ok(printed) => put(TownshipAnswer::bare(ACCEPTED), &printed, text),
        Err(_) => TownshipAnswer::bare(NO_MEMORY),
    }
}

/// The account of a list of tracts.
pub fn township_report(
    alloc: Global,
    plat: &TownshipPlat,
    list: &[u8],
    text: &mut [u8],
) -> TownshipAnswer
    ensures answer { IsReportCall plat.now list.now text.old text.new result }
    ensures kept { result.verdict ≢ ACCEPTED → text.new ≡ text.old }
{
    let Some(plat) = plat.plat() else {
        return TownshipAnswer::bare(NO_PLAT);
    };
    match account_on(alloc, &plat, list) {
        Ok(account) => put(TownshipAnswer::bare(ACCEPTED), &account, text),
        Err(fault) => TownshipAnswer::of_fault(fault),
    }
}
