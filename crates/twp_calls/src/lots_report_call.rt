//! The account of a list of tracts by a lot table, as numbers.
ghost use Rattle.std.specs.Prelude.{◌≡◌, ◌≢◌, List, ℕ};
ghost use Rattle.twp_grid.specs.Townships.{Designation};
ghost use Rattle.twp_plat.specs.declared.lots.returned.ReturnedLots.{ReturnedLots};
ghost use Rattle.twp_answers.specs.LotAccounts.{IsAccountByLots};
ghost use Rattle.twp_calls.specs.Answers.{ACCEPTED, answer};
ghost use Rattle.twp_calls.specs.LotReports.{PutsAccountByLots, IsLotsReportCall};

use crate::account_call::{TownshipTract, put_tracts};
use crate::answer::TownshipAnswer;
use crate::lots::TownshipLots;
use crate::many::counted;
use crate::verdict::{ACCEPTED, NO_LOTS, NO_ROOM};
use std::alloc::Global;
use twp_answers::{TractFigure, account_by_lots};

/// The account of a list of tracts by a lot table: the tracts and their number, and the total.
pub fn township_lots_report(
    alloc: Global,
    lots: &TownshipLots,
    list: &[u8],
    tracts: &mut [TownshipTract],
) -> TownshipAnswer
    ensures answer { IsLotsReportCall lots.now list.now tracts.old tracts.new result }
    ensures kept { result.verdict ≢ ACCEPTED → tracts.new ≡ tracts.old }
{
    let Some(township) = lots.township.township() else {
        return TownshipAnswer::bare(NO_LOTS);
    };
    match account_by_lots(alloc, township, &lots.lots, list) {
        Ok(account) => put_account(account.tracts.as_slice(), account.total, tracts),
        Err(fault) => TownshipAnswer::of_fault(fault),
    }
}

/// Puts the tracts of an account with this total at the front of the room for them; or nothing if
/// there is too little.
fn put_account(figures: &[TractFigure], total: u64, tracts: &mut [TownshipTract]) -> TownshipAnswer
    ensures has { (township : Designation) (lots : ReturnedLots) (list : List ℕ)
        → IsAccountByLots township lots list figures.now total
        → PutsAccountByLots township lots list tracts.old tracts.new result }
    ensures kept { result.verdict ≢ ACCEPTED → tracts.new ≡ tracts.old }
{
    let count = figures.len();
    if tracts.len() < count {
        return totaled(NO_ROOM, total, count);
    }
    put_tracts(figures, tracts);
    totaled(ACCEPTED, total, count)
}

/// A verdict, a total in hundredths of an acre, and how many tracts there are.
fn totaled(verdict: u32, total: u64, count: usize) -> TownshipAnswer
    ensures { result ≡ answer verdict 0 0 0 0 total count }
{
    TownshipAnswer {
        hundredths: total,
        ..counted(verdict, count)
    }
}
