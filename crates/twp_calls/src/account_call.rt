//! The account of a list of tracts, as numbers.
ghost use Rattle.std.specs.Prelude.{◌≡◌, ◌≢◌, ◌≤◌, ◌++◌, List, ℕ, length, take};
ghost use Rattle.std.specs.List.{All, SameFrom, flat_map};
ghost use Rattle.twp_plat.specs.Plats.{SurveyPlat};
ghost use Rattle.twp_answers.specs.AccountFigures.{line_of as figure_line};
ghost use Rattle.twp_answers.specs.ReportAnswers.{IsAccountOf, total_lines};
ghost use Rattle.twp_calls.specs.Accounts.{AnswersAccount, HasEndedName, IsAccountCall, line_of};
ghost use Rattle.twp_calls.specs.Accounts.{tract_count};
ghost use Rattle.twp_calls.specs.Answers.{ACCEPTED};
ghost use Rattle.twp_calls.specs.steps.Plain.{ArePlainTractsTo, IsPlainTract};

use crate::answer::TownshipAnswer;
use crate::many::counted;
use crate::name::{NAME_ROOM, ended};
use crate::plat::TownshipPlat;
use crate::verdict::{ACCEPTED, NO_PLAT, NO_ROOM};
use std::alloc::Global;
use twp_answers::{TractFigure, figures_on};

/// A tract in an account.
#[repr(C)]
#[derive(Clone, Copy)]
pub struct TownshipTract {
    /// Hundredths of an acre: an exact area, rounded once, half up.
    pub hundredths: u64,
    /// How many bytes the name has: 1 to 64.
    pub name_length: u32,
    /// The name, in printable ASCII, and then zero bytes.
    pub name: [u8; NAME_ROOM],
}

/// The totals of an account, in hundredths of an acre.
#[repr(C)]
#[derive(Clone, Copy)]
pub struct TownshipTotals {
    /// That of all land in at least one tract.
    pub total: u64,
    /// That of all other land in the township.
    pub remaining: u64,
}

/// The figures of the account of a list of tracts.
pub fn township_account(
    alloc: Global,
    plat: &TownshipPlat,
    list: &[u8],
    tracts: &mut [TownshipTract],
    totals: &mut TownshipTotals,
) -> TownshipAnswer
    ensures answer { IsAccountCall plat.now list.now tracts.old tracts.new totals.new result }
    ensures kept { result.verdict ≢ ACCEPTED → tracts.new ≡ tracts.old }
    ensures totals_kept { result.verdict ≢ ACCEPTED → totals.new ≡ totals.old }
{
    let Some(plat) = plat.plat() else {
        return TownshipAnswer::bare(NO_PLAT);
    };
    match figures_on(alloc, &plat, list) {
        Ok(figures) => {
            let made = TownshipTotals {
                total: figures.total,
                remaining: figures.remaining,
            };
            put_figures(figures.tracts.as_slice(), made, tracts, totals)
        }
        Err(fault) => TownshipAnswer::of_fault(fault),
    }
}

/// Puts the figures of an account at the front of the room for them; or nothing if there is too
/// little.
fn put_figures(
    figures: &[TractFigure],
    made: TownshipTotals,
    tracts: &mut [TownshipTract],
    totals: &mut TownshipTotals,
) -> TownshipAnswer
    ensures has { (plat : SurveyPlat) (list : List ℕ)
        → IsAccountOf plat list
        (flat_map figure_line figures.now ++ total_lines made.total made.remaining)
        → length figures.now ≡ tract_count list
        → AnswersAccount plat list tracts.old tracts.new totals.new result }
    ensures kept { result.verdict ≢ ACCEPTED → tracts.new ≡ tracts.old }
    ensures totals_kept { result.verdict ≢ ACCEPTED → totals.new ≡ totals.old }
{
    let count = figures.len();
    if tracts.len() < count {
        return counted(NO_ROOM, count);
    }
    put_tracts(figures, tracts);
    *totals = made;
    counted(ACCEPTED, count)
}

/// Puts tracts at the front of the room for them.
pub(crate) fn put_tracts(figures: &[TractFigure], tracts: &mut [TownshipTract])
    requires { length figures.now ≤ length tracts.old }
    ensures length_is { length tracts.new ≡ length tracts.old }
    ensures lines { flat_map line_of (take (length figures.now) tracts.new)
        ≡ flat_map figure_line (take (length figures.now) figures.now) }
    ensures plain { ArePlainTractsTo (length figures.now) figures.now tracts.new }
    ensures ended { All HasEndedName (take (length figures.now) tracts.new) }
    ensures kept { SameFrom tracts.old tracts.new (length figures.now) }
{
    for index in 0..figures.len() {
        tracts[index] = tract_of(&figures[index]);
    }
}

/// A tract as plain data.
fn tract_of(figure: &TractFigure) -> TownshipTract
    ensures line { line_of result ≡ figure_line figure.now }
    ensures plain { IsPlainTract figure.now result }
    ensures ended { HasEndedName result }
{
    let name = figure.name();
    TownshipTract {
        hundredths: figure.hundredths(),
        name_length: name.len() as u32,
        name: ended(name),
    }
}
