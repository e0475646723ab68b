//! The calls that give figures as numbers, and answer many descriptions, as C calls them.
ghost use Rattle.std.specs.Prelude.{◌≡◌, ◌≢◌};
ghost use Rattle.twp_calls.specs.Answers.{ACCEPTED, NO_ROOM};
ghost use Rattle.twp_calls.specs.Figures.{IsFiguresCall};
ghost use Rattle.twp_calls.specs.ManyAnswers.{IsManyCall};
ghost use Rattle.twp_calls.specs.FullAnswers.{IsFullCall};

use std::alloc::Global;
use twp_calls::{TownshipAnswer, TownshipFullAnswer, TownshipPlat, TownshipPlatFigures};

/// The figures that the printed plat shows: of each lot, of each section, and of the township.
#[unsafe(no_mangle)]
pub extern "C" fn township_figures(
    plat: &TownshipPlat,
    figures: &mut TownshipPlatFigures,
) -> TownshipAnswer
    ensures answer { IsFiguresCall plat.now figures.new result }
    ensures kept { result.verdict ≢ ACCEPTED → figures.new ≡ figures.old }
{
    twp_calls::township_figures(plat, figures)
}

/// The answers of `township_acres` to many descriptions, which are given as bytes in a row: the first
/// description is from the first offset to the second, the next from there to the third, and so on.
#[unsafe(no_mangle)]
pub extern "C" fn township_acres_many(
    alloc: Global,
    plat: &TownshipPlat,
    descriptions: &[u8],
    offsets: &[usize],
    account: u32,
    answers: &mut [TownshipAnswer],
) -> TownshipAnswer
    ensures answer { IsManyCall plat.now descriptions.now offsets.now account
        answers.old answers.new result }
    ensures kept { result.verdict ≡ NO_ROOM → answers.new ≡ answers.old }
{
    twp_calls::township_acres_many(alloc, plat, descriptions, offsets, account, answers)
}

/// Everything that is answered about many descriptions, which are given in the same way.
#[unsafe(no_mangle)]
pub extern "C" fn township_answer_many(
    alloc: Global,
    plat: &TownshipPlat,
    descriptions: &[u8],
    offsets: &[usize],
    account: u32,
    answers: &mut [TownshipFullAnswer],
) -> TownshipAnswer
    ensures answer { IsFullCall plat.now descriptions.now offsets.now account
        answers.old answers.new result }
    ensures kept { result.verdict ≡ NO_ROOM → answers.new ≡ answers.old }
{
    twp_calls::township_answer_many(alloc, plat, descriptions, offsets, account, answers)
}
