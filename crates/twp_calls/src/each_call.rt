//! The answer to each tract of a list.
ghost use Rattle.std.specs.Prelude.{◌≡◌, ◌≢◌};
ghost use Rattle.twp_calls.specs.Answers.{ACCEPTED};
ghost use Rattle.twp_calls.specs.EachCalls.{IsEachCall, answer_of_tract};
ghost use Rattle.twp_calls.specs.steps.Plain.{AreAnswersPut, IsPlainAnswer};

use crate::answer::TownshipAnswer;
use crate::many::counted;
use crate::name::{NAME_ROOM, ended};
use crate::plat::TownshipPlat;
use crate::verdict::{ACCEPTED, NO_PLAT, NO_ROOM};
use std::alloc::Global;
use twp_answers::{TractAnswer, TractFault, each_on};

/// The answer to a tract.
#[repr(C)]
#[derive(Clone, Copy)]
pub struct TownshipTractAnswer {
    /// Its acres, or why it is refused.
    pub answer: TownshipAnswer,
    /// How many bytes the name has: 1 to 64, or 0 if the record is not a tract's.
    pub name_length: u32,
    /// The name, in printable ASCII, and then zero bytes.
    pub name: [u8; NAME_ROOM],
}

/// The answer to each tract of a list, whatever is wrong with the others.
pub fn township_report_each(
    alloc: Global,
    plat: &TownshipPlat,
    list: &[u8],
    answers: &mut [TownshipTractAnswer],
) -> TownshipAnswer
    ensures answer { IsEachCall plat.now list.now answers.old answers.new result }
    ensures kept { result.verdict ≢ ACCEPTED → answers.new ≡ answers.old }
{
    let Some(plat) = plat.plat() else {
        return TownshipAnswer::bare(NO_PLAT);
    };
    match each_on(alloc, &plat, list) {
        Ok(given) => put_answers(given.as_slice(), answers),
        Err(fault) => TownshipAnswer::of_fault(fault),
    }
}

/// Puts the answers to tracts at the front of the room for them; or nothing if there is too little.
pub(crate) fn put_answers(
    given: &[TractAnswer],
    answers: &mut [TownshipTractAnswer],
) -> TownshipAnswer
    ensures put { AreAnswersPut given.now answers.old answers.new result }
    ensures kept { result.verdict ≢ ACCEPTED → answers.new ≡ answers.old }
{
    let count = given.len();
    if answers.len() < count {
        return counted(NO_ROOM, count);
    }
    for index in 0..count {
        answers[index] = plain(&given[index]);
    }
    counted(ACCEPTED, count)
}

/// The answer to a tract as plain data.
fn plain(given: &TractAnswer) -> TownshipTractAnswer
    ensures { IsPlainAnswer given.now result }
{
    let name = given.name();
    TownshipTractAnswer {
        answer: answer_of(given.answer),
        name_length: name.len() as u32,
        name: ended(name),
    }
}

/// The acres of a tract, or why it is refused.
fn answer_of(own: Result<u64, TractFault>) -> TownshipAnswer
    ensures { result ≡ answer_of_tract own }
{
    match own {
        Ok(hundredths) => TownshipAnswer::of_acres(hundredths),
        Err(fault) => TownshipAnswer::of_fault(fault),
    }
}
