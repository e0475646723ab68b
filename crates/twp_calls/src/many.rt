//! The acres of many descriptions, answered by one call.
ghost use Rattle.std.specs.Prelude.{◌≡◌, ℕ};
ghost use Rattle.twp_calls.specs.Answers.{NO_ROOM, bare, with_text};
ghost use Rattle.twp_calls.specs.Calls.{IsAcresCall};
ghost use Rattle.twp_calls.specs.ManyAnswers.{IsAnswerBetween, IsManyCall};
ghost use Rattle.twp_calls.specs.declared.plat.TownshipPlat.{TownshipPlat};
ghost use Rattle.twp_calls.specs.steps.BasisSteps.{IsBasis};

use crate::answer::TownshipAnswer;
use crate::basis::Basis;
use crate::plat::TownshipPlat;
use crate::verdict::{NO_RANGE, NO_ROOM};
use std::alloc::Global;

/// The answers of `township_acres` to many descriptions, which are given as bytes in a row: the first
/// description is from the first offset to the second, the next from there to the third, and so on. Each
/// is answered, even if the plat or the account is not valid.
pub fn township_acres_many(
    alloc: Global,
    plat: &TownshipPlat,
    descriptions: &[u8],
    offsets: &[usize],
    account: u32,
    answers: &mut [TownshipAnswer],
) -> TownshipAnswer
    ensures answer { IsManyCall plat.now descriptions.now offsets.now account
        answers.old answers.new result }
    ensures kept { result.verdict ≡ NO_ROOM → answers.new ≡ answers.old }
{
    let count = offsets.len().saturating_sub(1);
    if answers.len() < count {
        return counted(NO_ROOM, count);
    }
    let basis = Basis::of(plat, account);
    for index in 0..count {
        let (start, end) = (offsets[index], offsets[index + 1]);
        answers[index] = answer_between(alloc, &basis, descriptions, start, end);
    }
    counted(basis.verdict(), count)
}

/// A verdict, and how many descriptions there are.
pub(crate) fn counted(verdict: u32, count: usize) -> TownshipAnswer
    ensures { result ≡ with_text (bare verdict) count }
{
    TownshipAnswer {
        length: count as u64,
        ..TownshipAnswer::bare(verdict)
    }
}

/// The answer to the description between two offsets.
fn answer_between(
    alloc: Global,
    basis: &Basis,
    descriptions: &[u8],
    start: usize,
    end: usize,
) -> TownshipAnswer
    ensures { (given : TownshipPlat) (code : ℕ) → IsBasis given code basis.now
        → IsAnswerBetween (λ text. IsAcresCall given text code) descriptions.now start end
        result }
{
    let Some(description) = descriptions.get(start..end) else {
        return TownshipAnswer::bare(NO_RANGE);
    };
    basis.acres(alloc, description)
}
