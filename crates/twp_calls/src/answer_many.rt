//! Many descriptions, answered by one call: the acres of each, its canonical text, and whether there is a
//! note on it.
ghost use Rattle.std.specs.Prelude.{◌≡◌, ◌≢◌, ℕ};
ghost use Rattle.twp_calls.specs.Answers.{ACCEPTED, NO_ROOM};
ghost use Rattle.twp_calls.specs.FullAnswers.{AreBetween, ExplainsWithoutRoom, IsFullCall, calls_on};

use crate::answer::TownshipAnswer;
use crate::answering::{township_acres, township_normal};
use crate::basis::Basis;
use crate::explaining_texts::township_explain_description;
use crate::full_answer::TownshipFullAnswer;
use crate::many::counted;
use crate::plat::TownshipPlat;
use crate::verdict::{ACCEPTED, NO_RANGE, NO_ROOM};
use std::alloc::Global;

/// The full answers to many descriptions, which are given as bytes in a row: the first description is from
/// the first offset to the second, the next from there to the third, and so on. Each is answered, even if
/// the plat or the account is not valid.
pub fn township_answer_many(
    alloc: Global,
    plat: &TownshipPlat,
    descriptions: &[u8],
    offsets: &[usize],
    account: u32,
    answers: &mut [TownshipFullAnswer],
) -> TownshipAnswer
    ensures answer { IsFullCall plat.now descriptions.now offsets.now account
        answers.old answers.new result }
    ensures kept { result.verdict ≡ NO_ROOM → answers.new ≡ answers.old }
{
    let count = offsets.len().saturating_sub(1);
    if answers.len() < count {
        return counted(NO_ROOM, count);
    }
    for index in 0..count {
        let (start, end) = (offsets[index], offsets[index + 1]);
        answers[index] = answer_between(
            alloc,
            plat,
            descriptions,
            start,
            end,
            account,
            answers[index],
        );
    }
    counted(Basis::of(plat, account).verdict(), count)
}

/// The full answer to the description between two offsets. Its text overwrites the old one.
fn answer_between(
    alloc: Global,
    plat: &TownshipPlat,
    descriptions: &[u8],
    start: usize,
    end: usize,
    account: u32,
    old: TownshipFullAnswer,
) -> TownshipFullAnswer
    ensures { AreBetween (calls_on plat.now account) descriptions.now start end old result }
{
    let mut text = old.text;
    let Some(description) = descriptions.get(start..end) else {
        let none = counted(NO_RANGE, 0);
        return TownshipFullAnswer {
            acres: none,
            normal: none,
            note: none,
            text,
        };
    };
    let normal = township_normal(alloc, plat, description, &mut text);
    let acres = township_acres(alloc, plat, description, account);
    TownshipFullAnswer {
        acres,
        normal,
        note: note_on(alloc, plat, description, acres),
        text,
    }
}

/// Whether there is a note on a description that has these acres, and where; or why it has none.
fn note_on(
    alloc: Global,
    plat: &TownshipPlat,
    description: &[u8],
    acres: TownshipAnswer,
) -> TownshipAnswer
    ensures noted { (account : ℕ) → acres.verdict ≡ ACCEPTED
        → ExplainsWithoutRoom (calls_on plat.now account) description.now result }
    ensures unnoted { acres.verdict ≢ ACCEPTED → result ≡ acres }
{
    if acres.verdict != ACCEPTED {
        return acres;
    }
    let mut no_room = [0; 0];
    township_explain_description(alloc, plat, description, &[], &mut no_room)
}
