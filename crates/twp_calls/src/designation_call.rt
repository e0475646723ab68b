//! The calls that read and write the name of a township.
ghost use Rattle.std.specs.Prelude.{◌≡◌, ◌≢◌};
ghost use Rattle.twp_calls.specs.Answers.{ACCEPTED};
ghost use Rattle.twp_calls.specs.DesignationCalls.{IsDesignationReadCall, IsDesignationTextCall};

use crate::answer::TownshipAnswer;
use crate::designation::TownshipDesignation;
use crate::designation_reading::read_designation;
use crate::designation_text::spell_designation;
use crate::text::put;
use crate::verdict::{ACCEPTED, NO_MEMORY, NO_TOWNSHIP};
use std::alloc::Global;

/// The township that a text spells.
pub fn township_designation_read(text: &[u8], township: &mut TownshipDesignation) -> TownshipAnswer
    ensures answer { IsDesignationReadCall text.now township.new result }
    ensures kept { result.verdict ≢ ACCEPTED → township.new ≡ township.old }
{
    match read_designation(text) {
        Ok(spelled) => {
            *township = TownshipDesignation::of(spelled);
            TownshipAnswer::bare(ACCEPTED)
        }
        Err(refusal) => TownshipAnswer::of_refusal(refusal),
    }
}

/// The canonical spelling of a township.
pub fn township_designation_text(
    alloc: Global,
    township: &TownshipDesignation,
    text: &mut [u8],
) -> TownshipAnswer
    ensures answer { IsDesignationTextCall township.now text.old text.new result }
    ensures kept { result.verdict ≢ ACCEPTED → text.new ≡ text.old }
{
    let Some(township) = township.township() else {
        return TownshipAnswer::bare(NO_TOWNSHIP);
    };
    match spell_designation(alloc, township) {
        Ok(spelled) => put(TownshipAnswer::bare(ACCEPTED), &spelled, text),
        Err(_) => TownshipAnswer::bare(NO_MEMORY),
    }
}
