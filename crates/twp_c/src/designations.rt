//! The calls on the names of townships, as C calls them.
ghost use Rattle.std.specs.Prelude.{◌≡◌, ◌≢◌};
ghost use Rattle.twp_calls.specs.Answers.{ACCEPTED};
ghost use Rattle.twp_calls.specs.DesignationCalls.{IsDesignationReadCall, IsDesignationTextCall};

use std::alloc::Global;
use twp_calls::{TownshipAnswer, TownshipDesignation};

/// The township that a text spells.
#[unsafe(no_mangle)]
pub extern "C" fn township_designation_read(
    text: &[u8],
    township: &mut TownshipDesignation,
) -> TownshipAnswer
    ensures answer { IsDesignationReadCall text.now township.new result }
    ensures kept { result.verdict ≢ ACCEPTED → township.new ≡ township.old }
{
    twp_calls::township_designation_read(text, township)
}

/// The canonical spelling of a township.
#[unsafe(no_mangle)]
pub extern "C" fn township_designation_text(
    alloc: Global,
    township: &TownshipDesignation,
    text: &mut [u8],
) -> TownshipAnswer
    ensures answer { IsDesignationTextCall township.now text.old text.new result }
    ensures kept { result.verdict ≢ ACCEPTED → text.new ≡ text.old }
{
    twp_calls::township_designation_text(alloc, township, text)
}
