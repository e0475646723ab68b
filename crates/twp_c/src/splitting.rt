//! The call that splits a text into the parts of its townships, as C calls it.
ghost use Rattle.std.specs.Prelude.{◌≡◌, ◌≢◌};
ghost use Rattle.twp_calls.specs.Answers.{ACCEPTED};
ghost use Rattle.twp_calls.specs.Splits.{IsSplitCall};

use std::alloc::Global;
use twp_calls::{TownshipAnswer, TownshipStretch};

/// The part of each township in a text with one description after another.
#[unsafe(no_mangle)]
pub extern "C" fn township_split(
    alloc: Global,
    description: &[u8],
    parts: &mut [TownshipStretch],
) -> TownshipAnswer
    ensures answer { IsSplitCall description.now parts.old parts.new result }
    ensures kept { result.verdict ≢ ACCEPTED → parts.new ≡ parts.old }
{
    twp_calls::township_split(alloc, description, parts)
}
