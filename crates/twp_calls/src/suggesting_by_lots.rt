//! The readings of a text on the plat of a lot table, with its lots.
ghost use Rattle.std.specs.Prelude.{◌≡◌, ◌≢◌};
ghost use Rattle.twp_calls.specs.Answers.{ACCEPTED, NO_LOTS, NO_MEMORY};
ghost use Rattle.twp_calls.specs.Suggestions.{IsLotsSuggestCall, rooms};

use crate::answer::TownshipAnswer;
use crate::lots::TownshipLots;
use crate::suggesting::suggest_on;
use crate::suggestion::{TownshipChange, TownshipReading, TownshipSuggestion};
use crate::verdict::NO_LOTS;
use std::alloc::Global;

/// The readings of a text as descriptions on the plat of a lot table: where the text of each is,
/// and its changes. The township of the table doesn't matter: a text keeps its reading if it names
/// another one.
pub fn township_lots_suggest(
    alloc: Global,
    lots: &TownshipLots,
    description: &[u8],
    readings: &mut [TownshipReading],
    changes: &mut [TownshipChange],
    bytes: &mut [u8],
    suggestion: &mut TownshipSuggestion,
) -> TownshipAnswer
    ensures answer { IsLotsSuggestCall lots.now description.now
        (rooms readings.old changes.old bytes.old)
        (rooms readings.new changes.new bytes.new) suggestion.new result }
    ensures kept { result.verdict ≢ ACCEPTED → (readings.new ≡ readings.old)
        × (changes.new ≡ changes.old) × (bytes.new ≡ bytes.old) }
    ensures unknown { result.verdict ≡ NO_MEMORY → suggestion.new ≡ suggestion.old }
    ensures no_lots { result.verdict ≡ NO_LOTS → suggestion.new ≡ suggestion.old }
{
    let Some(_township) = lots.township.township() else {
        return TownshipAnswer::bare(NO_LOTS);
    };
    let plat = &lots.lots.plat;
    suggest_on(
        alloc,
        plat,
        description,
        readings,
        changes,
        bytes,
        suggestion,
    )
}
