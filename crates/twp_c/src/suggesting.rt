//! The calls for readings, also by a lot table, for what is unread, and for phrases that aren't
//! land, as C calls them.
ghost use Rattle.std.specs.Prelude.{◌≡◌, ◌≢◌};
ghost use Rattle.twp_calls.specs.Answers.{ACCEPTED, NO_LOTS, NO_MEMORY};
ghost use Rattle.twp_calls.specs.SetAsides.{IsSetAsideCall};
ghost use Rattle.twp_calls.specs.Suggestions.{IsLotsSuggestCall, IsSuggestCall, rooms};
ghost use Rattle.twp_calls.specs.UnreadCalls.{IsUnreadCall};

use std::alloc::Global;
use twp_calls::{
    TownshipAnswer, TownshipChange, TownshipLots, TownshipReading, TownshipStretch,
    TownshipSuggestion,
};

/// The readings of a text as descriptions: where the text of each is, and its changes.
#[unsafe(no_mangle)]
pub extern "C" fn township_suggest(
    alloc: Global,
    description: &[u8],
    readings: &mut [TownshipReading],
    changes: &mut [TownshipChange],
    bytes: &mut [u8],
    suggestion: &mut TownshipSuggestion,
) -> TownshipAnswer
    ensures answer { IsSuggestCall description.now (rooms readings.old changes.old bytes.old)
        (rooms readings.new changes.new bytes.new) suggestion.new result }
    ensures kept { result.verdict ≢ ACCEPTED → (readings.new ≡ readings.old)
        × (changes.new ≡ changes.old) × (bytes.new ≡ bytes.old) }
    ensures unknown { result.verdict ≡ NO_MEMORY → suggestion.new ≡ suggestion.old }
{
    twp_calls::township_suggest(alloc, description, readings, changes, bytes, suggestion)
}

/// The readings of a text as descriptions on the plat of a lot table: where the text of each is,
/// and its changes.
#[unsafe(no_mangle)]
pub extern "C" fn township_lots_suggest(
    alloc: Global,
    lots: &TownshipLots,
    description: &[u8],
    readings: &mut [TownshipReading],
    changes: &mut [TownshipChange],
    bytes: &mut [u8],
    suggestion: &mut TownshipSuggestion,
) -> TownshipAnswer
    ensures answer { IsLotsSuggestCall lots.now description.now
        (rooms readings.old changes.old bytes.old)
        (rooms readings.new changes.new bytes.new) suggestion.new result }
    ensures kept { result.verdict ≢ ACCEPTED → (readings.new ≡ readings.old)
        × (changes.new ≡ changes.old) × (bytes.new ≡ bytes.old) }
    ensures unknown { result.verdict ≡ NO_MEMORY → suggestion.new ≡ suggestion.old }
    ensures no_lots { result.verdict ≡ NO_LOTS → suggestion.new ≡ suggestion.old }
{
    twp_calls::township_lots_suggest(
        alloc,
        lots,
        description,
        readings,
        changes,
        bytes,
        suggestion,
    )
}

/// What is unread of a text: its unread runs, and then the phrases that can be read in two ways.
#[unsafe(no_mangle)]
pub extern "C" fn township_unread(
    alloc: Global,
    description: &[u8],
    unread: &mut [TownshipStretch],
) -> TownshipAnswer
    ensures answer { IsUnreadCall description.now unread.old unread.new result }
    ensures kept { result.verdict ≢ ACCEPTED → unread.new ≡ unread.old }
{
    twp_calls::township_unread(alloc, description, unread)
}

/// Where phrases stand in a text that the caller says aren't land.
#[unsafe(no_mangle)]
pub extern "C" fn township_set_aside(
    alloc: Global,
    description: &[u8],
    phrases: &[u8],
    offsets: &[usize],
    aside: &mut [TownshipStretch],
) -> TownshipAnswer
    ensures answer { IsSetAsideCall description.now phrases.now offsets.now aside.old aside.new result }
    ensures kept { result.verdict ≢ ACCEPTED → aside.new ≡ aside.old }
{
    twp_calls::township_set_aside(alloc, description, phrases, offsets, aside)
}
