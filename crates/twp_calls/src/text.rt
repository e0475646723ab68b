//! Texts that go to the caller's memory.
ghost use Rattle.std.specs.Prelude.{◌≡◌, ◌≢◌};
ghost use Rattle.twp_calls.specs.Calls.{IsPut};

use crate::answer::TownshipAnswer;
use crate::verdict::NO_ROOM;

/// Puts a text at the front of the room for it, beside an answer; or nothing where there is too
/// little.
pub(crate) fn put(answer: TownshipAnswer, text: &[u8], room: &mut [u8]) -> TownshipAnswer
    ensures put { IsPut answer text.now room.old room.new result }
    ensures kept { result.verdict ≢ answer.verdict → room.new ≡ room.old }
{
    let length = text.len() as u64;
    if room.len() < text.len() {
        return TownshipAnswer {
            verdict: NO_ROOM,
            length,
            ..answer
        };
    }
    room[..text.len()].copy_from_slice(text);
    TownshipAnswer { length, ..answer }
}
