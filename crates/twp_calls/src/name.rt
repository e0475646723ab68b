//! The names of tracts, as bytes for C.
ghost use Rattle.std.specs.Prelude.{◌≡◌, ◌≤◌, ◌++◌, length, take, drop};
ghost use Rattle.twp_answers.specs.Tracts.{NAME_MOST};
ghost use Rattle.twp_calls.specs.TractNames.{IsEnded};

/// Room for the longest name, which has 64 bytes, and zero bytes after it.
pub(crate) const NAME_ROOM: usize = 68;

/// A name, and zero bytes after it.
pub(crate) fn ended(name: &str) -> [u8; NAME_ROOM]
    requires { length name.now ≤ NAME_MOST }
    ensures name { take (length name.now) result ≡ name.now }
    ensures ended { IsEnded (length name.now) result }
{
    let bytes = name.as_bytes();
    let mut room = [0; NAME_ROOM];
    copy_front(bytes, &mut room);
    room
}

/// Copies bytes to the front of the room.
fn copy_front(bytes: &[u8], room: &mut [u8])
    requires { length bytes.now ≤ length room.old }
    ensures { room.new ≡ bytes.now ++ drop (length bytes.now) room.old }
{
    room[..bytes.len()].copy_from_slice(bytes);
}
