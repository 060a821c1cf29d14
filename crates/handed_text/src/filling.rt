//! Filling the room that a caller gives.
ghost use Rattle.std.specs.Prelude.{◌≡◌, length, min};
ghost use Rattle.handed_text.specs.Bytes.{filled};

/// Copies as much of the bytes as the room holds, and returns how many.
pub fn fill(bytes: &[u8], room: &mut [u8]) -> usize
    ensures room { room.new ≡ filled bytes.now room.old }
    ensures count { result ≡ min (length room.old) (length bytes.now) }
{
    let n = bytes.len().min(room.len());
    room[..n].copy_from_slice(&bytes[..n]);
    n
}
