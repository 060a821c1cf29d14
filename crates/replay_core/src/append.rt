//! Appending to texts that have room.
ghost use Rattle.std.specs.Fmt.{decimal};
ghost use Rattle.std.specs.Prelude.{◌≡◌, ◌++◌, ◌+◌, ◌≤◌, length};

use arrayvec::ArrayVec;
use itoa::Buffer;

/// Appends bytes.
pub(crate) fn append<const N: usize>(text: &mut ArrayVec<u8, N>, bytes: &[u8])
    requires { length text.old.items + length bytes.now ≤ N }
    ensures items { text.new.items ≡ text.old.items ++ bytes.now }
    ensures len { length text.new.items ≡ length text.old.items + length bytes.now }
{
    let _ = text.try_extend_from_slice(bytes);
}

/// Appends a number in decimal.
pub(crate) fn append_number<const N: usize>(text: &mut ArrayVec<u8, N>, number: u64)
    requires { length text.old.items + 20 ≤ N }
    ensures items { text.new.items ≡ text.old.items ++ decimal number }
    ensures len { length text.new.items ≤ length text.old.items + 20 }
{
    append(text, Buffer::new().format(number).as_bytes());
}
