//! Zeros are written to bytes that hold nothing yet.
ghost use Rattle.std.specs.Allocator.{array_of};
ghost use Rattle.std.specs.Borrow.{full_share, sem, Array, u8};
ghost use Rattle.std.specs.Prelude.{replicate};
ghost use Rattle.std.specs.Ptr.{lies_at, room_for};

// The bytes of a piece.
const PIECE: usize = 2048;

/// Sets each of the `len` bytes at `ptr` to 0, whatever they hold. It does so piece by piece: the C library's memset sets a longer run by an
/// instruction that it repeats for each byte.
pub unsafe fn write_zeros(ptr: *mut u8, len: usize)
    requires* { sem 𝓛 (room_for (array_of u8 len) ptr) }
    ensures* { sem 𝓛 (lies_at (Array u8 len) full_share ptr (replicate len 0)) }
{
    let mut done = 0;
    while len - done > PIECE {
        unsafe { write_piece(ptr.add(done), PIECE) };
        done += PIECE;
    }
    unsafe { write_piece(ptr.add(done), len - done) };
}

// Sets each of the `len` bytes at `ptr` to 0.
#[inline(never)]
unsafe fn write_piece(ptr: *mut u8, len: usize)
    requires* { sem 𝓛 (room_for (array_of u8 len) ptr) }
    ensures* { sem 𝓛 (lies_at (Array u8 len) full_share ptr (replicate len 0)) }
{
    let mut i = 0;
    while i < len {
        unsafe { *ptr.add(i) = 0 };
        i += 1;
    }
}
