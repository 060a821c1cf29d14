//! Zeros at the end of a buffer.
ghost use Rattle.std.specs.Prelude.{◌≡◌, ◌++◌, ◌+◌, ◌<◌, ◌^◌, IfOk, replicate, vec_len};

use std::alloc::AllocError;

// The bytes that are set at a time. The C library sets more by an instruction that it repeats for each byte.
const RUN: usize = 2048;

/// The bytes, and then `count` zeros, fewer than 2^32. The only error is that the allocator refuses room for them, which is asked for once.
pub fn with_zeros(bytes: Vec<u8>, count: usize) -> Result<Vec<u8>, AllocError>
    requires { count < 2 ^ 32 }
    ensures items { IfOk result (λ longer. longer.items ≡ bytes.items ++ replicate count 0) }
    ensures len { IfOk result (λ longer. vec_len longer ≡ vec_len bytes + count) }
{
    let mut bytes = bytes;
    bytes.reserve(count)?;
    let end = bytes.len() + count;
    // the label names the loop's invariant in proofs/
    'runs: while bytes.len() < end {
        let left = end - bytes.len();
        bytes.resize(bytes.len() + left.min(RUN), 0)?;
    }
    Ok(bytes)
}
