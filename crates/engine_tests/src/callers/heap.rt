//! A caller of the heap.
ghost use Rattle.std.specs.Prelude.{◌≡◌, ◌≢◌, ◌+◌, ◌<◌, ◌^◌, Err, IfOk};
ghost use Rattle.heap_theory.specs.declared.refusal.FreeError.TheVariants.{NotLive};

use tagged_heap::{FreeError, Heap};

/// Frees the chunk at `p` twice, and returns what the heap says to the second free, unless it refuses the first. The second free is refused,
/// and changes nothing. `p` must not be null, and fewer than 2^48 - 1 chunks must have been freed before.
pub fn free_twice(heap: &mut Heap, p: u64) -> Result<Result<(), FreeError>, FreeError>
    requires not_null { p ≢ 0 }
    requires few { heap.old.frees + 1 < 2 ^ 48 }
    ensures { IfOk result (λ second. second ≡ Err NotLive) }
{
    heap.free(p)?;
    Ok(heap.free(p))
}
