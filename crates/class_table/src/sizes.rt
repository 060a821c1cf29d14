ghost use Rattle.std.specs.Prelude.{◌≡◌, ◌↔◌, ◌-◌, ◌*◌, ◌^◌, ◌<◌, ◌≤◌, IsTrue};
ghost use Rattle.class_table.specs.Steps.{IsStep, round_up};
ghost use Rattle.class_table.specs.Sizes.{IsBlockSize, need_of, loss_of, serves};

/// The bytes of a granule. `tagged_heap` is proved only if `machine_theory` has the same number.
pub const GRANULE_BYTES: u32 = 16;

/// The smallest class, in granules: a header and one granule of payload.
pub const SMALLEST_CLASS: u16 = 2;

/// The largest class, in granules.
pub const LARGEST_CLASS: u16 = 1024;

/// The largest request that is counted, in bytes: the most that the largest class serves. A larger request is called large.
pub const LARGEST_COUNTED: u32 = GRANULE_BYTES * (LARGEST_CLASS as u32 - 1);

/// How many needs and classes there are: one for each number of granules from the smallest class to the largest.
pub const MOST_NEEDS: usize = (LARGEST_CLASS - SMALLEST_CLASS + 1) as usize;

/// The granules that a request of `n` bytes (0 to `LARGEST_COUNTED`) needs, including its header's: 2 to 1024.
pub fn need(n: u32) -> u32
    requires { n ≤ LARGEST_COUNTED }
    ensures need { result ≡ need_of n }
    ensures in_range { IsBlockSize result }
{
    1 + n.div_ceil(GRANULE_BYTES).max(1)
}

/// Whether a block of a class (in granules) holds `n` bytes after its header.
pub fn serves(n: u32, class: u16) -> bool
    ensures { result ≡ serves n class }
{
    n <= payload_bytes(u32::from(class))
}

/// The bytes that a request of `n` bytes leaves unused in a block of a class (in granules). The class must serve it (`serves`).
pub fn loss(n: u32, class: u16) -> u32
    requires { IsTrue (serves n class) }
    ensures { result ≡ loss_of n class }
{
    payload_bytes(u32::from(class)) - n
}

/// The bytes of a block of a class (in granules) after its header.
pub(crate) fn payload_bytes(class: u32) -> u32
    requires { class < 2 ^ 16 }
    ensures { result ≡ GRANULE_BYTES * class - GRANULE_BYTES }
{
    (GRANULE_BYTES * class).saturating_sub(GRANULE_BYTES)
}

/// Whether this is a step: 1, 2, 4 or 8 granules.
pub fn is_step(step: u8) -> bool
    ensures { IsTrue result ↔ IsStep step }
{
    matches!(step, 1 | 2 | 4 | 8)
}

/// A need in granules (2 to 1024), rounded up to a multiple of the step (`is_step`). It is at most 1024 too.
pub fn round_up(need: u32, step: u8) -> u32
    requires need { IsBlockSize need }
    requires step { IsStep step }
    ensures rounded { result ≡ round_up need step }
    ensures in_range { (need ≤ result) × (result ≤ LARGEST_CLASS) }
{
    need.next_multiple_of(u32::from(step))
}
