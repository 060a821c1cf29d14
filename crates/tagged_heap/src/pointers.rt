//! Pointers and the slots that they name.
ghost use Rattle.class_table.specs.Layout.{slot_count, slot_of};
ghost use Rattle.heap_theory.specs.State.{payload_place};
ghost use Rattle.machine_theory.specs.Address.{place_of, region_start};
ghost use Rattle.std.specs.Prelude.{◌≡◌, ◌+◌, ◌*◌, ◌^◌, ◌<◌, IfNone, IfSome, ℕ};

use class_table::{FEWEST_GRANULES, Layout};
use machine_theory::GRANULE_BYTES;
use tag_machine::{REGION_START, place_of};

/// The address, with tag 0, of the payload of the slot whose header is granule `start`.
pub(crate) fn payload_place(start: u32) -> u64
    ensures { result ≡ region_start + GRANULE_BYTES * (start + 1) }
{
    REGION_START + GRANULE_BYTES * (u64::from(start) + 1)
}

/// The slot whose payload begins at the pointer's place, and the granule of its header. `None` if there is no such slot or bits 63 to 60 of
/// the pointer are not 0.
pub(crate) fn slot_of_pointer(layout: &Layout, p: u64) -> Option<(u32, u32)>
    ensures none { IfNone result ((s : ℕ)
        → s < slot_count layout.now → p < 2 ^ 60 → place_of p ≡ payload_place (slot_of layout.now s) → ⊥) }
    ensures slot { IfSome result (λ found. (found.0 < slot_count layout.now)
        × (p < 2 ^ 60) × (place_of p ≡ payload_place (slot_of layout.now found.0))) }
    ensures start { IfSome result (λ found. found.1 ≡ (slot_of layout.now found.0).start) }
{
    // the contract of `granules` gives the proof that the layout is a partition
    prove!(layout.granules() >= FEWEST_GRANULES);
    // Without its tag. The region begins at a power of 2 and ends before the next; what has one of bits 63 to 60 lies far past it.
    let plain = ((p >> 60) << 60) + place_of(p);
    if plain / REGION_START != 1 {
        return None;
    }
    let at = plain - REGION_START;
    if at % GRANULE_BYTES != 0 {
        return None;
    }
    let granule = (at / GRANULE_BYTES) as u32;
    let (slot, before) = layout.place_at(granule)?;
    if before == 1 {
        Some((slot, granule - 1))
    } else {
        None
    }
}
