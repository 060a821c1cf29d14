//! Which accesses and which tag stores fault.
ghost use Rattle.machine_theory.specs.Address.{byte_of, place_of};
ghost use Rattle.machine_theory.specs.Access.{IsMapped, access_fault, is_mapped, ok_unless};
ghost use Rattle.machine_theory.specs.Instructions.{tag_store_fault};
ghost use Rattle.machine_theory.specs.Memory.{IsMemory};
ghost use Rattle.std.specs.Prelude.{◌≡◌, ◌↔◌, ◌*◌, ◌%◌, ◌≤◌, IfErr, IfNone, IfOk, IfSome, IsTrue, None, OnOk, Some, length};

use crate::addresses::{granule_of, logical_tag, place_of};
use granule_memory::Memory;
use machine_theory::{Fault, GRANULE_BYTES, LONGEST_ACCESS, REGION_START};

/// Whether all `len` bytes, 1 to 64, lie in the region, and bits 63 to 60 of the address are 0.
pub(crate) fn is_mapped(memory: &Memory, address: u64, len: u64) -> bool
    requires { (1 ≤ len) × (len ≤ LONGEST_ACCESS) }
    ensures test { result ≡ is_mapped (length memory.now) address len }
    ensures mapped { IsTrue result ↔ IsMapped (length memory.now) address len }
    ensures memory { IsMemory memory.now }
{
    let place = place_of(address);
    let end = REGION_START + GRANULE_BYTES * u64::from(memory.granules());
    address >> 60 == 0 && place >= REGION_START && place + len <= end
}

/// The number of the first byte of an access of `len` bytes, 1 to 64, counted from the region's start. `None` if it is not mapped.
fn mapped_byte(memory: &Memory, address: u64, len: u64) -> Option<u64>
    requires { (1 ≤ len) × (len ≤ LONGEST_ACCESS) }
    ensures none { IfNone result (IsMapped (length memory.now) address len → ⊥) }
    ensures mapped { IfSome result (λ at. IsMapped (length memory.now) address len) }
    ensures at { IfSome result (λ at. at ≡ byte_of (place_of address)) }
    ensures memory { IsMemory memory.now }
{
    // without its tag; what lies before the region wraps round, and what has one of bits 63 to 60 lies far past it
    let plain = ((address >> 60) << 60) + place_of(address);
    let at = plain.wrapping_sub(REGION_START);
    if at <= GRANULE_BYTES * u64::from(memory.granules()) - len {
        Some(at)
    } else {
        None
    }
}

/// The number of the first byte of a checked access of `len` bytes, 1 to 64, counted from the region's start, if it succeeds. Its fault is
/// `Unmapped` if it is not mapped, otherwise `TagCheck` at the lowest granule that it touches whose tag differs from the address's.
pub(crate) fn check_access(memory: &Memory, address: u64, len: u64) -> Result<usize, Fault>
    requires { (1 ≤ len) × (len ≤ LONGEST_ACCESS) }
    ensures ok { OnOk result (access_fault memory.now address len ≡ None) }
    ensures err { IfErr result (λ fault. access_fault memory.now address len ≡ Some fault) }
    ensures at { IfOk result (λ at. at ≡ byte_of (place_of address)) }
    ensures mapped { OnOk result (IsMapped (length memory.now) address len) }
    ensures memory { IsMemory memory.now }
{
    let Some(at) = mapped_byte(memory, address, len) else {
        return Err(Fault::Unmapped);
    };
    // an access touches at most five granules
    let first = (at / GRANULE_BYTES) as u32;
    let last = ((at + len - 1) / GRANULE_BYTES) as u32;
    if !memory.all_have_tag(first, last, logical_tag(address)) {
        check_tags(memory, address, len)?;
    }
    Ok(at as usize)
}

// `Ok`, or the fault of an access that is mapped, by one granule after the other.
#[inline(never)]
fn check_tags(memory: &Memory, address: u64, len: u64) -> Result<(), Fault>
    requires len { (1 ≤ len) × (len ≤ LONGEST_ACCESS) }
    requires mapped { IsMapped (length memory.now) address len }
    requires memory { IsMemory memory.now }
    ensures { result ≡ ok_unless (access_fault memory.now address len) }
{
    let pointer_tag = logical_tag(address);
    let end = granule_of(address + len - 1) + 1;
    for granule in granule_of(address)..end {
        let memory_tag = memory.tag(granule);
        if memory_tag != pointer_tag {
            return Err(Fault::TagCheck {
                granule,
                memory_tag,
                pointer_tag,
            });
        }
    }
    Ok(())
}

/// The fault of a store of tags to `count` granules, 1 or 2, from the address on, if there is one. Alignment comes first.
#[tactic(auto, unfolding(machine_theory::specs::Instructions::tag_store_fault))]
pub(crate) fn check_tag_store(memory: &Memory, count: u64, address: u64) -> Result<(), Fault>
    requires { (1 ≤ count) × (count ≤ 2) }
    ensures fault { result ≡ ok_unless (tag_store_fault memory.now count address) }
    ensures ok { OnOk result (IsMapped (length memory.now) address (GRANULE_BYTES * count)) }
    ensures aligned { OnOk result (address % GRANULE_BYTES ≡ 0) }
    ensures memory { OnOk result (IsMemory memory.now) }
{
    if address % GRANULE_BYTES != 0 {
        return Err(Fault::Alignment);
    }
    if !is_mapped(memory, address, GRANULE_BYTES * count) {
        return Err(Fault::Unmapped);
    }
    Ok(())
}
