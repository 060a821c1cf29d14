//! Tags, places and granules of addresses.
ghost use Rattle.machine_theory.specs.Address.{aligned, granule_of, logical_tag, place_of, region_start, with_tag};
ghost use Rattle.std.specs.Prelude.{◌≡◌, ◌+◌, ◌-◌, ◌*◌, ◌<◌, ◌≤◌};

use machine_theory::{GRANULE_BYTES, MOST_GRANULES, REGION_START};

/// The lowest bit of the tag in an address.
const TAG_SHIFT: u32 = 56;

/// The Logical Address Tag of an address, 0 to 15: its bits 59 to 56.
pub fn logical_tag(address: u64) -> u8
    ensures tag { result ≡ logical_tag address }
    ensures below { result < 16 }
{
    ((address >> TAG_SHIFT) & 0xf) as u8
}

/// The place that an address names, below 2^56: its bits 55 to 0.
pub fn place_of(address: u64) -> u64
    ensures { result ≡ place_of address }
{
    address & ((1 << TAG_SHIFT) - 1)
}

/// The address with this tag, 0 to 15, in place of its own. Its other bits stay the same.
pub fn with_tag(address: u64, tag: u8) -> u64
    requires { tag < 16 }
    ensures { result ≡ with_tag address tag }
{
    ((address >> 60) << 60) + (u64::from(tag) << TAG_SHIFT) + place_of(address)
}

/// The address rounded down to a multiple of 16.
pub(crate) fn align_address(address: u64) -> u64
    ensures { result ≡ aligned address }
{
    address & !(GRANULE_BYTES - 1)
}

/// The number of the granule that holds the address's place.
pub(crate) fn granule_of(address: u64) -> u32
    requires from { region_start ≤ place_of address }
    requires to { place_of address < region_start + GRANULE_BYTES * MOST_GRANULES }
    ensures { result ≡ granule_of (place_of address) }
{
    ((place_of(address) - REGION_START) / GRANULE_BYTES) as u32
}
