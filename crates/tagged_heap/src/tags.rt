//! The tags of chunks: how one is drawn, and the granules that get it.
ghost use Rattle.class_table.specs.Sizes.{largest_counted, chunk_granules};
ghost use Rattle.heap_theory.specs.Calls.{chunk_tagged, parity_exclude};
ghost use Rattle.machine_theory.specs.Address.{with_tag};
ghost use Rattle.machine_theory.specs.Instructions.{drawn_tag};
ghost use Rattle.machine_theory.specs.Memory.{tagged, IsMemory};
ghost use Rattle.machine_theory.specs.Seed.{next_seed};
ghost use Rattle.tag_machine.specs.Rows.{row_mask};
ghost use Rattle.std.specs.Prelude.{◌≡◌, ◌+◌, ◌^◌, ◌<◌, ◌≤◌, bit_or, length};

use class_table::{LARGEST_CLASS, Slot};
use machine_theory::GRANULE_BYTES;
use tag_machine::Machine;

/// The granules of the chunk for a request of `n` bytes, at most `LARGEST_COUNTED`.
pub(crate) fn chunk_granules(n: u32) -> u32
    requires { n ≤ largest_counted }
    ensures granules { result ≡ chunk_granules n }
    ensures some { 1 ≤ result }
    ensures most { result < LARGEST_CLASS }
{
    // not by `need`, which divides once more for the rest
    ((n + GRANULE_BYTES as u32 - 1) / GRANULE_BYTES as u32).max(1)
}

/// Draws a tag that the slot of this number may take next, by one IRG: not 0, none of the number's own parity, and not `last`, its present or
/// last tag. Returns the tag, and the address with it.
#[inline(always)]
pub(crate) fn draw(machine: &mut Machine, address: u64, slot: u32, last: u8) -> (u8, u64)
    requires { last < 16 }
    ensures tag { result.0
        ≡ drawn_tag machine.old.tag machine.old.seed (bit_or (parity_exclude slot) (2 ^ last)) }
    ensures below { result.0 < 16 }
    ensures address { result.1
        ≡ with_tag address (drawn_tag machine.old.tag machine.old.seed (bit_or (parity_exclude slot) (2 ^ last))) }
    ensures register { machine.new ≡ record machine.old { seed = next_seed machine.old.seed; tag = result.0 } }
{
    let tagged = machine.irg_in_row(address, row(slot, last));
    // the tag that IRG chose is in the register
    (machine.rgsr().0, tagged)
}

// the row of the mask of what the slot of this number may not take, without 0
fn row(slot: u32, last: u8) -> usize
    requires { last < 16 }
    ensures row { result < 32 }
    ensures mask { row_mask result ≡ bit_or (parity_exclude slot) (2 ^ last) }
{
    16 * (slot % 2) as usize + usize::from(last)
}

/// Gives the granules of the chunk for a request of `n` bytes this tag, and the rest of the slot's payload tag 0.
#[inline(always)]
pub(crate) fn tag_chunk(machine: &mut Machine, slot: Slot, n: u32, tag: u8)
    requires inside { slot.start + slot.class ≤ length machine.old.memory }
    requires memory { IsMemory machine.old.memory }
    requires size { n ≤ largest_counted }
    requires room { chunk_granules n < slot.class }
    requires tag { tag < 16 }
    ensures tagged { machine.new ≡ record machine.old {
      memory = chunk_tagged (record { start = slot.start; class = slot.class }) n tag machine.old.memory;
    } }
    ensures memory { IsMemory machine.new.memory }
{
    let first = slot.start + 1;
    let chunk = chunk_granules(n);
    let memory = machine.memory_mut();
    memory.set_tags_then_clear(first, chunk, slot.class - 1 - chunk, tag);
}
