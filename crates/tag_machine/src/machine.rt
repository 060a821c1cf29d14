ghost use Rattle.machine_theory.specs.Access.{IsMapped, access_fault, is_mapped, loaded, ok_unless, stored};
ghost use Rattle.machine_theory.specs.Address.{with_tag};
ghost use Rattle.machine_theory.specs.Instructions.{addg, after_irg, drawn_tag, gmi, irg, ldg, st2g, stg, stzg, subg, tag_store_fault};
ghost use Rattle.machine_theory.specs.Machine.{IsRegister};
ghost use Rattle.machine_theory.specs.Seed.{next_seed};
ghost use Rattle.tag_machine.specs.Rows.{row_mask};
ghost use Rattle.std.specs.Borrow.{sem};
ghost use Rattle.std.specs.Prelude.{◌≡◌, ◌≢◌, ◌↔◌, ◌<◌, ◌≤◌, IsTrue, OnErr, OnOk, length, replicate, take};

use crate::addresses::{align_address, granule_of, logical_tag, with_tag};
use crate::checks::{check_access, check_tag_store, is_mapped};
use crate::chosen_tags::tag_in_row;
use crate::draws::{next_offset, next_seed};
use crate::tag_choice::choose_tag;
use granule_memory::Memory;
use machine_theory::{FARTHEST_MOVE, Fault, GRANULE_BYTES, LARGEST_TAG_STEP, LONGEST_ACCESS};
use std::marker::Model;

/// The tags that every instruction excludes, as `GCR_EL1.Exclude`: bit 0, for tag 0.
const EXCLUDE: u16 = 1;

/// The machine: a memory with tags, and the register `RGSR_EL1` with its fields SEED and TAG.
///
/// Each instruction does what its definition in `machine_theory` says. The definitions follow the Arm Architecture Reference Manual (Arm
/// DDI 0487), Memory Tagging Extension; the choice of tags, the random bits and the order of faults are this project's own
/// (docs/MACHINE.md). A fault changes nothing.
#[derive(Drop)]
pub struct Machine {
    memory: Memory,
    seed: u16,
    tag: u8,
}

impl Model for Machine {
    ghost use Rattle.machine_theory.specs.Machine.{IsRegister, Machine as State};

    ghost Value = { State };

    ghost view = { λ m. record { memory = m.memory; seed = m.seed; tag = m.tag } };

    ghost invariant = { λ m. IsRegister m.seed m.tag };
}

impl Machine {
    ghost use Rattle.tag_machine.specs.Lending.{LendsMemory};

    /// The machine over this memory, with SEED `seed`, which must not be 0, and TAG 0.
    pub fn new(memory: Memory, seed: u16) -> Machine
        requires { seed ≢ 0 }
        ensures { result ≡ record { memory = memory; seed = seed; tag = 0 } }
    {
        Machine {
            memory,
            seed,
            tag: 0,
        }
    }

    /// IRG: Xn with a random tag that is neither 0 nor excluded by the low sixteen bits of Xm; tag 0 if all tags are excluded.
    /// TAG becomes that tag, and SEED moves on by four bits.
    #[tactic(auto, unfolding(machine_theory::specs::Instructions::drawn_tag))]
    pub fn irg(&mut self, xn: u64, xm: u64) -> u64
        ensures answer { result ≡ irg self.old xn xm }
        ensures register { self.new ≡ after_irg self.old xm }
    {
        let exclude = (xm & 0xffff) as u16 | EXCLUDE;
        self.tag = choose_tag(self.tag, next_offset(self.seed), exclude);
        self.seed = next_seed(self.seed);
        with_tag(xn, self.tag)
    }

    /// IRG with the mask of a row (`row_mask`), 0 to 31: rows 0 to 15 exclude the even tags, rows 16 to 31 the odd ones and 0, and each the
    /// tag that is the row modulo 16, too. The tag comes from a table.
    #[tactic(auto, unfolding(machine_theory::specs::Instructions::drawn_tag))]
    pub fn irg_in_row(&mut self, xn: u64, row: usize) -> u64
        requires { row < 32 }
        ensures answer { result ≡ with_tag xn (drawn_tag self.old.tag self.old.seed (row_mask row)) }
        ensures register { self.new ≡ record self.old {
          seed = next_seed self.old.seed;
          tag = drawn_tag self.old.tag self.old.seed (row_mask row);
        } }
    {
        self.tag = tag_in_row(row, self.tag, next_offset(self.seed));
        self.seed = next_seed(self.seed);
        with_tag(xn, self.tag)
    }

    /// ADDG: Xn, `u6` granules (0 to 63) further up, modulo 2^64. The offset `u4` (0 to 15) chooses its tag, counted upwards from Xn's.
    #[tactic(auto, unfolding(machine_theory::specs::Instructions::addg))]
    pub fn addg(&self, xn: u64, u6: u8, u4: u8) -> u64
        requires granules { u6 ≤ FARTHEST_MOVE }
        requires steps { u4 ≤ LARGEST_TAG_STEP }
        ensures { result ≡ addg xn u6 u4 }
    {
        let up = xn.wrapping_add(GRANULE_BYTES * u64::from(u6));
        with_tag(up, choose_tag(logical_tag(xn), u4, EXCLUDE))
    }

    /// SUBG: Xn, `u6` granules (0 to 63) further down, modulo 2^64. The offset `u4` (0 to 15) chooses its tag as for ADDG: upwards.
    #[tactic(auto, unfolding(machine_theory::specs::Instructions::subg))]
    pub fn subg(&self, xn: u64, u6: u8, u4: u8) -> u64
        requires granules { u6 ≤ FARTHEST_MOVE }
        requires steps { u4 ≤ LARGEST_TAG_STEP }
        ensures { result ≡ subg xn u6 u4 }
    {
        let down = xn.wrapping_sub(GRANULE_BYTES * u64::from(u6));
        with_tag(down, choose_tag(logical_tag(xn), u4, EXCLUDE))
    }

    /// GMI: the mask Xm with the bit of Xn's tag set.
    #[tactic(auto, unfolding(machine_theory::specs::Instructions::gmi))]
    pub fn gmi(&self, xn: u64, xm: u64) -> u64
        ensures { result ≡ gmi xn xm }
    {
        xm | 1 << logical_tag(xn)
    }

    /// LDG: Xt with the tag of the granule that holds Xn. It checks no tag.
    /// `Unmapped` if that granule lies outside the region, or bits 63 to 60 of Xn are not 0.
    #[tactic(auto, unfolding(machine_theory::specs::Instructions::ldg))]
    pub fn ldg(&self, xt: u64, xn: u64) -> Result<u64, Fault>
        ensures { result ≡ ldg self.now.memory xt xn }
    {
        if !is_mapped(&self.memory, align_address(xn), GRANULE_BYTES) {
            return Err(Fault::Unmapped);
        }
        Ok(with_tag(xt, self.memory.tag(granule_of(xn))))
    }

    /// STG: gives the granule at Xn the tag of Xt. It checks no tag.
    /// `Alignment` if Xn is no multiple of 16; otherwise `Unmapped` if the granule lies outside the region, or bits 63 to 60 of Xn are
    /// not 0.
    pub fn stg(&mut self, xt: u64, xn: u64) -> Result<(), Fault>
        ensures answer { result ≡ ok_unless (tag_store_fault self.old.memory 1 xn) }
        ensures ok { OnOk result (self.new ≡ record self.old { memory = stg self.old.memory xt xn }) }
        ensures err { OnErr result (self.new ≡ self.old) }
    {
        check_tag_store(&self.memory, 1, xn)?;
        self.memory.set_tag(granule_of(xn), logical_tag(xt));
        Ok(())
    }

    /// ST2G: gives the two granules from Xn on the tag of Xt. Its faults are those of STG, for both granules.
    pub fn st2g(&mut self, xt: u64, xn: u64) -> Result<(), Fault>
        ensures answer { result ≡ ok_unless (tag_store_fault self.old.memory 2 xn) }
        ensures ok { OnOk result (self.new ≡ record self.old { memory = st2g self.old.memory xt xn }) }
        ensures err { OnErr result (self.new ≡ self.old) }
    {
        check_tag_store(&self.memory, 2, xn)?;
        self.memory.set_tags(granule_of(xn), 2, logical_tag(xt));
        Ok(())
    }

    /// STZG: as STG, and sets the granule's sixteen bytes to 0.
    pub fn stzg(&mut self, xt: u64, xn: u64) -> Result<(), Fault>
        ensures answer { result ≡ ok_unless (tag_store_fault self.old.memory 1 xn) }
        ensures ok { OnOk result (self.new ≡ record self.old { memory = stzg self.old.memory xt xn }) }
        ensures err { OnErr result (self.new ≡ self.old) }
    {
        check_tag_store(&self.memory, 1, xn)?;
        let granule = granule_of(xn);
        self.memory.set_tag(granule, logical_tag(xt));
        self.memory.zero_granule(granule);
        Ok(())
    }

    /// Reads `buf.len()` bytes, 1 to 64, from `address` on.
    /// Errors, after which `buf` is unchanged: `Unmapped` if a byte lies outside the region or bits 63 to 60 of the address are not 0;
    /// otherwise `TagCheck` with the lowest granule that the access touches and whose tag differs from the address's.
    pub fn load(&self, address: u64, buf: &mut [u8]) -> Result<(), Fault>
        requires { (1 ≤ length buf.old) × (length buf.old ≤ LONGEST_ACCESS) }
        ensures answer { result ≡ ok_unless (access_fault self.now.memory address (length buf.old)) }
        ensures ok { OnOk result (buf.new ≡ loaded self.now.memory address (length buf.old)) }
        ensures err { OnErr result (buf.new ≡ buf.old) }
    {
        let at = check_access(&self.memory, address, buf.len() as u64)?;
        self.memory.read_bytes(at, buf);
        Ok(())
    }

    /// Reads `len` bytes, 1 to 64, from `address` on into the first bytes of `buf`. The bytes of `buf` after them may change. Its errors are
    /// those of `load`; after an error `buf` is unchanged.
    pub fn load_into(
        &self,
        address: u64,
        len: usize,
        buf: &mut [u8; LONGEST_ACCESS as usize],
    ) -> Result<(), Fault>
        requires { (1 ≤ len) × (len ≤ LONGEST_ACCESS) }
        ensures answer { result ≡ ok_unless (access_fault self.now.memory address len) }
        ensures ok { OnOk result (take len buf.new ≡ loaded self.now.memory address len) }
        ensures err { OnErr result (buf.new ≡ buf.old) }
    {
        let at = check_access(&self.memory, address, len as u64)?;
        self.memory.read_into(at, len, buf);
        Ok(())
    }

    /// Writes these bytes, 1 to 64 of them, from `address` on. Its errors are those of `load`.
    pub fn store(&mut self, address: u64, bytes: &[u8]) -> Result<(), Fault>
        requires { (1 ≤ length bytes.now) × (length bytes.now ≤ LONGEST_ACCESS) }
        ensures answer { result ≡ ok_unless (access_fault self.old.memory address (length bytes.now)) }
        ensures ok { OnOk result (self.new ≡ record self.old { memory = stored self.old.memory address bytes.now }) }
        ensures err { OnErr result (self.new ≡ self.old) }
    {
        let at = check_access(&self.memory, address, bytes.len() as u64)?;
        self.memory.write_bytes(at, bytes);
        Ok(())
    }

    /// Writes `byte` `count` times, 1 to 64, from `address` on. Its errors are those of `load`.
    pub fn store_run(&mut self, address: u64, count: usize, byte: u8) -> Result<(), Fault>
        requires { (1 ≤ count) × (count ≤ LONGEST_ACCESS) }
        ensures answer { result ≡ ok_unless (access_fault self.old.memory address count) }
        ensures ok { OnOk result (self.new ≡ record self.old {
          memory = stored self.old.memory address (replicate count byte);
        }) }
        ensures err { OnErr result (self.new ≡ self.old) }
    {
        let at = check_access(&self.memory, address, count as u64)?;
        self.memory.fill_bytes(at, count, byte);
        Ok(())
    }

    /// Whether all `len` bytes (1 to 64) from `address` on lie in the region, and bits 63 to 60 of the address are 0.
    pub fn mapped(&self, address: u64, len: usize) -> bool
        requires { (1 ≤ len) × (len ≤ LONGEST_ACCESS) }
        ensures test { result ≡ is_mapped (length self.now.memory) address len }
        ensures mapped { IsTrue result ↔ IsMapped (length self.now.memory) address len }
    {
        is_mapped(&self.memory, address, len as u64)
    }

    /// The register: TAG, 0 to 15, and SEED, which is never 0.
    pub fn rgsr(&self) -> (u8, u16)
        ensures tag { result.0 ≡ self.now.tag }
        ensures seed { result.1 ≡ self.now.seed }
        ensures register { IsRegister self.now.seed self.now.tag }
    {
        (self.tag, self.seed)
    }

    /// The memory.
    pub fn memory(&self) -> &Memory
        ensures { result.now ≡ self.now.memory }
    {
        &self.memory
    }

    /// The memory, for changes. The machine has what is written there; the register stays the same.
    pub fn memory_mut(&mut self) -> &mut Memory
        ensures* lends { sem 𝓛 (LendsMemory self.entry result) }
        ensures value { result.now ≡ self.old.memory }
    {
        &mut self.memory
    }
}
