//! The calls that read and write the region, and that look at it.
ghost use Rattle.heap_theory.specs.HeapTags.{IsTaggedOrUnmapped};
ghost use Rattle.heap_theory.specs.HeapInMemory.{HeaderWordsStay, IsKeptIn};
ghost use Rattle.heap_theory.specs.GranuleKinds.{place_kind};
ghost use Rattle.heap_theory.specs.Region.{region_of};
ghost use Rattle.machine_theory.specs.Access.{IsMapped, access_fault, is_mapped, loaded, ok_unless, stored};
ghost use Rattle.std.specs.Prelude.{◌≡◌, ◌↔◌, ◌≤◌, IsTrue, OnErr, OnOk, length, replicate, take};

use crate::heap::Heap;
use crate::read_header::header;
use crate::tags::chunk_granules;
use chunk_header::State;
use granule_memory::Memory;
use heap_theory::PlaceKind;
use machine_theory::LONGEST_ACCESS;
use tag_machine::Fault;

impl Heap {
    /// Reads `buf.len()` bytes, 1 to 64, from `address` on. Headers have tag 0, so the address must have another tag, or the access must
    /// not be mapped. So no load reads a header. The header words of all slots stay the same.
    ///
    /// Errors, after which `buf` is unchanged: `Unmapped` if a byte lies outside the region or bits 63 to 60 of the address are not 0;
    /// otherwise `TagCheck` with the lowest granule that the access touches and whose tag differs from the address's.
    #[tactic(auto, using(crate::proofs::TheoryLemmas::accesses_seen))]
    pub fn load(&self, address: u64, buf: &mut [u8]) -> Result<(), Fault>
        requires len { (1 ≤ length buf.old) × (length buf.old ≤ LONGEST_ACCESS) }
        requires tagged { IsTaggedOrUnmapped self.now.state address (length buf.old) }
        ensures answer { result ≡ ok_unless (access_fault self.now.state.memory address (length buf.old)) }
        ensures ok { OnOk result (buf.new ≡ loaded self.now.state.memory address (length buf.old)) }
        ensures err { OnErr result (buf.new ≡ buf.old) }
        ensures headers { HeaderWordsStay self.now.state self.now.state }
    {
        self.machine.load(address, buf)
    }

    /// As `load`, of `len` bytes, 1 to 64, into the first bytes of `buf`. The bytes of `buf` after them may change.
    #[tactic(auto, using(crate::proofs::TheoryLemmas::accesses_seen))]
    pub fn load_into(
        &self,
        address: u64,
        len: usize,
        buf: &mut [u8; LONGEST_ACCESS as usize],
    ) -> Result<(), Fault>
        requires len { (1 ≤ len) × (len ≤ LONGEST_ACCESS) }
        requires tagged { IsTaggedOrUnmapped self.now.state address len }
        ensures answer { result ≡ ok_unless (access_fault self.now.state.memory address len) }
        ensures ok { OnOk result (take len buf.new ≡ loaded self.now.state.memory address len) }
        ensures err { OnErr result (buf.new ≡ buf.old) }
    {
        self.machine.load_into(address, len, buf)
    }

    /// Writes these bytes, 1 to 64 of them, from `address` on. Headers have tag 0, so the address must have another tag, or the access must
    /// not be mapped. So no store writes a header. The header words of all slots stay the same.
    ///
    /// Its errors are those of `load`. After an error nothing has changed.
    #[tactic(auto, using(crate::proofs::TheoryLemmas::accesses_seen))]
    pub fn store(&mut self, address: u64, bytes: &[u8]) -> Result<(), Fault>
        requires len { (1 ≤ length bytes.now) × (length bytes.now ≤ LONGEST_ACCESS) }
        requires tagged { IsTaggedOrUnmapped self.old.state address (length bytes.now) }
        ensures answer { result ≡ ok_unless (access_fault self.old.state.memory address (length bytes.now)) }
        ensures ok { OnOk result (self.new ≡ record self.old {
          state = record self.old.state { memory = stored self.old.state.memory address bytes.now };
        }) }
        ensures err { OnErr result (self.new ≡ self.old) }
        ensures headers { HeaderWordsStay self.old.state self.new.state }
    {
        self.machine.store(address, bytes)
    }

    /// As `store`, of `count` bytes, 1 to 64, that are all `byte`.
    #[tactic(auto, using(crate::proofs::TheoryLemmas::accesses_seen))]
    pub fn store_run(&mut self, address: u64, count: usize, byte: u8) -> Result<(), Fault>
        requires count { (1 ≤ count) × (count ≤ LONGEST_ACCESS) }
        requires tagged { IsTaggedOrUnmapped self.old.state address count }
        ensures answer { result ≡ ok_unless (access_fault self.old.state.memory address count) }
        ensures ok { OnOk result (self.new ≡ record self.old {
          state = record self.old.state { memory = stored self.old.state.memory address (replicate count byte) };
        }) }
        ensures err { OnErr result (self.new ≡ self.old) }
        ensures headers { HeaderWordsStay self.old.state self.new.state }
    {
        self.machine.store_run(address, count, byte)
    }

    /// Whether all `len` bytes (1 to 64) from `address` on lie in the region, and bits 63 to 60 of the address are 0.
    pub fn mapped(&self, address: u64, len: usize) -> bool
        requires { (1 ≤ len) × (len ≤ LONGEST_ACCESS) }
        ensures test { result ≡ is_mapped (length self.now.state.memory) address len }
        ensures mapped { IsTrue result ↔ IsMapped (length self.now.state.memory) address len }
    {
        self.machine.mapped(address, len)
    }

    /// The memory of the region, headers and links included, for inspection. Each header decodes and agrees with the heap's state. From the
    /// quarantine's front the links visit each quarantined slot once, in ascending mark. From each class's front they visit each of its
    /// released slots once, in descending mark. No slot is in two of these lists, and no fresh or live slot is in one. So the header words
    /// depend on the heap's layout, slots, total and limit alone (`law_header_words`).
    pub fn memory(&self) -> &Memory
        ensures { IsKeptIn self.now.state (region_of self.now.state.layout result.now) }
    {
        self.machine.memory()
    }

    /// What a granule is to the heap. A granule past the region is slack.
    pub fn place_kind(&self, granule: u32) -> PlaceKind
        ensures { result ≡ place_kind self.now.state granule }
    {
        let Some((slot, before)) = self.layout.place_at(granule) else {
            return PlaceKind::Slack;
        };
        if before == 0 {
            return PlaceKind::Header;
        }
        let memory = self.machine.memory();
        let header = header(memory, &self.layout, slot, granule - before);
        if before > chunk_granules(u32::from(header.size)) {
            return PlaceKind::Tail;
        }
        match header.state {
            State::Fresh => PlaceKind::Tail,
            State::Live => PlaceKind::Other,
            State::Quarantined | State::Freed => PlaceKind::Dead,
        }
    }
}
