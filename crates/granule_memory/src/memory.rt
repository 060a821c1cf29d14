//! A memory of granules with tags, in one region.
ghost use Rattle.granule_memory.specs.Changes.{ChangesOnlyBytes, ChangesOnlyTags};
ghost use Rattle.machine_theory.specs.Memory.{byte_at, bytes_at, new_granule, tag_at, tagged, word_at, written, Granule, IsMemory};
ghost use Rattle.std.specs.Int.{to_le_bytes, w64};
ghost use Rattle.std.specs.Prelude.{◌≡◌, ◌↔◌, ◌+◌, ◌*◌, ◌<◌, ◌≤◌, [], ◌∷◌, ℕ, IfOk, IsTrue, List, length, replicate, take};

use machine_theory::{FEWEST_GRANULES, GRANULE_BYTES, MOST_GRANULES};
use raw_region::RawRegion;
use std::alloc::{AllocError, Global};
use std::marker::Model;

// The bytes of a granule.
const GRANULE: usize = GRANULE_BYTES as usize;

// The word whose eight bytes are 1.
const EIGHT_ONES: u64 = 0x0101_0101_0101_0101;

/// 64 to 262,144 granules of sixteen bytes, each with an Allocation Tag from 0 to 15. Contracts see it as the list of its granules.
/// One region holds 17 bytes for each granule: first the bytes of all granules, so that byte i of the memory is byte i of the
/// region, then the tags.
#[derive(Drop)]
pub struct Memory {
    region: RawRegion,
    granules: u32,
}

impl Model for Memory {
    ghost use Rattle.granule_memory.specs.BytesOfGranules.{granules_of, IsLaidOut};
    ghost use Rattle.machine_theory.specs.Memory.{Granule};
    ghost use Rattle.std.specs.Prelude.{List};

    ghost Value = { List Granule };

    ghost view = { λ m. granules_of m.region m.granules };

    ghost invariant = { λ m. IsLaidOut m.region m.granules };
}

impl Memory {
    /// A memory of `granules` granules, 64 to 262,144, with all tags and bytes 0.
    /// The only error is that the allocator refuses the one block, of 17 bytes for each granule.
    #[tactic(auto, using(crate::proofs::Granules::granules_counted, crate::proofs::Granules::granules_fit, crate::proofs::Writes::new_is, crate::proofs::Writes::new_fits))]
    pub fn new(alloc: Global, granules: u32) -> Result<Memory, AllocError>
        requires { (FEWEST_GRANULES ≤ granules) × (granules ≤ MOST_GRANULES) }
        ensures granules { IfOk result (λ memory. memory ≡ replicate granules new_granule) }
        ensures len { IfOk result (λ memory. length memory ≡ granules) }
        ensures memory { IfOk result (λ memory. IsMemory memory) }
    {
        let region = RawRegion::new(alloc, (GRANULE + 1) * granules as usize)?;
        Ok(Memory { region, granules })
    }

    /// The number of granules, 64 to 262,144.
    #[tactic(auto, using(crate::proofs::Granules::granules_counted, crate::proofs::Granules::granules_fit))]
    pub fn granules(&self) -> u32
        ensures granules { result ≡ length self.now }

        // What holds for every memory.
        ensures memory { IsMemory self.now }
    {
        self.granules
    }

    /// The Allocation Tag, 0 to 15, of granule `g`, which must be below `granules()`.
    #[tactic(auto, using(crate::proofs::Granules::granules_counted, crate::proofs::Granules::tag_is))]
    pub fn tag(&self, g: u32) -> u8
        requires { g < length self.now }
        ensures tag { result ≡ tag_at self.now g }
        ensures below { result < 16 }
    {
        self.region.byte(self.place_of_tag(g))
    }

    /// Whether all granules from `first` to `last`, at most eight, have the Allocation Tag `tag`. It compares them as one word. `last` must
    /// be below `granules()`.
    #[tactic(auto, using(crate::proofs::Granules::granules_counted))]
    pub fn all_have_tag(&self, first: u32, last: u32, tag: u8) -> bool
        requires granules { (first ≤ last) × (last < length self.now) }
        requires few { last < first + 8 }
        requires tag { tag < 16 }
        ensures { IsTrue result ↔ ((g : ℕ) → first ≤ g → g ≤ last → tag_at self.now g ≡ tag) }
    {
        // the last tag is the word's highest byte; its lowest bytes are of granules before `first`, or of bytes before all tags
        let word = self.region.word(self.place_of_tag(last) - 7);
        let others = 8 * (7 - (last - first));
        word >> others == (EIGHT_ONES * u64::from(tag)) >> others
    }

    /// Gives granule `g`, which must be below `granules()`, the Allocation Tag `t`, which must be below 16. No byte changes.
    pub fn set_tag(&mut self, g: u32, t: u8)
        requires granule { g < length self.old }
        requires tag { t < 16 }
        ensures tagged { self.new ≡ tagged g 1 t self.old }
        ensures tag { tag_at self.new g ≡ t }
        ensures others { ChangesOnlyTags self.old self.new g (g + 1) }
        ensures memory { IsMemory self.new }
    {
        self.set_tags(g, 1, t);
    }

    /// Gives `count` granules from `first` on the Allocation Tag `tag`, which must be below 16. They must end at `granules()` or before.
    /// No byte changes.
    #[tactic(auto, using(crate::proofs::Granules::granules_counted, crate::proofs::Writes::tagged_is))]
    pub fn set_tags(&mut self, first: u32, count: u32, tag: u8)
        requires granules { first + count ≤ length self.old }
        requires tag { tag < 16 }
        ensures tagged { self.new ≡ tagged first count tag self.old }
        ensures tags { (g : ℕ) → first ≤ g → g < first + count → tag_at self.new g ≡ tag }
        ensures others { ChangesOnlyTags self.old self.new first (first + count) }
        ensures memory { IsMemory self.new }
    {
        let place = self.place_of_tag(first);
        self.region.fill(place, place + count as usize, tag);
    }

    /// Gives `count` granules from `first` on the Allocation Tag `tag`, which must be below 16, and the `rest` granules after them tag 0.
    /// They must end at `granules()` or before. No byte changes.
    #[tactic(auto, using(crate::proofs::Granules::granules_counted))]
    #[inline(always)]
    pub fn set_tags_then_clear(&mut self, first: u32, count: u32, rest: u32, tag: u8)
        requires granules { first + count + rest ≤ length self.old }
        requires tag { tag < 16 }
        ensures tagged { self.new ≡ tagged (first + count) rest 0 (tagged first count tag self.old) }
        ensures memory { IsMemory self.new }
    {
        let place = self.place_of_tag(first);
        let middle = place + count as usize;
        self.region
            .fill_then_clear(place, middle, middle + rest as usize, tag);
    }

    /// Byte `i`, 0 to 15, of granule `g`, which must be below `granules()`.
    #[tactic(auto, using(crate::proofs::Granules::granules_counted, crate::proofs::Granules::byte_is))]
    pub fn byte(&self, g: u32, i: usize) -> u8
        requires granule { g < length self.now }
        requires place { i < GRANULE_BYTES }
        ensures { result ≡ byte_at self.now (GRANULE_BYTES * g + i) }
    {
        self.region.byte(start_of_granule(g) + i)
    }

    /// Writes `b` to byte `i`, 0 to 15, of granule `g`, which must be below `granules()`. No tag changes.
    #[tactic(auto, using(crate::proofs::Granules::byte_read))]
    pub fn set_byte(&mut self, g: u32, i: usize, b: u8)
        requires granule { g < length self.old }
        requires place { i < GRANULE_BYTES }
        ensures written { self.new ≡ written (GRANULE_BYTES * g + i) (b ∷ []) self.old }
        ensures byte { byte_at self.new (GRANULE_BYTES * g + i) ≡ b }
        ensures others { ChangesOnlyBytes self.old self.new (GRANULE_BYTES * g + i) (GRANULE_BYTES * g + i + 1) }
        ensures memory { IsMemory self.new }
    {
        self.write_bytes(start_of_granule(g) + i, &[b]);
    }

    /// Word `i`, 0 or 1, of granule `g`, which must be below `granules()`: its bytes 8 i to 8 i + 7, the lowest first.
    #[tactic(auto, using(crate::proofs::Granules::granules_counted, crate::proofs::Granules::word_is))]
    pub fn word(&self, g: u32, i: usize) -> u64
        requires granule { g < length self.now }
        requires place { i < 2 }
        ensures { result ≡ word_at self.now (GRANULE_BYTES * g + 8 * i) }
    {
        self.region.word(start_of_granule(g) + 8 * i)
    }

    /// Writes `w` to word `i`, 0 or 1, of granule `g`, which must be below `granules()`: its bytes 8 i to 8 i + 7, the lowest first.
    /// No tag changes.
    #[tactic(auto, using(crate::proofs::Granules::granules_counted, crate::proofs::Writes::written_is))]
    pub fn set_word(&mut self, g: u32, i: usize, w: u64)
        requires granule { g < length self.old }
        requires place { i < 2 }
        ensures written { self.new ≡ written (GRANULE_BYTES * g + 8 * i) (to_le_bytes w64 w) self.old }
        ensures word { word_at self.new (GRANULE_BYTES * g + 8 * i) ≡ w }
        ensures others { ChangesOnlyBytes self.old self.new
            (GRANULE_BYTES * g + 8 * i) (GRANULE_BYTES * g + 8 * i + 8) }
        ensures memory { IsMemory self.new }
    {
        self.region.set_word(start_of_granule(g) + 8 * i, w);
    }

    /// Sets the sixteen bytes of granule `g`, which must be below `granules()`, to 0. No tag changes.
    pub fn zero_granule(&mut self, g: u32)
        requires { g < length self.old }
        ensures written { self.new ≡ written (GRANULE_BYTES * g) (replicate GRANULE_BYTES 0) self.old }
        ensures others { ChangesOnlyBytes self.old self.new (GRANULE_BYTES * g) (GRANULE_BYTES * g + GRANULE_BYTES) }
        ensures memory { IsMemory self.new }
    {
        self.zero_granules(g, 1);
    }

    /// Sets the bytes of `count` granules from `first` on to 0, in one fill. They must end at `granules()` or before. No tag changes.
    #[tactic(auto, using(crate::proofs::Granules::granules_counted, crate::proofs::Writes::written_is))]
    pub fn zero_granules(&mut self, first: u32, count: u32)
        requires { first + count ≤ length self.old }
        ensures written { self.new ≡ written (GRANULE_BYTES * first) (replicate (GRANULE_BYTES * count) 0) self.old }
        ensures others { ChangesOnlyBytes self.old self.new
            (GRANULE_BYTES * first) (GRANULE_BYTES * first + GRANULE_BYTES * count) }
        ensures memory { IsMemory self.new }
    {
        let start = start_of_granule(first);
        self.region.fill(start, start + start_of_granule(count), 0);
    }

    /// Fills `to` with the bytes from byte `i` of the memory on; granule g begins at byte 16 g.
    /// It serves loads: any number of granules is one copy. It checks no tag; a load does that first.
    #[tactic(auto, using(crate::proofs::Granules::granules_counted, crate::proofs::Granules::bytes_are))]
    pub fn read_bytes(&self, i: usize, to: &mut [u8])
        requires { i + length to.old ≤ GRANULE_BYTES * length self.now }
        ensures { to.new ≡ bytes_at self.now i (length to.old) }
    {
        self.region.read_bytes(i, to);
    }

    /// Fills the first `count` bytes of `to`, 0 to 64, with the bytes from byte `i` of the memory on; granule g begins at byte 16 g. The bytes
    /// of `to` after them may change. It serves loads, and checks no tag; a load does that first.
    #[tactic(auto, using(crate::proofs::Granules::granules_counted, crate::proofs::Granules::bytes_are))]
    pub fn read_into(&self, i: usize, count: usize, to: &mut [u8; 64])
        requires place { i + count ≤ GRANULE_BYTES * length self.now }
        requires count { count ≤ 64 }
        ensures { take count to.new ≡ bytes_at self.now i count }
    {
        self.region.read_into(i, count, to);
    }

    /// Copies `bytes` to the bytes from byte `i` of the memory on; granule g begins at byte 16 g. No tag changes.
    /// It serves stores: any number of granules is one copy. It checks no tag; a store does that first.
    #[tactic(auto, using(crate::proofs::Granules::granules_counted, crate::proofs::Writes::written_is, crate::proofs::Writes::written_reads))]
    pub fn write_bytes(&mut self, i: usize, bytes: &[u8])
        requires { i + length bytes.now ≤ GRANULE_BYTES * length self.old }
        ensures written { self.new ≡ written i bytes.now self.old }
        ensures bytes { bytes_at self.new i (length bytes.now) ≡ bytes.now }
        ensures others { ChangesOnlyBytes self.old self.new i (i + length bytes.now) }
        ensures memory { IsMemory self.new }
    {
        self.region.write_bytes(i, bytes);
    }

    /// Writes `b` to the `count` bytes, 0 to 64, from byte `i` of the memory on; granule g begins at byte 16 g. No tag changes. It serves stores
    /// of one byte many times. It checks no tag; a store does that first.
    #[tactic(auto, using(crate::proofs::Granules::granules_counted))]
    pub fn fill_bytes(&mut self, i: usize, count: usize, b: u8)
        requires place { i + count ≤ GRANULE_BYTES * length self.old }
        requires count { count ≤ 64 }
        ensures written { self.new ≡ written i (replicate count b) self.old }
        ensures memory { IsMemory self.new }
    {
        self.region.fill_few(i, count, b);
    }

    /// Copies the `count` bytes from byte `from` of the memory on to those from byte `to` on, in one copy; granule g begins at byte 16 g. No tag
    /// changes. It serves a `realloc` that moves a chunk.
    #[tactic(auto, using(crate::proofs::Granules::granules_counted))]
    pub fn copy_bytes(&mut self, from: usize, to: usize, count: usize)
        requires source { from + count ≤ GRANULE_BYTES * length self.old }
        requires target { to + count ≤ GRANULE_BYTES * length self.old }
        ensures written { self.new ≡ written to (bytes_at self.old from count) self.old }
        ensures memory { IsMemory self.new }
    {
        self.region.copy_within(from, count, to);
    }

    // The place of granule g's tag in the region. For g = granules() it is the end of the region.
    #[tactic(auto, using(crate::proofs::Granules::granules_counted))]
    fn place_of_tag(&self, g: u32) -> usize
        requires { g ≤ length self.now }
        ensures { result ≡ GRANULE_BYTES * length self.now + g }
    {
        start_of_granule(self.granules) + g as usize
    }
}

// The place in the region where the bytes of granule g begin.
fn start_of_granule(g: u32) -> usize
    ensures { result ≡ GRANULE_BYTES * g }
{
    g as usize * GRANULE
}
