//! A trace is a table of calls with what they answer; its pointers stand in eight variables, of which the first is null.
use crate::tests::support::config;
use chunk_header::{Header, is_header, read};
use class_table::ClassTable;
use std::process::Abort;
use std::test::Fail;
use tag_machine::Fault;
use tagged_heap::{FreeError, Heap, NullCause, PlaceKind, ReallocError};

/// A variable.
pub type Variable = usize;

/// A call of the heap, or a look at it, with its answer. An address is a variable's pointer and a number of bytes, its tag not 0.
#[derive(Clone, Copy)]
pub enum Step {
    /// `malloc` gives the variable its pointer.
    Malloc(Variable, u32),
    /// `calloc` gives the variable its pointer.
    Calloc(Variable, u32),
    /// `malloc` gives null.
    Null(u32, NullCause),
    /// `free` of the variable's pointer.
    Free(Variable, Result<(), FreeError>),
    /// `realloc` of the second variable's pointer gives the first its pointer.
    Realloc(Variable, Variable, u32),
    /// `realloc` of the variable's pointer fails.
    NoRealloc(Variable, u32, ReallocError),
    /// `addg` of the second variable's pointer, for the first.
    Addg(Variable, Variable, u8, u8),
    /// `subg` of the second variable's pointer, for the first.
    Subg(Variable, Variable, u8, u8),
    /// The variable's pointer.
    Pointer(Variable, u64),
    /// A pointer that is made up, for the variable.
    MakeUp(Variable, u64),
    /// So many times the byte are stored.
    Store(Variable, i16, u8, usize),
    /// A store of so many bytes faults.
    StoreFault(Variable, i16, usize, Fault),
    /// These bytes are loaded.
    Load(Variable, i16, &'static [u8]),
    /// A load of so many bytes faults, and writes none.
    LoadFault(Variable, i16, usize, Fault),
    /// Whether so many bytes are mapped.
    Mapped(Variable, usize, bool),
    /// What the granule is.
    Kind(u32, PlaceKind),
    /// How often a chunk was freed.
    Frees(u64),
    /// The first word of granule 0.
    FirstWord(u64),
    /// The header in the granule.
    HeaderIn(u32, Header),
}

/// A tag that does not match: the granule's tag in memory and the pointer's.
macro_rules! tag_fault {
    ($granule:literal, $memory_tag:literal, $pointer_tag:literal) => {
        tag_machine::Fault::TagCheck {
            granule: $granule,
            memory_tag: $memory_tag,
            pointer_tag: $pointer_tag,
        }
    };
}

/// The pointer to a granule with a tag.
macro_rules! pointer {
    ($granule:literal, $tag:literal) => {
        (1 << 36) + 16 * $granule + ($tag << 56)
    };
}

pub(crate) use pointer;
pub(crate) use tag_fault;

/// A name, the classes of a heap and the bytes of its quarantine, and the calls. The name stands in the message of a call that answers
/// otherwise.
pub type Trace = (&'static str, &'static [u16], u32, &'static [Step]);

/// Makes the calls of each trace on a heap of 64 granules with seed 1, and compares what they answer.
pub fn play(rt: &(impl Abort + AllocGlobal), traces: &[Trace]) -> Result<(), Fail> {
    for (name, classes, quarantine, steps) in traces {
        let table = ClassTable::from_classes(classes)?;
        let mut heap = Heap::new(rt.alloc(), &table, config(rt, *quarantine))?;
        make_calls(rt, &mut heap, name, steps);
    }
    Ok(())
}

fn make_calls(rt: &impl Abort, heap: &mut Heap, name: &str, steps: &[Step]) {
    let mut pointers = [0; 8];
    for (number, step) in steps.iter().enumerate() {
        let holds = holds(rt, heap, &mut pointers, *step);
        assert!(rt; holds, "step {number}: {name}");
    }
}

// Makes the call: whether it answers so.
fn holds(rt: &impl Abort, heap: &mut Heap, pointers: &mut [u64; 8], step: Step) -> bool {
    match step {
        Step::Malloc(v, n) => is_kept(pointers, v, heap.malloc(n).ok()),
        Step::Calloc(v, n) => is_kept(pointers, v, heap.calloc(n).ok()),
        Step::Realloc(v, w, n) => {
            let given = realloc(rt, heap, pointers[w % 8], n);
            is_kept(pointers, v, given.ok())
        }
        Step::MakeUp(v, pointer) => is_kept(pointers, v, Some(pointer)),
        Step::Null(n, cause) => heap.malloc(n) == Err(cause),
        Step::Free(v, ended) => free(rt, heap, pointers[v % 8]) == ended,
        Step::NoRealloc(v, n, error) => realloc(rt, heap, pointers[v % 8], n) == Err(error),
        _ => is_stepped(rt, heap, pointers, step),
    }
}

fn is_stepped(rt: &impl Abort, heap: &mut Heap, pointers: &mut [u64; 8], step: Step) -> bool {
    match step {
        Step::Addg(v, w, u6, u4) => {
            assert!(rt; u6 < 64 && u4 < 16);
            let sum = heap.addg(pointers[w % 8], u6, u4);
            is_kept(pointers, v, Some(sum))
        }
        Step::Subg(v, w, u6, u4) => {
            assert!(rt; u6 < 64 && u4 < 16);
            let difference = heap.subg(pointers[w % 8], u6, u4);
            is_kept(pointers, v, Some(difference))
        }
        _ => is_accessed(rt, heap, pointers, step),
    }
}

// The variable holds the pointer from now on, where there is one.
fn is_kept(pointers: &mut [u64; 8], v: Variable, given: Option<u64>) -> bool {
    match given {
        Some(pointer) => {
            pointers[v % 8] = pointer;
            true
        }
        None => false,
    }
}

fn is_accessed(rt: &impl Abort, heap: &mut Heap, pointers: &[u64; 8], step: Step) -> bool {
    match step {
        Step::Store(v, off, byte, len) => {
            store(rt, heap, address_at(pointers, v, off), byte, len) == Ok(())
        }
        Step::StoreFault(v, off, len, fault) => {
            store(rt, heap, address_at(pointers, v, off), 0xee, len) == Err(fault)
        }
        Step::Load(v, off, bytes) => {
            let (ended, loaded) = load(rt, heap, address_at(pointers, v, off), bytes.len());
            ended == Ok(()) && loaded.starts_with(bytes)
        }
        Step::LoadFault(v, off, len, fault) => {
            let (ended, loaded) = load(rt, heap, address_at(pointers, v, off), len);
            ended == Err(fault) && loaded == [0xff; 64]
        }
        Step::Mapped(v, len, is_mapped) => {
            assert!(rt; 1 <= len && len <= 64);
            heap.mapped(pointers[v % 8], len) == is_mapped
        }
        _ => is_seen(rt, heap, pointers, step),
    }
}

fn is_seen(rt: &impl Abort, heap: &Heap, pointers: &[u64; 8], step: Step) -> bool {
    match step {
        Step::Pointer(v, pointer) => pointers[v % 8] == pointer,
        Step::Kind(granule, kind) => heap.place_kind(granule) == kind,
        Step::Frees(frees) => heap.frees() == frees,
        Step::FirstWord(word) => {
            let memory = heap.memory();
            assert!(rt; memory.granules() == 64);
            memory.word(0, 0) == word
        }
        Step::HeaderIn(granule, header) => {
            let memory = heap.memory();
            assert!(rt; granule < memory.granules() && is_header(memory, granule));
            read(memory, granule) == header
        }
        _ => false,
    }
}

fn address_at(pointers: &[u64; 8], v: Variable, off: i16) -> u64 {
    let pointer = pointers[v % 8];
    let distance = u64::from(off.unsigned_abs());
    if off < 0 {
        pointer.wrapping_sub(distance)
    } else {
        pointer.wrapping_add(distance)
    }
}

fn free(rt: &impl Abort, heap: &mut Heap, p: u64) -> Result<(), FreeError> {
    assert!(rt; heap.frees() < 1 << 48);
    heap.free(p)
}

fn realloc(rt: &impl Abort, heap: &mut Heap, p: u64, n: u32) -> Result<u64, ReallocError> {
    assert!(rt; heap.frees() < 1 << 48);
    heap.realloc(p, n)
}

// bytes that are not loaded are 0xff
fn load(rt: &impl Abort, heap: &Heap, address: u64, len: usize) -> (Result<(), Fault>, [u8; 64]) {
    let mut bytes = [0xff; 64];
    assert!(rt; 1 <= len && len <= 64 && (address >> 56) % 16 != 0);
    let ended = heap.load(address, &mut bytes[..len]);
    (ended, bytes)
}

fn store(
    rt: &impl Abort,
    heap: &mut Heap,
    address: u64,
    byte: u8,
    len: usize,
) -> Result<(), Fault> {
    assert!(rt; 1 <= len && len <= 64 && (address >> 56) % 16 != 0);
    heap.store(address, &[byte; 64][..len])
}
