//! A table of calls with what they answer.
use granule_memory::Memory;
use std::process::Abort;
use std::test::Fail;
use tag_machine::{Fault, Machine};

/// A call of the machine with its answer.
#[derive(Clone, Copy)]
pub enum Step {
    /// The address that is drawn for an address and a mask.
    Irg(u64, u64, u64),
    /// What RGSR is.
    Rgsr(u8, u16),
    /// The offset that was drawn last, the upper four bits of RGSR's seed.
    Offset(u16),
    Addg(u64, u8, u8, u64),
    Subg(u64, u8, u8, u64),
    Gmi(u64, u64, u64),
    /// STG, ST2G and STZG of the first one's tag at the second.
    Stg(u64, u64, Result<(), Fault>),
    St2g(u64, u64, Result<(), Fault>),
    Stzg(u64, u64, Result<(), Fault>),
    /// What LDG makes of the first one at the second.
    Ldg(u64, u64, Result<u64, Fault>),
    /// The bytes are stored, or the store faults.
    Store(u64, &'static [u8], Result<(), Fault>),
    /// These bytes are loaded.
    Load(u64, &'static [u8]),
    /// The load of so many bytes faults, and writes none.
    LoadFault(u64, usize, Fault),
    /// Whether so many bytes are mapped, whose tags are all 0. Where they are, they are stored and loaded; else both fault.
    Bytes(u64, usize, bool),
    /// Sets the tag of granule 0 in the memory that the machine lends.
    SetTag(u8),
    /// How many granules the memory has.
    Granules(u32),
}

/// The address of a granule, under a tag.
macro_rules! pointer {
    ($granule:literal, $tag:literal) => {
        (1 << 36) + 16 * $granule + ($tag << 56)
    };
}

pub(crate) use pointer;

/// Makes the calls on a machine of 64 granules with seed 1, and compares what they answer.
pub fn play(rt: &(impl Abort + AllocGlobal), steps: &[Step]) -> Result<(), Fail> {
    let mut machine = Machine::new(Memory::new(rt.alloc(), 64)?, 1);
    for (number, step) in steps.iter().enumerate() {
        let holds = holds(rt, &mut machine, *step);
        assert!(rt; holds, "step {number}");
    }
    Ok(())
}

// Makes the call: whether it answers so.
fn holds(rt: &impl Abort, machine: &mut Machine, step: Step) -> bool {
    match step {
        Step::Irg(address, mask, drawn) => machine.irg(address, mask) == drawn,
        Step::Addg(address, u6, u4, sum) => {
            assert!(rt; u6 < 64 && u4 < 16);
            machine.addg(address, u6, u4) == sum
        }
        Step::Subg(address, u6, u4, difference) => {
            assert!(rt; u6 < 64 && u4 < 16);
            machine.subg(address, u6, u4) == difference
        }
        Step::Gmi(address, mask, wanted) => machine.gmi(address, mask) == wanted,
        Step::Stg(tagged, address, ended) => machine.stg(tagged, address) == ended,
        Step::St2g(tagged, address, ended) => machine.st2g(tagged, address) == ended,
        Step::Stzg(tagged, address, ended) => machine.stzg(tagged, address) == ended,
        Step::Ldg(register, address, wanted) => machine.ldg(register, address) == wanted,
        Step::Rgsr(tag, seed) => machine.rgsr() == (tag, seed),
        Step::Offset(offset) => machine.rgsr().1 >> 12 == offset,
        _ => is_accessed(rt, machine, step),
    }
}

fn is_accessed(rt: &impl Abort, machine: &mut Machine, step: Step) -> bool {
    match step {
        Step::Store(address, bytes, ended) => {
            assert!(rt; !bytes.is_empty() && bytes.len() <= 64);
            machine.store(address, bytes) == ended
        }
        Step::Load(address, bytes) => {
            let (ended, loaded) = load(rt, machine, address, bytes.len());
            ended == Ok(()) && loaded.starts_with(bytes)
        }
        Step::LoadFault(address, len, fault) => {
            let (ended, loaded) = load(rt, machine, address, len);
            ended == Err(fault) && loaded == [0x5a; 64]
        }
        Step::Bytes(address, len, true) => is_mapped(rt, machine, address, len),
        Step::Bytes(address, len, false) => is_unmapped(rt, machine, address, len),
        Step::SetTag(tag) => {
            assert!(rt; tag < 16 && machine.memory().granules() == 64);
            machine.memory_mut().set_tag(0, tag);
            true
        }
        Step::Granules(granules) => machine.memory().granules() == granules,
        _ => false,
    }
}

fn is_mapped(rt: &impl Abort, machine: &mut Machine, address: u64, len: usize) -> bool {
    assert!(rt; 1 <= len && len <= 64);
    let stored = machine.store_run(address, len, 0xa5);
    let (ended, loaded) = load(rt, machine, address, len);
    machine.mapped(address, len)
        && stored == Ok(())
        && ended == Ok(())
        && loaded.starts_with(&[0xa5; 64][..len])
}

fn is_unmapped(rt: &impl Abort, machine: &mut Machine, address: u64, len: usize) -> bool {
    assert!(rt; 1 <= len && len <= 64);
    let stored = machine.store_run(address, len, 0xa5);
    let (ended, loaded) = load(rt, machine, address, len);
    !machine.mapped(address, len)
        && stored == Err(Fault::Unmapped)
        && ended == Err(Fault::Unmapped)
        && loaded == [0x5a; 64]
}

// bytes that are not loaded are 0x5a
fn load(
    rt: &impl Abort,
    machine: &Machine,
    address: u64,
    len: usize,
) -> (Result<(), Fault>, [u8; 64]) {
    let mut bytes = [0x5a; 64];
    assert!(rt; 1 <= len && len <= 64);
    let ended = machine.load(address, &mut bytes[..len]);
    (ended, bytes)
}
