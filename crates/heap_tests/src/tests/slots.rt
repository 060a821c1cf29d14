//! The slots of a layout: their headers and links, the lists of free ones and the quarantine.
ghost use Rattle.quarantine_core.specs.Queue.{AreQueued, LinksStand};
ghost use Rattle.heap_theory.specs.Region.{region_of};
ghost use Rattle.std.specs.Prelude.{◌≡◌, ◌<◌, ◌∷◌, [], length, List, ℕ};

use super::support::same;
use chunk_header::{Header, State, is_header, link, read, set_link, write};
use class_lists::ClassLists;
use class_table::{ClassTable, LARGEST_COUNTED, Layout};
use granule_memory::Memory;
use quarantine_core::Quarantine;
use std::process::Abort;
use std::test::Fail;

// the header of the first slot of the class of two granules, given out for 16 bytes under tag 1, and then freed
#[test]
fn headers_are_these_words(rt: HostRuntime) -> Result<(), Fail> {
    let mut memory = Memory::new(rt.alloc(), 64)?;
    is_word(&rt, &mut memory, State::Live, 65_601);
    is_word(&rt, &mut memory, State::Quarantined, 65_602);
    is_word(&rt, &mut memory, State::Freed, 65_603);
    Ok(())
}

fn is_word(rt: &impl Abort, memory: &mut Memory, state: State, word: u64) {
    let header = Header {
        state,
        size: 16,
        tag: 1,
        class: 0,
        next: 0,
        mark: 0,
    };
    assert!(rt; memory.granules() == 64);
    write(memory, 0, &header);
    let words = (memory.word(0, 0), memory.word(0, 1));
    same(rt, &words, &(word, 0), &state);
    same(rt, &read(memory, 0), &header, &state);
}

#[test]
fn a_link_is_set_alone(rt: HostRuntime) -> Result<(), Fail> {
    let mut memory = Memory::new(rt.alloc(), 64)?;
    let table = ClassTable::from_classes(&[2])?;
    let layout = Layout::new(&table, 64);
    let header = Header {
        state: State::Quarantined,
        size: LARGEST_COUNTED as u16,
        tag: 15,
        class: 31,
        next: 131_072,
        mark: u64::MAX,
    };
    write(&mut memory, 62, &header);
    has_header(&rt, &memory, &layout, &header);
    assert!(rt; layout.slots() == 32);
    set_link(&mut memory, &layout, 31, 3);
    has_header(&rt, &memory, &layout, &Header { next: 3, ..header });
    Ok(())
}

// the header of the last slot, and no link of the one before
fn has_header(rt: &impl Abort, memory: &Memory, layout: &Layout, header: &Header) {
    assert!(rt; memory.granules() == 64 && layout.granules() == 64);
    assert!(rt; layout.slots() == 32 && is_header(memory, 62));
    same(rt, &read(memory, 62), header, &"the header");
    same(rt, &link(memory, layout, 31), &header.next, &"its link");
    same(rt, &link(memory, layout, 30), &0, &"the link before");
}

// granules, and the slots over them: 16 slots of two granules, then 10 of three, and two granules of slack
const SLOTS: &[(u32, Option<u32>)] = &[
    (0, Some(0)),
    (1, Some(0)),
    (31, Some(15)),
    (32, Some(16)),
    (61, Some(25)),
    (62, None),
    (63, None),
    (64, None),
    (u32::MAX, None),
];

#[test]
fn slots_cover_their_granules(rt: HostRuntime) -> Result<(), Fail> {
    let table = ClassTable::from_classes(&[2, 3])?;
    let layout = Layout::new(&table, 64);
    for (granule, slot) in SLOTS {
        same(&rt, &layout.slot_at(*granule), slot, granule);
    }
    Ok(())
}

// the slot freed last is given out first
#[test]
fn the_last_in_is_the_first_out(rt: HostRuntime) -> Result<(), Fail> {
    let table = ClassTable::from_classes(&[2, 3])?;
    let layout = Layout::new(&table, 64);
    same(&rt, &layout.slots(), &26, &"slots");
    let mut memory = Memory::new(rt.alloc(), 64)?;
    let mut lists = ClassLists::new(&layout);
    assert!(rt; layout.classes() == 2);
    pops(&rt, &mut lists, &mut memory, &layout, 0, None);
    pushes(&rt, &mut lists, &mut memory, &layout, 1, 16);
    pushes(&rt, &mut lists, &mut memory, &layout, 0, 1);
    pushes(&rt, &mut lists, &mut memory, &layout, 0, 0);
    pops(&rt, &mut lists, &mut memory, &layout, 0, Some(0));
    pops(&rt, &mut lists, &mut memory, &layout, 0, Some(1));
    pops(&rt, &mut lists, &mut memory, &layout, 1, Some(16));
    Ok(())
}

// a slot is pushed
fn pushes(
    rt: &impl Abort,
    lists: &mut ClassLists,
    memory: &mut Memory,
    layout: &Layout,
    number: usize,
    slot: u32,
)
    requires { number < length lists.old }
    ensures { length lists.new ≡ length lists.old }
{
    assert!(rt; memory.granules() == layout.granules() && slot < layout.slots());
    lists.push(memory, layout, number, slot);
}

// a slot, or none, is popped
fn pops(
    rt: &impl Abort,
    lists: &mut ClassLists,
    memory: &mut Memory,
    layout: &Layout,
    number: usize,
    slot: Option<u32>,
)
    requires { number < length lists.old }
    ensures { length lists.new ≡ length lists.old }
{
    assert!(rt; memory.granules() == layout.granules() && lists.front(number) <= layout.slots());
    same(rt, &lists.pop(memory, layout, number), &slot, &number);
}

// three blocks of 32 bytes are freed, and the quarantine holds 64
#[test]
fn quarantine_releases_past_its_limit(rt: HostRuntime) -> Result<(), Fail> {
    let mut memory = Memory::new(rt.alloc(), 64)?;
    let table = ClassTable::from_classes(&[2])?;
    let layout = Layout::new(&table, 64);
    let mut quarantine = Quarantine::new(&layout, 64);
    keeps_three(&rt, &mut quarantine, &mut memory, &layout);
    lets_one_go(&rt, &mut quarantine, &mut memory, &layout);
    has_link(&rt, &memory, &layout, 0, 0);
    has_link(&rt, &memory, &layout, 1, 3);
    has_link(&rt, &memory, &layout, 2, 0);
    Ok(())
}

fn has_link(rt: &impl Abort, memory: &Memory, layout: &Layout, slot: u32, next: u32) {
    assert!(rt; memory.granules() == layout.granules() && slot < layout.slots());
    same(rt, &link(memory, layout, slot), &next, &slot);
}

// Puts slots 0, 1 and 2 in. Two of them are within the limit.
fn keeps_three(rt: &impl Abort, quarantine: &mut Quarantine, memory: &mut Memory, layout: &Layout)
    requires granules { length memory.old ≡ layout.now.granules }
    requires empty { AreQueued quarantine.old layout.now (region_of layout.now memory.old) [] }
    ensures granules { length memory.new ≡ layout.now.granules }
    ensures queued { AreQueued quarantine.new layout.now (region_of layout.now memory.new) (0 ∷ 1 ∷ 2 ∷ []) }
{
    assert!(rt; layout.slots() == 32);
    assert!(rt; link(memory, layout, 0) == 0);
    quarantine.put(memory, layout, 0, layout.bytes(0));
    keeps_all(rt, quarantine, memory, layout);
    assert!(rt; link(memory, layout, 1) == 0);
    quarantine.put(memory, layout, 1, layout.bytes(1));
    same(rt, &quarantine.held_bytes(), &64, &"two are held");
    keeps_all(rt, quarantine, memory, layout);
    assert!(rt; link(memory, layout, 2) == 0);
    quarantine.put(memory, layout, 2, layout.bytes(2));
}

// no slot leaves
fn keeps_all(rt: &impl Abort, quarantine: &mut Quarantine, memory: &mut Memory, layout: &Layout)
    requires granules { length memory.old ≡ layout.now.granules }
    requires linked { LinksStand quarantine.old layout.now (region_of layout.now memory.old) }
    ensures granules { length memory.new ≡ layout.now.granules }
    ensures queued { (queue : List ℕ)
        → AreQueued quarantine.old layout.now (region_of layout.now memory.old) queue
        → AreQueued quarantine.new layout.now (region_of layout.now memory.new) queue }
{
    let out = quarantine.next_out(memory, layout);
    assert!(rt; out.is_none());
}

// The oldest of them leaves, and the other two are within the limit.
fn lets_one_go(rt: &impl Abort, quarantine: &mut Quarantine, memory: &mut Memory, layout: &Layout)
    requires granules { length memory.old ≡ layout.now.granules }
    requires queued { AreQueued quarantine.old layout.now (region_of layout.now memory.old) (0 ∷ 1 ∷ 2 ∷ []) }
{
    let first = quarantine.next_out(memory, layout);
    same(rt, &first, &Some(0), &"the oldest");
    let second = quarantine.next_out(memory, layout);
    same(rt, &second, &None, &"one is out");
    same(rt, &quarantine.held_bytes(), &64, &"two are held again");
}
