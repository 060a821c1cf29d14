//! The region, its granules, the heap and the replay.
use crate::tests::support::{HEAP, same};
use class_table::ClassTable;
use granule_memory::Memory;
use raw_region::RawRegion;
use replay_core::Replay;
use std::process::Abort;
use std::test::Fail;
use tagged_heap::Heap;

#[test]
fn a_region(rt: HostRuntime) {
    assert!(rt; is_region(&rt) || is_region(&rt), "refused twice");
}

// whether a region is made
fn is_region(rt: &(impl Abort + AllocGlobal)) -> bool {
    let Ok(region) = RawRegion::new(rt.alloc(), 1000) else {
        return false;
    };
    same(rt, &region.len(), &1000, &"its size");
    true
}

#[test]
fn a_memory(rt: HostRuntime) {
    assert!(rt; is_memory(&rt) || is_memory(&rt), "refused twice");
}

fn is_memory(rt: &(impl Abort + AllocGlobal)) -> bool {
    let Ok(memory) = Memory::new(rt.alloc(), 100) else {
        return false;
    };
    same(rt, &memory.granules(), &100, &"its size");
    true
}

#[test]
fn a_heap(rt: HostRuntime) -> Result<(), Fail> {
    let table = ClassTable::from_classes(&[2, 4])?;
    assert!(rt;
        is_heap(&rt, &table) || is_heap(&rt, &table),
        "refused twice"
    );
    Ok(())
}

fn is_heap(rt: &(impl Abort + AllocGlobal), table: &ClassTable) -> bool {
    let Ok(mut heap) = Heap::new(rt.alloc(), table, HEAP) else {
        return false;
    };
    assert!(rt; heap.malloc(16).is_ok());
    true
}

#[test]
fn a_replay(rt: HostRuntime) -> Result<(), Fail> {
    let table = ClassTable::from_classes(&[2, 4])?;
    assert!(rt;
        is_replay(&rt, &table) || is_replay(&rt, &table),
        "refused twice"
    );
    Ok(())
}

fn is_replay(rt: &(impl Abort + AllocGlobal), table: &ClassTable) -> bool {
    let Ok(replay) = Replay::new(rt.alloc(), table, HEAP) else {
        return false;
    };
    same(rt, &replay.steps(), &0, &"steps");
    true
}
