//! The largest region with the most classes, filled twice.
use crate::tests::support::same;
use class_table::ClassTable;
use std::process::Abort;
use std::test::Fail;
use tagged_heap::{Config, Heap};

// 32 classes over the largest region: each has 8,192 granules.
const CLASSES: [u16; 32] = [
    2, 3, 4, 5, 6, 7, 8, 9, 10, 11, 12, 13, 14, 15, 16, 17, 18, 19, 20, 21, 22, 23, 24, 25, 26, 27,
    28, 29, 30, 31, 32, 33,
];

const CONFIG: Config = Config {
    granules: 262_144,
    seed: 1,
    quarantine: 0,
};

/// Requests the largest size of each class until the class is exhausted, and gives all pointers.
fn fill(rt: &(impl Abort + AllocGlobal), heap: &mut Heap) -> Result<Vec<u64>, Fail> {
    let mut given = Vec::new(rt.alloc());
    for class in CLASSES {
        let size = 16 * u32::from(class.saturating_sub(1));
        for _ in 0..8192u32 {
            match heap.malloc(size) {
                Ok(p) => given.push(p)?,
                Err(_) => break,
            }
        }
    }
    same(rt, &given.len(), &25_294, &"chunks");
    Ok(given)
}

/// Frees the pointers, the last one first.
fn free_all(rt: &impl Abort, heap: &mut Heap, pointers: &[u64]) {
    for p in pointers.iter().rev() {
        assert!(rt; heap.frees() < 1 << 48);
        let ended = heap.free(*p);
        assert!(rt; ended.is_ok());
    }
}

#[test]
fn every_class_is_filled_twice(rt: HostRuntime) -> Result<(), Fail> {
    let table = ClassTable::from_classes(&CLASSES)?;
    let mut heap = Heap::new(rt.alloc(), &table, CONFIG)?;
    let first = fill(&rt, &mut heap)?;
    free_all(&rt, &mut heap, &first);
    let _second = fill(&rt, &mut heap)?;
    same(&rt, &heap.frees(), &25_294, &"frees");
    Ok(())
}
