//! Which accesses are faults.
use super::calls::Step::{
    Addg, Free, Load, LoadFault, MakeUp, Malloc, Mapped, Pointer, Store, StoreFault, Subg,
};
use super::calls::{Step, Trace, play, pointer, tag_fault};
use std::test::Fail;
use tag_machine::Fault;
use tagged_heap::FreeError;

const HEADERS: &[Step] = &[
    Malloc(1, 16),
    Pointer(1, pointer!(1, 1)),
    StoreFault(1, 8, 16, tag_fault!(2, 0, 1)),
    StoreFault(1, -16, 8, tag_fault!(0, 0, 1)),
    Load(1, 0, &[0; 16]),
    MakeUp(2, pointer!(1, 1) + (1 << 60)),
    Free(2, Err(FreeError::Misplaced)),
    Mapped(1, 16, true),
    Mapped(2, 16, false),
];

const NEIGHBOURS: &[Step] = &[
    Malloc(1, 16),
    StoreFault(1, 16, 1, tag_fault!(2, 0, 1)),
    Malloc(2, 0),
    Pointer(2, pointer!(3, 2)),
    LoadFault(1, 32, 1, tag_fault!(3, 2, 1)),
    Free(1, Ok(())),
    LoadFault(1, 0, 1, tag_fault!(1, 3, 1)),
];

const TWO_GRANULES: &[Step] = &[Malloc(1, 16), LoadFault(1, 16, 32, tag_fault!(2, 0, 1))];

const TAILS: &[Step] = &[
    Malloc(1, 1),
    LoadFault(1, 992, 1, tag_fault!(63, 0, 1)),
    LoadFault(1, 48, 1, tag_fault!(4, 0, 1)),
    Malloc(2, 32),
    Free(2, Ok(())),
    Malloc(3, 16),
    Pointer(2, pointer!(4, 2)),
    Pointer(3, pointer!(4, 6)),
    LoadFault(3, 16, 1, tag_fault!(5, 0, 6)),
];

const UP_AND_DOWN: &[Step] = &[
    Malloc(1, 16),
    Pointer(1, pointer!(1, 1)),
    Malloc(2, 16),
    Pointer(2, pointer!(3, 2)),
    Store(2, 0, 0xc3, 2),
    Addg(3, 1, 2, 1),
    Load(3, 0, &[0xc3, 0xc3, 0]),
    Pointer(3, pointer!(3, 2)),
    Subg(4, 3, 2, 14),
    Load(4, 0, &[0]),
    Pointer(4, pointer!(1, 1)),
];

const MADE_POINTER: &[Step] = &[
    Malloc(1, 16),
    Malloc(2, 16),
    Addg(3, 1, 2, 1),
    Free(3, Ok(())),
    LoadFault(3, 0, 1, tag_fault!(3, 6, 2)),
    Subg(4, 1, 4, 0),
    LoadFault(4, 0, 1, Fault::Unmapped),
    Addg(5, 1, 1, 0),
    StoreFault(5, 0, 16, tag_fault!(2, 0, 1)),
    LoadFault(2, 0, 16, tag_fault!(3, 6, 2)),
    Free(2, Err(FreeError::NotLive)),
];

const TRACES: &[Trace] = &[
    ("headers are out of reach", &[2], 0, HEADERS),
    (
        "header neighbour and dead chunk fault",
        &[2, 4],
        64,
        NEIGHBOURS,
    ),
    ("lowest granule is reported", &[2], 0, TWO_GRANULES),
    ("shorter chunk leaves a tail", &[3], 0, TAILS),
    ("addg and subg reach the neighbour", &[2], 0, UP_AND_DOWN),
    (
        "chunk freed by a made pointer is dead",
        &[2],
        64,
        MADE_POINTER,
    ),
];

#[test]
fn accesses(rt: HostRuntime) -> Result<(), Fail> {
    play(&rt, TRACES)
}
