//! Chunks that are resized in place, and chunks that move.
use super::calls::Step::{
    Free, Frees, Kind, Load, LoadFault, Malloc, NoRealloc, Pointer, Realloc, Store,
};
use super::calls::{Step, Trace, play, pointer, tag_fault};
use std::test::Fail;
use tagged_heap::{FreeError, NullCause, PlaceKind, ReallocError};

const IN_PLACE_AND_MOVED: &[Step] = &[
    Malloc(1, 5),
    Store(1, 0, 0xab, 4),
    LoadFault(1, 16, 1, tag_fault!(2, 0, 1)),
    Realloc(2, 1, 32),
    Pointer(2, pointer!(1, 1)),
    Load(1, 16, &[0]),
    Realloc(2, 1, 33),
    Load(2, 0, &[0xab, 0xab, 0xab, 0xab, 0, 0]),
    LoadFault(1, 0, 1, tag_fault!(1, 3, 1)),
    NoRealloc(1, 8, ReallocError::Refused(FreeError::NotLive)),
    NoRealloc(2, 65, ReallocError::Null(NullCause::NoClass)),
    Realloc(3, 2, 3),
    Pointer(1, pointer!(1, 1)),
    Pointer(3, pointer!(1, 15)),
    Frees(2),
    Realloc(4, 0, 16),
    Pointer(4, pointer!(4, 10)),
];

const SHRUNK: &[Step] = &[
    Malloc(1, 32),
    Pointer(1, pointer!(1, 1)),
    Realloc(2, 1, 16),
    Pointer(2, pointer!(1, 1)),
    LoadFault(1, 16, 1, tag_fault!(2, 0, 1)),
    Kind(0, PlaceKind::Header),
    Kind(1, PlaceKind::Other),
    Kind(2, PlaceKind::Tail),
    Kind(63, PlaceKind::Slack),
    Free(1, Ok(())),
    Kind(1, PlaceKind::Dead),
];

const STAYS_LIVE: &[Step] = &[
    Malloc(1, 16),
    Malloc(2, 480),
    NoRealloc(1, 100, ReallocError::Null(NullCause::Exhausted)),
    Load(1, 0, &[0]),
    Pointer(2, pointer!(33, 1)),
    Free(1, Ok(())),
];

// the chunk's 3 bytes, and what its new place held
const COPIED: &[u8] = &[
    0xab, 0xab, 0xab, 0xee, 0xee, 0xee, 0xee, 0xee, 0xee, 0xee, 0xee, 0xee, 0xee, 0xee, 0xee, 0xee,
    0xee, 0xee, 0xee, 0xee, 0xee, 0xee, 0xee, 0xee, 0xee, 0xee, 0xee, 0xee, 0xee, 0xee, 0xee, 0xee,
    0xee, 0xee, 0xee, 0xee, 0xee, 0xee, 0xee, 0xee, 0xee, 0xee, 0xee, 0xee, 0xee, 0xee, 0xee, 0xee,
];

const SMALLER: &[Step] = &[
    Malloc(1, 64),
    Store(1, 0, 0xee, 64),
    Free(1, Ok(())),
    Malloc(2, 3),
    Store(2, 0, 0xab, 16),
    Realloc(3, 2, 40),
    Load(3, 0, COPIED),
];

const TRACES: &[Trace] = &[
    ("resizes in place and moves", &[3, 5], 0, IN_PLACE_AND_MOVED),
    ("shrunk chunk leaves a tail", &[3], 0, SHRUNK),
    ("refused chunk stays live", &[2, 31], 0, STAYS_LIVE),
    ("smaller size is copied", &[2, 5], 0, SMALLER),
];

#[test]
fn reallocs(rt: HostRuntime) -> Result<(), Fail> {
    play(&rt, TRACES)
}
