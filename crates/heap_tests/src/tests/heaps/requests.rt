//! Requests, and why they are refused.
use super::calls::Step::{
    Addg, Calloc, Free, Load, LoadFault, Malloc, Mapped, NoRealloc, Null, Pointer, Store,
};
use super::calls::{Step, Trace, play, pointer, tag_fault};
use std::test::Fail;
use tag_machine::Fault;
use tagged_heap::{FreeError, NullCause, ReallocError};

const NULLS: &[Step] = &[
    Malloc(1, 100),
    Null(1, NullCause::Exhausted),
    Null(1009, NullCause::NoClass),
    Null(16_369, NullCause::Large),
    Load(1, 96, &[0; 16]),
    LoadFault(1, 104, 16, tag_fault!(8, 0, 1)),
    LoadFault(1, -16, 1, tag_fault!(0, 0, 1)),
    LoadFault(1, -17, 1, Fault::Unmapped),
    LoadFault(1, 1008, 1, Fault::Unmapped),
    Mapped(0, 1, false),
];

const REFUSALS: &[Step] = &[
    Malloc(1, 16),
    Addg(2, 1, 0, 1),
    Free(1, Ok(())),
    Free(2, Err(FreeError::NotLive)),
    NoRealloc(1, 16_369, ReallocError::Refused(FreeError::NotLive)),
    Null(16_369, NullCause::Large),
    Null(17, NullCause::NoClass),
];

const ZEROED: &[Step] = &[
    Malloc(1, 16),
    Store(1, 0, 0x5a, 4),
    Load(1, 2, &[0x5a, 0x5a, 0, 0]),
    Free(1, Ok(())),
    Malloc(2, 16),
    Load(2, 0, &[0x5a; 4]),
    Free(2, Ok(())),
    Calloc(3, 3),
    Load(3, 0, &[0; 4]),
    Pointer(1, pointer!(1, 1)),
    Pointer(2, pointer!(1, 5)),
    Pointer(3, pointer!(1, 3)),
];

const TAIL_KEPT: &[Step] = &[
    Malloc(1, 32),
    Store(1, 0, 0xee, 32),
    Free(1, Ok(())),
    Calloc(2, 1),
    Free(2, Ok(())),
    Malloc(3, 32),
    Load(3, 0, &[0; 16]),
    Load(3, 16, &[0xee; 16]),
];

const TRACES: &[Trace] = &[
    ("three ways to get null", &[64], 0, NULLS),
    ("refusals come in their order", &[2], 0, REFUSALS),
    ("calloc zeroes its granules", &[2], 0, ZEROED),
    ("calloc keeps the tail", &[3], 0, TAIL_KEPT),
];

#[test]
fn requests(rt: HostRuntime) -> Result<(), Fail> {
    play(&rt, TRACES)
}
