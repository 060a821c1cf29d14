//! Freed slots, in the quarantine and given out again.
use super::calls::Step::{
    Addg, FirstWord, Free, Frees, HeaderIn, Load, LoadFault, Malloc, Pointer, StoreFault,
};
use super::calls::{Step, Trace, play, pointer, tag_fault};
use chunk_header::{Header, State};
use std::test::Fail;
use tagged_heap::FreeError;

// the first class of two, without a quarantine
const FIRST_OF_TWO_CLASSES: &[Step] = &[
    Malloc(1, 16),
    FirstWord(65_601),
    Free(1, Ok(())),
    FirstWord(65_603),
];

const RELEASED: &[Step] = &[
    Malloc(1, 16),
    Pointer(1, pointer!(1, 1)),
    FirstWord(65_601),
    Malloc(2, 16),
    Malloc(3, 16),
    Free(1, Ok(())),
    Pointer(2, pointer!(3, 2)),
    Pointer(3, pointer!(5, 1)),
    FirstWord(65_602),
    Free(2, Ok(())),
    Malloc(4, 16),
    Pointer(4, pointer!(7, 8)),
    Free(3, Ok(())),
    HeaderIn(
        0,
        Header {
            state: State::Freed,
            size: 16,
            tag: 1,
            class: 0,
            next: 0,
            mark: 0,
        },
    ),
    HeaderIn(
        2,
        Header {
            state: State::Quarantined,
            size: 16,
            tag: 2,
            class: 0,
            next: 3,
            mark: 32,
        },
    ),
    HeaderIn(
        4,
        Header {
            state: State::Quarantined,
            size: 16,
            tag: 1,
            class: 0,
            next: 0,
            mark: 64,
        },
    ),
    Malloc(5, 16),
    Pointer(5, pointer!(1, 3)),
    LoadFault(1, 0, 1, tag_fault!(1, 3, 1)),
    // refused frees draw nothing
    Free(1, Err(FreeError::WrongTag)),
    Free(2, Err(FreeError::NotLive)),
    Addg(6, 5, 1, 0),
    Free(6, Err(FreeError::Misplaced)),
    Free(0, Ok(())),
    Load(5, 0, &[0; 4]),
    Malloc(7, 16),
    Pointer(7, pointer!(9, 9)),
    Frees(3),
    LoadFault(7, 16, 1, tag_fault!(10, 0, 9)),
];

const LAST_FIRST: &[Step] = &[
    Malloc(1, 16),
    Malloc(2, 16),
    Free(1, Ok(())),
    FirstWord(65_603),
    Free(2, Ok(())),
    Malloc(3, 16),
    Pointer(3, pointer!(3, 4)),
    LoadFault(1, 0, 1, tag_fault!(1, 3, 1)),
    LoadFault(2, 0, 1, tag_fault!(3, 4, 2)),
];

// the last load succeeds: the next chunk of the slot was freed too, and the tag came again
const TAG_AGAIN: &[Step] = &[
    Malloc(1, 16),
    Free(1, Ok(())),
    Malloc(2, 16),
    LoadFault(1, 0, 1, tag_fault!(1, 5, 1)),
    Free(1, Err(FreeError::WrongTag)),
    StoreFault(1, -16, 8, tag_fault!(0, 0, 1)),
    Free(2, Ok(())),
    Load(1, 0, &[0]),
    Pointer(2, pointer!(1, 5)),
];

const TRACES: &[Trace] = &[
    ("quarantine releases past its limit", &[2], 64, RELEASED),
    ("first of two classes", &[2, 4], 0, FIRST_OF_TWO_CLASSES),
    ("freed last is given first", &[2], 0, LAST_FIRST),
    (
        "freed pointer faults until the next free",
        &[2],
        0,
        TAG_AGAIN,
    ),
];

#[test]
fn reuse(rt: HostRuntime) -> Result<(), Fail> {
    play(&rt, TRACES)
}
