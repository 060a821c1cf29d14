//! Loads and stores, at every edge and over several granules.
use super::calls::Step::{Bytes, Load, LoadFault, Stg, Store};
use super::calls::{Step, play, pointer};
use std::test::Fail;
use tag_machine::Fault;

// the address of granule 0
const START: u64 = pointer!(0, 0);

const EDGES: &[Step] = &[
    Bytes(START, 1, true),
    Bytes(START - 1, 1, false),
    Bytes(START - 1, 2, false),
    Bytes(START + 1023, 1, true),
    Bytes(START + 1023, 2, false),
    Bytes(START + 1024, 1, false),
    Bytes(START + 960, 64, true),
    Bytes(START + 961, 64, false),
    Bytes(START + (1 << 60), 1, false),
    Bytes(START + (15 << 60), 1, false),
    Bytes(0, 64, false),
    Bytes((1 << 56) - 1, 64, false),
    Bytes(u64::MAX, 64, false),
];

#[test]
fn accesses_at_the_edges(rt: HostRuntime) -> Result<(), Fail> {
    play(&rt, EDGES)
}

// the numbers from 1 up to 64
const NUMBERS: &[u8] = &[
    1, 2, 3, 4, 5, 6, 7, 8, 9, 10, 11, 12, 13, 14, 15, 16, 17, 18, 19, 20, 21, 22, 23, 24, 25, 26,
    27, 28, 29, 30, 31, 32, 33, 34, 35, 36, 37, 38, 39, 40, 41, 42, 43, 44, 45, 46, 47, 48, 49, 50,
    51, 52, 53, 54, 55, 56, 57, 58, 59, 60, 61, 62, 63, 64,
];

// the numbers from 9 up to 64, and then 0
const FROM_NINE: &[u8] = &[
    9, 10, 11, 12, 13, 14, 15, 16, 17, 18, 19, 20, 21, 22, 23, 24, 25, 26, 27, 28, 29, 30, 31, 32,
    33, 34, 35, 36, 37, 38, 39, 40, 41, 42, 43, 44, 45, 46, 47, 48, 49, 50, 51, 52, 53, 54, 55, 56,
    57, 58, 59, 60, 61, 62, 63, 64, 0, 0, 0, 0, 0, 0, 0, 0,
];

const OF_FIVE_AND_THREE: Fault = Fault::TagCheck {
    granule: 6,
    memory_tag: 5,
    pointer_tag: 3,
};

const OVER_GRANULES: &[Step] = &[
    Stg(pointer!(0, 3), pointer!(2, 0), Ok(())),
    Stg(pointer!(0, 3), pointer!(3, 0), Ok(())),
    Stg(pointer!(0, 3), pointer!(4, 0), Ok(())),
    Stg(pointer!(0, 3), pointer!(5, 0), Ok(())),
    Stg(pointer!(0, 3), pointer!(6, 0), Ok(())),
    // 64 bytes over five granules, read over one and over four
    Store(pointer!(2, 3) + 8, NUMBERS, Ok(())),
    Load(
        pointer!(2, 3),
        &[0, 0, 0, 0, 0, 0, 0, 0, 1, 2, 3, 4, 5, 6, 7, 8],
    ),
    Load(pointer!(3, 3), FROM_NINE),
    // the tag of the fifth granule counts where the access ends in it
    Stg(pointer!(0, 5), pointer!(6, 0), Ok(())),
    LoadFault(pointer!(2, 3) + 8, 64, OF_FIVE_AND_THREE),
    Load(
        pointer!(2, 3),
        &[0, 0, 0, 0, 0, 0, 0, 0, 1, 2, 3, 4, 5, 6, 7, 8],
    ),
];

#[test]
fn accesses_over_granules(rt: HostRuntime) -> Result<(), Fail> {
    play(&rt, OVER_GRANULES)
}

const LOWEST: Fault = Fault::TagCheck {
    granule: 2,
    memory_tag: 5,
    pointer_tag: 3,
};

const TWO_FAULTS: &[Step] = &[
    Stg(pointer!(0, 3), pointer!(0, 0), Ok(())),
    Stg(pointer!(0, 3), pointer!(1, 0), Ok(())),
    Stg(pointer!(0, 5), pointer!(2, 0), Ok(())),
    Stg(pointer!(0, 6), pointer!(3, 0), Ok(())),
    Store(pointer!(0, 3), &[0xff; 64], Err(LOWEST)),
    LoadFault(pointer!(0, 3), 64, LOWEST),
    // no byte was written, those of the good granules neither
    Load(pointer!(0, 3), &[0; 16]),
    Load(pointer!(1, 3), &[0; 16]),
    Load(pointer!(2, 5), &[0; 16]),
    Load(pointer!(3, 6), &[0; 16]),
];

#[test]
fn refuses_by_the_lowest_granule(rt: HostRuntime) -> Result<(), Fail> {
    play(&rt, TWO_FAULTS)
}
