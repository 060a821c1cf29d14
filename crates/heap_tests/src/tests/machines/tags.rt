//! Tags that are stored, and where they can't be.
use super::calls::Step::{Granules, Ldg, Load, Rgsr, SetTag, St2g, Stg, Store, Stzg};
use super::calls::{Step, play, pointer};
use crate::tests::support::same;
use std::test::Fail;
use tag_machine::Fault;

const STORED: &[Step] = &[
    Stg(pointer!(0, 9), pointer!(0, 0), Ok(())),
    Ldg(7, pointer!(0, 0) + 8, Ok((9 << 56) + 7)),
    St2g(pointer!(0, 4), pointer!(61, 2), Ok(())),
    Stg(pointer!(0, 8), pointer!(63, 0), Ok(())),
    Ldg(0, pointer!(0, 0), Ok(9 << 56)),
    Ldg(0, pointer!(1, 0), Ok(0)),
    Ldg(0, pointer!(60, 0), Ok(0)),
    Ldg(0, pointer!(61, 0), Ok(4 << 56)),
    Ldg(0, pointer!(62, 0), Ok(4 << 56)),
    Ldg(0, pointer!(63, 0), Ok(8 << 56)),
];

#[test]
fn stores_tags(rt: HostRuntime) -> Result<(), Fail> {
    play(&rt, STORED)
}

const EDGES: &[Step] = &[
    Stg(pointer!(0, 9), pointer!(63, 0), Ok(())),
    Stg(0, pointer!(0, 0) + 8, Err(Fault::Alignment)),
    St2g(0, pointer!(0, 0) + 8, Err(Fault::Alignment)),
    Stzg(0, pointer!(0, 0) + 8, Err(Fault::Alignment)),
    Stg(0, pointer!(0, 0) - 8, Err(Fault::Alignment)),
    St2g(0, pointer!(0, 0) - 8, Err(Fault::Alignment)),
    Stzg(0, pointer!(0, 0) - 8, Err(Fault::Alignment)),
    Stg(0, pointer!(0, 0) - 16, Err(Fault::Unmapped)),
    St2g(0, pointer!(0, 0) - 16, Err(Fault::Unmapped)),
    Stzg(0, pointer!(0, 0) - 16, Err(Fault::Unmapped)),
    Stg(0, pointer!(64, 0), Err(Fault::Unmapped)),
    St2g(0, pointer!(64, 0), Err(Fault::Unmapped)),
    Stzg(0, pointer!(64, 0), Err(Fault::Unmapped)),
    Stg(0, pointer!(0, 0) + (1 << 60), Err(Fault::Unmapped)),
    St2g(0, pointer!(0, 0) + (1 << 60), Err(Fault::Unmapped)),
    Stzg(0, pointer!(0, 0) + (1 << 60), Err(Fault::Unmapped)),
    St2g(pointer!(0, 2), pointer!(63, 0), Err(Fault::Unmapped)),
    Ldg(0, pointer!(63, 0), Ok(9 << 56)),
    Ldg(0, pointer!(0, 0) - 1, Err(Fault::Unmapped)),
    Ldg(0, pointer!(64, 0), Err(Fault::Unmapped)),
];

#[test]
fn refuses_tag_stores_at_the_edges(rt: HostRuntime) -> Result<(), Fail> {
    play(&rt, EDGES)
}

const ZEROED: &[Step] = &[
    Store(pointer!(0, 0), &[0xcc; 64], Ok(())),
    Stzg(pointer!(0, 6), pointer!(1, 0), Ok(())),
    Load(pointer!(0, 0), &[0xcc; 16]),
    Load(pointer!(1, 6), &[0; 16]),
    Load(pointer!(2, 0), &[0xcc; 16]),
];

#[test]
fn zeroes_a_granule(rt: HostRuntime) -> Result<(), Fail> {
    play(&rt, ZEROED)
}

const LENT: &[Step] = &[
    SetTag(5),
    Granules(64),
    Ldg(0, pointer!(0, 0), Ok(5 << 56)),
    Rgsr(0, 1),
];

#[test]
fn lends_its_memory(rt: HostRuntime) -> Result<(), Fail> {
    play(&rt, LENT)
}

const MISMATCH: Fault = Fault::TagCheck {
    granule: 2,
    memory_tag: 5,
    pointer_tag: 3,
};

const SHOWN: &[(Fault, &str)] = &[
    (Fault::Unmapped, "50 Unmapped"),
    (Fault::Alignment, "51 Alignment"),
    (MISMATCH, "52 TagCheck"),
];

#[test]
fn shows_faults_as_code_and_name(rt: HostRuntime) -> Result<(), Fail> {
    for (fault, text) in SHOWN {
        let shown = format!(in rt.alloc(); "{fault}")?;
        same(&rt, &shown.as_str(), text, fault);
    }
    Ok(())
}
