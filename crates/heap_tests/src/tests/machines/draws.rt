//! Parts of addresses, tags that are drawn, and tags that are stepped up.
use super::calls::Step::{Addg, Gmi, Irg, Offset, Rgsr, Subg};
use super::calls::{Step, play, pointer};
use crate::tests::support::same;
use std::test::Fail;
use tag_machine::{logical_tag, place_of, with_tag};

#[test]
fn parts_of_an_address(rt: HostRuntime) -> Result<(), Fail> {
    let address = 0xF512_3456_789A_BCDE;
    same(&rt, &logical_tag(address), &5, &"the tag");
    same(
        &rt,
        &place_of(address),
        &0x0012_3456_789A_BCDE,
        &"the place",
    );
    same(
        &rt,
        &with_tag(address, 10),
        &0xFA12_3456_789A_BCDE,
        &"the address with tag 10",
    );
    Ok(())
}

const THREE_TAGS: &[Step] = &[
    Irg(pointer!(5, 9), 0x5555, pointer!(5, 1)),
    Rgsr(1, 0x1000),
    Irg(pointer!(5, 9), 0xAAAB, pointer!(5, 2)),
    Rgsr(2, 0x0100),
    Irg(pointer!(5, 9), 0x5557, pointer!(5, 3)),
    Rgsr(3, 0x8010),
];

#[test]
fn draws_three_tags(rt: HostRuntime) -> Result<(), Fail> {
    play(&rt, THREE_TAGS)
}

const NINE_OFFSETS: &[Step] = &[
    Irg(pointer!(0, 0), 0x5555, pointer!(0, 1)),
    Offset(1),
    Irg(pointer!(0, 0), 0xAAAB, pointer!(0, 2)),
    Offset(0),
    Irg(pointer!(0, 0), 0x5555, pointer!(0, 1)),
    Offset(8),
    Irg(pointer!(0, 0), 0x5557, pointer!(0, 13)),
    Offset(6),
    Irg(pointer!(0, 0), 0xAAAF, pointer!(0, 14)),
    Offset(1),
    Irg(pointer!(0, 0), 0xAAAB, pointer!(0, 8)),
    Offset(4),
    Irg(pointer!(0, 0), 0x5557, pointer!(0, 15)),
    Offset(4),
    Irg(pointer!(0, 0), 0x5557, pointer!(0, 3)),
    Offset(1),
    Irg(pointer!(0, 0), 0x5555, pointer!(0, 9)),
    Offset(11),
];

#[test]
fn draws_nine_offsets(rt: HostRuntime) -> Result<(), Fail> {
    play(&rt, NINE_OFFSETS)
}

const STEPS_UP: &[Step] = &[
    Addg(pointer!(5, 15), 0, 1, pointer!(5, 1)),
    Addg(pointer!(5, 1), 2, 15, pointer!(7, 1)),
    Subg(pointer!(5, 15), 3, 1, pointer!(2, 1)),
    Addg(0xffff_ffff_ffff_fff0, 1, 0, 15 << 56),
    Subg(0, 1, 0, 0xf1ff_ffff_ffff_fff0),
    Gmi(pointer!(5, 3), 0, 8),
    Rgsr(0, 1),
];

#[test]
fn steps_tags_up(rt: HostRuntime) -> Result<(), Fail> {
    play(&rt, STEPS_UP)
}
