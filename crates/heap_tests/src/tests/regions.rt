//! The region and its granules: each call once.
use crate::tests::support::same;
use granule_memory::Memory;
use raw_region::RawRegion;
use std::process::Abort;
use std::test::Fail;

#[test]
fn each_call_of_a_region(rt: HostRuntime) -> Result<(), Fail> {
    let mut region = RawRegion::new(rt.alloc(), 24)?;
    has_words(&rt, &mut region);
    has_runs(&rt, &mut region);
    Ok(())
}

fn has_words(rt: &impl Abort, region: &mut RawRegion) {
    assert!(rt; region.len() == 24);
    same(rt, &region.word(16), &0, &"the word at 16");
    region.set_word(3, 0x0807_0605_0403_0201);
    let bytes = (region.byte(3), region.byte(10));
    same(rt, &bytes, &(1, 8), &"bytes 3 and 10");
    region.set_byte(4, 0xff);
    let word = region.word(3);
    same(rt, &word, &0x0807_0605_0403_ff01, &"the word at 3");
}

const RUN: [u8; 10] = [0, 1, 0xff, 0xaa, 0xaa, 0xaa, 0xaa, 0xaa, 8, 0];

fn has_runs(rt: &impl Abort, region: &mut RawRegion) {
    assert!(rt; region.len() == 24);
    region.fill(5, 10, 0xaa);
    region.write_bytes(20, b"tags");
    let mut run = [0; 10];
    region.read_bytes(2, &mut run);
    same(rt, &run, &RUN, &"a run of bytes");
    let mut end = [0; 4];
    region.read_bytes(20, &mut end);
    same(rt, &&end, &b"tags", &"the end");
    let mut into = [0; 64];
    region.read_into(20, 4, &mut into);
    same(rt, &&into[..4], &&b"tags"[..], &"in a longer buffer");
    region.fill_few(0, 3, 7);
    let ends = (region.byte(0), region.byte(2), region.byte(3));
    same(rt, &ends, &(7, 7, 1), &"a few bytes");
}

#[test]
fn each_call_of_a_memory(rt: HostRuntime) -> Result<(), Fail> {
    let mut memory = Memory::new(rt.alloc(), 64)?;
    has_bytes(&rt, &mut memory);
    joins_bytes(&rt, &mut memory);
    has_tags(&rt, &mut memory);
    Ok(())
}

fn has_bytes(rt: &impl Abort, memory: &mut Memory) {
    assert!(rt; memory.granules() == 64);
    let new = (memory.tag(63), memory.byte(63, 15));
    same(rt, &new, &(0, 0), &"a new memory");
    memory.set_tag(63, 15);
    memory.set_word(63, 1, 65_601);
    let mut run = [0xff; 8];
    memory.read_bytes(63 * 16 + 8, &mut run);
    same(rt, &run, &[0x41, 0, 1, 0, 0, 0, 0, 0], &"a run of bytes");
    let mut into = [0xff; 64];
    memory.read_into(63 * 16 + 8, 8, &mut into);
    same(rt, &&into[..8], &&run[..], &"in a longer buffer");
    memory.fill_bytes(3, 60, 7);
    let first = (memory.byte(0, 2), memory.byte(0, 3));
    let last = (memory.byte(3, 14), memory.byte(3, 15));
    same(rt, &(first, last), &((0, 7), (7, 0)), &"sixty bytes");
}

fn joins_bytes(rt: &impl Abort, memory: &mut Memory) {
    assert!(rt; memory.granules() == 64);
    memory.set_byte(63, 15, 1);
    memory.write_bytes(63 * 16 - 2, &[1, 2, 3, 4]);
    let before = (memory.byte(62, 14), memory.byte(62, 15));
    same(rt, &before, &(1, 2), &"the bytes before");
    let words = (memory.word(63, 0), memory.word(63, 1));
    same(rt, &words, &(0x0403, 0x0100_0000_0001_0041), &"both words");
}

fn has_tags(rt: &impl Abort, memory: &mut Memory) {
    assert!(rt; memory.granules() == 64);
    memory.zero_granule(63);
    let zeros = (memory.word(63, 0), memory.word(63, 1), memory.tag(63));
    same(rt, &zeros, &(0, 0, 15), &"a granule of zeros");
    same(rt, &memory.byte(62, 15), &2, &"the byte before");
    memory.set_tags(60, 3, 9);
    let before = (memory.tag(59), memory.tag(60));
    same(rt, &before, &(0, 9), &"the first tags");
    let after = (memory.tag(62), memory.tag(63));
    same(rt, &after, &(9, 15), &"the last tags");
}
