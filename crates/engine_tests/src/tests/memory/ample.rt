//! With ample memory nothing is refused: at each limit and step, at sizes about each power of two, at each number of rows, at each line.
use super::support::profile as worked_profile;
use crate::tests::calls::{call, ends};
use crate::tests::engines::score_texts::SCORE;
use crate::tests::support::{HEAP, same};
use class_table::{ClassTable, LARGEST_COUNTED, is_step};
use class_tuner::tune;
use granule_memory::Memory;
use mte_engine::Call;
use potential_check::{OfWaste, Sheet, SheetError, Verdict, check, read_sheet, write_sheet};
use profile_count::Profile;
use raw_region::RawRegion;
use replay_core::{Config, Replay};
use std::process::Abort;
use std::test::Fail;
use trace_reader::TraceReader;

#[test]
fn each_limit_and_step(rt: HostRuntime) -> Result<(), Fail> {
    let profile = worked_profile(&rt)?;
    for limit in 1..=32 {
        for step in [1, 2, 4, 8] {
            is_tuned(&rt, &profile, limit, step)?;
        }
    }
    Ok(())
}

fn is_tuned(
    rt: &(impl Abort + AllocGlobal),
    profile: &Profile,
    limit: u8,
    step: u8,
) -> Result<(), Fail> {
    assert!(rt; limit >= 1 && limit <= 32 && is_step(step));
    let tuned = tune(rt.alloc(), profile, limit, step, false)?;
    let verdict = check(rt.alloc(), profile, tuned.sheet())?;
    assert!(rt; verdict == Verdict::Optimal, "limit {limit} step {step}");
    is_read(rt, tuned.sheet())
}

// the sheet that is written is read
fn is_read(rt: &(impl Abort + AllocGlobal), sheet: &Sheet) -> Result<(), Fail> {
    let mut text = Vec::new(rt.alloc());
    write_sheet(sheet, &mut text)?;
    let read: Sheet = read_sheet(rt.alloc(), &text)?;
    same(rt, &read.cost, &sheet.cost, &(sheet.limit, sheet.step));
    Ok(())
}

// one granule fewer than each power of two, as many, and one more
const SIZES: &[u32] = &[
    64, 65, 127, 128, 129, 255, 256, 257, 511, 512, 513, 1_023, 1_024, 1_025, 2_047, 2_048, 2_049,
    4_095, 4_096, 4_097, 8_191, 8_192, 8_193, 16_383, 16_384, 16_385, 32_767, 32_768, 32_769,
    65_535, 65_536, 65_537, 131_071, 131_072, 131_073, 262_143, 262_144,
];

// Regions, memories and replays of these sizes.
#[test]
fn sizes_about_each_power_of_two(rt: HostRuntime) -> Result<(), Fail> {
    for granules in SIZES {
        has_size(&rt, *granules)?;
    }
    Ok(())
}

fn has_size(rt: &(impl Abort + AllocGlobal), granules: u32) -> Result<(), Fail> {
    region_has_size(rt, granules)?;
    assert!(rt; granules >= 64 && granules <= 262_144);
    let memory = Memory::new(rt.alloc(), granules)?;
    same(rt, &memory.granules(), &granules, &granules);
    replay_has_size(rt, granules)
}

fn region_has_size(rt: &(impl Abort + AllocGlobal), size: u32) -> Result<(), Fail> {
    assert!(rt; size >= 64 && size <= 262_144);
    let region = RawRegion::new(rt.alloc(), size as usize)?;
    same(rt, &region.len(), &(size as usize), &size);
    Ok(())
}

fn replay_has_size(rt: &(impl Abort + AllocGlobal), granules: u32) -> Result<(), Fail> {
    assert!(rt; granules >= 64 && granules <= 262_144);
    let table = ClassTable::from_classes(&[2, 4, 1024])?;
    let config = Config { granules, ..HEAP };
    let replay = Replay::new(rt.alloc(), &table, config)?;
    same(rt, &replay.steps(), &0, &granules);
    Ok(())
}

// A sheet has one row for each class up to its limit; the checker judges any number of rows, and a 33rd line is faulty.
#[test]
fn sheets_of_each_number_of_rows(rt: HostRuntime) -> Result<(), Fail> {
    let mut text = Vec::from_slice(rt.alloc(), b"classes 2 4\nlimit 32\nwaste 8\n")?;
    for rows in 0..=32 {
        let read: Sheet = read_sheet(rt.alloc(), &text)?;
        same(&rt, &read.rows.len(), &rows, &"rows");
        text.extend_from_slice(b"row 104 8\n")?;
    }
    let read = read_sheet::<OfWaste>(rt.alloc(), &text);
    assert!(rt; matches!(read, Err(SheetError::BadSheet(36))));
    Ok(())
}

// Each line is fed alone, so every number of lines and of events up to a million comes up.
#[test]
fn a_trace_of_a_million_lines(rt: HostRuntime) -> Result<(), Fail> {
    let mut reader = TraceReader::new(rt.alloc());
    for line in 0..1_000_000 {
        assert!(rt; !reader.is_finished());
        assert!(rt; reader.feed(b"free 1023\n").is_ok(), "line {line}");
    }
    assert!(rt; !reader.is_finished());
    assert!(rt; reader.finish().is_ok());
    same(&rt, &reader.events().len(), &1_000_000, &"events");
    Ok(())
}

// Inputs whose number of lines is a power of two, one less or one more.
#[test]
fn engines_about_each_power_of_two(rt: HostRuntime) -> Result<(), Fail> {
    let mut power: usize = 1;
    for _digits in 0..20 {
        engines_on(&rt, power.saturating_sub(1))?;
        engines_on(&rt, power)?;
        engines_on(&rt, power.saturating_add(1))?;
        power = power.saturating_mul(2);
    }
    Ok(())
}

const RUN: Call = call!(Run, limit: 1);

fn engines_on(rt: &(impl Abort + AllocGlobal), lines: usize) -> Result<(), Fail> {
    let text = "free 0\n".as_bytes().repeat(rt.alloc(), lines)?;
    ends(rt, call!(Profile), &text, "done")?;
    ends(rt, RUN, &text, "done")?;
    ends(rt, SCORE, &text, "error 23 BadLine line 1")
}

// All sizes are counted; the profile of the first of them is written and read.
#[test]
fn profiles_of_each_power_of_two(rt: HostRuntime) -> Result<(), Fail> {
    let mut counted = Profile::new(rt.alloc())?;
    let mut next: u32 = 1;
    for n in 0..LARGEST_COUNTED + 1 {
        assert!(rt; counted.add(n).is_ok());
        if n == next || n + 1 == next || n == LARGEST_COUNTED {
            is_counted(&rt, &counted, n)?;
        }
        if n > next {
            next *= 2;
        }
    }
    Ok(())
}

fn is_counted(rt: &(impl Abort + AllocGlobal), counted: &Profile, n: u32) -> Result<(), Fail> {
    assert!(rt; n <= LARGEST_COUNTED);
    let mut text = Vec::new(rt.alloc());
    counted.write(&mut text)?;
    let read = Profile::read(rt.alloc(), &text)?;
    same(rt, &read.count(n), &1, &n);
    Ok(())
}
