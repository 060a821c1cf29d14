//! Sizes, tables of classes and profiles.
use crate::tests::support::same;
use class_table::{ClassTable, TableError, loss, need, serves};
use profile_count::{CountFull, GREATEST_COUNT, Profile};
use std::process::Abort;
use std::test::Fail;

// bytes, the granules that they need, and what they lose in a block of four granules that serves them
const IN_CLASS_4: &[(u32, u32, u32)] = &[
    (0, 2, 48),
    (1, 2, 47),
    (16, 2, 32),
    (17, 3, 31),
    (32, 3, 16),
    (33, 4, 15),
    (48, 4, 0),
];

#[test]
fn sizes_and_classes(rt: HostRuntime) {
    for (n, granules, lost) in IN_CLASS_4 {
        same(&rt, &need(*n), granules, n);
        assert!(rt; serves(*n, 4), "{n} in class 4");
        same(&rt, &loss(*n, 4), lost, n);
    }
    assert!(rt; !serves(49, 4));
    same(&rt, &need(16_368), &1024, &16_368);
}

// sizes, and the numbers of their classes
const FOUND: &[(u32, Option<usize>)] = &[
    (0, Some(0)),
    (16, Some(0)),
    (17, Some(1)),
    (48, Some(1)),
    (49, Some(2)),
    (16_368, Some(2)),
    (16_369, None),
    (u32::MAX, None),
];

#[test]
fn tables(rt: HostRuntime) -> Result<(), Fail> {
    let table = ClassTable::from_classes(&[2, 4, 1024])?;
    same(&rt, &table.len(), &3, &"the length");
    assert!(rt; !table.is_empty());
    let class = table.class(1);
    same(&rt, &class, &4, &"class 1");
    for (n, number) in FOUND {
        same(&rt, &table.find(*n), number, n);
    }
    Ok(())
}

// classes that are no table
const FAULTS: &[(&[u16], TableError)] = &[
    (&[1], TableError::OutOfRange),
    (&[1025], TableError::OutOfRange),
    (&[2, 2], TableError::NotAscending),
    (&[0; 33], TableError::TooMany),
];

#[test]
fn refused_tables(rt: HostRuntime) {
    for (classes, fault) in FAULTS {
        let refused = ClassTable::from_classes(classes).err();
        same(&rt, &refused, &Some(*fault), classes);
    }
}

// sizes, and their counts in the profile below
const COUNTS: &[(u32, u32)] = &[(0, 0), (16, 3), (17, 0), (40, 1), (16_368, 0)];

// class lines, and the least size of the profile below that is not served
const UNSERVED: &[(&[u8], Option<u16>)] = &[(b"classes 2\n", Some(40)), (b"classes 2 4\n", None)];

#[test]
fn profiles(rt: HostRuntime) -> Result<(), Fail> {
    let profile = Profile::read(rt.alloc(), b"16 3\n40 1\nlarge 2\n")?;
    same(&rt, &profile.large(), &2, &"large requests");
    for (n, count) in COUNTS {
        same(&rt, &profile.count(*n), count, n);
    }
    has_unserved(&rt, &profile, UNSERVED)
}

// the least sizes of the profile that these tables do not serve
fn has_unserved(
    rt: &impl Abort,
    profile: &Profile,
    cases: &[(&[u8], Option<u16>)],
) -> Result<(), Fail> {
    for (line, size) in cases {
        let table = ClassTable::read_line(line)?;
        same(rt, &profile.unserved(&table), size, line);
    }
    Ok(())
}

// sizes in bytes that are added one by one, and the text with their profile
const ADDED: &[(&[u32], &str)] = &[
    (&[], "before\n"),
    (&[0], "before\n0 1\n"),
    (&[16_368, 16_369], "before\n16368 1\nlarge 1\n"),
    (&[17, 16, 17, 0], "before\n0 1\n16 1\n17 2\n"),
    (&[u32::MAX, 16_369, 1 << 31], "before\nlarge 3\n"),
    (
        &[5, 32, 33, 8, 65, 3, 16],
        "before\n3 1\n5 1\n8 1\n16 1\n32 1\n33 1\n65 1\n",
    ),
];

#[test]
fn added_requests_are_written(rt: HostRuntime) -> Result<(), Fail> {
    for (sizes, wanted) in ADDED {
        let mut profile = Profile::new(rt.alloc())?;
        adds(&rt, &mut profile, sizes);
        is_written(&rt, &profile, wanted)?;
    }
    Ok(())
}

fn adds(rt: &impl Abort, profile: &mut Profile, sizes: &[u32]) {
    for size in sizes {
        same(rt, &profile.add(*size), &Ok(()), &(size, sizes));
    }
}

// a profile whose counts are the greatest ones is written as it was read
#[test]
fn full_counts_are_written(rt: HostRuntime) -> Result<(), Fail> {
    let text = b"0 1000000000\n16368 1000000000\nlarge 1000000000\n";
    let profile = Profile::read(rt.alloc(), text)?;
    let wanted = "before\n0 1000000000\n16368 1000000000\nlarge 1000000000\n";
    is_written(&rt, &profile, wanted)
}

// the profile is written after another line
fn is_written(
    rt: &(impl Abort + AllocGlobal),
    profile: &Profile,
    wanted: &str,
) -> Result<(), Fail> {
    let mut text = Vec::from_slice(rt.alloc(), b"before\n")?;
    let written = profile.write(&mut text);
    // where a growth is refused, the text is as before
    let wanted = if written.is_ok() { wanted } else { "before\n" };
    same(rt, &text.as_slice(), &wanted.as_bytes(), &"the text");
    Ok(written?)
}

// requests of full counts, and the last one that is counted
const MORE: &[(u32, Result<(), CountFull>)] = &[
    (16, Err(CountFull)),
    (16_369, Err(CountFull)),
    (u32::MAX, Err(CountFull)),
    (15, Ok(())),
    (15, Err(CountFull)),
];

#[test]
fn a_full_count_stays(rt: HostRuntime) -> Result<(), Fail> {
    let text = b"15 999999999\n16 1000000000\nlarge 1000000000\n";
    let mut profile = Profile::read(rt.alloc(), text)?;
    for (n, added) in MORE {
        same(&rt, &profile.add(*n), added, n);
    }
    same(&rt, &profile.count(15), &GREATEST_COUNT, &"15");
    same(&rt, &profile.count(16), &GREATEST_COUNT, &"16");
    same(&rt, &profile.large(), &1_000_000_000, &"large requests");
    Ok(())
}
