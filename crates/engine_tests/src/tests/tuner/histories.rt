//! Histories, worked by hand.
use crate::tests::support::same;
use class_table::{ClassTable, LARGEST_COUNTED};
use history_count::{History, TableFootprint, footprint_of_text};
use std::process::Abort;
use std::test::Fail;

// blocks of 16 and 40 bytes, and large ones, at three snapshots
const THREE: &str = "snapshots 3\n16 4 0 1\n40 2 3 0\nlarge 0 1 0\n";

// sizes that are live at different moments: a class for each takes more than one for both
const APART: &str = "snapshots 2\n16 5 0\n32 0 5";

// a history's text, the classes of a table, and what the table takes
const FOOTPRINTS: &[(&str, &[u16], u64)] = &[
    (THREE, &[2, 4], 4 * 32 + 3 * 64),
    (THREE, &[2, 3, 4], 4 * 32 + 3 * 64),
    (THREE, &[4], 6 * 64),
    (THREE, &[2, 1024], 4 * 32 + 3 * 16_384),
    (APART, &[3], 5 * 48),
    (APART, &[2, 3], 5 * 32 + 5 * 48),
    ("snapshots 1024\n", &[], 0),
    ("snapshots 1\nlarge 1000000000\n", &[], 0),
    (
        "snapshots 2\n0 0 1000000000\n16360 1000000000 0\n",
        &[1024],
        1_000_000_000 * 16_384,
    ),
];

fn history(rt: &impl AllocGlobal, text: &str) -> Result<History, Fail> {
    let history = History::read(rt.alloc(), text.as_bytes());
    Ok(history.ok().ok_or("a history")?)
}

fn table(classes: &[u16]) -> Result<ClassTable, Fail> {
    Ok(ClassTable::from_classes(classes).ok().ok_or("a table")?)
}

// what the table takes over the history of a text
fn footprint_of_classes(
    rt: &impl AllocGlobal,
    text: &str,
    classes: &[u16],
) -> Result<TableFootprint, Fail> {
    let taken = footprint_of_text(rt.alloc(), text.as_bytes(), &table(classes)?);
    Ok(taken.ok().ok_or("a history")?)
}

#[test]
fn footprints(rt: HostRuntime) -> Result<(), Fail> {
    for (text, classes, bytes) in FOOTPRINTS {
        let taken = footprint_of_classes(&rt, text, classes)?;
        same(
            &rt,
            &taken,
            &TableFootprint::Bytes(*bytes),
            &(text, classes),
        );
    }
    Ok(())
}

#[test]
fn unserved_sizes(rt: HostRuntime) -> Result<(), Fail> {
    let taken = footprint_of_classes(&rt, THREE, &[2])?;
    same(&rt, &taken, &TableFootprint::Unserved(40), &"class 2");
    Ok(())
}

#[test]
fn a_history(rt: HostRuntime) -> Result<(), Fail> {
    let history = history(&rt, THREE)?;
    has_snapshots(&rt, &history);
    has_peaks(&rt, &history);
    Ok(())
}

// the snapshots of the first history
fn has_snapshots(rt: &impl Abort, history: &History) {
    same(rt, &history.snapshot_count(), &3, &"snapshots");
    let lines = history.lines();
    same(rt, &lines.sizes, &[16, 40].as_slice(), &"sizes");
    let mut of_40 = [2, 3, 0].iter();
    for column in lines.columns {
        same(rt, &column.len(), &2, &"lines");
        same(rt, &column.get(1), &of_40.next(), &"blocks of 40 bytes");
    }
    same(rt, &of_40.next(), &None, &"the last snapshot");
    let large = history.large();
    same(rt, &large, &[0, 1, 0].as_slice(), &"large blocks");
}

// sizes, and their peaks in it
const PEAKS: &[(u32, u32)] = &[(0, 0), (16, 4), (17, 0), (40, 3), (LARGEST_COUNTED, 0)];

fn has_peaks(rt: &impl Abort, history: &History) {
    let peaks = history.peaks();
    for (n, peak) in PEAKS {
        same(rt, &peaks.count(*n), peak, n);
    }
    same(rt, &peaks.large(), &0, &"large peaks");
}

// texts, and how they are refused
const REFUSED: &[(&str, &str)] = &[
    ("", "34 BadSnapshots line 1"),
    ("\nsnapshots 1\n", "34 BadSnapshots line 1"),
    ("16 1\n", "34 BadSnapshots line 1"),
    ("snapshots\n", "34 BadSnapshots line 1"),
    ("snapshots 0\n", "34 BadSnapshots line 1"),
    ("snapshots 1025\n", "34 BadSnapshots line 1"),
    ("snapshots 01\n", "34 BadSnapshots line 1"),
    ("snapshots 1 1\n", "34 BadSnapshots line 1"),
    ("snapshots 1\nsnapshots 1\n", "30 BadLine line 2"),
    ("snapshots 1\n16369 1\n", "30 BadLine line 2"),
    ("snapshots 1\n16 1\n\n", "30 BadLine line 3"),
    // the faults of a line, each before the later ones
    ("snapshots 2\n16 1 2\n16 0 x 0\n", "30 BadLine line 3"),
    ("snapshots 2\nlarge 1 2\nlarge 0\n", "30 BadLine line 3"),
    ("snapshots 2\n16 1 2\n16 0 0 0\n", "35 WrongLength line 3"),
    ("snapshots 2\n16 1 2\n16\n", "35 WrongLength line 3"),
    ("snapshots 2\n16 1 2\nlarge 0\n", "35 WrongLength line 3"),
    ("snapshots 2\n16 1 2\n16 0 0\n", "31 NotAscending line 3"),
    ("snapshots 2\n16 1 2\n15 1 1\n", "31 NotAscending line 3"),
    ("snapshots 2\n16 1 2\n17 0 0\n", "32 CountOutOfRange line 3"),
    (
        "snapshots 2\n16 1 2\nlarge 0 0\n",
        "32 CountOutOfRange line 3",
    ),
    (
        "snapshots 2\n16 1 1000000001\n",
        "32 CountOutOfRange line 2",
    ),
    (
        "snapshots 2\n16 1 18446744073709551616\n",
        "32 CountOutOfRange line 2",
    ),
];

// how a text is refused; nothing where it is a history
fn refusal(rt: &impl AllocGlobal, text: &str) -> Result<String, Fail> {
    match History::read(rt.alloc(), text.as_bytes()) {
        Ok(_) => Ok(String::new(rt.alloc())),
        Err(error) => Ok(format!(in rt.alloc(); "{error}")?),
    }
}

#[test]
fn refused_histories(rt: HostRuntime) -> Result<(), Fail> {
    for (text, wanted) in REFUSED {
        let shown = refusal(&rt, text)?;
        same(&rt, &shown.as_str(), wanted, text);
    }
    Ok(())
}
