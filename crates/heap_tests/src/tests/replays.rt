//! The replay: each public call once. `crates/engine_tests/src/tests/engines/worked_replays.rt` has worked traces
//! with their reports.
use crate::tests::support::{config, same};
use arrayvec::ArrayVec;
use class_table::ClassTable;
use replay_core::Event::{Addg, Free, Load, Malloc, Store, Subg};
use replay_core::{Event, Replay, is_in_range};
use std::process::Abort;
use std::test::Fail;

// a new replay over 64 granules with seed 1
fn replay(
    rt: &(impl Abort + AllocGlobal),
    classes: &[u16],
    quarantine: u32,
) -> Result<Replay, Fail> {
    let table = ClassTable::from_classes(classes)?;
    Ok(Replay::new(rt.alloc(), &table, config(rt, quarantine))?)
}

// the line of a step, which is written over an old one
fn step(rt: &impl Abort, replay: &mut Replay, event: &Event) -> ArrayVec<u8, 160> {
    let mut line = ArrayVec::from([b'x'; 160]);
    assert!(rt; replay.steps() < 1 << 40 && is_in_range(event));
    replay.step(event, &mut line);
    line
}

// a trace with the line of each of its events
const STEPS: &[(Event, &str)] = &[
    (Malloc { v: 1, n: 16 }, ""),
    (
        Store {
            v: 1,
            off: 16,
            len: 1,
            byte: 0xaa,
        },
        "2 fault tag granule 2 memory 0 pointer 1 in header\n",
    ),
    (Malloc { v: 2, n: 0 }, ""),
    (
        Load {
            v: 1,
            off: 32,
            len: 1,
        },
        "4 fault tag granule 3 memory 2 pointer 1 in other\n",
    ),
    (Free { v: 1 }, ""),
    (
        Load {
            v: 1,
            off: 0,
            len: 1,
        },
        "6 fault tag granule 1 memory 3 pointer 1 in dead\n",
    ),
];

// of these steps, which are those of crates/mte_tool/stdin: scripts/tests/test_formats.py writes what the plain program counts
const TOTALS: &str =
    "events 6\nrequests 2\nnull large 0\nnull no-class 0\nnull exhausted 0\nfaults tag 3\nfaults unmapped 0\n\
    refused frees 0\nloss 16\n";

#[test]
fn steps_lines_and_totals(rt: HostRuntime) -> Result<(), Fail> {
    let mut replay = replay(&rt, &[2], 64)?;
    same(&rt, &replay.steps(), &0, &"steps");
    for (event, line) in STEPS {
        let written = step(&rt, &mut replay, event);
        same(&rt, &written.as_slice(), &line.as_bytes(), event);
    }
    same(&rt, &replay.steps(), &6, &"steps");
    has_totals(&rt, &replay);
    Ok(())
}

fn has_totals(rt: &impl Abort, replay: &Replay) {
    let mut text = ArrayVec::from([b'x'; 512]);
    replay.totals().write(&mut text);
    same(rt, &text.as_slice(), &TOTALS.as_bytes(), &"the totals");
}

// whether the events are in range
const RANGES: &[(Event, bool)] = &[
    (
        Malloc {
            v: 1023,
            n: 2_147_483_647,
        },
        true,
    ),
    (Malloc { v: 1024, n: 0 }, false),
    (
        Malloc {
            v: 0,
            n: 2_147_483_648,
        },
        false,
    ),
    (Free { v: 1024 }, false),
    (
        Load {
            v: 0,
            off: -1_048_576,
            len: 64,
        },
        true,
    ),
    (
        Load {
            v: 0,
            off: 1_048_577,
            len: 64,
        },
        false,
    ),
    (
        Load {
            v: 0,
            off: 0,
            len: 0,
        },
        false,
    ),
    (
        Load {
            v: 0,
            off: 0,
            len: 65,
        },
        false,
    ),
    (
        Store {
            v: 1023,
            off: 1_048_576,
            len: 1,
            byte: 255,
        },
        true,
    ),
    (
        Addg {
            v: 0,
            w: 1023,
            u6: 63,
            u4: 15,
        },
        true,
    ),
    (
        Addg {
            v: 0,
            w: 1024,
            u6: 0,
            u4: 0,
        },
        false,
    ),
    (
        Addg {
            v: 0,
            w: 0,
            u6: 64,
            u4: 0,
        },
        false,
    ),
    (
        Subg {
            v: 0,
            w: 0,
            u6: 0,
            u4: 16,
        },
        false,
    ),
];

#[test]
fn ranges_of_events(rt: HostRuntime) {
    for (event, is_one) in RANGES {
        same(&rt, &is_in_range(event), is_one, event);
    }
}
