//! Verdicts on small sheets, worked by hand; some of them no reader gives.
use crate::tests::support::same;
use class_table::ClassTable;
use potential_check::{Refusal, Rows, Sheet, Verdict, check};
use profile_count::Profile;
use std::alloc::Global;
use std::marker::PhantomData;
use std::process::Abort;
use std::test::Fail;

// the largest number that a row can have
const MOST: u64 = u64::MAX;

const OPTIMAL: Verdict = Verdict::Optimal;

const OFF_STEP: Verdict = Verdict::Refused(Refusal::OffStep);

const OVER_LIMIT: Verdict = Verdict::Refused(Refusal::OverLimit);

const NOT_SERVING: Verdict = Verdict::Refused(Refusal::NotServing);

const WASTE_WRONG: Verdict = Verdict::Refused(Refusal::WasteWrong);

const SHAPE: Verdict = Verdict::Refused(Refusal::Shape);

const LAST_CLASS: Verdict = Verdict::Refused(Refusal::LastClass);

const STAGE_DROP: Verdict = Verdict::Refused(Refusal::StageDrop);

const EDGE: Verdict = Verdict::Refused(Refusal::Edge);

const NOT_TIGHT: Verdict = Verdict::Refused(Refusal::NotTight);

// a sheet's classes, limit, step, waste and rows, and the verdict on it
type Case = (
    &'static [u16],
    u8,
    u8,
    u64,
    &'static [&'static [u64]],
    Verdict,
);

// One class for all needs up to place 1 wastes nothing, up to place 2 it wastes 104 bytes, and from place 1 up to 2 it wastes 8.
const TWO_NEEDS: &[u8] = b"16 3\n40 1\n";

const TWO_NEEDS_CASES: &[Case] = &[
    (&[4], 1, 1, 104, &[&[104, 8]], OPTIMAL),
    (&[2, 4], 2, 1, 8, &[&[104, 8], &[8, 8]], OPTIMAL),
    (&[4], 2, 4, 104, &[&[104], &[104]], OPTIMAL),
    // one fault
    (&[2, 4], 1, 1, 8, &[&[8, 8]], OVER_LIMIT),
    (&[2], 2, 1, 0, &[&[0, 0], &[0, 0]], NOT_SERVING),
    (&[4], 2, 1, 8, &[&[104, 8], &[8, 8]], WASTE_WRONG),
    (&[2, 4], 2, 1, 8, &[&[104, 8], &[8, 8], &[8, 8]], SHAPE),
    (&[2, 4], 2, 1, 8, &[&[104, 8], &[8, 8, 0]], SHAPE),
    (&[2, 4], 2, 1, 8, &[&[104, 9], &[8, 8]], LAST_CLASS),
    (&[2, 4], 2, 1, 8, &[&[104, MOST], &[8, 8]], LAST_CLASS),
    (&[2, 4], 2, 1, 8, &[&[4, 8], &[8, 8]], STAGE_DROP),
    (&[4], 2, 1, 104, &[&[0, 0], &[0, 0]], NOT_TIGHT),
    // several faults
    (&[2], 0, 1, 0, &[], OVER_LIMIT),
    (&[2, 4], 1, 1, 8, &[&[104, 8]], OVER_LIMIT),
    (&[], 0, 1, 1, &[], NOT_SERVING),
    (&[2], 2, 1, 0, &[&[104, 8], &[8, 8]], NOT_SERVING),
    (&[2, 4], 2, 1, 9, &[&[104, 8]], WASTE_WRONG),
    (&[2, 4], 2, 1, 8, &[&[104, 8]], SHAPE),
    (&[2, 4], 2, 1, 8, &[&[105, 8]], SHAPE),
    (&[2, 4], 2, 1, 8, &[&[105, 8], &[8, 9]], LAST_CLASS),
    (&[2, 4], 2, 1, 8, &[&[104, 8], &[8, 9]], STAGE_DROP),
    (&[2, 4], 2, 1, 8, &[&[104, 8], &[MOST, 8]], STAGE_DROP),
    (&[2, 4], 2, 1, 8, &[&[104, 8], &[9, 8]], EDGE),
];

// With a step of 2 there are the needs 2 and 4, with a step of 8 there is 8 alone.
const THREE_NEEDS: &[u8] = b"16 1\n32 1\n48 1\n";

const THREE_NEEDS_CASES: &[Case] = &[
    (&[2, 4], 2, 1, 16, &[&[48, 16, 0], &[16, 0, 0]], OPTIMAL),
    (&[3, 4], 2, 1, 16, &[&[48, 16, 0], &[16, 0, 0]], OPTIMAL),
    (&[2, 4], 2, 2, 16, &[&[48, 16], &[16, 16]], OPTIMAL),
    (&[8], 1, 8, 240, &[&[240]], OPTIMAL),
    (&[2, 4], 2, 1, 16, &[&[48, 16], &[16, 16]], SHAPE),
    (&[2, 4], 2, 0, 16, &[&[48, 16], &[16, 16]], OFF_STEP),
    (&[2, 4], 2, 3, 16, &[&[48, 16], &[16, 16]], OFF_STEP),
    (&[2, 3, 4], 3, 8, 0, &[&[0], &[0], &[0]], OFF_STEP),
    (&[2, 3, 4], 2, 2, 0, &[&[48, 16], &[16, 16]], OFF_STEP),
];

// One class for the first two needs wastes 16 bytes: the number 160 is too much for this edge, and for no other.
const LONG_EDGE: &[u8] = b"16 1\n32 10\n48 1\n";

const LONG_EDGE_CASES: &[Case] = &[(&[2, 4], 2, 1, 160, &[&[192, 160, 0], &[160, 0, 0]], EDGE)];

// Large requests have no class. A limit of 0 allows the table without classes alone, and its certificate has no row.
const NOTHING_COUNTED: &[u8] = b"large 5\n";

const NOTHING_COUNTED_CASES: &[Case] = &[
    (&[], 1, 1, 0, &[&[]], OPTIMAL),
    (&[], 0, 1, 0, &[], OPTIMAL),
    (&[2], 0, 1, 0, &[], OVER_LIMIT),
    (&[2, 4], 2, 1, 8, &[], WASTE_WRONG),
    (&[], 0, 1, 0, &[&[]], SHAPE),
    (&[], 255, 1, 0, &[], SHAPE),
];

fn verdict_on(alloc: Global, profile: &Profile, case: &Case) -> Result<Verdict, Fail> {
    let (classes, limit, step, waste, numbers, _wanted) = *case;
    let mut rows = Vec::new(alloc);
    for row in numbers {
        rows.push(row.to_vec(alloc)?)?;
    }
    let sheet = Sheet {
        table: ClassTable::from_classes(classes)?,
        limit,
        step,
        forced: false,
        cost: waste,
        rows: Rows::new(rows),
        of: PhantomData,
    };
    Ok(check(alloc, profile, &sheet)?)
}

const GROUPS: &[(&[u8], &[Case])] = &[
    (TWO_NEEDS, TWO_NEEDS_CASES),
    (THREE_NEEDS, THREE_NEEDS_CASES),
    (LONG_EDGE, LONG_EDGE_CASES),
    (NOTHING_COUNTED, NOTHING_COUNTED_CASES),
];

#[test]
fn verdicts(rt: HostRuntime) -> Result<(), Fail> {
    for (text, cases) in GROUPS {
        let profile = Profile::read(rt.alloc(), text)?;
        judges(&rt, &profile, cases)?;
    }
    Ok(())
}

// the verdicts on these sheets for the profile
fn judges(rt: &(impl Abort + AllocGlobal), profile: &Profile, cases: &[Case]) -> Result<(), Fail> {
    for case in cases {
        let verdict = verdict_on(rt.alloc(), profile, case)?;
        same(rt, &verdict, &case.5, case);
    }
    Ok(())
}
