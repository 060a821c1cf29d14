//! The code and the name of each error, as a user of the libraries sees it.
use super::support::same;
use class_table::TableError;
use history_count::{HistoryError, HistoryFault, TimelineError, TimelineFault};
use potential_check::SheetError;
use profile_count::{CountFull, ProfileError, ProfileFault};
use std::fmt::Display;
use std::process::Abort;
use std::test::Fail;
use tagged_heap::{FreeError, NullCause, ReallocError};
use trace_reader::{TraceError, TraceFault};

// Fails if the errors have other texts.
fn check_texts<E: Display>(
    rt: &(impl Abort + AllocGlobal),
    errors: &[(E, &'static str)],
) -> Result<(), Fail> {
    for (error, wanted) in errors {
        is_shown(rt, error, wanted)?;
    }
    Ok(())
}

fn is_shown<E: Display>(
    rt: &(impl Abort + AllocGlobal),
    error: &E,
    wanted: &str,
) -> Result<(), Fail> {
    let text = format!(in rt.alloc(); "{error}")?;
    same(rt, &text.as_str(), &wanted, &"an error");
    Ok(())
}

const NULLS: &[(NullCause, &str)] = &[
    (NullCause::Large, "60 Large"),
    (NullCause::NoClass, "61 NoClass"),
    (NullCause::Exhausted, "62 Exhausted"),
];

const FREES: &[(FreeError, &str)] = &[
    (FreeError::Misplaced, "63 Misplaced"),
    (FreeError::NotLive, "64 NotLive"),
    (FreeError::WrongTag, "65 WrongTag"),
];

const REALLOCS: &[(ReallocError, &str)] = &[
    (ReallocError::Null(NullCause::Large), "60 Large"),
    (ReallocError::Null(NullCause::NoClass), "61 NoClass"),
    (ReallocError::Null(NullCause::Exhausted), "62 Exhausted"),
    (ReallocError::Refused(FreeError::Misplaced), "63 Misplaced"),
    (ReallocError::Refused(FreeError::NotLive), "64 NotLive"),
    (ReallocError::Refused(FreeError::WrongTag), "65 WrongTag"),
];

const TABLES: &[(TableError, &str)] = &[
    (TableError::TooMany, "20 TooMany"),
    (TableError::OutOfRange, "21 OutOfRange"),
    (TableError::NotAscending, "22 NotAscending"),
    (TableError::BadLine, "23 BadLine"),
];

const PROFILES: &[(ProfileError, &str)] = &[
    (ProfileError::OutOfMemory, "1 OutOfMemory"),
    (
        ProfileError::Line(1, ProfileFault::BadLine),
        "30 BadLine line 1",
    ),
    (
        ProfileError::Line(20, ProfileFault::NotAscending),
        "31 NotAscending line 20",
    ),
    (
        ProfileError::Line(300, ProfileFault::CountOutOfRange),
        "32 CountOutOfRange line 300",
    ),
];

const COUNTS: &[(CountFull, &str)] = &[(CountFull, "33 CountFull")];

const HISTORIES: &[(HistoryError, &str)] = &[
    (HistoryError::OutOfMemory, "1 OutOfMemory"),
    (
        HistoryError::Line(1, HistoryFault::BadSnapshots),
        "34 BadSnapshots line 1",
    ),
    (
        HistoryError::Line(2, HistoryFault::WrongLength),
        "35 WrongLength line 2",
    ),
    (
        HistoryError::Line(30, HistoryFault::Counted(ProfileFault::BadLine)),
        "30 BadLine line 30",
    ),
];

const TIMELINES: &[(TimelineError, &str)] = &[
    (TimelineError::OutOfMemory, "1 OutOfMemory"),
    (
        TimelineError::Line(1, TimelineFault::BadTimeline),
        "37 BadTimeline line 1",
    ),
    (
        TimelineError::Line(40, TimelineFault::NotLive),
        "38 NotLive line 40",
    ),
];

const SHEETS: &[(SheetError, &str)] = &[
    (SheetError::OutOfMemory, "1 OutOfMemory"),
    (SheetError::BadSheet(4), "48 BadSheet line 4"),
];

const FITS: &[(SheetError, &str)] = &[
    (SheetError::OutOfMemory, "1 OutOfMemory"),
    (SheetError::BadFit(3), "36 BadFit line 3"),
];

const TRACES: &[(TraceError, &str)] = &[
    (TraceError::OutOfMemory, "1 OutOfMemory"),
    (
        TraceError::Line(1, TraceFault::BadWord),
        "70 BadWord line 1",
    ),
    (
        TraceError::Line(2, TraceFault::BadNumber),
        "71 BadNumber line 2",
    ),
    (
        TraceError::Line(3, TraceFault::OutOfRange),
        "72 OutOfRange line 3",
    ),
    (
        TraceError::Line(999_999, TraceFault::LineTooLong),
        "73 LineTooLong line 999999",
    ),
    (
        TraceError::Line(1_000_001, TraceFault::TooManyEvents),
        "74 TooManyEvents line 1000001",
    ),
];

#[test]
fn refusals_of_the_heap(rt: HostRuntime) -> Result<(), Fail> {
    check_texts(&rt, NULLS)?;
    check_texts(&rt, FREES)?;
    check_texts(&rt, REALLOCS)
}

#[test]
fn faults_of_texts(rt: HostRuntime) -> Result<(), Fail> {
    check_texts(&rt, TABLES)?;
    check_texts(&rt, PROFILES)?;
    check_texts(&rt, COUNTS)?;
    check_texts(&rt, HISTORIES)?;
    check_texts(&rt, TIMELINES)?;
    check_texts(&rt, SHEETS)?;
    check_texts(&rt, FITS)?;
    check_texts(&rt, TRACES)
}
