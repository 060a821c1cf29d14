//! `footprint`, `peaks`, `fit` and `check-fit` over timelines, however their text is cut.
use super::pieces::{Case, check};
use crate::tests::calls::call;
use std::process::Abort;
use std::test::Fail;

// a block of each class is live; the last line lacks its newline; then faults: of a free, of a word, of one that is too long before it ends, and
// of the line before it
const FOOTPRINTS: &[Case] = &[
    Case(
        "classes 2 4\ntimeline\n16\n40\n-16\n16\n-40\n-16\n",
        "footprint 96\n",
        "done",
    ),
    Case("classes 2\ntimeline\n16\n16", "footprint 64\n", "done"),
    Case("classes 2\ntimeline", "footprint 0\n", "done"),
    Case("classes 2\ntimeline\n16\n40", "not serving 40\n", "no"),
    Case(
        "classes 2\ntimeline\nlarge\n-large\n-large\n",
        "",
        "error 38 NotLive line 5",
    ),
    Case(
        "classes 2\ntimeline\n16\n1x",
        "",
        "error 37 BadTimeline line 4",
    ),
    Case(
        "classes 2\ntimeline\n16\n-1636800\n-17\n",
        "",
        "error 37 BadTimeline line 4",
    ),
    Case(
        "classes 2\ntimeline\n-16\n12345678",
        "",
        "error 38 NotLive line 3",
    ),
    Case("classes 2\ntimelines\n", "", "error 34 BadSnapshots line 2"),
];

const PEAKS: &[Case] = &[
    Case(
        "classes 2 4\ntimeline\n16\n16\n-16\n40\n",
        "peaks 2 1\nmoments 2 4\nlive 96\nfreed 1\n",
        "done",
    ),
    Case(
        "classes 2 8\ntimeline\nlarge\n16\n-16\n16\n-large",
        "peaks 1 0\nmoments 2 0\nlive 32\nfreed 1\n",
        "done",
    ),
    Case(
        "classes\ntimeline\n",
        "peaks\nmoments\nlive 0\nfreed 0\n",
        "done",
    ),
    Case("classes 2\ntimeline\n16\n40", "not serving 40\n", "no"),
    Case(
        "classes 2\nsnapshots 1\n",
        "",
        "error 37 BadTimeline line 2",
    ),
    Case("classes 2", "", "error 37 BadTimeline line 2"),
    Case("classes 2\ntimeline\n-16\n", "", "error 38 NotLive line 3"),
];

const FITS: &[Case] = &[
    Case(
        "timeline\n16\n-16\n",
        "classes 2\nlimit 1\nfootprint 32\nrow 32\nmoments 1\n",
        "done",
    ),
    Case("timeline\n16\n\n", "", "error 37 BadTimeline line 3"),
    Case("timelines\n16\n", "", "error 34 BadSnapshots line 1"),
];

// the events are read as they come
const EVENTS_AS_THEY_COME: &[Case] = &[
    Case(
        "classes 2\nlimit 1\nfootprint 32\nrow 32\nmoments 1\ntimeline\n16\n-16\n",
        "optimal\n",
        "done",
    ),
    Case(
        "classes 2\nlimit 1\nfootprint 32\nrow 32\nmoments 1\ntimeline\n16",
        "optimal\n",
        "done",
    ),
    Case(
        "classes 2\nlimit 1\nstep 2\nfootprint 32\nrow 32\nmoments 1\ntimeline\n16\n-16\n",
        "optimal\n",
        "done",
    ),
    Case(
        "classes 2 1024\nlimit 2\nforced 1024\nfootprint 32\nrow 16384 0\nrow 32 0\nmoments 1\ntimeline\n16\n-16\n",
        "optimal\n",
        "done",
    ),
    Case(
        "classes 2\nlimit 1\nfootprint 32\nrow 32\nmoments 3\ntimeline\n16\n-16\n",
        "refused 53 NotMoments\n",
        "no",
    ),
    Case(
        "classes 2\nlimit 1\nfootprint 32\nrow 32\nmoments 1\ntimeline\n-16\n",
        "",
        "error 38 NotLive line 7",
    ),
    Case(
        "classes 2\nlimit 1\nfootprint 32\nrow 32\nmoments 1\ntimeline\n16\n1x",
        "",
        "error 37 BadTimeline line 8",
    ),
    Case(
        "classes 2\nlimit 1\nfootprint 32\nrow 32\nmoments 1\ntimeline\ntimeline\n",
        "",
        "error 37 BadTimeline line 7",
    ),
    Case(
        "classes 2\nlimit 1\nfootprint 32\nrow 32\nrow 32\nmoments 1\ntimeline\n-16\n",
        "",
        "error 38 NotLive line 8",
    ),
];

// the text is kept: no line of events comes, the line of the moments is missing or is there twice, or the fit is faulty
const TEXTS_THAT_ARE_KEPT: &[Case] = &[
    Case(
        "classes 2\nlimit 1\nfootprint 32\nrow 32\nmoments 1\ntimeline",
        "refused 53 NotMoments\n",
        "no",
    ),
    Case(
        "classes 2\nlimit 1\nfootprint 32\nrow 32\nmoments 1\n",
        "",
        "error 37 BadTimeline line 6",
    ),
    Case(
        "classes 2\nlimit 1\nfootprint 32\nrow 32\nmoments 1\ntimelines\n16\n",
        "",
        "error 37 BadTimeline line 6",
    ),
    Case(
        "classes 2\nlimit 1\nfootprint 32\nrow 32\nmoments 1\nmoments 1\ntimeline\n16\n",
        "",
        "error 37 BadTimeline line 6",
    ),
    Case(
        "classes 2\nlimit 1\nfootprint 32\nrow 32\ntimeline\n16\n",
        "",
        "error 34 BadSnapshots line 5",
    ),
    Case(
        "classes 2\nlimit 1\nfootprint 32\nrow 32\nsnapshots 1\n16 1\n",
        "optimal\n",
        "done",
    ),
    Case(
        "classes 2\nlimit 1\nfootprint 32\nrow 32\nsnapshots 1\n16 1\ntimeline\n",
        "",
        "error 30 BadLine line 7",
    ),
    Case(
        "classes 2\nlimit 1\nfootprint 32\nrow 32\nmoments 1 1\ntimeline\n-16\n",
        "",
        "error 36 BadFit line 5",
    ),
    Case(
        "classes 2\nlimit 1\nfootprint x\nrow 32\nmoments 1\ntimeline\n-16\n",
        "",
        "error 36 BadFit line 3",
    ),
    Case(
        "classes 2\nlimit 1\ntimeline\n16\n",
        "",
        "error 36 BadFit line 3",
    ),
    Case("timeline\n16\n", "", "error 36 BadFit line 1"),
];

#[test]
fn timelines_in_pieces(rt: HostRuntime) -> Result<(), Fail> {
    check(&rt, call!(Footprint), FOOTPRINTS)?;
    check(&rt, call!(Peaks), PEAKS)?;
    check(&rt, call!(Fit, limit: 1), FITS)
}

#[test]
fn fits_and_timelines_in_pieces(rt: HostRuntime) -> Result<(), Fail> {
    check(&rt, call!(CheckFit), EVENTS_AS_THEY_COME)?;
    check(&rt, call!(CheckFit), TEXTS_THAT_ARE_KEPT)
}
