//! Traces, and what `replay` and `run` write for them over 64 granules with seed 1. All totals that the tests of this crate expect stand
//! here, counted by hand.
use super::pieces::Case;
use crate::tests::totals::totals;

/// What `replay` writes for no events.
pub const NO_EVENTS: &str = totals!("");

/// A request over a table without classes.
pub const NO_CLASS: &str = "classes\nmalloc 1 16\n";

/// Its report.
pub const NO_CLASS_REPORT: &str =
    totals!("1 null no-class\n", events: 1, requests: 1, null_no_class: 1);

/// Accesses to a header, to a neighbour and to a freed block.
pub const TRACE: &str =
    "malloc 1 16\nstore 1 16 1 aa\nmalloc 2 0\nload 1 32 1\nfree 1\nload 1 0 1\n";

/// What `replay` writes for it over class 2, or over classes 2 and 4, with a quarantine of 64 bytes.
pub const REPORT: &str = totals!(
    "2 fault tag granule 2 memory 0 pointer 1 in header\n4 fault tag granule 3 memory 2 pointer 1 in other\n\
     6 fault tag granule 1 memory 3 pointer 1 in dead\n",
    events: 6, requests: 2, faults_tag: 3, loss: 16
);

/// What `run` writes for it, for two classes at most.
pub const TUNED: &str = totals!(
    "classes 2\nlimit 2\nwaste 16\nrow 16\nrow 16\n2 fault tag granule 2 memory 0 pointer 1 in header\n\
     4 fault tag granule 3 memory 2 pointer 1 in other\n6 fault tag granule 1 memory 3 pointer 1 in dead\n",
    events: 6, requests: 2, faults_tag: 3, loss: 16
);

/// The same with classes that are multiples of four granules.
pub const TUNED_BY_FOURS: &str = totals!(
    "classes 4\nlimit 2\nstep 4\nwaste 80\nrow 80\nrow 80\n2 fault tag granule 2 memory 0 pointer 1 in tail\n\
     4 fault tag granule 3 memory 0 pointer 1 in tail\n6 fault tag granule 1 memory 3 pointer 1 in dead\n",
    events: 6, requests: 2, faults_tag: 3, loss: 80
);

/// The totals after so many of its events.
pub const AFTER_ONE: &str = totals!("", events: 1, requests: 1);

/// The same where the request is of 15 bytes.
pub const AFTER_ONE_OF_15: &str = totals!("", events: 1, requests: 1, loss: 15);

/// After two.
pub const AFTER_TWO: &str = totals!("", events: 2, requests: 1, faults_tag: 1);

/// After three.
pub const AFTER_THREE: &str = totals!("", events: 3, requests: 2, faults_tag: 1, loss: 16);

/// After four.
pub const AFTER_FOUR: &str = totals!("", events: 4, requests: 2, faults_tag: 2, loss: 16);

/// After five.
pub const AFTER_FIVE: &str = totals!("", events: 5, requests: 2, faults_tag: 2, loss: 16);

/// After six.
pub const AFTER_SIX: &str = totals!("", events: 6, requests: 2, faults_tag: 3, loss: 16);

/// Runs without requests, for one class at most.
pub const NO_REQUESTS: &[Case] = &[
    Case("", totals!("classes\nlimit 1\nwaste 0\nrow\n"), "done"),
    Case(
        "free 0",
        totals!("classes\nlimit 1\nwaste 0\nrow\n", events: 1),
        "done",
    ),
];

/// What `run` writes for a million frees of null, for one class at most.
pub const MILLION_FREES: &str = totals!("classes\nlimit 1\nwaste 0\nrow\n", events: 1000000);

/// Tables without and with many classes, and the ways to get null, without a quarantine.
pub const TABLES: &[Case] = &[
    Case(NO_CLASS, NO_CLASS_REPORT, "done"),
    Case("classes 2", NO_EVENTS, "done"),
    // the most classes, in a line of 158 bytes; a share of two granules has one slot of the first class, and none of another
    Case(
        "classes 2 994 995 996 997 998 999 1000 1001 1002 1003 1004 1005 1006 1007 1008 1009 1010 1011 1012 1013 1014 1015 1016 \
         1017 1018 1019 1020 1021 1022 1023 1024\nmalloc 1 1\nmalloc 1 1\nmalloc 1 17\nmalloc 1 16360\n",
        totals!(
            "2 null exhausted\n3 null exhausted\n4 null exhausted\n",
            events: 4, requests: 4, null_exhausted: 3, loss: 15
        ),
        "done",
    ),
    Case(
        "classes 64\nmalloc 1 100\nmalloc 2 1\nmalloc 3 1009\nmalloc 4 16369\nload 1 96 16\nload 1 104 16\nload 2 0 1\n\
                 load 1 -16 1\nload 1 -17 1\nload 1 1008 1",
        totals!(
            "2 null exhausted\n3 null no-class\n4 null large\n5 data 00000000000000000000000000000000\n\
                 6 fault tag granule 8 memory 0 pointer 1 in tail\n7 fault unmapped\n\
                 8 fault tag granule 0 memory 0 pointer 1 in header\n9 fault unmapped\n10 fault unmapped\n",
            events: 10, requests: 4, null_large: 1, null_no_class: 1, null_exhausted: 1, faults_tag: 2, faults_unmapped: 3, loss: 908
        ),
        "done",
    ),
];

/// Ends of chunks, bytes that stay, and tags that come again, without a quarantine.
pub const TAILS_AND_BYTES: &[Case] = &[
    Case(
        "classes 2\nmalloc 1 16\nload 1 8 16\nload 1 16 32\n",
        totals!(
            "2 fault tag granule 2 memory 0 pointer 1 in header\n3 fault tag granule 2 memory 0 pointer 1 in header\n",
            events: 3, requests: 1, faults_tag: 2
        ),
        "done",
    ),
    Case(
        "classes 3\nmalloc 1 1\nload 1 992 1\nload 1 48 1\nmalloc 2 32\nfree 2\nmalloc 2 16\nload 2 16 1\n",
        totals!(
            "2 fault tag granule 63 memory 0 pointer 1 in slack\n3 fault tag granule 4 memory 0 pointer 1 in tail\n\
                 7 fault tag granule 5 memory 0 pointer 6 in tail\n",
            events: 7, requests: 3, faults_tag: 3, loss: 47
        ),
        "done",
    ),
    Case(
        "classes 2\nmalloc 1 16\nstore 1 0 4 5a\nload 1 2 4\nfree 1\nmalloc 1 16\nload 1 0 4\nfree 1\ncalloc 1 3\nload 1 0 16\n",
        totals!(
            "3 data 5a5a0000\n6 data 5a5a5a5a\n9 data 00000000000000000000000000000000\n",
            events: 9, requests: 3, loss: 13
        ),
        "done",
    ),
    Case(
        "classes 2\nmalloc 1 16\nmalloc 2 16\nstore 2 0 2 c3\naddg 3 1 2 1\nload 3 0 3\nsubg 3 3 2 14\nload 3 0 1\n",
        totals!("5 data c3c300\n7 data 00\n", events: 7, requests: 2),
        "done",
    ),
    Case(
        "classes 2\nmalloc 1 16\nfree 1\nmalloc 2 16\nload 1 0 1\nfree 1\nstore 1 -16 8 ff\nfree 2\nload 1 0 1\n",
        totals!(
            "4 fault tag granule 1 memory 5 pointer 1 in other\n5 refused wrong-tag\n\
                 6 fault tag granule 0 memory 0 pointer 1 in header\n8 data 00\n",
            events: 8, requests: 2, faults_tag: 2, refused_frees: 1
        ),
        "done",
    ),
];

/// Reallocs in place and to other classes, without a quarantine.
pub const REALLOCS: &[Case] = &[Case(
    "classes 3 5\nmalloc 1 5\nstore 1 0 4 ab\nload 1 16 1\nrealloc 1 32\nload 1 16 1\naddg 2 1 0 0\nrealloc 1 33\nload 1 0 6\n\
             load 2 0 1\nrealloc 2 8\nrealloc 1 65\nload 1 32 1\nrealloc 1 3\nload 1 0 4\nrealloc 3 16\nload 3 0 1\n",
    totals!(
        "3 fault tag granule 2 memory 0 pointer 1 in tail\n5 data 00\n8 data abababab0000\n\
             9 fault tag granule 1 memory 3 pointer 1 in dead\n10 refused not-live\n11 null no-class\n12 data 00\n14 data abababab\n\
             16 data 00\n",
        events: 16, requests: 7, null_no_class: 1, faults_tag: 2, refused_frees: 1, loss: 103
    ),
    "done",
)];

/// Frees with a quarantine of 64 bytes.
pub const QUARANTINES: &[Case] = &[
    Case(
        "classes 2 4\nmalloc 1 16\nstore 1 16 1 aa\nmalloc 2 0\nload 1 32 1\nfree 1\nload 1 0 1\n",
        REPORT,
        "done",
    ),
    Case(
        "classes 2\nmalloc 1 16\nmalloc 2 16\nmalloc 3 16\nfree 1\nfree 2\nmalloc 4 16\nfree 3\nmalloc 5 16\nload 1 0 1\n",
        totals!(
            "9 fault tag granule 1 memory 3 pointer 1 in other\n",
            events: 9, requests: 5, faults_tag: 1
        ),
        "done",
    ),
    Case(
        "classes 2\nmalloc 1 16\nmalloc 2 16\nmalloc 3 16\nfree 1\nfree 2\nmalloc 4 16\nfree 3\nmalloc 5 16\nload 1 0 1\n\
                 free 1\nfree 2\naddg 6 5 1 0\nfree 6\nfree 7\nload 5 0 4\nmalloc 8 16\nload 8 16 1\n",
        totals!(
            "9 fault tag granule 1 memory 3 pointer 1 in other\n10 refused wrong-tag\n11 refused not-live\n13 refused misplaced\n\
                 15 data 00000000\n17 fault tag granule 10 memory 0 pointer 9 in header\n",
            events: 17, requests: 6, faults_tag: 2, refused_frees: 3
        ),
        "done",
    ),
    Case(
        "classes 2\nmalloc 1 16\nmalloc 2 16\naddg 3 1 2 1\nfree 3\nload 3 0 1\nsubg 4 1 4 0\nload 4 0 1\naddg 5 1 1 0\n\
                 store 5 0 16 ee\nload 2 0 16\nfree 2\n",
        totals!(
            "5 fault tag granule 3 memory 6 pointer 2 in dead\n7 fault unmapped\n\
                 9 fault tag granule 2 memory 0 pointer 1 in header\n10 fault tag granule 3 memory 6 pointer 2 in dead\n\
                 11 refused not-live\n",
            events: 11, requests: 2, faults_tag: 3, faults_unmapped: 1, refused_frees: 1
        ),
        "done",
    ),
];
