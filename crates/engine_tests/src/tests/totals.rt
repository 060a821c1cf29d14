//! The totals of a report. Written by scripts/tests/formats from scripts/mte_scripts/formats.py.

// some text, and then the lines of totals: of these, in the order of a report, and else 0
macro_rules! totals {
    ($before:literal $(, $name:ident: $n:literal)*) => {
        totals!(@events [$before] $($name $n)*)
    };
    (@events [$($line:literal)*] events $n:literal $($rest:tt)*) => {
        totals!(@requests [$($line)* "events " $n "\n"] $($rest)*)
    };
    (@events [$($line:literal)*] $($rest:tt)*) => {
        totals!(@requests [$($line)* "events 0\n"] $($rest)*)
    };
    (@requests [$($line:literal)*] requests $n:literal $($rest:tt)*) => {
        totals!(@null_large [$($line)* "requests " $n "\n"] $($rest)*)
    };
    (@requests [$($line:literal)*] $($rest:tt)*) => {
        totals!(@null_large [$($line)* "requests 0\n"] $($rest)*)
    };
    (@null_large [$($line:literal)*] null_large $n:literal $($rest:tt)*) => {
        totals!(@null_no_class [$($line)* "null large " $n "\n"] $($rest)*)
    };
    (@null_large [$($line:literal)*] $($rest:tt)*) => {
        totals!(@null_no_class [$($line)* "null large 0\n"] $($rest)*)
    };
    (@null_no_class [$($line:literal)*] null_no_class $n:literal $($rest:tt)*) => {
        totals!(@null_exhausted [$($line)* "null no-class " $n "\n"] $($rest)*)
    };
    (@null_no_class [$($line:literal)*] $($rest:tt)*) => {
        totals!(@null_exhausted [$($line)* "null no-class 0\n"] $($rest)*)
    };
    (@null_exhausted [$($line:literal)*] null_exhausted $n:literal $($rest:tt)*) => {
        totals!(@faults_tag [$($line)* "null exhausted " $n "\n"] $($rest)*)
    };
    (@null_exhausted [$($line:literal)*] $($rest:tt)*) => {
        totals!(@faults_tag [$($line)* "null exhausted 0\n"] $($rest)*)
    };
    (@faults_tag [$($line:literal)*] faults_tag $n:literal $($rest:tt)*) => {
        totals!(@faults_unmapped [$($line)* "faults tag " $n "\n"] $($rest)*)
    };
    (@faults_tag [$($line:literal)*] $($rest:tt)*) => {
        totals!(@faults_unmapped [$($line)* "faults tag 0\n"] $($rest)*)
    };
    (@faults_unmapped [$($line:literal)*] faults_unmapped $n:literal $($rest:tt)*) => {
        totals!(@refused_frees [$($line)* "faults unmapped " $n "\n"] $($rest)*)
    };
    (@faults_unmapped [$($line:literal)*] $($rest:tt)*) => {
        totals!(@refused_frees [$($line)* "faults unmapped 0\n"] $($rest)*)
    };
    (@refused_frees [$($line:literal)*] refused_frees $n:literal $($rest:tt)*) => {
        totals!(@loss [$($line)* "refused frees " $n "\n"] $($rest)*)
    };
    (@refused_frees [$($line:literal)*] $($rest:tt)*) => {
        totals!(@loss [$($line)* "refused frees 0\n"] $($rest)*)
    };
    (@loss [$($line:literal)*] loss $n:literal $($rest:tt)*) => {
        totals!(@end [$($line)* "loss " $n "\n"] $($rest)*)
    };
    (@loss [$($line:literal)*] $($rest:tt)*) => {
        totals!(@end [$($line)* "loss 0\n"] $($rest)*)
    };
    (@end [$($line:literal)*]) => {
        concat!($($line),*)
    };
}

pub(crate) use totals;
