//! `score`, `tune` and `check` over arrays.
ghost use Rattle.mte_c.specs.Arrays.Shown.{Checks, Scores, Tunes};

use crate::arrays::Numbers;
use std::alloc::Global;
use tool_call::Options;

/// What a table wastes on a profile.
#[unsafe(no_mangle)]
pub extern "C" fn mte_arrays_score(
    alloc: Global,
    options: Options,
    classes: &[u16],
    sizes: &[u32],
    counts: &[u32],
) -> Numbers
    ensures { Scores options classes.now sizes.now counts.now result }
{
    Numbers::of_score(crate::arrays::score(alloc, options, classes, sizes, counts))
}

/// The table of least waste for a profile, with its certificate.
#[unsafe(no_mangle)]
pub extern "C" fn mte_arrays_tune(
    alloc: Global,
    options: Options,
    sizes: &[u32],
    counts: &[u32],
    classes: &mut [u16],
    rows: &mut [u64],
) -> Numbers
    ensures { Tunes options sizes.now counts.now classes.old rows.old classes.new rows.new result }
{
    Numbers::of_tuned(crate::arrays::tune(alloc, options, sizes, counts, classes, rows))
}

/// The verdict on a sheet.
#[unsafe(no_mangle)]
pub extern "C" fn mte_arrays_check(
    alloc: Global,
    options: Options,
    waste: u64,
    classes: &[u16],
    rows: &[u64],
    sizes: &[u32],
    counts: &[u32],
) -> Numbers
    ensures { Checks options waste classes.now rows.now sizes.now counts.now result }
{
    Numbers::of_verdict(crate::arrays::check(alloc, options, waste, classes, rows, sizes, counts))
}
