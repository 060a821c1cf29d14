//! `tune`: the table of least waste for a profile, with its certificate.
ghost use Rattle.std.specs.Prelude.{◌≡◌, ◌<◌, ◌≤◌, ◌++◌, All, OnErr, drop, length};
ghost use Rattle.mte_c.specs.Arrays.Calls.{IsTunedInto, IsTunedOr, places_by};
ghost use Rattle.tuner_theory.specs.Profiles.{AreCounts};
ghost use Rattle.class_table.specs.Steps.{IsStep};

use crate::arrays::counting::count;
use crate::arrays::fault::ArrayError;
use crate::arrays::rows::put_rows;
use class_table::ClassTable;
use mte_engine::tune_of;
use potential_check::Rows;
use profile_count::Profile;
use std::alloc::Global;
use tool_call::{Call, CommandName, Options};

/// What `tune` found, beside the classes and the rows.
#[derive(Debug, Clone, Copy, PartialEq, Eq)]
pub struct TunedNumbers {
    /// How many classes the table has, 0 to 32.
    pub classes: u32,
    /// What it wastes on the profile, in bytes.
    pub waste: u64,
    /// How many numbers each row of the certificate has, 0 to 1,023. There are as many rows as the limit.
    pub places: u32,
}

/// The table of least waste for the profile of these sizes with these counts, by the options of `tune`. Its classes, in granules, are put at
/// the start of `classes`, which needs room for `limit` of them; the rows of its certificate at the start of `rows`, one after the other, if
/// all of them fit. What comes after stays.
///
/// Errors, in the order of the tests: `BadOption`, `Misuse`, `Entry`. `OutOfMemory` may come at any time. After an error both arrays are as
/// they were.
pub fn tune(
    alloc: Global,
    options: Options,
    sizes: &[u32],
    counts: &[u32],
    classes: &mut [u16],
    rows: &mut [u64],
) -> Result<TunedNumbers, ArrayError>
    ensures tuned { IsTunedOr options sizes.now counts.now (length classes.old) result
        (IsTunedInto options sizes.now counts.now classes.old rows.old classes.new rows.new) }
    ensures classes { OnErr result (classes.new ≡ classes.old) }
    ensures rows { OnErr result (rows.new ≡ rows.old) }
{
    let command = CommandName::Tune;
    if !(Call { command, options }).is_valid() {
        return Err(ArrayError::BadOption);
    }
    let limit = usize::from(options.limit);
    if classes.len() < limit {
        return Err(ArrayError::Misuse);
    }
    let profile = count(alloc, sizes, counts)?;
    let sheet = tune_of(alloc, options, &profile)?;
    let places = row_length(&profile, options, &sheet.rows);
    put_classes(&sheet.table, classes);
    put_rows(&sheet.rows, limit, places, rows);
    Ok(TunedNumbers {
        classes: sheet.table.len() as u32,
        waste: sheet.cost,
        places: places as u32,
    })
}

// the length of each row of a certificate for a profile
fn row_length(profile: &Profile, options: Options, rows: &Rows) -> usize
    requires some { 0 < length rows.now }
    requires step { IsStep options.step }
    requires counts { AreCounts profile.now.counts }
    requires shape { All (λ row. length row ≡ places_by options profile.now) rows.now }
    ensures length { result ≡ places_by options profile.now }
    ensures few { result ≤ 1024 }
{
    rows.row(0).len()
}

// writes the classes of a table; what comes after them stays
fn put_classes(table: &ClassTable, classes: &mut [u16])
    requires { length table.now ≤ length classes.old }
    ensures { classes.new ≡ table.now ++ drop (length table.now) classes.old }
{
    for number in 0..table.len() {
        classes[number] = table.class(number);
    }
}
