//! `check`: the verdict on a sheet, whoever wrote it.
ghost use Rattle.mte_c.specs.Arrays.Calls.{IsChecked};

use crate::arrays::counting::count;
use crate::arrays::fault::ArrayError;
use crate::arrays::rows::rows_of;
use crate::arrays::scoring::table_of;
use mte_engine::verdict_of;
use potential_check::{Sheet, Verdict};
use std::alloc::Global;
use std::marker::PhantomData;
use tool_call::{Call, CommandName, Options};

/// The verdict on a sheet for the profile of these sizes with these counts: optimal, or the first refusal. The sheet is a table of these
/// classes (in granules), tuned by these options of `tune`, with what it is said to waste in bytes, and the rows of its certificate, one after
/// the other, as many as the limit.
///
/// Errors, in the order of the tests: `BadOption`; `Misuse` if the numbers of the rows can't be cut in `limit` rows of one length; `Table`,
/// `Entry`. `OutOfMemory` may come at any time.
pub fn check(
    alloc: Global,
    options: Options,
    waste: u64,
    classes: &[u16],
    numbers: &[u64],
    sizes: &[u32],
    counts: &[u32],
) -> Result<Verdict, ArrayError>
    ensures { IsChecked options waste classes.now numbers.now sizes.now counts.now result }
{
    let checks = Call {
        command: CommandName::Check,
        options,
    };
    let tunes = Call {
        command: CommandName::Tune,
        options,
    };
    if !checks.is_valid() || !tunes.is_valid() {
        return Err(ArrayError::BadOption);
    }
    let limit = usize::from(options.limit);
    if numbers.len() % limit != 0 {
        return Err(ArrayError::Misuse);
    }
    let table = table_of(classes)?;
    let profile = count(alloc, sizes, counts)?;
    let rows = rows_of(alloc, limit, numbers.len() / limit, numbers)?;
    let sheet = Sheet {
        table,
        limit: options.limit,
        step: options.step,
        forced: options.largest_class == 1,
        cost: waste,
        rows,
        of: PhantomData,
    };
    Ok(verdict_of(alloc, options, &sheet, &profile)?)
}
