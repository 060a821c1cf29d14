//! `score`: what a table wastes on a profile.
ghost use Rattle.mte_c.specs.Arrays.Calls.{GivesTable, IsScored};
ghost use Rattle.class_table.specs.Faults.{table_of_classes};

use crate::arrays::counting::count;
use crate::arrays::fault::ArrayError;
use class_table::ClassTable;
use mte_engine::{TableScore, score_of};
use std::alloc::Global;
use tool_call::{Call, CommandName, Options};

/// What the table of these classes (in granules) wastes on the profile of these sizes with these counts. Errors, in the order of the tests:
/// `BadOption`, `Table`, `Entry`. `OutOfMemory` may come at any time.
pub fn score(
    alloc: Global,
    options: Options,
    classes: &[u16],
    sizes: &[u32],
    counts: &[u32],
) -> Result<TableScore, ArrayError>
    ensures { IsScored options classes.now sizes.now counts.now result }
{
    let command = CommandName::Score;
    if !(Call { command, options }).is_valid() {
        return Err(ArrayError::BadOption);
    }
    let table = table_of(classes)?;
    let profile = count(alloc, sizes, counts)?;
    Ok(score_of(options, &table, &profile))
}

/// The table of these classes.
pub(crate) fn table_of(classes: &[u16]) -> Result<ClassTable, ArrayError>
    ensures { GivesTable result (table_of_classes classes.now) }
{
    match ClassTable::from_classes(classes) {
        Ok(table) => Ok(table),
        Err(fault) => Err(ArrayError::Table(fault)),
    }
}
