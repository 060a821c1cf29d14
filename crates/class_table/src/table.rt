ghost use Rattle.std.specs.Prelude.{◌≡◌, ◌↔◌, ◌<◌, ◌≤◌, List, ℕ, [], length, slice_index, slice_get, Some, IsFalse, IsTrue, IfSome, IfNone, IfOk, All};
ghost use Rattle.class_table.specs.Sizes.{IsBlockSize, serves};
ghost use Rattle.class_table.specs.Faults.{Gives, fault_from, is_out_of_range, table_of_classes};
ghost use Rattle.class_table.specs.Tables.{FitsStep, IsLegalTable, IsLeastServing, class_number_for};
ghost use Rattle.class_table.specs.Steps.{IsStep};

use crate::fault::TableError;
use crate::sizes::{LARGEST_CLASS, SMALLEST_CLASS, serves};
use arrayvec::ArrayVec;
use std::marker::Model;

/// The most classes that a table has.
pub const MOST_CLASSES: usize = 32;

/// A class table: block sizes in granules from 2 to 1024, strictly ascending, at most 32 of them. It is always legal, and may be empty.
#[derive(Debug, Drop)]
pub struct ClassTable {
    pub(crate) classes: ArrayVec<u16, MOST_CLASSES>,
}

impl Model for ClassTable {
    ghost Value = { List ℕ };

    ghost view = { λ table. table.classes.items };

    ghost invariant = { λ table. IsLegalTable 1 table.classes.items };
}

impl ClassTable {
    /// The table that has no class.
    pub fn empty() -> ClassTable
        ensures { result ≡ [] }
    {
        ClassTable {
            classes: ArrayVec::new(),
        }
    }

    /// The table of these classes, in granules.
    /// Errors, in the order of the tests: `TooMany` if there are more than 32; then for the first faulty class `OutOfRange` if it is not
    /// from 2 to 1024, otherwise `NotAscending`, since it is not above the class before it. Never `BadLine`.
    pub fn from_classes(classes: &[u16]) -> Result<ClassTable, TableError>
        ensures exact { Gives result (table_of_classes classes.now) }
        ensures legal { IfOk result (λ table. IsLegalTable 1 table) }
    {
        let mut few = ArrayVec::new();
        if few.try_extend_from_slice(classes).is_err() {
            return Err(TableError::TooMany);
        }
        ClassTable::from_few(few)
    }

    /// The table of these classes. Errors are those of `from_classes`, but never `TooMany`.
    pub(crate) fn from_few(classes: ArrayVec<u16, MOST_CLASSES>) -> Result<ClassTable, TableError>
        ensures exact { Gives result (table_of_classes classes.items) }
        ensures legal { IfOk result (λ table. IsLegalTable 1 table) }
    {
        match first_fault(&classes) {
            Some(fault) => Err(fault),
            None => Ok(ClassTable { classes }),
        }
    }

    /// How many classes the table has, 0 to 32.
    pub fn len(&self) -> usize
        ensures len { result ≡ length self.now }
        ensures legal { IsLegalTable 1 self.now }
    {
        self.classes.len()
    }

    /// Whether the table has no class.
    pub fn is_empty(&self) -> bool
        ensures { IsTrue result ↔ (self.now ≡ []) }
    {
        self.classes.is_empty()
    }

    /// The class of this number, counted from 0, in granules.
    pub fn class(&self, number: usize) -> u16
        requires { number < length self.now }
        ensures class { slice_get self.now number ≡ Some result }
        ensures in_range { IsBlockSize result }
    {
        self.classes[number]
    }

    /// Whether each class is a multiple of the step (`is_step`), as blocks that come in such multiples need it.
    pub fn fits(&self, step: u8) -> bool
        requires { IsStep step }
        ensures { IsTrue result ↔ FitsStep step self.now }
    {
        are_multiples(&self.classes, u16::from(step))
    }

    /// The number of the least class that serves a request of `n` bytes, counted from 0. `None` if no class serves it.
    pub fn find(&self, n: u32) -> Option<usize>
        ensures number { result ≡ class_number_for self.now n }
        ensures least { IfSome result
            (λ number. (number < length self.now) × IsLeastServing self.now n (slice_index self.now number)) }
        ensures none { IfNone result (All (λ class. IsFalse (serves n class)) self.now) }
    {
        number_for(&self.classes, n)
    }
}

// the number of the first class that serves n
fn number_for(classes: &[u16], n: u32) -> Option<usize>
    ensures { result ≡ class_number_for classes.now n }
{
    classes.iter().position(|class| serves(n, *class))
}

// whether each class is a multiple of the step
fn are_multiples(classes: &[u16], step: u16) -> bool
    requires { 0 < step }
    ensures { IsTrue result ↔ FitsStep step classes.now }
{
    classes.iter().all(|class| class % step == 0)
}

// whether no class has this size
fn is_out_of_range(class: u16) -> bool
    ensures { result ≡ is_out_of_range class }
{
    class < SMALLEST_CLASS || class > LARGEST_CLASS
}

// what is wrong with the first faulty class, if one is faulty
fn first_fault(classes: &[u16]) -> Option<TableError>
    ensures { result ≡ fault_from 0 classes.now }
{
    let mut below = 0;
    for class in classes {
        if is_out_of_range(*class) {
            return Some(TableError::OutOfRange);
        }
        if *class <= below {
            return Some(TableError::NotAscending);
        }
        below = *class;
    }
    None
}
