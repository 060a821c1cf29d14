use crate::certificates::rows::Rows;
use crate::cost::{OfFootprint, OfWaste};
use class_table::ClassTable;
use std::marker::PhantomData;

/// A class table with the certificate of its cost, which the type names. A certificate may hold any numbers: the tuner did not write every
/// one.
#[derive(Debug, Drop)]
pub struct Certificate<C> {
    /// The classes, in granules.
    pub table: ClassTable,
    /// The most classes that the table may have. 1 to 32 in one that was read.
    pub limit: u8,
    /// The step in granules, of which each class should be a multiple. 1, 2, 4 or 8 in one that was read.
    pub step: u8,
    /// Whether the table has to have the largest class, so that it serves each size that any table can.
    pub forced: bool,
    /// What it says that its table costs, in bytes.
    pub cost: u64,
    /// In a true one there is a row for each number of classes up to the limit, with a number for each distinct need.
    pub rows: Rows,
    /// Whose cost it is.
    pub of: PhantomData<C>,
}

/// A certificate of the waste on a profile.
pub type Sheet = Certificate<OfWaste>;

/// A certificate of the footprint over a history.
pub type Fit = Certificate<OfFootprint>;
