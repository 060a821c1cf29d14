//! The rows of a certificate as one array: row after row.
ghost use Rattle.std.specs.Prelude.{◌≡◌, ◌*◌, ◌<◌, ◌≤◌, IfOk, drop, length};
ghost use Rattle.mte_c.specs.Arrays.Spelled.{AreRows};
ghost use Rattle.tuner_theory.specs.Rows.{HasShape};

use potential_check::Rows;
use std::alloc::{AllocError, Global};

/// Writes rows one after the other, if all of them fit. What comes after them stays.
pub(crate) fn put_rows(rows: &Rows, limit: usize, places: usize, numbers: &mut [u64])
    requires shape { HasShape rows.now limit places }
    requires few { (limit ≤ 32) × (places ≤ 1024) }
    ensures written { limit * places ≤ length numbers.old → AreRows limit places numbers.new rows.now }
    ensures rest { drop (limit * places) numbers.new ≡ drop (limit * places) numbers.old }
    ensures kept { length numbers.old < limit * places → numbers.new ≡ numbers.old }
{
    let end = limit * places;
    if numbers.len() < end {
        return;
    }
    for at in 0..end {
        numbers[at] = rows.number(at / places + 1, at % places);
    }
}

/// The rows that follow one another in an array.
pub(crate) fn rows_of(
    alloc: Global,
    limit: usize,
    places: usize,
    numbers: &[u64],
) -> Result<Rows, AllocError>
    requires { length numbers.now ≡ limit * places }
    ensures { IfOk result (AreRows limit places numbers.now) }
{
    let mut rows = Vec::new(alloc);
    for k in 0..limit {
        let row = &numbers[k * places..(k + 1) * places];
        rows.push(Vec::from_slice(alloc, row)?)?;
    }
    Ok(Rows::new(rows))
}
