ghost use Rattle.std.specs.Prelude.{◌≡◌, ◌↔◌, ℕ, ◌<◌, ◌≤◌, List, [], length, slice_get, slice_index, Some, IsTrue};
ghost use Rattle.tuner_theory.specs.Lists.{lists_of};
ghost use Rattle.tuner_theory.specs.Rows.{number_at};

use std::marker::Model;

/// The rows of a certificate: lists of numbers, in bytes.
#[derive(Debug, Drop)]
pub struct Rows {
    rows: Vec<Vec<u64>>,
}

impl Model for Rows {
    ghost Value = { List (List ℕ) };

    ghost view = { λ r. lists_of r.rows.items };
}

impl Rows {
    /// These rows.
    pub fn new(rows: Vec<Vec<u64>>) -> Rows
        ensures { result ≡ lists_of rows.items }
    {
        Rows { rows }
    }

    /// How many rows there are.
    pub fn len(&self) -> usize
        ensures { result ≡ length self.now }
    {
        self.rows.len()
    }

    /// Whether there is no row.
    pub fn is_empty(&self) -> bool
        ensures { IsTrue result ↔ (self.now ≡ []) }
    {
        self.rows.is_empty()
    }

    /// The numbers of the row with this index. Indices begin with 0; `number` counts the rows from 1.
    pub fn row(&self, index: usize) -> &[u64]
        requires { index < length self.now }
        ensures { slice_get self.now index ≡ Some result.now }
    {
        &self.rows[index]
    }

    /// The number in row `k`, counted from 1, at a place; 0 if there is no such row, or the row has no number there.
    pub fn number(&self, k: usize, place: usize) -> u64
        requires { 1 ≤ k }
        ensures { result ≡ number_at self.now k place }
    {
        match self.rows.get(k - 1) {
            Some(row) => number_in_row(row, place),
            None => 0,
        }
    }
}

/// The number of a row at a place; 0 if the row has no number there.
pub fn number_in_row(row: &[u64], place: usize) -> u64
    ensures { result ≡ slice_index row.now place }
{
    row.get(place).copied().unwrap_or(0)
}
