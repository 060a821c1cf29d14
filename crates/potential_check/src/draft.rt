//! A certificate, as far as it was read.
ghost use Rattle.std.specs.Prelude.{◌≡◌, length};
ghost use Rattle.std.specs.Option.{option_map};
ghost use Rattle.potential_check.specs.Certificates.SheetView.{sheet_of};
ghost use Rattle.potential_check.specs.SheetText.{IsTaken, lines_by, nothing_stated, with_part, with_row_of};
ghost use Rattle.potential_check.specs.declared.cost.Cost.{Cost};

use crate::certificates::{Certificate, Rows};
use crate::cost::Cost;
use crate::part::Part;
use crate::sheet_line::{
    ROW, cost_in, forced_class_in, limit_in, row_of_words, step_in, table_in, words_after,
};
use class_table::{ClassTable, MOST_CLASSES};
use line_text::Stop;
use std::alloc::Global;
use std::marker::{Model, PhantomData};

// a sheet has a row for each number of classes up to its limit
const MOST_ROWS: usize = MOST_CLASSES;

/// A certificate of any cost, as far as it was read.
#[derive(Drop)]
pub(crate) struct Draft {
    pub(crate) table: ClassTable,
    pub(crate) limit: u8,
    pub(crate) step: u8,
    pub(crate) forced: bool,
    pub(crate) cost: u64,
    pub(crate) rows: Vec<Vec<u64>>,
}

impl Model for Draft {
    ghost use Rattle.tuner_theory.specs.Sheets.{Sheet};

    ghost Value = { Sheet };

    ghost use Rattle.tuner_theory.specs.Lists.{lists_of};

    ghost view = { λ d. record {
      table = d.table;
      limit = d.limit;
      step = d.step;
      forced = d.forced;
      cost = d.cost;
      rows = lists_of d.rows.items;
    } };
}

impl Draft {
    /// Nothing was read.
    pub(crate) fn new(alloc: Global) -> Draft
        ensures { result ≡ nothing_stated }
    {
        Draft {
            table: ClassTable::empty(),
            limit: 1,
            step: 1,
            forced: false,
            cost: 0,
            rows: Vec::new(alloc),
        }
    }

    /// Takes the line of a part, by the cost.
    pub(crate) fn take(&mut self, cost: Cost, part: Part, line: &[u8]) -> Result<(), Stop<()>>
        ensures { IsTaken (with_part cost part self.old line.now) self.new result }
    {
        match part {
            Part::Table => self.table = table_in(line).ok_or(Stop::Fault(()))?,
            Part::Limit => self.limit = limit_in(line).ok_or(Stop::Fault(()))?,
            Part::Step => self.step = step_in(line).ok_or(Stop::Fault(()))?,
            Part::Forced => self.forced = forced_class_in(line).ok_or(Stop::Fault(()))?,
            Part::Stated => self.cost = cost_in(cost, line).ok_or(Stop::Fault(()))?,
            Part::Row => return self.take_row(line),
        }
        Ok(())
    }

    // takes the line of a row
    fn take_row(&mut self, line: &[u8]) -> Result<(), Stop<()>>
        ensures { IsTaken (with_row_of self.old line.now) self.new result }
    {
        if self.rows.len() >= MOST_ROWS {
            return Err(Stop::Fault(()));
        }
        let Some(words) = words_after(ROW, line) else {
            return Err(Stop::Fault(()));
        };
        // mostly a row has as many numbers as the one before
        let expected = self.rows.last().map_or(0, Vec::len);
        match row_of_words(*self.rows.allocator(), words, expected) {
            Ok(Some(row)) => self.rows.push(row).map_err(|_| Stop::OutOfMemory),
            Ok(None) => Err(Stop::Fault(())),
            Err(_refused) => Err(Stop::OutOfMemory),
        }
    }

    /// How many lines it has.
    pub(crate) fn lines(&self) -> u64
        ensures { (cost : Cost) → result ≡ length (lines_by cost self.now) }
    {
        3 + u64::from(self.step != 1) + u64::from(self.forced) + self.rows.len() as u64
    }

    /// The certificate, once it was read.
    pub(crate) fn certificate<C>(self) -> Certificate<C>
        ensures { sheet_of result ≡ self }
    {
        Certificate {
            table: self.table,
            limit: self.limit,
            step: self.step,
            forced: self.forced,
            cost: self.cost,
            rows: Rows::new(self.rows),
            of: PhantomData,
        }
    }
}
