ghost use Rattle.std.specs.Prelude.{◌≡◌, ◌++◌, ℕ, List, Some};
ghost use Rattle.class_table.specs.FaultText.{shown_table_error};
ghost use Rattle.line_text.specs.Numbers.{leading_number_of};

use std::fmt;

/// What is wrong with a table or with its line, in the order of the tests. Each is shown as its code and name.
#[derive(Debug, Clone, Copy, PartialEq, Eq)]
pub enum TableError {
    /// The line does not begin with the word `classes`, another of its words is no number, or there is not just one line.
    BadLine,
    /// There are more than 32 numbers.
    TooMany,
    /// The first faulty class is not from 2 to 1024.
    OutOfRange,
    /// The first faulty class is not above the one before it.
    NotAscending,
}

impl TableError {
    /// The code: the number at the start of the text by which the fault is shown, whatever comes after that.
    #[tactic(auto, unfolding(line_text::specs::Numbers::number_of))]
    pub fn code(self) -> u32
        ensures { (rest : List ℕ) → leading_number_of (shown_table_error self ++ rest) ≡ Some result }
    {
        match self {
            TableError::BadLine => 23,
            TableError::TooMany => 20,
            TableError::OutOfRange => 21,
            TableError::NotAscending => 22,
        }
    }
}

impl fmt::Display for TableError {
    ghost output = { λ fault. Some (shown_table_error fault) };

    fn fmt<W: fmt::Write>(&self, f: &mut fmt::Formatter<W>) -> fmt::Result {
        f.write_str(match self {
            TableError::BadLine => "23 BadLine",
            TableError::TooMany => "20 TooMany",
            TableError::OutOfRange => "21 OutOfRange",
            TableError::NotAscending => "22 NotAscending",
        })
    }
}

impl std::error::Error for TableError {}
