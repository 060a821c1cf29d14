ghost use Rattle.std.specs.Prelude.{◌≡◌, ◌<◌, ◌≤◌, ◌+◌, [], ◌∷◌, ◌++◌, true, false, codes, length, IfOk};
ghost use Rattle.line_text.specs.Lines.{ended};
ghost use Rattle.class_table.specs.ClassLine.{class_line, table_of, table_of_line, table_of_numbers};
ghost use Rattle.class_table.specs.Faults.{Gives};
ghost use Rattle.class_table.specs.NamedLines.{numbers_of};
ghost use Rattle.class_table.specs.Tables.{IsLegalTable};

use crate::fault::TableError;
use crate::table::{ClassTable, MOST_CLASSES};
use arrayvec::ArrayVec;
use itoa::Buffer;
use line_text::{Words, capped_number_in, lines_in, words_in};

/// The most bytes of a class line with its newline: `classes`, and 32 times a space and four digits.
pub const LINE_BYTES: usize = 8 + 5 * MOST_CLASSES;

// the first word of a class line
const NAME: &[u8] = b"classes";

// a number that is no class, and stands for all larger ones
const NO_CLASS: u32 = 65_535;

impl ClassTable {
    /// The table that a class line spells: `classes`, then each class in granules, with or without the newline at the end.
    /// Errors, in the order of the tests: `BadLine` if the first word is another, a further word is no number, or the text is not just one
    /// line; then those of `from_classes` for the numbers.
    pub fn read_line(text: &[u8]) -> Result<ClassTable, TableError>
        ensures exact { Gives result (table_of text.now) }
        ensures legal { IfOk result (λ table. IsLegalTable 1 table) }
    {
        let mut lines = lines_in(text);
        let Some(line) = lines.next() else {
            return Err(TableError::BadLine);
        };
        if let Some(_other) = lines.next() {
            return Err(TableError::BadLine);
        }
        ClassTable::from_line(line)
    }

    /// The table that a line spells, which has no newline: `classes`, then each class in granules. Errors are those of `read_line`.
    pub fn from_line(line: &[u8]) -> Result<ClassTable, TableError>
        ensures exact { Gives result (table_of_line line.now) }
        ensures legal { IfOk result (λ table. IsLegalTable 1 table) }
    {
        let mut words = words_in(line);
        let Some(name) = words.next() else {
            return Err(TableError::BadLine);
        };
        if name != NAME {
            return Err(TableError::BadLine);
        }
        table_of_words(words)
    }

    /// Replaces what `line` holds by the class line with its newline. `read_line` reads the same table back.
    pub fn write_line(&self, line: &mut ArrayVec<u8, LINE_BYTES>)
        ensures { line.new.items ≡ ended (class_line self.now) }
    {
        line.clear();
        append(line, NAME);
        append_classes(line, &self.classes);
        line.push(b'\n');
    }
}

// appends bytes, for which there must be room
fn append(line: &mut ArrayVec<u8, LINE_BYTES>, bytes: &[u8])
    requires { length line.old.items + length bytes.now ≤ LINE_BYTES }
    ensures { line.new.items ≡ line.old.items ++ bytes.now }
{
    let _ = line.try_extend_from_slice(bytes);
}

// appends a space and the digits of each class to the name that the line begins with
fn append_classes(line: &mut ArrayVec<u8, LINE_BYTES>, classes: &[u16])
    requires legal { IsLegalTable 1 classes.now }
    requires name { line.old.items ≡ codes "classes" }
    ensures classes { line.new.items ≡ class_line classes.now }
    ensures room { length line.new.items < LINE_BYTES }
{
    for class in classes {
        line.push(b' ');
        append(line, Buffer::new().format(*class).as_bytes());
    }
}

// the table of the numbers that words spell
fn table_of_words(words: Words<'_>) -> Result<ClassTable, TableError>
    ensures exact { Gives result (table_of_numbers (numbers_of words.entry)) }
    ensures legal { IfOk result (λ table. IsLegalTable 1 table) }
{
    let mut numbers = ArrayVec::<u16, MOST_CLASSES>::new();
    let mut too_many = false;
    for word in words {
        let Some(number) = capped_number_in(word, NO_CLASS) else {
            return Err(TableError::BadLine);
        };
        too_many = !append_if_room(&mut numbers, number as u16);
    }
    if too_many {
        return Err(TableError::TooMany);
    }
    ClassTable::from_few(numbers)
}

// Appends the number and returns `true`. `false`, with nothing appended, if there is no room for it.
fn append_if_room(numbers: &mut ArrayVec<u16, MOST_CLASSES>, number: u16) -> bool
    ensures room { length numbers.old.items < MOST_CLASSES
        → (result ≡ true) × (numbers.new.items ≡ numbers.old.items ++ number ∷ []) }
    ensures full { MOST_CLASSES ≤ length numbers.old.items
        → (result ≡ false) × (numbers.new.items ≡ numbers.old.items) }
{
    if numbers.is_full() {
        return false;
    }
    numbers.push(number);
    true
}
