//! What holds for every class line. The law is the contract of a function that does nothing.
ghost use Rattle.std.specs.Prelude.{◌≡◌, ◌↔◌, ◌⊎◌, ℕ, List, [], ◌∷◌, take, Ok, Err, IsErr};
ghost use Rattle.class_table.specs.ClassLine.{BeginsWithTable, SpellsTable, class_line, table_of, table_of_line};
ghost use Rattle.class_table.specs.Tables.{IsLegalTable};
ghost use Rattle.class_table.specs.declared.fault.TableError.{TableError};
ghost use Rattle.class_table.specs.declared.fault.TableError.TheVariants.{BadLine};
ghost use Rattle.line_text.specs.FirstFault.{IsFirstFault};
ghost use Rattle.line_text.specs.Lines.{IsLine, lines};

/// A text that is read as a table is that table's line, and the line is read as the table.
/// A line alone is read as it is in a longer text: what is read as a table is its line, whatever follows.
/// The first line of a text is refused exactly if no text with that first line begins with a table, whatever follows. A missing first
/// line is a fault too. A text that should be one class line is refused at that line, or at the line after it.
pub fn law_class_line()
    ensures read { (text table : List ℕ) → table_of text ≡ Ok table → SpellsTable text table }
    ensures written { (text table : List ℕ) → SpellsTable text table → table_of text ≡ Ok table }
    ensures line { (line : List ℕ) → IsLine line → table_of line ≡ table_of_line line }
    ensures spelled { (line table : List ℕ) → table_of_line line ≡ Ok table
        → (line ≡ class_line table) × IsLegalTable 1 table }
    ensures first { (text line : List ℕ) → take 1 (lines text) ≡ line ∷ []
        → IsErr (table_of_line line) ↔ IsFirstFault BeginsWithTable text 1 }
    ensures missing { (text : List ℕ) → lines text ≡ [] → IsFirstFault BeginsWithTable text 1 }
    ensures text { (text : List ℕ) (fault : TableError) → table_of text ≡ Err fault
        → IsFirstFault SpellsTable text 1 ⊎ ((fault ≡ BadLine) × IsFirstFault SpellsTable text 2) }
    ensures refused { (text : List ℕ) (n : ℕ) → IsFirstFault SpellsTable text n → IsErr (table_of text) }
{}
