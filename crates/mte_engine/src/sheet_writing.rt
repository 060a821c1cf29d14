//! The text of a sheet or a fit, as an engine writes it: in pieces, so that few pages of memory are touched.
ghost use Rattle.std.specs.Prelude.{◌≡◌, ◌≤◌, ◌++◌, drop, length, vec_capacity, vec_len, IfOk};
ghost use Rattle.potential_check.specs.SheetText.{text_by};
ghost use Rattle.potential_check.specs.Certificates.SheetView.{sheet_of};
ghost use Rattle.mte_engine.specs.RowLines.{AreShort, row_lines};
ghost use Rattle.mte_engine.specs.declared.sheet_writing.TheConstants.{PIECE};

use byte_streams::Output;
use potential_check::{Certificate, CostKind, ROW_BYTES, Rows, write_row, write_sheet};
use std::alloc::{AllocError, Global};
use std::mem;

// the room for what is ready at a time, in bytes
const PIECE: usize = 65_536;

/// A text, and then the lines of rows. It writes the lines of further rows into its buffer when all that is in it was taken.
#[derive(Drop)]
pub struct SheetText {
    buffer: Vec<u8>,
    written: usize,
    rows: Rows,
    done: usize,
    ghost in_buffer: { written ≤ vec_len buffer },
    ghost room: { PIECE ≤ vec_capacity buffer },
    ghost short: { AreShort rows },
    ghost ready: { written ≡ vec_len buffer → length rows ≤ done },
}

impl SheetText {
    ghost use Rattle.mte_engine.specs.SheetLeft.{sheet_left};

    /// The text of a sheet. The call takes all memory that the writing will need; the only error is that the allocator refuses it.
    pub fn of_sheet<C: CostKind>(
        alloc: Global,
        mut sheet: Certificate<C>,
    ) -> Result<SheetText, AllocError>
        requires { AreShort sheet.rows }
        ensures { IfOk result (λ output. sheet_left output ≡ text_by C.kind (sheet_of sheet)) }
    {
        let rows = mem::replace(&mut sheet.rows, Rows::new(Vec::new(alloc)));
        let mut head = Vec::with_capacity(alloc, PIECE)?;
        write_sheet(&sheet, &mut head)?;
        SheetText::new(head, rows)
    }

    /// A text that is in memory. The only error is that the allocator refuses memory.
    pub fn of_text(alloc: Global, text: Vec<u8>) -> Result<SheetText, AllocError>
        ensures { IfOk result (λ output. sheet_left output ≡ text.items) }
    {
        SheetText::new(text, Rows::new(Vec::new(alloc)))
    }

    // a text, and then the lines of rows
    fn new(mut buffer: Vec<u8>, rows: Rows) -> Result<SheetText, AllocError>
        requires { AreShort rows }
        ensures { IfOk result (λ output. sheet_left output ≡ buffer.items ++ row_lines rows) }
    {
        buffer.reserve(PIECE.saturating_sub(buffer.len()))?;
        let done = write_rows(&rows, 0, &mut buffer);
        Ok(SheetText {
            buffer,
            written: 0,
            rows,
            done,
        })
    }
}

impl Output for SheetText {
    ghost use Rattle.mte_engine.specs.SheetLeft.{sheet_left};

    ghost rest = { sheet_left };

    ghost ready = { λ s. drop s.written s.buffer.items };

    fn piece(&self) -> &[u8] {
        &self.buffer[self.written..]
    }

    fn advance(&mut self, n: usize) {
        self.written += n;
        if self.written == self.buffer.len() {
            self.buffer.clear();
            self.written = 0;
            self.done = write_rows(&self.rows, self.done, &mut self.buffer);
        }
    }
}

// Appends the lines of the rows from one on, until a further one may not fit. Returns how many rows have their lines then.
fn write_rows(rows: &Rows, from: usize, text: &mut Vec<u8>) -> usize
    requires short { AreShort rows.now }
    requires room { PIECE ≤ vec_capacity text.old }
    ensures written { text.new.items ++ row_lines (drop result rows.now)
        ≡ text.old.items ++ row_lines (drop from rows.now) }
    ensures room { PIECE ≤ vec_capacity text.new }
    ensures some { vec_len text.new ≡ 0 → length rows.now ≤ result }
{
    let mut done = from;
    while done < rows.len() && text.len() <= PIECE - ROW_BYTES {
        write_row(rows.row(done), text);
        done += 1;
    }
    done
}
