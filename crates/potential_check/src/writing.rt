//! The texts of certificates.
ghost use Rattle.std.specs.Prelude.{◌≡◌, ◌+◌, ◌*◌, ◌<◌, ◌≤◌, [], ◌∷◌, ◌++◌, codes, length, map, vec_capacity, vec_len, IsOk, OnOk, OnErr};
ghost use Rattle.line_text.specs.Lines.{ended, text_of};
ghost use Rattle.class_table.specs.ClassLine.{class_line};
ghost use Rattle.line_text.specs.Prefixes.{IsPrefix};
ghost use Rattle.potential_check.specs.Certificates.SheetView.{sheet_of};
ghost use Rattle.class_table.specs.NamedLines.{named_line};
ghost use Rattle.potential_check.specs.SheetText.{forced_lines, head_lines, step_lines, text_by};
ghost use Rattle.potential_check.specs.Spaced.{spaced};

use crate::certificates::{Certificate, Rows};
use crate::cost::{Cost, CostKind};
use crate::sheet_line::{FORCED, FORCED_CLASS, LIMIT, ROW, STEP};
use arrayvec::ArrayVec;
use class_table::{ClassTable, LINE_BYTES, MOST_NEEDS};
use itoa::write_digits;
use std::alloc::AllocError;

// a space and the digits that 64 bits may have
const NUMBER_BYTES: usize = 21;

// how many numbers are written before they are appended
const TOGETHER: usize = 16;

const TOGETHER_BYTES: usize = TOGETHER * NUMBER_BYTES;

/// The most bytes that the line of a row has: its name, a number for each need that there may be, and the newline.
pub const ROW_BYTES: usize = 4 + MOST_NEEDS * NUMBER_BYTES;

/// Appends the text of a certificate: its class line, `limit K`, `step S` unless the step is 1, `forced 1024` if the largest class is forced,
/// `waste W` or `footprint F` by its cost, and a line `row ..` for each row. Each line has its newline. If memory runs out, `text` is unchanged.
pub fn write_sheet<C: CostKind>(
    sheet: &Certificate<C>,
    text: &mut Vec<u8>,
) -> Result<(), AllocError>
    ensures written { OnOk result (text.new.items ≡ text.old.items ++ text_by C.kind (sheet_of sheet.now)) }
    ensures refused { OnErr result (text.new.items ≡ text.old.items) }
{
    let before = text.len();
    let written = append_sheet(text, sheet);
    if written.is_err() {
        text.truncate(before);
    }
    written
}

/// Appends the line of a row, with its newline, to a text that has room for it. So it takes no memory.
pub fn write_row(row: &[u64], text: &mut Vec<u8>)
    requires few { length row.now ≤ MOST_NEEDS }
    requires room { vec_len text.old + ROW_BYTES ≤ vec_capacity text.old }
    ensures written { text.new.items ≡ text.old.items ++ ended (named_line (codes "row") row.now) }
    ensures capacity { vec_capacity text.old ≤ vec_capacity text.new }
{
    let _appended = append_line(text, ROW, row);
}

fn append_sheet<C: CostKind>(text: &mut Vec<u8>, sheet: &Certificate<C>) -> Result<(), AllocError>
    ensures written { OnOk result (text.new.items ≡ text.old.items ++ text_by C.kind (sheet_of sheet.now)) }
    ensures kept { IsPrefix text.old.items text.new.items }
{
    append_head(C::kind(), text, sheet)?;
    append_rows(text, &sheet.rows)
}

// the lines before the rows
fn append_head<C>(cost: Cost, text: &mut Vec<u8>, sheet: &Certificate<C>) -> Result<(), AllocError>
    ensures written { OnOk result
        (text.new.items ≡ text.old.items ++ text_of (head_lines cost (sheet_of sheet.now))) }
    ensures kept { IsPrefix text.old.items text.new.items }
{
    append_table(text, &sheet.table)?;
    append_limits(text, sheet.limit, sheet.step)?;
    append_forced(text, sheet.forced)?;
    append_line(text, cost.word(), &[sheet.cost])
}

// the line of the limit, and that of the step unless it is 1
fn append_limits(text: &mut Vec<u8>, limit: u8, step: u8) -> Result<(), AllocError>
    ensures written { OnOk result
        (text.new.items ≡ text.old.items ++ text_of (named_line (codes "limit") (limit ∷ []) ∷ step_lines step)) }
    ensures kept { IsPrefix text.old.items text.new.items }
{
    append_line(text, LIMIT, &[u64::from(limit)])?;
    if step == 1 {
        return Ok(());
    }
    append_line(text, STEP, &[u64::from(step)])
}

// the line of the largest class if it is forced
fn append_forced(text: &mut Vec<u8>, forced: bool) -> Result<(), AllocError>
    ensures written { OnOk result (text.new.items ≡ text.old.items ++ text_of (forced_lines forced)) }
    ensures kept { IsPrefix text.old.items text.new.items }
{
    if !forced {
        return Ok(());
    }
    append_line(text, FORCED, &[FORCED_CLASS])
}

/// Appends the class line of a table, with its newline. The only error is that the allocator refuses memory; then a part of the line may be
/// there.
pub fn append_table(text: &mut Vec<u8>, table: &ClassTable) -> Result<(), AllocError>
    ensures written { OnOk result (text.new.items ≡ text.old.items ++ ended (class_line table.now)) }
    ensures kept { IsPrefix text.old.items text.new.items }
{
    let mut line = ArrayVec::<u8, LINE_BYTES>::new();
    table.write_line(&mut line);
    text.extend_from_slice(&line)
}

fn append_rows(text: &mut Vec<u8>, rows: &Rows) -> Result<(), AllocError>
    ensures written { OnOk result (text.new.items ≡ text.old.items ++ text_of (map (named_line ROW.now) rows.now)) }
    ensures kept { IsPrefix text.old.items text.new.items }
{
    text.reserve(bytes_for(rows))?;
    for index in 0..rows.len() {
        append_line(text, ROW, rows.row(index))?;
    }
    Ok(())
}

// More bytes than the rows' lines have. Room that is taken at once costs nothing where it is not used; a text that grows is moved, and
// touches new pages for what it already has.
fn bytes_for(rows: &Rows) -> usize {
    let mut bytes: usize = 0;
    for index in 0..rows.len() {
        let line = rows.row(index).len().saturating_mul(NUMBER_BYTES);
        bytes = bytes.saturating_add(line).saturating_add(LINE_BYTES);
    }
    bytes
}

/// Appends the line of a name and numbers, with its newline. With room for it, it is appended. The only error is that the allocator refuses
/// memory; then a part of the line may be there.
pub fn append_line(text: &mut Vec<u8>, name: &[u8], numbers: &[u64]) -> Result<(), AllocError>
    ensures written { OnOk result (text.new.items ≡ text.old.items ++ ended (named_line name.now numbers.now)) }
    ensures kept { IsPrefix text.old.items text.new.items }
    ensures capacity { vec_capacity text.old ≤ vec_capacity text.new }
    ensures room { vec_len text.old + length name.now + NUMBER_BYTES * length numbers.now < vec_capacity text.old
        → IsOk result }
{
    text.extend_from_slice(name)?;
    let mut rest = numbers;
    while !rest.is_empty() {
        let (next, later) = rest.split_at(rest.len().min(TOGETHER));
        append_spaced(text, next)?;
        rest = later;
    }
    text.push(b'\n')?;
    Ok(())
}

// Appends a few numbers, each after a space. They are written from the last to the first, so that no number is moved, and appended once.
fn append_spaced(text: &mut Vec<u8>, numbers: &[u64]) -> Result<(), AllocError>
    requires { length numbers.now ≤ TOGETHER }
    ensures written { OnOk result (text.new.items ≡ text.old.items ++ spaced numbers.now) }
    ensures kept { IsPrefix text.old.items text.new.items }
    ensures len { vec_len text.new ≤ vec_len text.old + NUMBER_BYTES * length numbers.now }
    ensures capacity { vec_capacity text.old ≤ vec_capacity text.new }
    ensures room { vec_len text.old + NUMBER_BYTES * length numbers.now ≤ vec_capacity text.old → IsOk result }
{
    let mut buffer = [0u8; TOGETHER_BYTES];
    let mut start = TOGETHER_BYTES;
    for index in (0..numbers.len()).rev() {
        start = write_digits(numbers[index], &mut buffer, start) - 1;
        buffer[start] = b' ';
    }
    text.extend_from_slice(&buffer[start..])
}
