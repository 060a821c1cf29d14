//! Sheets that are read and written.
use super::support::SHEET;
use crate::tests::support::same;
use potential_check::{OfWaste, Sheet, SheetError, read_sheet, write_sheet};
use std::process::Abort;
use std::test::Fail;

#[test]
fn a_sheet_that_is_read(rt: HostRuntime) {
    assert!(rt; is_read(&rt) || is_read(&rt), "refused twice");
}

// whether the sheet is read
fn is_read(rt: &(impl Abort + AllocGlobal)) -> bool {
    match read_sheet::<OfWaste>(rt.alloc(), SHEET.as_bytes()) {
        Ok(sheet) => {
            same(rt, &sheet.cost, &8, &"the waste");
            true
        }
        Err(error) => {
            assert!(rt; error == SheetError::OutOfMemory);
            false
        }
    }
}

// the sheet after a letter
const WRITTEN: &str = "xclasses 2 4\nlimit 2\nwaste 8\nrow 104 8\nrow 8 8\n";

#[test]
fn a_sheet_that_is_written(rt: HostRuntime) -> Result<(), Fail> {
    let sheet: Sheet = read_sheet(rt.alloc(), SHEET.as_bytes())?;
    let mut text = Vec::from_slice(rt.alloc(), b"x")?;
    assert!(rt;
        is_written(&rt, &sheet, &mut text) || is_written(&rt, &sheet, &mut text),
        "refused twice"
    );
    Ok(())
}

fn is_written(rt: &impl Abort, sheet: &Sheet, text: &mut Vec<u8>) -> bool {
    let is_written = write_sheet(sheet, text).is_ok();
    let wanted = if is_written { WRITTEN } else { "x" };
    same(rt, &text.as_slice(), &wanted.as_bytes(), &"the text");
    is_written
}
