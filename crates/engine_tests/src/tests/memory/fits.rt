//! Fits that are read and written.
use crate::tests::support::same;
use potential_check::{Fit, OfFootprint, SheetError, read_sheet, write_sheet};
use std::process::Abort;
use std::test::Fail;

// the worked fit of docs/CERTIFICATES.md
const FIT: &str = "classes 4\nlimit 2\nfootprint 192\nrow 192 128\nrow 192 128\n";

// the same after a letter
const WRITTEN: &str = "xclasses 4\nlimit 2\nfootprint 192\nrow 192 128\nrow 192 128\n";

#[test]
fn a_fit_that_is_read(rt: HostRuntime) {
    assert!(rt; is_read(&rt) || is_read(&rt), "refused twice");
}

// whether the fit is read
fn is_read(rt: &(impl Abort + AllocGlobal)) -> bool {
    match read_sheet::<OfFootprint>(rt.alloc(), FIT.as_bytes()) {
        Ok(fit) => {
            same(rt, &fit.cost, &192, &"the footprint");
            true
        }
        Err(error) => {
            assert!(rt; error == SheetError::OutOfMemory);
            false
        }
    }
}

#[test]
fn a_fit_that_is_written(rt: HostRuntime) -> Result<(), Fail> {
    let fit: Fit = read_sheet(rt.alloc(), FIT.as_bytes())?;
    let mut text = Vec::from_slice(rt.alloc(), b"x")?;
    assert!(rt;
        is_written(&rt, &fit, &mut text) || is_written(&rt, &fit, &mut text),
        "refused twice"
    );
    Ok(())
}

fn is_written(rt: &impl Abort, fit: &Fit, text: &mut Vec<u8>) -> bool {
    let is_written = write_sheet(fit, text).is_ok();
    let wanted = if is_written { WRITTEN } else { "x" };
    same(rt, &text.as_slice(), &wanted.as_bytes(), &"the text");
    is_written
}
