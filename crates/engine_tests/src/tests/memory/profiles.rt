//! Profiles, and what the tuner and the checker make of them.
use super::support::{PROFILE, SHEET, profile};
use crate::tests::support::same;
use class_tuner::{CostSource, Costs, fill_rows, tune};
use potential_check::{Sheet, Verdict, check, read_sheet};
use profile_count::{Profile, ProfileError};
use std::process::Abort;
use std::test::Fail;

#[test]
fn a_new_profile(rt: HostRuntime) {
    assert!(rt; is_profile(&rt) || is_profile(&rt), "refused twice");
}

// whether a profile is made
fn is_profile(rt: &(impl Abort + AllocGlobal)) -> bool {
    let Ok(profile) = Profile::new(rt.alloc()) else {
        return false;
    };
    same(rt, &profile.count(16), &0, &"the count of 16");
    true
}

#[test]
fn a_profile_that_is_read(rt: HostRuntime) {
    assert!(rt; is_read(&rt) || is_read(&rt), "refused twice");
}

fn is_read(rt: &(impl Abort + AllocGlobal)) -> bool {
    match Profile::read(rt.alloc(), PROFILE.as_bytes()) {
        Ok(profile) => {
            same(rt, &profile.count(16), &3, &"the count of 16");
            true
        }
        Err(error) => {
            assert!(rt; error == ProfileError::OutOfMemory);
            false
        }
    }
}

#[test]
fn a_profile_that_is_written(rt: HostRuntime) -> Result<(), Fail> {
    let profile = profile(&rt)?;
    let mut text = Vec::from_slice(rt.alloc(), b"x")?;
    assert!(rt;
        is_written(&rt, &profile, &mut text) || is_written(&rt, &profile, &mut text),
        "refused twice"
    );
    Ok(())
}

fn is_written(rt: &impl Abort, profile: &Profile, text: &mut Vec<u8>) -> bool {
    let is_written = profile.write(text).is_ok();
    let wanted = if is_written { "x16 3\n40 1\n" } else { "x" };
    same(rt, &text.as_slice(), &wanted.as_bytes(), &"the text");
    is_written
}

#[test]
fn rows_that_are_filled(rt: HostRuntime) -> Result<(), Fail> {
    let profile = profile(&rt)?;
    assert!(rt;
        are_filled(&rt, &profile)? || are_filled(&rt, &profile)?,
        "refused twice"
    );
    Ok(())
}

fn are_filled(rt: &(impl Abort + AllocGlobal), profile: &Profile) -> Result<bool, Fail> {
    let mut costs = Costs::new(rt.alloc(), profile, 1)?;
    let Ok(filled) = fill_rows(rt.alloc(), &mut costs, 2) else {
        return Ok(false);
    };
    same(rt, &filled.rows.len(), &2, &"rows");
    Ok(true)
}

#[test]
fn costs(rt: HostRuntime) -> Result<(), Fail> {
    let profile = profile(&rt)?;
    assert!(rt;
        are_costs(&rt, &profile) || are_costs(&rt, &profile),
        "refused twice"
    );
    Ok(())
}

fn are_costs(rt: &(impl Abort + AllocGlobal), profile: &Profile) -> bool {
    let Ok(costs) = Costs::new(rt.alloc(), profile, 1) else {
        return false;
    };
    same(rt, &costs.places(), &2, &"places");
    true
}

#[test]
fn a_tuned_sheet(rt: HostRuntime) -> Result<(), Fail> {
    let profile = profile(&rt)?;
    assert!(rt;
        is_tuned(&rt, &profile) || is_tuned(&rt, &profile),
        "refused twice"
    );
    Ok(())
}

fn is_tuned(rt: &(impl Abort + AllocGlobal), profile: &Profile) -> bool {
    let Ok(tuned) = tune(rt.alloc(), profile, 2, 1, false) else {
        return false;
    };
    same(rt, &tuned.sheet().cost, &8, &"the waste");
    true
}

#[test]
fn a_checked_sheet(rt: HostRuntime) -> Result<(), Fail> {
    let profile = profile(&rt)?;
    let sheet: Sheet = read_sheet(rt.alloc(), SHEET.as_bytes())?;
    assert!(rt;
        is_checked(&rt, &profile, &sheet) || is_checked(&rt, &profile, &sheet),
        "refused twice"
    );
    Ok(())
}

fn is_checked(rt: &(impl Abort + AllocGlobal), profile: &Profile, sheet: &Sheet) -> bool {
    let Ok(verdict) = check(rt.alloc(), profile, sheet) else {
        return false;
    };
    assert!(rt; verdict == Verdict::Optimal);
    true
}
