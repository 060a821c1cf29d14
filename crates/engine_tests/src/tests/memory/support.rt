//! What the tests share.
use profile_count::Profile;
use std::process::Abort;
use std::test::Fail;

/// The profile of two sizes, for which two classes waste 8 bytes and one wastes 104.
pub const PROFILE: &str = "16 3\n40 1\n";

/// The sheet of the best two classes for it.
pub const SHEET: &str = "classes 2 4\nlimit 2\nwaste 8\nrow 104 8\nrow 8 8\n";

/// The profile as a value.
pub fn profile(rt: &impl AllocGlobal) -> Result<Profile, Fail> {
    Ok(Profile::read(rt.alloc(), PROFILE.as_bytes())?)
}

/// Where a call was refused memory in both of its attempts. The script refuses one growth alone, so the second one has all it wants.
pub fn report_two_refusals(rt: &impl Abort) -> Result<(), Fail> {
    panic!(rt; "memory was refused twice")
}
