//! A caller of the checker.
ghost use Rattle.std.specs.Prelude.{◌≡◌, true, IfOk};
ghost use Rattle.tuner_theory.specs.Best.{IsBest};
ghost use Rattle.tuner_theory.specs.Served.{served};

use potential_check::{Sheet, Verdict, check};
use profile_count::Profile;
use std::alloc::{AllocError, Global};

/// Whether a sheet shows that its table is a best one for a profile. If it is true, no table of at most `sheet.limit` classes that are
/// multiples of `sheet.step`, and that serves the profile, wastes less, or where the sheet forces the largest class, none that has it too. The only error is that the allocator refuses memory.
pub fn is_best(alloc: Global, profile: &Profile, sheet: &Sheet) -> Result<bool, AllocError>
    ensures { IfOk result
        (λ best. best ≡ true → IsBest (served sheet.now.forced profile.now.counts) sheet.now.step
        sheet.now.limit sheet.now.table) }
{
    match check(alloc, profile, sheet)? {
        Verdict::Optimal => Ok(true),
        Verdict::Refused(_) => Ok(false),
    }
}
