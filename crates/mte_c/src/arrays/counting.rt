//! The profile that two arrays spell.
ghost use Rattle.std.specs.Prelude.{◌≡◌, ◌↔◌, IfSome, IfNone};
ghost use Rattle.mte_c.specs.Arrays.Spelled.{GivesProfile, entry_fault, profile_of_arrays};

use crate::arrays::fault::ArrayError;
use class_table::LARGEST_COUNTED;
use profile_count::{GREATEST_COUNT, Profile, ProfileFault};
use std::alloc::Global;

/// The profile of these sizes with these counts, as far as both go.
pub(crate) fn count(alloc: Global, sizes: &[u32], counts: &[u32]) -> Result<Profile, ArrayError>
    ensures { GivesProfile result (profile_of_arrays sizes.now counts.now) }
{
    let mut profile = Profile::new(alloc)?;
    let mut next = 0;
    let entries = sizes.len().min(counts.len());
    for index in 0..entries {
        if let Some(fault) = entry_fault(next, sizes[index], counts[index]) {
            return Err(ArrayError::Entry(index as u64, fault));
        }
        profile.set_count(sizes[index], counts[index]);
        next = sizes[index] + 1;
    }
    Ok(profile)
}

// what is wrong with an entry, where `next` is the least size that may come
fn entry_fault(next: u32, size: u32, count: u32) -> Option<ProfileFault>
    ensures { result ≡ entry_fault next size count }
{
    if size > LARGEST_COUNTED {
        return Some(ProfileFault::BadLine);
    }
    if size < next {
        return Some(ProfileFault::NotAscending);
    }
    if count < 1 || count > GREATEST_COUNT {
        return Some(ProfileFault::CountOutOfRange);
    }
    None
}
