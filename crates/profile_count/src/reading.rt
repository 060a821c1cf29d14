//! How a text spells a profile.
ghost use Rattle.profile_count.specs.ProfileText.{GivesProfile, profile_of};

use crate::entry::{Entry, next_entry};
use crate::fault::{ProfileError, ProfileFault};
use crate::profile::Profile;
use line_text::{LineReader, Lines, Stop, lines_in, read_lines};
use std::alloc::Global;

/// What was counted so far, and the least size that may come next.
#[derive(Drop)]
pub(crate) struct ProfileReading {
    profile: Profile,
    next: u32,
}

impl LineReader for ProfileReading {
    ghost use Rattle.profile_count.specs.ProfileText.{may_come, profile_steps};

    type Value = Profile;

    type Fault = ProfileFault;

    ghost steps = { profile_steps };

    ghost own = { λ _ ls. ls };

    ghost may_come = { may_come };

    #[inline(always)]
    fn take(&mut self, lines: &mut Lines<'_>) -> Option<Result<(), Stop<ProfileFault>>> {
        match next_entry(self.next, self.profile.large(), lines)? {
            Ok(Entry::Size(size, count)) => {
                self.profile.set_count(size, count);
                self.next = size + 1;
            }
            Ok(Entry::Large(count)) => self.profile.set_large(count),
            Err(fault) => return Some(Err(Stop::Fault(fault))),
        }
        Some(Ok(()))
    }

    fn finish(self) -> Result<Profile, ProfileFault> {
        Ok(self.profile)
    }
}

impl Profile {
    /// The profile that a text spells: a line `SIZE COUNT` for each counted size, ascending, then perhaps a line `large COUNT`.
    /// The last line may lack its newline. Errors: the first faulty line with its fault, or `OutOfMemory`.
    pub fn read(alloc: Global, text: &[u8]) -> Result<Profile, ProfileError>
        ensures { GivesProfile result (profile_of text.now) }
    {
        let profile = Profile::new(alloc)?;
        match read_lines(ProfileReading { profile, next: 0 }, 1, lines_in(text)) {
            Ok((profile, _rest)) => Ok(profile),
            Err((Stop::OutOfMemory, _number)) => Err(ProfileError::OutOfMemory),
            Err((Stop::Fault(fault), number)) => Err(ProfileError::Line(number, fault)),
        }
    }
}
