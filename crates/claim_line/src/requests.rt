//! What a profile counts in all.
ghost use Rattle.std.specs.Prelude.{◌≡◌};
ghost use Rattle.claim_line.specs.Claims.{requests_of};

use class_table::LARGEST_COUNTED;
use profile_count::Profile;

/// What a profile counts in all.
#[derive(Debug, Clone, Copy, PartialEq, Eq)]
pub struct Requests {
    /// How many sizes are counted, 0 to 16,369.
    pub sizes: u64,
    /// How often they were requested.
    pub requests: u64,
    /// The bytes of these requests.
    pub bytes: u64,
    /// How often larger sizes were requested, which are in no other of these numbers.
    pub large: u64,
}

/// What a profile counts in all.
pub fn requests_of(profile: &Profile) -> Requests
    ensures { result ≡ requests_of profile.now }
{
    let mut sizes = 0;
    let mut requests = 0;
    let mut bytes = 0;
    for size in 0..LARGEST_COUNTED + 1 {
        let count = profile.count(size);
        sizes += u64::from(count > 0);
        requests += u64::from(count);
        bytes += u64::from(count) * u64::from(size);
    }
    Requests {
        sizes,
        requests,
        bytes,
        large: u64::from(profile.large()),
    }
}
