//! Random offsets: the four bits that a draw takes from the seed, and the seed after it.
ghost use Rattle.machine_theory.specs.Seed.{next_offset, next_seed};
ghost use Rattle.std.specs.Prelude.{◌≡◌, ◌<◌};

/// The offset that a draw takes from the seed: four new bits, the first one lowest.
#[tactic(auto, using(crate::proofs::DrawnTags::new_bits))]
pub(crate) fn next_offset(seed: u16) -> u8
    ensures offset { result ≡ next_offset seed }
    ensures below { result < 16 }
{
    // the bits at 0, 3, and at 2 and 5, which are those two places up
    let twice = seed ^ (seed >> 3);
    ((twice ^ (twice >> 2)) & 0xf) as u8
}

/// The seed after this draw, with the four new bits highest.
#[tactic(auto, unfolding(machine_theory::specs::Seed::next_seed))]
pub(crate) fn next_seed(seed: u16) -> u16
    ensures { result ≡ next_seed seed }
{
    (seed >> 4) + (u16::from(next_offset(seed)) << 12)
}
