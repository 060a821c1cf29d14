//! The moments over which a table is fitted.
ghost use Rattle.std.specs.Prelude.{◌≡◌, ◌<◌, ◌≤◌, ◌+◌, ◌⊎◌, ℕ, [], ◌∷◌, IfOk, OnOk, All, Contains, length, slice_index};
ghost use Rattle.std.specs.List.Sorted.{IsStrictlyIncreasing};
ghost use Rattle.class_tuner.specs.Fits.Timelines.Rounds.{IsUnion, moments_left};
ghost use Rattle.tuner_theory.specs.declared.most_snapshots.TheConstants.{MOST_SNAPSHOTS};

use history_count::MOST_SNAPSHOTS;
use std::alloc::{AllocError, Global};

/// One moment. The only error is that the allocator refuses memory.
pub(crate) fn one_moment(alloc: Global, moment: usize) -> Result<Vec<usize>, AllocError>
    ensures { IfOk result (λ numbers. numbers.items ≡ moment ∷ []) }
{
    let mut numbers = Vec::new(alloc);
    numbers.push(moment)?;
    Ok(numbers)
}

/// What is left of the moments, all or where they would be too many only `kept`, with further ones. They ascend, and none is above `most`. The
/// only error is that the allocator refuses memory.
pub(crate) fn with_moments(
    alloc: Global,
    numbers: Vec<usize>,
    kept: usize,
    further: &[usize],
    most: usize,
) -> Result<Vec<usize>, AllocError>
    requires few { length further.now < MOST_SNAPSHOTS }
    requires numbers { All (λ number. number ≤ most) numbers.items }
    requires ascending { IsStrictlyIncreasing numbers.items }
    requires further { All (λ number. number ≤ most) further.now }
    requires kept { Contains numbers.items kept }
    ensures few { IfOk result (λ more. length more.items ≤ MOST_SNAPSHOTS) }
    ensures within { IfOk result (λ more. All (λ number. number ≤ most) more.items) }
    ensures kept { IfOk result (λ more. Contains more.items kept) }
    ensures union { IfOk result (λ more.
        IsUnion (moments_left numbers.items kept (length further.now)) further.now more.items) }
{
    let mut more = start_with(alloc, numbers, kept, further.len())?;
    for i in 0..further.len() {
        add_moment(&mut more, further[i], most)?;
    }
    Ok(more)
}

// the numbers, or where they and so many further ones are too many, only one of them
fn start_with(
    alloc: Global,
    numbers: Vec<usize>,
    kept: usize,
    further: usize,
) -> Result<Vec<usize>, AllocError>
    requires { further < MOST_SNAPSHOTS }
    ensures few { IfOk result (λ start. length start.items + further ≤ MOST_SNAPSHOTS) }
    ensures which { IfOk result (λ start. (start.items ≡ numbers.items) ⊎ (start.items ≡ kept ∷ [])) }
    ensures left { IfOk result (λ start. start.items ≡ moments_left numbers.items kept further) }
{
    if numbers.len() > MOST_SNAPSHOTS - further {
        return one_moment(alloc, kept);
    }
    Ok(numbers)
}

// adds a moment at its place, unless it is there
fn add_moment(numbers: &mut Vec<usize>, moment: usize, most: usize) -> Result<(), AllocError>
    requires numbers { All (λ number. number ≤ most) numbers.old.items }
    requires ascending { IsStrictlyIncreasing numbers.old.items }
    requires moment { moment ≤ most }
    ensures few { OnOk result (length numbers.new.items ≤ length numbers.old.items + 1) }
    ensures within { OnOk result (All (λ number. number ≤ most) numbers.new.items) }
    ensures union { OnOk result (IsUnion numbers.old.items (moment ∷ []) numbers.new.items) }
{
    let place = place_of(numbers, moment);
    if place < numbers.len() && numbers[place] == moment {
        return Ok(());
    }
    numbers.insert(place, moment)?;
    Ok(())
}

// the first place whose number is not below a moment
fn place_of(numbers: &[usize], moment: usize) -> usize
    ensures within { result ≤ length numbers.now }
    ensures below { IsStrictlyIncreasing numbers.now → (k : ℕ) → k < result → slice_index numbers.now k < moment }
    ensures above { IsStrictlyIncreasing numbers.now
        → (k : ℕ) → result ≤ k → k < length numbers.now → moment ≤ slice_index numbers.now k }
{
    numbers.partition_point(|number| *number < moment)
}
