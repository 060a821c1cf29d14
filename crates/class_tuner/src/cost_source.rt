ghost use Rattle.std.specs.Prelude.{◌≡◌, ℕ, ◌+◌, ◌-◌, ◌^◌, ◌<◌, ◌≤◌, length, slice_index};
ghost use Rattle.class_tuner.specs.Filling.{end_cost};
ghost use Rattle.class_tuner.specs.Windows.{IsWindowAfter};
ghost use Rattle.tuner_theory.specs.Rows.{IsLeastWithin};
ghost use Rattle.tuner_theory.specs.Spans.{IsCrossing};

use potential_check::number_in_row;

/// A source of the costs of spans, which counts its calls. A span goes from a place to a later one. Places are counted from 1, and place 0
/// is before them all. Code over any source knows costs by `at` and `least_end` alone.
pub trait CostSource {
    /// What the span from one place to another costs.
    ghost cost: { Self → ℕ → ℕ → ℕ };

    /// What `places` returns.
    ghost place_count: { Self → ℕ };

    /// What `calls` returns.
    ghost call_count: { Self → ℕ };

    /// The same source with another count of calls.
    ghost with_calls: { Self → ℕ → Self };

    /// How many places there are.
    fn places(&self) -> usize
        ensures { result ≡ place_count self.now };

    /// How many costs were asked for: one by each call of `at`, one for each end by a call of `least_end`.
    fn calls(&self) -> u64
        ensures { result ≡ call_count self.now };

    /// The cost of the span from place `i` to a later place `j`. The count of calls, which must be below 2^63, rises by 1. Nothing else
    /// changes.
    fn at(&mut self, i: usize, j: usize) -> u64
        requires order { i < j }
        requires within { j ≤ place_count self.old }
        requires room { call_count self.old < 2 ^ 63 }
        ensures cost { result ≡ cost self.old i j }
        ensures counted { self.new ≡ with_calls self.old (call_count self.old + 1) };

    /// The least cost of a place over its ends from `low` to `high`, with the first end that has it. The cost of an end is the cost of the
    /// span to it plus the number of `before` at it, which must be at most 2^60; after the last number of `before` it is 0. Each of these
    /// ends counts as one call of `at`. Nothing else changes.
    fn least_end(&mut self, before: &[u64], place: usize, low: usize, high: usize) -> (u64, usize)
        requires window { IsWindowAfter place low high (place_count self.old) }
        requires covered { high ≤ length before.now }
        requires small { (j : ℕ) → slice_index before.now j ≤ 2 ^ 60 }
        requires room { call_count self.old + (high - low) < 2 ^ 63 }
        ensures least { IsLeastWithin (end_cost (cost self.old) before.now place) low high result.1 }
        ensures value { result.0 ≡ end_cost (cost self.old) before.now place result.1 }
        ensures counted { self.new ≡ with_calls self.old (call_count self.old + (high - low) + 1) }
    {
        let mut end = high;
        let mut least = self.at(place, high) + number_in_row(before, high);
        for j in (low..high).rev() {
            let cost = self.at(place, j) + before[j];
            if cost <= least {
                least = cost;
                end = j;
            }
        }
        (least, end)
    }

    /// No cost is above 2^60.
    ghost is_small: { (s : Self) (i j : ℕ) → i < j → j ≤ place_count s → cost s i j ≤ 2 ^ 60 };

    /// Exchanging the ends of two spans that cross never costs less.
    ghost is_crossing: { (s : Self) → IsCrossing (cost s) (place_count s) };

    /// `with_calls` sets the count of calls, and nothing else.
    ghost sets_calls: { (s : Self) (n : ℕ) → call_count (with_calls s n) ≡ n };

    ghost keeps_cost: { (s : Self) (n : ℕ) → cost (with_calls s n) ≡ cost s };

    ghost keeps_places: { (s : Self) (n : ℕ) → place_count (with_calls s n) ≡ place_count s };

    ghost keeps_last: { (s : Self) (m n : ℕ) → with_calls (with_calls s m) n ≡ with_calls s n };

    ghost keeps_all: { (s : Self) → with_calls s (call_count s) ≡ s };
}
