ghost use Rattle.std.specs.Prelude.{◌≡◌, ℕ, ◌+◌, ◌-◌, ◌^◌, ◌<◌, ◌≤◌, length, slice_index};
ghost use Rattle.tuner_theory.specs.Growing.{IsGrowing};

/// A source of the costs of spans, which counts how many it is asked for. A span goes from a place to a later one. Places are counted from
/// 1, and place 0 is before them all. One call gives the costs of all spans from a place. Code over any source knows costs by `write_from`
/// alone.
pub trait SpanCosts {
    /// What the span from one place to another costs.
    ghost cost: { Self → ℕ → ℕ → ℕ };

    /// What `places` returns.
    ghost place_count: { Self → ℕ };

    /// What `calls` returns.
    ghost call_count: { Self → ℕ };

    /// The same source, asked for so many costs more.
    ghost after_calls: { Self → ℕ → Self };

    /// How many places there are.
    fn places(&self) -> usize
        ensures { result ≡ place_count self.now };

    /// How many costs were asked for.
    fn calls(&self) -> u64
        ensures { result ≡ call_count self.now };

    /// Writes the cost of the span from place `i` to each later place into `costs`, at the index of that place. The numbers at the other
    /// indices may change. Each of these costs counts as asked for, and nothing else changes. The count must stay below 2^63.
    fn write_from(&mut self, i: usize, costs: &mut [u64])
        requires within { i < place_count self.old }
        requires size { length costs.old ≡ place_count self.old + 1 }
        requires room { call_count self.old + (place_count self.old - i) < 2 ^ 63 }
        ensures size { length costs.new ≡ length costs.old }
        ensures costs { (j : ℕ) → i < j → j ≤ place_count self.old → slice_index costs.new j ≡ cost self.old i j }
        ensures counted { self.new ≡ after_calls self.old (place_count self.old - i) };

    /// No cost is above 2^60.
    ghost is_small: { (s : Self) (i j : ℕ) → i < j → j ≤ place_count s → cost s i j ≤ 2 ^ 60 };

    /// A span within another one costs no more.
    ghost grows: { (s : Self) → IsGrowing (cost s) (place_count s) };

    /// `after_calls` adds to the count of calls, and changes nothing else.
    ghost adds_calls: { (s : Self) (n : ℕ) → call_count (after_calls s n) ≡ call_count s + n };

    ghost keeps_cost: { (s : Self) (n : ℕ) → cost (after_calls s n) ≡ cost s };

    ghost keeps_places: { (s : Self) (n : ℕ) → place_count (after_calls s n) ≡ place_count s };

    ghost adds_up: { (s : Self) (m n : ℕ) → after_calls (after_calls s m) n ≡ after_calls s (m + n) };

    ghost adds_none: { (s : Self) → after_calls s 0 ≡ s };
}
