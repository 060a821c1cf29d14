ghost use Rattle.machine_theory.specs.Seed.{Begins, next_offset, seed_after};
ghost use Rattle.std.specs.Prelude.{◌≡◌, ◌+◌, ◌*◌, ◌<◌, ◌^◌, ℕ};

/// Draw number k, from 0, takes bits 4 k + 16 to 4 k + 19 of the sequence that the first seed begins; after k draws the register
/// begins it from bit 4 k on; and each seed begins a sequence.
pub fn law_sequence()
    ensures offset { (seed : ℕ) (x : ℕ → ℕ) (k : ℕ) → seed < 2 ^ 16 → Begins seed x →
        next_offset (seed_after k seed)
        ≡ x (4 * k + 16) + 2 * x (4 * k + 17) + 4 * x (4 * k + 18) + 8 * x (4 * k + 19) }
    ensures register { (seed : ℕ) (x : ℕ → ℕ) (k : ℕ) → seed < 2 ^ 16 → Begins seed x
        → Begins (seed_after k seed) (λ n. x (4 * k + n)) }
    ensures begun { (seed : ℕ) → seed < 2 ^ 16 → (x : ℕ → ℕ) × Begins seed x }
{}
