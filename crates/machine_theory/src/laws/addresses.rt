ghost use Rattle.machine_theory.specs.Address.{logical_tag, place_of, region_start, with_tag};
ghost use Rattle.std.specs.Prelude.{◌≡◌, ◌<◌, ◌^◌, ℕ};

/// A tag that was put into an address is read back from it, and the rest of the address stays the same. The region begins at 2 ^ 36.
pub fn law_addresses()
    ensures tag { (address tag : ℕ) → tag < 16 → logical_tag (with_tag address tag) ≡ tag }
    ensures place { (address tag : ℕ) → place_of (with_tag address tag) ≡ place_of address }
    ensures own_tag { (address : ℕ) → with_tag address (logical_tag address) ≡ address }
    ensures fits { (address tag : ℕ) → address < 2 ^ 64 → tag < 16 → with_tag address tag < 2 ^ 64 }
    ensures tag_fits { (address : ℕ) → logical_tag address < 16 }
    ensures region { region_start ≡ 2 ^ 36 }
{}
