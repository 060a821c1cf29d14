//! What keeps a list. The law is the contract of a function that does nothing.
ghost use Rattle.class_lists.specs.Lists.{ShowsList};
ghost use Rattle.heap_theory.specs.Region.{Region, next_in};
ghost use Rattle.std.specs.Prelude.{◌≡◌, ◌≢◌, ◌≤◌, ℕ, AllPairs, Contains, List, length};

/// From a front the links show at most one list. It has each of its slots once, so its links end after as many steps as there are slots, or
/// fewer. The list stays the same under each change that keeps the links of its slots: of granules and tags, of other headers, and of other
/// fields of headers.
pub fn law_lists()
    ensures one { (region : Region) (front : ℕ) (list other : List ℕ) → ShowsList region front list →
        ShowsList region front other → list ≡ other }
    ensures once { (region : Region) (front : ℕ) (list : List ℕ) → ShowsList region front list →
        AllPairs (λ s r. s ≢ r) list }
    ensures short { (region : Region) (front : ℕ) (list : List ℕ) → ShowsList region front list →
        length list ≤ length region.headers }
    ensures stays { (region new : Region) (front : ℕ) (list : List ℕ) → ShowsList region front list →
        length new.headers ≡ length region.headers → ((s : ℕ) → Contains list s → next_in new s ≡ next_in region s) →
        ShowsList new front list }
{}
