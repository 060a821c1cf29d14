ghost use Rattle.heap_theory.specs.GranuleKinds.{IsOfItsKind};
ghost use Rattle.heap_theory.specs.Sound.{IsSoundHeap};
ghost use Rattle.heap_theory.specs.State.{Heap};
ghost use Rattle.std.specs.Prelude.{ℕ};

/// The layout and the state of its slot determine the kind of each granule of a sound heap: slack, a header, a granule of a live or of a
/// freed chunk, or a tail.
pub fn law_kinds()
    ensures { (heap : Heap) → IsSoundHeap heap → (g : ℕ) → IsOfItsKind heap g }
{}
