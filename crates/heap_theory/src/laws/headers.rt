ghost use Rattle.heap_theory.specs.HeapInMemory.{HaveSameSlots, HeaderWordsStay};
ghost use Rattle.heap_theory.specs.State.{Heap};

/// Two memories that keep heaps with the same layout, slots, total and limit have the same words in every slot's header: both words, all
/// 128 bits, the link too, since these four determine each list and its order. So a change that keeps these four keeps every header word.
pub fn law_header_words()
    ensures { (heap other : Heap) → HaveSameSlots heap other → HeaderWordsStay heap other }
{}
