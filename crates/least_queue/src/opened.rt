ghost use Rattle.std.specs.Prelude.{◌≡◌, ◌-◌, ◌<◌, ◌⊎◌, [], ◌∷◌, ◌++◌, length, slice_index_or, vec_len, IfNone, IfSome, IsFalse, IsPermutation, IsSorted, IsTrue};
ghost use Rattle.std.specs.BinaryHeap.{IsHeap, IsUpperBound, heap_items};
ghost use Rattle.least_queue.specs.Heaps.{IsLastBehind};

use std::collections::BinaryHeap;

/// Takes the greatest element of a sorted list and a heap.
pub fn take_greatest<T: Ord + Drop>(run: &mut Vec<T>, heap: &mut BinaryHeap<T>) -> Option<T>
    requires sorted { IsSorted T.cmp run.old.items }
    requires heap { IsHeap T.cmp (heap_items heap.old) }
    ensures sorted { IsSorted T.cmp run.new.items }
    ensures heap { IsHeap T.cmp (heap_items heap.new) }
    ensures greatest { IfSome result (λ x.
        IsUpperBound T.cmp x (run.old.items ++ heap_items heap.old)) }
    ensures rest { IfSome result (λ x. IsPermutation (run.old.items ++ heap_items heap.old)
        (x ∷ (run.new.items ++ heap_items heap.new))) }
    ensures none { IfNone result (run.old.items ++ heap_items heap.old ≡ []) }
    ensures same { IfNone result (run.new.items ++ heap_items heap.new ≡ []) }
{
    if leads(run, heap) {
        run.pop()
    } else {
        heap.pop()
    }
}

/// Whether a list has a last element that is at least the greatest of a heap.
fn leads<T: Ord + Drop>(run: &Vec<T>, heap: &BinaryHeap<T>) -> bool
    requires { IsHeap T.cmp (heap_items heap.now) }
    ensures some { IsTrue result → 0 < vec_len run.now }
    ensures leads { IsTrue result → (d : T) → IsUpperBound T.cmp
        (slice_index_or run.now.items (length run.now.items - 1) d) (heap_items heap.now) }
    ensures behind { IsFalse result → (run.now.items ≡ [])
        ⊎ IsLastBehind T.cmp run.now.items (heap_items heap.now) }
{
    match (run.last(), heap.peek()) {
        (None, _) => false,
        (Some(_), None) => true,
        (Some(last), Some(head)) => last.cmp(head).is_ge(),
    }
}
