//! A binary heap: what stands at place `i` stands above the places `2 i + 1` and `2 i + 2`.
ghost use Rattle.std.specs.Prelude.{◌≡◌, ◌+◌, ◌-◌, ◌*◌, ◌<◌, ◌≤◌, SomeIff, MatchOption, length, take, IsPermutation};
ghost use Rattle.agendas.specs.Timeds.{sooner, JoinedBy, Least};
ghost use Rattle.agendas.specs.Heaps.{at, up, Heap, HeapUp, HeapDown, Child};

use crate::timed::Timed;

/// The place above `i`, where there is one.
fn above(i: usize) -> Option<usize>
    ensures { SomeIff result (0 < i) (up i) }
{
    Some(i.checked_sub(1)? / 2)
}

/// The sooner of the places below `i`, where there is one.
fn child(heap: &[Timed], i: usize) -> Option<usize>
    requires { i ≤ length heap.now }
    ensures { MatchOption result (length heap.now ≤ 2 * i + 1) (Child sooner (at heap.now) (length heap.now) i) }
{
    let left = 2 * i + 1;
    let right = left + 1;
    if right < heap.len() && heap[right] < heap[left] {
        Some(right)
    } else if left < heap.len() {
        Some(left)
    } else {
        None
    }
}

/// Exchanges the last with those above it that it is sooner than.
pub(crate) fn rise(heap: &mut [Timed])
    requires some { 0 < length heap.old }
    requires below { HeapUp sooner (at heap.old) (length heap.old) (length heap.old - 1) }
    ensures heap { Heap sooner (at heap.new) (length heap.new) }
    ensures same { IsPermutation heap.old heap.new }
{
    let mut i = heap.len() - 1;
    while let Some(p) = above(i)
        && heap[i] < heap[p]
    {
        heap.swap(i, p);
        i = p;
    }
}

/// Exchanges the first with those below it that are sooner.
fn sink(heap: &mut [Timed])
    requires above { HeapDown sooner (at heap.old) (length heap.old) 0 }
    ensures heap { Heap sooner (at heap.new) (length heap.new) }
    ensures same { IsPermutation heap.old heap.new }
{
    let mut i = 0;
    while let Some(c) = child(heap, i)
        && heap[c] < heap[i]
    {
        heap.swap(i, c);
        i = c;
    }
}

/// The soonest, which leaves the heap: the last place is free then.
pub(crate) fn pop(heap: &mut [Timed]) -> Timed
    requires some { 0 < length heap.old }
    requires heap { Heap sooner (at heap.old) (length heap.old) }
    ensures heap { Heap sooner (at heap.new) (length heap.new - 1) }
    ensures less { JoinedBy (take (length heap.old - 1) heap.new) heap.old result }
    ensures least { Least heap.old result }
{
    let last = heap.len() - 1;
    heap.swap(0, last);
    sink(&mut heap[..last]);
    heap[last]
}
