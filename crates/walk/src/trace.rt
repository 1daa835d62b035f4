// The walk of a collection: the starts one after the other, each with all that it leads to, then the postponed objects.
ghost use Rattle.std.specs.Prelude.{[], ◌∷◌, ◌*◌, ◌≤◌, length, take};
ghost use Rattle.layout.specs.Limits.{object_max};
ghost use Rattle.graph.specs.Numbers.{Obj};
ghost use Rattle.graph.specs.Heap.{pointers};
ghost use Rattle.rules.specs.View.{starts_in};
ghost use Rattle.walk.specs.State.{way_of, pending, Objects, Linked, Ready, Followed, Drained, Finished, Traceable, Walked};

use crate::heap::Heap;
use crate::visit::{take_up, visit, visit_pending};
use layout::limits::work_len;
use links::link;
use postponed::lowest;
use table::buffers::clear;

// Visits the pending objects, and what they lead to, until none is left.
fn drain(heap: Heap, records: &mut [u32], work: &mut [u32], top: usize)
    requires { Ready (way_of heap) heap.n records.old heap.slots.now work.old top }
    ensures { Drained (way_of heap.entry) heap.entry.n heap.entry.slots.now records.old (pending heap.entry.n work.old top)
        records.new work.new }
{
    let end = 8 * (heap.n as usize);
    let mut at = top;
    // Not a `for`: a visit moves the place of the next one.
    while at < end {
        let x = work[at];
        at = visit_pending(heap, records, work, at + 1, x);
    }
}

// Visits object x and what it leads to.
fn follow(heap: Heap, records: &mut [u32], work: &mut [u32], x: u32)
    requires ready { Ready (way_of heap) heap.n records.old heap.slots.now work.old (8 * heap.n) }
    requires obj { Obj heap.n x }
    ensures { Followed (way_of heap.entry) heap.entry.n heap.entry.slots.now records.old (x ∷ []) records.new work.new }
{
    let top = visit(heap, records, work, 8 * (heap.n as usize), x);
    drain(heap, records, work, top);
}

// Visits the objects that the first r roots name, by index.
fn follow_roots(heap: Heap, r: u32, roots: &[u32], records: &mut [u32], work: &mut [u32])
    requires ready { Ready (way_of heap) heap.n records.old heap.slots.now work.old (8 * heap.n) }
    requires r_in_bounds { (r ≤ length roots.now) × Objects heap.n (pointers (take r roots.now)) }
    ensures { Followed (way_of heap.entry) heap.entry.n heap.entry.slots.now records.old (pointers (take r roots.now))
        records.new work.new }
{
    // By index: a root that is nil leads nowhere, and the proof goes by how many roots are done.
    for i in 0..r as usize {
        let w = roots[i];
        if w != 0 {
            follow(heap, records, work, w);
        }
    }
}

// Takes up the postponed objects, the lowest first, until none is left.
fn follow_postponed(heap: Heap, records: &mut [u32], work: &mut [u32])
    requires { Ready (way_of heap) heap.n records.old heap.slots.now work.old (8 * heap.n) }
    ensures { Finished (way_of heap.entry) heap.entry.n heap.entry.slots.now records.old records.new }
{
    let mut x = lowest(heap.n, work);
    // Not a `for`: taking one up may postpone others.
    while x != 0 {
        let top = take_up(heap, records, work, x);
        drain(heap, records, work, top);
        x = lowest(heap.n, work);
    }
}

// Writes the links of the clusters, where they are walked.
fn link_clusters(by: bool, n: u32, records: &[u32], work: &mut [u32])
    requires { (n ≤ object_max) × (n ≤ length records.now) × (9 * n ≤ length work.old) }
    ensures { Linked by n records.now work.new }
{
    if !by {
        return;
    }
    let m = n as usize;
    link(true, n, records, &mut work[8 * m..9 * m]);
}

// Walks the heap from its roots, by clusters or without them, and leaves the flags in the records.
pub(crate) fn trace(heap: Heap, r: u32, roots: &[u32], records: &mut [u32], work: &mut [u32])
    requires traceable { Traceable (way_of heap) heap.n (starts_in r roots.now) records.old heap.slots.now work.old }
    requires r_in_bounds { r ≤ length roots.now }
    ensures { Walked (way_of heap.entry) heap.entry.n (starts_in r roots.now)
        records.old heap.entry.slots.now records.new }
{
    link_clusters(heap.by, heap.n, records, work);
    clear(work, 9 * (heap.n as usize), work_len(heap.n));
    follow_roots(heap, r, roots, records, work);
    follow_postponed(heap, records, work);
}
