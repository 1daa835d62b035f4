// The pending objects, and the scan of an object. Pending are the work words from `top` up to 8 n, the next one first.
ghost use Rattle.std.specs.Prelude.{◌≡◌, true, false, ◌*◌, ◌≤◌, length, take, drop};
ghost use Rattle.layout.specs.Limits.{sink_max};
ghost use Rattle.graph.specs.Numbers.{Obj};
ghost use Rattle.graph.specs.Trace as T;
ghost use Rattle.rules.specs.View.{view};
ghost use Rattle.walk.specs.Marks.{flags_of};
ghost use Rattle.walk.specs.State.{pointers_in, Objects, sinks_in, link_at, Linked, Pushable, Pushed, State, Moved};

use crate::heap::Heap;
use crate::marks::put_bit;
use bitmap::{lowest_bit, without_lowest};
use layout::limits::within;
use links::{next_member, top_member};
use records::{MARKED, is_marked, width_of};
use table::clusters::record_of;

// Puts the pointers among the k words of `slots` from `from` in front of the pending objects.
fn push_pointers(
    n: u32,
    slots: &[u32],
    work: &mut [u32],
    from: usize,
    k: usize,
    top: usize,
) -> usize
    requires { Pushable n slots.now from k work.old top }
    ensures { Pushed (pointers_in n (take k (drop from slots.now))) work.old top work.new result }
{
    let mut at = top;
    // By index, from the last down: what is put in front last is scanned first.
    for j in (0..k).rev() {
        let w = slots[from + j];
        if within(1, n, w) {
            at -= 1;
            work[at] = w;
        }
    }
    at
}

// Marks object x and puts its pointers in front of the pending objects.
pub(crate) fn scan(heap: Heap, records: &mut [u32], work: &mut [u32], top: usize, x: u32) -> usize
    requires state { State heap.n records.old heap.slots.now work.old top }
    requires obj { Obj heap.n x }
    requires x_value { flags_of heap.n records.old T.marked x ≡ false }
    ensures { Moved heap.entry.n heap.entry.slots.now records.old work.old top
        (T.scan (view heap.entry.n records.old heap.entry.slots.now) x)
        records.new work.new result }
{
    let k = width_of(record_of(heap.n, x, records)) as usize;
    put_bit(records, x, MARKED, true);
    push_pointers(heap.n, heap.slots, work, 8 * (x as usize - 1), k, top)
}

// Scans object x unless it is marked.
pub(crate) fn scan_unmarked(
    heap: Heap,
    records: &mut [u32],
    work: &mut [u32],
    top: usize,
    x: u32,
) -> usize
    requires state { State heap.n records.old heap.slots.now work.old top }
    requires obj { Obj heap.n x }
    ensures { Moved heap.entry.n heap.entry.slots.now records.old work.old top
        (T.scan_if (view heap.entry.n records.old heap.entry.slots.now) true true (flags_of heap.entry.n records.old T.marked x) x)
        records.new work.new result }
{
    if is_marked(record_of(heap.n, x, records)) {
        return top;
    }
    scan(heap, records, work, top, x)
}

// Scans the sinks in the places of a set that are not marked, by place.
pub(crate) fn scan_sinks(
    heap: Heap,
    records: &mut [u32],
    work: &mut [u32],
    top: usize,
    set: u64,
) -> usize
    requires state { State heap.n records.old heap.slots.now work.old top }
    requires sink_max_in_bounds { (sink_max ≤ length heap.sinks.now) × Objects heap.n (sinks_in heap.sinks.now set) }
    ensures { Moved heap.entry.n heap.entry.slots.now records.old work.old top
        (T.scan_all (view heap.entry.n records.old heap.entry.slots.now) (sinks_in heap.entry.sinks.now set))
        records.new work.new result }
{
    let mut at = top;
    let mut rest = set;
    // Not a `for`: bit by bit, from the lowest on.
    while rest != 0 {
        let k = lowest_bit(rest) as usize;
        at = scan_unmarked(heap, records, work, at, heap.sinks[k]);
        rest = without_lowest(rest);
    }
    at
}

// The link word of object x.
fn link_of(n: u32, work: &[u32], x: u32) -> u32
    requires { Obj n x × (9 * n ≤ length work.now) }
    ensures { result ≡ link_at n work.now x }
{
    work[8 * (n as usize) + (x as usize - 1)]
}

// Scans the out members of h's cluster that are not marked, from the highest down, so that in the end their pointers are in number order.
pub(crate) fn scan_outs(
    heap: Heap,
    records: &mut [u32],
    work: &mut [u32],
    top: usize,
    h: u32,
) -> usize
    requires state { State heap.n records.old heap.slots.now work.old top }
    requires linked { Linked true heap.n records.old work.old }
    requires obj { Obj heap.n h }
    ensures { Moved heap.entry.n heap.entry.slots.now records.old work.old top
        (T.scan_outs (view heap.entry.n records.old heap.entry.slots.now) h heap.entry.n)
        records.new work.new result }
{
    let mut at = top;
    let mut x = top_member(link_of(heap.n, work, h));
    // Not a `for`: along the links.
    while x != 0 {
        at = scan_unmarked(heap, records, work, at, x);
        x = next_member(link_of(heap.n, work, x));
    }
    at
}
