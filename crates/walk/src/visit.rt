// The visit of an object by its case, and a postponed object taken up again. `by` tells whether clusters are walked.
ghost use Rattle.std.specs.Prelude.{◌≡◌, true, false, cond, ◌||◌, ◌&&◌, ◌*◌, ◌≤◌, eqb, length};
ghost use Rattle.records.specs.Record.{cluster};
ghost use Rattle.graph.specs.Numbers.{Obj};
ghost use Rattle.graph.specs.Trace as T;
ghost use Rattle.rules.specs.Buffers.{rec_of};
ghost use Rattle.rules.specs.View.{heap_in};
ghost use Rattle.walk.specs.Marks.{flags_of};
ghost use Rattle.walk.specs.State.{way, way_of, walked_heap, State, Ready, Moved, MemberVisited, TakenUp};

use crate::heap::Heap;
use crate::marks::put_bit;
use crate::scan::{scan, scan_outs, scan_sinks, scan_unmarked};
use postponed::put;
use records::{POSTPONED, REACHED, cluster_of, is_marked, is_reached};
use table::clusters::record_of;

// The cluster of object x; 0, which is for none in a record, where clusters are not walked.
fn cluster_seen(by: bool, n: u32, x: u32, records: &[u32]) -> u32
    ensures { result ≡ cond by (cluster (rec_of n records.now x)) 0 }
{
    if by {
        cluster_of(record_of(n, x, records))
    } else {
        0
    }
}

// Whether object x is marked, or its cluster reached: it need not wait.
#[tactic(auto, unfolding(crate::specs::Marks::flags_of))]
fn is_settled(by: bool, n: u32, x: u32, records: &[u32]) -> bool
    ensures { result ≡ (flags_of n records.now T.marked x
        || flags_of n records.now T.reached (cond by (cluster (rec_of n records.now x)) 0)) }
{
    is_marked(record_of(n, x, records))
        || is_reached(record_of(n, cluster_seen(by, n, x, records), records))
}

// Visits h, the head of its cluster: the sinks of its set, then its out members.
fn visit_head(heap: Heap, records: &mut [u32], work: &mut [u32], top: usize, h: u32) -> usize
    requires ready { Ready (way true heap.sinks.now heap.sets.now) heap.n records.old heap.slots.now work.old top }
    requires obj { Obj heap.n h }
    ensures { Moved heap.entry.n heap.entry.slots.now records.old work.old top
        (T.visit_by (heap_in heap.entry.n records.old heap.entry.slots.now heap.entry.sinks.now) false true
        (flags_of heap.entry.n records.old T.marked h) (flags_of heap.entry.n records.old T.reached h) h)
        records.new work.new result }
{
    if is_reached(record_of(heap.n, h, records)) {
        return top;
    }
    let at = scan_sinks(heap, records, work, top, heap.sets[h as usize - 1]);
    put_bit(records, h, REACHED, true);
    scan_outs(heap, records, work, at, h)
}

// Visits x, a member of a cluster that is not its head.
fn visit_member(n: u32, records: &mut [u32], work: &mut [u32], x: u32)
    requires { (n ≤ length records.old) × Obj n x }
    ensures { MemberVisited n x records.old work.old records.new work.new }
{
    if is_settled(true, n, x, records) {
        return;
    }
    put_bit(records, x, POSTPONED, true);
    put(n, work, x, true);
}

// Visits object x.
pub(crate) fn visit(heap: Heap, records: &mut [u32], work: &mut [u32], top: usize, x: u32) -> usize
    requires ready { Ready (way_of heap) heap.n records.old heap.slots.now work.old top }
    requires obj { Obj heap.n x }
    ensures { Moved heap.entry.n heap.entry.slots.now records.old work.old top
        (T.visit (walked_heap (way_of heap.entry) heap.entry.n records.old heap.entry.slots.now) x)
        records.new work.new result }
{
    let c = cluster_seen(heap.by, heap.n, x, records);
    if c == 0 {
        return scan_unmarked(heap, records, work, top, x);
    }
    if c == x {
        return visit_head(heap, records, work, top, x);
    }
    visit_member(heap.n, records, work, x);
    top
}

// Whether object x is marked and in no cluster that is walked: then a visit does nothing.
#[tactic(auto, unfolding(crate::specs::Marks::flags_of))]
fn is_scanned(by: bool, n: u32, x: u32, records: &[u32]) -> bool
    ensures { result ≡ (eqb (cond by (cluster (rec_of n records.now x)) 0) 0 && flags_of n records.now T.marked x) }
{
    cluster_seen(by, n, x, records) == 0 && is_marked(record_of(n, x, records))
}

// Visits the pending object x. Most visits of a dense heap are to objects scanned before, so these are passed over without a call; those of a plain walk that
// scan need none of the cases of `visit`.
pub(crate) fn visit_pending(
    heap: Heap,
    records: &mut [u32],
    work: &mut [u32],
    top: usize,
    x: u32,
) -> usize
    requires ready { Ready (way_of heap) heap.n records.old heap.slots.now work.old top }
    requires obj { Obj heap.n x }
    ensures { Moved heap.entry.n heap.entry.slots.now records.old work.old top
        (T.visit (walked_heap (way_of heap.entry) heap.entry.n records.old heap.entry.slots.now) x)
        records.new work.new result }
{
    if is_scanned(heap.by, heap.n, x, records) {
        return top;
    }
    if !heap.by {
        return scan_unmarked(heap, records, work, top, x);
    }
    visit(heap, records, work, top, x)
}

// Takes up the postponed object x, where nothing is pending: it is dropped or scanned.
pub(crate) fn take_up(heap: Heap, records: &mut [u32], work: &mut [u32], x: u32) -> usize
    requires state { State heap.n records.old heap.slots.now work.old (8 * heap.n) }
    requires obj { Obj heap.n x }
    ensures { TakenUp heap.entry.by heap.entry.n x heap.entry.slots.now records.old work.old records.new work.new result }
{
    let settled = is_settled(heap.by, heap.n, x, records);
    put_bit(records, x, POSTPONED, false);
    put(heap.n, work, x, false);
    let end = 8 * (heap.n as usize);
    if settled {
        return end;
    }
    scan(heap, records, work, end, x)
}
