// The walk of the analysis. A visit to make is one work word: the object, and above its 12 bits the cluster passed to it. The sinks of an
// older cluster that are still to be visited are one word too, a marker: the cluster, above its 12 bits the place of the list from which on
// they are, and MARK.
ghost use Rattle.std.specs.Prelude.{◌≡◌, [], ◌∷◌, ℕ, ◌+◌, ◌*◌, ◌/◌, ◌^◌, ◌≤◌, ◌<◌, length};
ghost use Rattle.std.specs.Int.Count.{count_trailing_zeros};
ghost use Rattle.rules.specs.Buffers.{rec_of};
ghost use Rattle.rules.specs.View.{target};
ghost use Rattle.graph.specs.Numbers.{upd};
ghost use Rattle.analyse.specs.Memory.{stack_end, area, mem_of, walk_of, visit_words, markers, size_in, in_front, with_state, with_link, counting};
ghost use Rattle.analyse.specs.Called.{out_kids, outs_below, Chained, handled, goes_to, placed, visiting};
ghost use Rattle.analyse.specs.Lent.{view_of, heap_of, SizedFor, VisitingIn, WalkingIn, VisitedIn, GoesOnIn};

use crate::heap::Heap;
use crate::memory::{record_at, word_of};
use bitmap::lowest_bit;
use links::{next_member, top_member};
use records::{is_out, width_of};
use table::clusters::target_of;

// A word from this on is a marker.
const MARK: u32 = 16777216;

// Puts visits to what object x points at, each with the cluster c, in front of the others.
fn push_kids(heap: Heap, work: &mut [u32], x: u32, c: u32, top: usize) -> usize
    requires sized { SizedFor heap work.old }
    requires le_x { (1 ≤ x) × (x ≤ heap.n) × (c ≤ heap.n) × (top ≤ stack_end heap.n) × (length ((view_of heap).kids x) ≤ top) }
    ensures { (mem_of heap.entry.n work.new result ≡ in_front (visit_words c ((view_of heap.entry).kids x)) (mem_of heap.entry.n work.old top)) × (result + length ((view_of heap.entry).kids x) ≡ top) }
{
    let from = 8 * (x as usize - 1);
    let w = width_of(record_at(heap.n, heap.records, x)) as usize;
    let mut at = top;
    // What is put in front last is visited first: the words are taken from the last down.
    for j in (0..w).rev() {
        at -= 1;
        work[at] = target_of(heap.n, heap.slots[from + j]) + 4096 * c;
    }
    at
}

// Object x, of the older cluster d, is seen; if it is an out member, what it points at is visited next.
fn member(heap: Heap, work: &mut [u32], d: u32, x: u32, top: usize) -> usize
    requires sized { SizedFor heap work.old }
    requires le_x { (1 ≤ x) × (x ≤ heap.n) × (d ≤ heap.n) × (top ≤ stack_end heap.n) × (length (out_kids (view_of heap) x) ≤ top) }
    ensures { (mem_of heap.entry.n work.new result ≡ in_front (visit_words 0 (out_kids (view_of heap.entry) x)) (with_state (upd (area heap.entry.n (9 * heap.entry.n) work.old) x (d + 4096)) (mem_of heap.entry.n work.old top))) × (result + length (out_kids (view_of heap.entry) x) ≡ top) }
{
    let i = 9 * heap.n as usize + x as usize;
    work[i] = d + 4096;
    if is_out(record_at(heap.n, heap.records, x)) {
        return push_kids(heap, work, x, 0, top);
    }
    top
}

// The older cluster d is handled: all its members are seen, and what its out members point at is visited next.
fn older(heap: Heap, work: &mut [u32], d: u32, top: usize) -> usize
    requires sized { SizedFor heap work.old }
    requires le_d { (1 ≤ d) × (d ≤ heap.n) × (top ≤ stack_end heap.n) × (length (outs_below (view_of heap) d heap.n) ≤ top) }
    requires chained { Chained heap.n heap.records.now (area heap.n (8 * heap.n) work.old) d }
    ensures { (mem_of heap.entry.n work.new result ≡ handled (view_of heap.entry) d (mem_of heap.entry.n work.old top)) × (result + length (outs_below (view_of heap.entry) d heap.entry.n) ≡ top) }
{
    let mut at = top;
    let mut x = top_member(word_of(heap.n, work, 8 * heap.n as usize, d));
    // Not a `for`: along the links.
    while x != 0 {
        at = member(heap, work, d, x, at);
        x = next_member(word_of(heap.n, work, 8 * heap.n as usize, x));
    }
    at
}

// The cluster that object o, with the record r and in no cluster, gets when c is passed to it; 0 for none, as in its record.
fn choose(n: u32, limit: u32, work: &[u32], r: u32, o: u32, c: u32) -> u32
    requires { (9 * n < length work.now) × (c ≤ n) × (n ≤ 4095) }
    ensures { result ≡ goes_to limit r (area n (8 * n) work.now) o c }
{
    if c == 0 {
        return choices::choose(limit, r, 0, o, c);
    }
    choices::choose(limit, r, word_of(n, work, 8 * n as usize, c) / 4096, o, c)
}

// Counts one more member of cluster e.
fn count(n: u32, work: &mut [u32], e: u32)
    requires { (n ≤ 4095) × (10 * n + 64 ≤ length work.old) × (e ≤ n) × (size_in (area n (8 * n) work.old) e ≤ 4095) }
    ensures { (top : ℕ) → mem_of n work.new top ≡ with_link (counting e (area n (8 * n) work.old)) (mem_of n work.old top) }
{
    if e != 0 {
        work[8 * n as usize + e as usize] += 4096;
    }
}

// Object o, in no cluster, is seen and gets a cluster or none; what it points at is visited next, with that cluster.
fn place(heap: Heap, work: &mut [u32], o: u32, c: u32, top: usize) -> usize
    requires sized { SizedFor heap work.old }
    requires le_o { (1 ≤ o) × (o ≤ heap.n) × (c ≤ heap.n) × (top ≤ stack_end heap.n) × (length ((view_of heap).kids o) ≤ top) }
    requires by_index { (x : ℕ) → size_in (area heap.n (8 * heap.n) work.old) x ≤ 4095 }
    ensures { (mem_of heap.entry.n work.new result ≡ placed (view_of heap.entry) (goes_to heap.entry.limit (rec_of heap.entry.n heap.entry.records.now o) (area heap.entry.n (8 * heap.entry.n) work.old) o c) o (mem_of heap.entry.n work.old top)) × (result + length ((view_of heap.entry).kids o) ≡ top) }
{
    let e = choose(
        heap.n,
        heap.limit,
        work,
        record_at(heap.n, heap.records, o),
        o,
        c,
    );
    count(heap.n, work, e);
    let i = 9 * heap.n as usize + o as usize;
    work[i] = e + 4096;
    push_kids(heap, work, o, e, top)
}

// Puts a marker in front for the sinks of cluster h from place p on, if there are any: s is its set from that place on.
fn mark(n: u32, work: &mut [u32], s: u64, h: u32, p: u32, top: usize) -> usize
    requires { (n ≤ 4095) × (10 * n + 64 ≤ length work.old) × (h ≤ n) × (p ≤ 64) × (1 ≤ top) × (top ≤ stack_end n) }
    ensures { (mem_of n work.new result ≡ in_front (markers s h p) (mem_of n work.old top)) × (result + length (markers s h p) ≡ top) }
{
    if s == 0 {
        return top;
    }
    let at = top - 1;
    work[at] = h + 4096 * p + MARK;
    at
}

// Visits object o, to which the cluster c is passed.
fn visit(heap: Heap, work: &mut [u32], o: u32, c: u32, top: usize) -> usize
    requires { VisitingIn heap work.old o c top }
    ensures { VisitedIn heap.entry (visiting (heap_of heap.entry) o c (mem_of heap.entry.n work.old top)) work.new result }
{
    if o == 0 {
        return top;
    }
    let s = word_of(heap.n, work, 9 * heap.n as usize, o);
    if 4096 <= s {
        return top;
    }
    if s != 0 {
        let at = mark(heap.n, work, heap.sets[s as usize - 1], s, 0, top);
        return older(heap, work, s, at);
    }
    place(heap, work, o, c, top)
}

// The place of the next sink of a set, from place p on.
fn next_place(set: u64, p: u32) -> u32
    requires { p ≤ 63 }
    ensures { result ≡ p + count_trailing_zeros 64 (set / 2 ^ p) }
{
    p + lowest_bit(set >> p)
}

// Makes the next visit.
fn next(heap: Heap, work: &mut [u32], top: usize) -> usize
    requires { WalkingIn heap work.old top × (top < stack_end heap.n) }
    ensures { VisitedIn heap.entry (walk_of (heap_of heap.entry) (mem_of heap.entry.n work.old top)) work.new result }
{
    let w = work[top];
    let x = w % 4096;
    let c = w / 4096;
    if w < MARK {
        return visit(heap, work, x, c, top + 1);
    }
    let set = heap.sets[x as usize - 1];
    let k = next_place(set, c % 4096);
    let at = mark(heap.n, work, (set >> k) >> 1, x, k + 1, top + 1);
    let o = heap.sinks[k as usize];
    visit(heap, work, o, 0, at)
}

// The walk from one start, object o, to its end.
pub(crate) fn start(heap: Heap, work: &mut [u32], o: u32)
    requires { WalkingIn heap work.old (stack_end heap.n) × (o ≤ heap.n) }
    ensures { GoesOnIn heap.entry (o ∷ []) work.old work.new }
{
    let end = 8 * heap.n as usize + 1;
    let mut top = visit(heap, work, o, 0, end);
    // Not a `for`: each visit moves the top.
    while top < end {
        top = next(heap, work, top);
    }
}
