// The check of a whole heap ("The heap"): every rule of every object, then the roots, the list of sinks and the sets. It stops at the first rule that is broken.
#![tactic(auto)]

ghost use Rattle.std.specs.Prelude.{◌≡◌, ◌≤◌, length};
ghost use Rattle.layout.specs.Limits.{object_max};
ghost use Rattle.layout.specs.Refusal.{first, refusal_of};
ghost use Rattle.rules.specs.WellFormed.{roots_named, formed, checked};
ghost use Rattle.table.specs.Room.{Room};
ghost use Rattle.wellformed.specs.Check.{record_ok, head_ok, slot_ok, member_leaves, out_ok, objects_ok, heap_tests};

use layout::answers::Control;
use layout::limits::{OBJECT_MAX, WIDTH_MAX};
use layout::refusals::{Refusal, bad_control};
use layout::words::{Word, sort_word};
use places::{list_ok, sets_ok};
use records::{cluster_of, in_use, is_out, legal, width_of};
use table::clusters::{leaves, record_of};
use table::room::{Buffers, short_heap};

// The record is 0 or legal.
#[tactic(auto, unfolding(crate::specs::Check::record_ok, records::specs::Record::free))]
fn record_ok(n: u32, r: u32) -> bool
    ensures { result ≡ record_ok n r }
{
    r == 0 || legal(n, r)
}

// The object that the record's cluster number names carries that number too.
#[tactic(auto, unfolding(crate::specs::Check::head_ok))]
fn head_ok(n: u32, r: u32, records: &[u32]) -> bool
    ensures { result ≡ head_ok n records.now r }
{
    let c = cluster_of(r);
    c == 0 || cluster_of(record_of(n, c, records)) == c
}

// Slot k of an object of that width may hold word w: an unused slot is 0, and a used one holds no illegal word and names no free object.
fn slot_ok(n: u32, width: u32, k: usize, w: u32, records: &[u32]) -> bool
    requires { n ≤ object_max }
    ensures { result ≡ slot_ok n records.now width k w }
{
    if width as usize <= k {
        return w == 0;
    }
    match sort_word(n, w) {
        Word::Nil => true,
        Word::Object(y) => in_use(record_of(n, y, records)),
        Word::Immediate => true,
        Word::Illegal => false,
    }
}

// Whether word w of an object in cluster c leaves it. An object in no cluster has no out bit, so its words are not followed; nil leads nowhere.
fn member_leaves(n: u32, c: u32, w: u32, records: &[u32]) -> bool
    ensures { result ≡ member_leaves n records.now c w }
{
    c != 0 && w != 0 && leaves(n, c, w, records)
}

// The out bit is set exactly where the object is a member and a used word of it leaves the cluster.
#[tactic(auto, unfolding(crate::specs::Check::out_ok))]
fn out_ok(r: u32, leaving: bool) -> bool
    ensures { result ≡ out_ok r leaving }
{
    if cluster_of(r) == 0 {
        !is_out(r)
    } else {
        is_out(r) == leaving
    }
}

// Every object keeps the rules: its record, its head, its slots one after the other, and its out bit.
fn objects_ok(n: u32, records: &[u32], slots: &[u32]) -> bool
    requires { Room n records.now slots.now }
    ensures { result ≡ objects_ok n records.now slots.now }
{
    let mut ok = true;
    // Objects and slots go by index and are left by a label, as the rules say it.
    'check: for i in 0..n as usize {
        let r = records[i];
        if !record_ok(n, r) || !head_ok(n, r, records) {
            ok = false;
            break 'check;
        }
        let width = width_of(r);
        let c = cluster_of(r);
        let mut leaving = false;
        for k in 0..WIDTH_MAX as usize {
            let w = slots[WIDTH_MAX as usize * i + k];
            if !slot_ok(n, width, k, w, records) {
                ok = false;
                break 'check;
            }
            leaving |= member_leaves(n, c, w, records);
        }
        if !out_ok(r, leaving) {
            ok = false;
            break 'check;
        }
    }
    ok
}

// Each of the r roots is nil or names an object that is not free.
fn roots_ok(n: u32, r: u32, records: &[u32], roots: &[u32]) -> bool
    requires { r ≤ length roots.now }
    ensures { result ≡ roots_named n r records.now roots.now }
{
    roots[..r as usize]
        .iter()
        .all(|w| *w == 0 || in_use(record_of(n, *w, records)))
}

// Every object and every root keeps the rules.
fn formed_ok(n: u32, r: u32, records: &[u32], slots: &[u32], roots: &[u32]) -> bool
    requires room { Room n records.now slots.now }
    requires r_in_bounds { r ≤ length roots.now }
    ensures { result ≡ formed n r records.now slots.now roots.now }
{
    objects_ok(n, records, slots) && roots_ok(n, r, records, roots)
}

// Whether the heap is well formed; false where n is above 4,095 or a slice is too short.
pub fn well_formed(c: Control, heap: &Buffers) -> bool
    ensures { result ≡ checked c heap.now.records.now heap.now.slots.now heap.now.roots.now heap.now.sinks.now heap.now.sets.now }
{
    // Taken out of the struct once: so the compiler knows in the loops what the test of the lengths has found.
    let Buffers {
        records,
        slots,
        roots,
        sinks,
        sets,
    } = *heap;
    c.n <= OBJECT_MAX
        && !short_heap(c.n, c.r, heap)
        && formed_ok(c.n, c.r, records, slots, roots)
        && list_ok(c.n, records, sinks)
        && sets_ok(c.n, records, slots, sinks, sets)
}

// The first test of a call that walks the whole heap that holds refuses; `rest` says that a slice besides is too short.
pub fn heap_refusal(c: Control, heap: &Buffers, rest: bool) -> Result<(), Refusal>
    ensures { refusal_of result
        ≡ first (heap_tests c heap.now.records.now heap.now.slots.now heap.now.roots.now heap.now.sinks.now heap.now.sets.now rest) }
{
    if bad_control(c) {
        return Err(Refusal::BadControl);
    }
    if short_heap(c.n, c.r, heap) | rest {
        return Err(Refusal::TooShort);
    }
    if well_formed(c, heap) {
        Ok(())
    } else {
        Err(Refusal::Damaged)
    }
}
