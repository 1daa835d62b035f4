// The sweep of every collection. After a walk the mark of a record says that its object is kept; the sweep needs nothing else of the walk.
#![tactic(auto)]

ghost use Rattle.std.specs.Prelude.{◌≡◌};
ghost use Rattle.rules.specs.Buffers.{each_record};
ghost use Rattle.rules.specs.Sweep.{kept_record};
ghost use Rattle.sweep.specs.Sweep as S;

use bitmap::ones;
use layout::limits::{OBJECT_MAX, map_len, slots_len};
use places::fill_sets;
use records::{
    cluster_of, is_marked, is_reached, loose, with_marked, with_postponed, with_reached,
};
use table::clusters::record_of;

mod freed;

use freed::{empty_places, fill_map, free_all};

// ---- marks

// How many of the objects 1 to n are marked.
pub fn count_marked(n: u32, records: &[u32]) -> u32
    ensures { result ≡ S.marked_count n records.now }
{
    let end = (n as usize).min(records.len());
    // Counted in words of 32 bits, which `count` would have to be cast to.
    let mut k: u32 = 0;
    for r in &records[..end] {
        if is_marked(*r) {
            k += 1;
        }
    }
    k
}

// The record r, marked where its head is reached.
fn member_marked(n: u32, r: u32, records: &[u32]) -> u32
    ensures { result ≡ S.member_marked n records.now r }
{
    let c = cluster_of(r);
    if c != 0 && is_reached(record_of(n, c, records)) {
        with_marked(r, true)
    } else {
        r
    }
}

// Marks the members of every cluster whose head is reached.
pub fn mark_members(n: u32, records: &mut [u32])
    ensures { records.new ≡ S.members_marked n records.old }
{
    let end = (n as usize).min(records.len());
    // By index: a record is stored while others are read.
    for i in 0..end {
        let r = records[i];
        records[i] = member_marked(n, r, records);
    }
}

// The record r without the three flags of a walk.
fn unflagged_record(r: u32) -> u32
    ensures { result ≡ S.unflagged_record r }
{
    with_reached(with_postponed(with_marked(r, false), false), false)
}

// Takes the three flags off the first n records.
fn clear_marks(n: u32, records: &mut [u32])
    ensures { records.new ≡ S.unflagged n records.old }
{
    let end = (n as usize).min(records.len());
    for r in &mut records[..end] {
        *r = unflagged_record(*r);
    }
}

// ---- clusters

// The record r, loose where its head is not marked.
fn head_kept(n: u32, r: u32, records: &[u32]) -> u32
    ensures { result ≡ kept_record (S.marked_at n records.now) r }
{
    let c = cluster_of(r);
    if c == 0 || is_marked(record_of(n, c, records)) {
        r
    } else {
        loose(r)
    }
}

// Dissolves every cluster whose head is not marked.
fn dissolve(n: u32, records: &mut [u32])
    ensures { records.new ≡ each_record n (λ x r. kept_record (S.marked_at n records.old) r) records.old }
{
    let end = (n as usize).min(records.len());
    // By index, as in `mark_members`.
    for i in 0..end {
        let r = records[i];
        records[i] = head_kept(n, r, records);
    }
}

// ---- the sweep

// Frees what is in use and not marked, dissolves the clusters whose heads are not marked, takes the marks off, empties the places of
// freed sinks, makes every set exact, and answers how many objects it freed; the map tells which. Where n is above 4,095, or records,
// slots or map are too short, it does nothing.
pub fn sweep(
    n: u32,
    records: &mut [u32],
    slots: &mut [u32],
    sinks: &mut [u32],
    sets: &mut [u64],
    map: &mut [u64],
) -> u32
    ensures { S.AfterSweep n records.old slots.old sinks.old sets.old map.old
        records.new slots.new sinks.new sets.new map.new result }
{
    let k = map_len(n);
    if OBJECT_MAX < n || records.len() < n as usize || slots.len() < slots_len(n) || map.len() < k {
        return 0;
    }
    fill_map(n, records, map);
    let map = &map[..k];
    let freed = ones(map);
    dissolve(n, records);
    free_all(map, records, slots);
    empty_places(map, sinks);
    clear_marks(n, records);
    fill_sets(n, records, slots, sinks, sets);
    freed
}
