// The list of sinks and the sets of the clusters: whether they are right, and the sets made from the heap, each in one pass over it.
#![tactic(auto)]

ghost use Rattle.std.specs.Prelude.{◌≡◌, cond, not, ◌&&◌, leb};
ghost use Rattle.layout.specs.Limits.{object_max};
ghost use Rattle.rules.specs.Buffers.{short};
ghost use Rattle.rules.specs.View.{heap_in, set_word, exact_sets};
ghost use Rattle.rules.specs.WellFormed.{list_ok, sets_ok};
ghost use Rattle.places.specs.Places.{last_places};

use layout::limits::OBJECT_MAX;
use listed::{all_seen, none_listed, places_ok};
use members::{put_members, word_of};
use sets::{all_zero, fill_places, put_sets, same_words};
use table::buffers::zero;

mod listed;
mod members;
mod sets;

// Whether the list has every sink of n objects once and no other number.
pub fn list_ok(n: u32, records: &[u32], sinks: &[u32]) -> bool
    ensures { result ≡ leb n object_max && list_ok n records.now sinks.now }
{
    if OBJECT_MAX < n {
        return false;
    }
    let mut seen = [0u64; 64];
    places_ok(n, records, sinks, &mut seen) && all_seen(n, records, &seen)
}

// The set of cluster c, by the list as it stands; 0 where n is no size.
pub fn cluster_set(n: u32, c: u32, records: &[u32], slots: &[u32], sinks: &[u32]) -> u64
    ensures { result ≡ cond (leb n object_max) (set_word (heap_in n records.now slots.now sinks.now) c) 0 }
{
    if OBJECT_MAX < n || none_listed(sinks) {
        return 0;
    }
    let mut seen = [0u64; 64];
    put_members(n, c, records, slots, &mut seen);
    word_of(sinks, &seen)
}

// Makes every set exact; a number that is in the list twice counts in its last place. Nothing changes where n is no size.
pub fn fill_sets(n: u32, records: &[u32], slots: &[u32], sinks: &[u32], sets: &mut [u64])
    ensures { sets.new
        ≡ cond (leb n object_max) (exact_sets (heap_in n records.now slots.now (last_places sinks.now)) sets.old) sets.old }
{
    if OBJECT_MAX < n {
        return;
    }
    zero(sets, n as usize);
    if none_listed(sinks) {
        return;
    }
    let mut place = [0u8; 4096];
    fill_places(sinks, &mut place);
    put_sets(n, records, slots, &place, sets);
}

// Whether n is a size, there are n sets, and every one is exact; a number that is in the list twice counts in its last place.
// The exact sets and the places of `fill_sets` take 36 KiB of stack.
pub fn sets_ok(n: u32, records: &[u32], slots: &[u32], sinks: &[u32], sets: &[u64]) -> bool
    ensures { result ≡ leb n object_max && (not (short n sets.now)
        && sets_ok n records.now slots.now (last_places sinks.now) sets.now) }
{
    if OBJECT_MAX < n || sets.len() < n as usize {
        return false;
    }
    // Without sinks no array has to be cleared.
    if none_listed(sinks) {
        return all_zero(n, sets);
    }
    let mut exact = [0u64; 4096];
    fill_sets(n, records, slots, sinks, &mut exact);
    same_words(n, sets, &exact)
}
