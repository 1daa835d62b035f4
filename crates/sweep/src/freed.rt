// The freed map, and the freeing by it.
ghost use Rattle.std.specs.Prelude.{◌≡◌, cond, ◌≤◌, length};
ghost use Rattle.layout.specs.Limits.{object_max, map_len};
ghost use Rattle.bitmap.specs.Bits.{word_of, set_bits, numbers_in, holds};
ghost use Rattle.rules.specs.Buffers.{each_from};
ghost use Rattle.sweep.specs.Sweep as S;

use bitmap::{has_bit, lowest_bit, without_lowest};
use layout::limits::{SINK_MAX, map_len, slots_len};
use records::{in_use, is_marked};
use table::buffers::clear_eight;
use table::clusters::record_of;

// Whether object x is in use and not marked.
fn is_freed(n: u32, x: u32, records: &[u32]) -> bool
    ensures { result ≡ S.freed_at n records.now x }
{
    let r = record_of(n, x, records);
    in_use(r) && !is_marked(r)
}

// Word j of the freed map, from its highest bit down. `places::members::word_of` is the same of another test: with the test as a closure each
// would be as long.
fn freed_word(n: u32, j: u32, records: &[u32]) -> u64
    requires { j ≤ 64 }
    ensures { result ≡ word_of (S.freed_at n records.now) j }
{
    let mut word: u64 = 0;
    for b in (0..64).rev() {
        word = word * 2 + is_freed(n, 64 * j + b, records) as u64;
    }
    word
}

// Fills the freed map.
pub(crate) fn fill_map(n: u32, records: &[u32], map: &mut [u64])
    requires n_le_object_max { n ≤ object_max }
    requires n_in_bounds { map_len n ≤ length map.old }
    ensures { map.new ≡ each_from 0 (map_len n) (λ j w. word_of (S.freed_at n records.now) j) map.old }
{
    let k = map_len(n);
    for (j, w) in map[..k].iter_mut().enumerate() {
        *w = freed_word(n, j as u32, records);
    }
}

// The record of object x becomes 0.
fn clear_record(x: u32, records: &mut [u32])
    ensures { records.new ≡ S.clear_record x records.old }
{
    if x != 0 && x as usize <= records.len() {
        records[(x - 1) as usize] = 0;
    }
}

// The eight slots of object x become 0.
fn clear_slots(x: u32, slots: &mut [u32])
    ensures { slots.new ≡ S.clear_slots x slots.old }
{
    if x != 0 {
        clear_eight(slots, slots_len(x - 1));
    }
}

// Frees the objects whose bits are set in a word of the map: object base + b for bit b.
fn free_word(base: u32, word: u64, records: &mut [u32], slots: &mut [u32])
    requires { base ≤ 4096 }
    ensures records_after { records.new ≡ S.in_turn S.clear_record (set_bits 64 word base) records.old }
    ensures slots_after { slots.new ≡ S.in_turn S.clear_slots (set_bits 64 word base) slots.old }
{
    let mut rest = word;
    // Not a `for`: bit by bit, from the lowest on.
    while rest != 0 {
        let x = base + lowest_bit(rest);
        clear_record(x, records);
        clear_slots(x, slots);
        rest = without_lowest(rest);
    }
}

// Frees every object whose bit is set in the map.
pub(crate) fn free_all(map: &[u64], records: &mut [u32], slots: &mut [u32])
    requires { length map.now ≤ 64 }
    ensures records_after { records.new ≡ S.in_turn S.clear_record (numbers_in 0 map.now) records.old }
    ensures slots_after { slots.new ≡ S.in_turn S.clear_slots (numbers_in 0 map.now) slots.old }
{
    for (j, w) in map.iter().enumerate() {
        free_word(64 * j as u32, *w, records, slots);
    }
}

// What stays in a place that has y: y, or nothing where its bit is set in the map.
fn left_in_place(y: u32, map: &[u64]) -> u32
    ensures { result ≡ cond (holds y map.now) 0 y }
{
    if has_bit(map, y as usize) { 0 } else { y }
}

// Empties the places of the sinks whose bits are set in the map.
pub(crate) fn empty_places(map: &[u64], sinks: &mut [u32])
    ensures { sinks.new ≡ S.emptied map.now sinks.old }
{
    let end = (SINK_MAX as usize).min(sinks.len());
    for y in &mut sinks[..end] {
        *y = left_in_place(*y, map);
    }
}
