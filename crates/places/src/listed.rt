// The places of the list: their test, with the numbers in them as a set.
ghost use Rattle.std.specs.Prelude.{◌≡◌, true, not, ◌&&◌, ◌||◌, ℕ, ◌≤◌, get_or, take, replicate};
ghost use Rattle.layout.specs.Limits.{object_max, sink_max};
ghost use Rattle.layout.specs.Word.{is_nil, is_pointer};
ghost use Rattle.bitmap.specs.Bits.{holds};
ghost use Rattle.records.specs.Record.{is_sink};
ghost use Rattle.rules.specs.Buffers.{rec_of, all_to};
ghost use Rattle.places.specs.Places.{Tested};

use bitmap::{has_bit, put_bit};
use layout::limits::{SINK_MAX, within};
use records::is_sink;
use table::clusters::record_of;

// The places: 64, or as many as the slice has.
pub(crate) fn places(sinks: &[u32]) -> &[u32]
    ensures { result.now ≡ take sink_max sinks.now }
{
    &sinks[..sinks.len().min(SINK_MAX as usize)]
}

// Whether all places are empty.
pub(crate) fn none_listed(sinks: &[u32]) -> bool
    ensures { result ≡ true → (k : ℕ) → get_or (take sink_max sinks.now) k 0 ≡ 0 }
{
    places(sinks).iter().all(|y| *y == 0)
}

// Whether a place is empty, or has a sink that is not in the set yet.
fn place_ok(n: u32, y: u32, records: &[u32], seen: &[u64]) -> bool
    ensures { result ≡ is_nil y || ((is_pointer n y && is_sink (rec_of n records.now y)) && not (holds y seen.now)) }
{
    y == 0 || (within(1, n, y) && is_sink(record_of(n, y, records)) && !has_bit(seen, y as usize))
}

// Whether each place is empty or has a sink that no other has, from the last place on; the numbers in the places go into the set.
pub(crate) fn places_ok(n: u32, records: &[u32], sinks: &[u32], seen: &mut [u64]) -> bool
    requires n_le_object_max { n ≤ object_max }
    requires seen_value { seen.old ≡ replicate 64 0 }
    ensures { Tested n records.now (take sink_max sinks.now) result seen.new }
{
    let list = places(sinks);
    // By index: the proof goes by the place that is tested.
    for k in (0..list.len()).rev() {
        let y = list[k];
        if !place_ok(n, y, records, seen) {
            return false;
        }
        put_bit(seen, y as usize);
    }
    true
}

// Whether object x is no sink, or in the set.
fn sink_seen(n: u32, x: u32, records: &[u32], seen: &[u64]) -> bool
    ensures { result ≡ not (is_sink (rec_of n records.now x)) || holds x seen.now }
{
    !is_sink(record_of(n, x, records)) || has_bit(seen, x as usize)
}

// Whether every sink is in the set.
pub(crate) fn all_seen(n: u32, records: &[u32], seen: &[u64]) -> bool
    ensures { result ≡ all_to n (λ x. not (is_sink (rec_of n records.now x)) || holds x seen.now) }
{
    (0..n).all(|i| sink_seen(n, i + 1, records, seen))
}
