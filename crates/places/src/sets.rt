// All sets at once: the place of each listed number, then for each member a bit for each of its pointers that has a place.
ghost use Rattle.std.specs.Prelude.{◌≡◌, cond, [], ◌∷◌, ◌≤◌, eqb, length, get_or, set, take};
ghost use Rattle.layout.specs.Limits.{sink_max};
ghost use Rattle.graph.specs.Numbers.{gather};
ghost use Rattle.rules.specs.Buffers.{rec_of, all_to};
ghost use Rattle.rules.specs.View.{target};
ghost use Rattle.places.specs.Places.{put_all, placed, place_bits, is_member, object_bits};

use crate::listed::places;
use bitmap::put_bit;
use layout::limits::within;
use records::cluster_of;
use table::clusters::{record_of, target_of, used_words};

// Each number of the list gets its place, counted from 1; a number that is in the list twice gets the later one.
pub(crate) fn fill_places(sinks: &[u32], place: &mut [u8])
    requires { 1 ≤ length place.old }
    ensures { place.new ≡ set (placed 0 (take sink_max sinks.now) place.old) 0 0 }
{
    for (k, y) in places(sinks).iter().enumerate() {
        let y = *y as usize;
        // By index: no contract says what a slice's `get_mut` leaves in the slice.
        if y < place.len() {
            place[y] = (k + 1) as u8;
        }
    }
    place[0] = 0;
}

// The place of what a word points at. 0 for none: the places are bytes of an array that begins with zeros.
fn place_of(n: u32, word: u32, place: &[u8]) -> usize
    ensures { result ≡ get_or place.now (target n word) 0 }
{
    place.get(target_of(n, word) as usize).copied().unwrap_or(0) as usize
}

// The place of what a word points at goes into the set at head c, if there is one.
fn put_place(n: u32, c: u32, word: u32, place: &[u8], sets: &mut [u64])
    requires { 1 ≤ c }
    ensures { sets.new ≡ put_all (place_bits place.now c (target n word ∷ [])) sets.old }
{
    let k = place_of(n, word, place);
    if k != 0 {
        put_bit(sets, 64 * (c - 1) as usize + (k - 1));
    }
}

// The places of what object x points at, if it is a member of a cluster.
fn put_object(n: u32, x: u32, records: &[u32], slots: &[u32], place: &[u8], sets: &mut [u64])
    ensures { sets.new ≡ put_all (cond (is_member n records.now x) (object_bits n records.now slots.now place.now x) []) sets.old }
{
    let r = record_of(n, x, records);
    let c = cluster_of(r);
    if !within(1, n, c) {
        return;
    }
    for w in used_words(x, r, slots) {
        put_place(n, c, *w, place, sets);
    }
}

// The places of what all members point at.
pub(crate) fn put_sets(n: u32, records: &[u32], slots: &[u32], place: &[u8], sets: &mut [u64])
    ensures { sets.new ≡ put_all (gather n (is_member n records.now) (object_bits n records.now slots.now place.now)) sets.old }
{
    for i in 0..n {
        put_object(n, i + 1, records, slots, place, sets);
    }
}

// Whether the first n words are 0.
pub(crate) fn all_zero(n: u32, words: &[u64]) -> bool
    requires { n ≤ length words.now }
    ensures { result ≡ all_to n (λ h. eqb (rec_of n words.now h) 0) }
{
    words[..n as usize].iter().all(|w| *w == 0)
}

// Whether the first n words of both are the same.
pub(crate) fn same_words(n: u32, a: &[u64], b: &[u64]) -> bool
    requires n_in_bounds { n ≤ length a.now }
    requires n_in_bounds_2 { n ≤ length b.now }
    ensures { result ≡ all_to n (λ h. eqb (rec_of n a.now h) (rec_of n b.now h)) }
{
    let end = n as usize;
    a[..end] == b[..end]
}
