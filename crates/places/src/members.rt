// The set of one cluster: what its members point at as a set of numbers, then the places of the list that have one of these.
ghost use Rattle.std.specs.Prelude.{◌≡◌, cond, ◌&&◌, [], eqb};
ghost use Rattle.bitmap.specs.Bits.{bits_of};
ghost use Rattle.graph.specs.Numbers.{gather};
ghost use Rattle.rules.specs.View.{target};
ghost use Rattle.table.specs.Clusters.{cluster_of};
ghost use Rattle.places.specs.Places.{put_all, kids_of, in_place};

use bitmap::{has_bit, put_bit};
use records::cluster_of;
use table::clusters::{record_of, target_of, used_words};

// What object x points at, if it is a member of cluster c.
fn put_member(n: u32, c: u32, x: u32, records: &[u32], slots: &[u32], seen: &mut [u64])
    ensures { seen.new ≡ put_all (cond (eqb (cluster_of n records.now x) c) (kids_of n records.now slots.now x) []) seen.old }
{
    let r = record_of(n, x, records);
    if cluster_of(r) != c {
        return;
    }
    for w in used_words(x, r, slots) {
        put_bit(seen, target_of(n, *w) as usize);
    }
}

// What the members of cluster c point at.
pub(crate) fn put_members(n: u32, c: u32, records: &[u32], slots: &[u32], seen: &mut [u64])
    ensures { seen.new ≡ put_all (gather n (λ x. eqb (cluster_of n records.now x) c) (kids_of n records.now slots.now)) seen.old }
{
    for i in 0..n {
        put_member(n, c, i + 1, records, slots, seen);
    }
}

// Whether place k has a number that is in the set.
fn in_place(k: u32, sinks: &[u32], seen: &[u64]) -> bool
    ensures { result ≡ in_place sinks.now seen.now k }
{
    let y = sinks.get(k as usize).copied().unwrap_or(0);
    y != 0 && has_bit(seen, y as usize)
}

// The places that have one, as a word, from its highest bit down.
pub(crate) fn word_of(sinks: &[u32], seen: &[u64]) -> u64
    ensures { result ≡ bits_of (in_place sinks.now seen.now) 0 64 }
{
    let mut word: u64 = 0;
    for b in (0..64).rev() {
        word = word * 2 + in_place(b, sinks, seen) as u64;
    }
    word
}
