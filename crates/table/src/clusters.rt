// Clusters in the records: the words that leave one, its members, and its end. Every function takes any number and slices of any length.
ghost use Rattle.std.specs.Prelude.{◌≡◌, take};
ghost use Rattle.records.specs.Record.{width};
ghost use Rattle.rules.specs.Buffers.{rec_of, eight};
ghost use Rattle.rules.specs.View.{target, view, exact_out};
ghost use Rattle.table.specs.Clusters.{word_leaves, members_of, dissolved};

use layout::limits::{WIDTH_MAX, slots_len};
use records::{cluster_of, is_sink, loose, width_of};

// The record of object x: 0 for 0, above n and past the end.
pub fn record_of(n: u32, x: u32, records: &[u32]) -> u32
    ensures { result ≡ rec_of n records.now x }
{
    if x == 0 || n < x {
        return 0;
    }
    records.get((x - 1) as usize).copied().unwrap_or(0)
}

// The object that a word points at. 0 for none, as in the words and in the records: an `Option` would be made by one more test.
#[tactic(auto, unfolding(rules::specs::View::target))]
pub fn target_of(n: u32, word: u32) -> u32
    ensures { result ≡ target n word }
{
    if n < word { 0 } else { word }
}

// Whether the word points at an object outside cluster c that is no sink.
#[tactic(auto, using(crate::proofs::ClusterLaws::leaving))]
pub fn leaves(n: u32, c: u32, word: u32, records: &[u32]) -> bool
    ensures { result ≡ word_leaves n records.now c word }
{
    if word == 0 || n < word {
        return false;
    }
    let r = record_of(n, word, records);
    !is_sink(r) && cluster_of(r) != c
}

// The used words of object x, whose record is r, as far as they are there; eight of them where the width is more.
pub fn used_words(x: u32, r: u32, slots: &[u32]) -> &[u32]
    ensures { result.now ≡ take (width r) (eight slots.now x) }
{
    if x == 0 {
        return &[];
    }
    let from = slots_len(x - 1);
    let used = width_of(r).min(WIDTH_MAX) as usize;
    let to = slots.len().min(from + used);
    // Not `get(from..to).unwrap_or(&[])`, which was tried and takes longer.
    if from < to { &slots[from..to] } else { &[] }
}

// The out bit that object x should have.
pub fn exact_out(n: u32, x: u32, records: &[u32], slots: &[u32]) -> bool
    ensures { result ≡ exact_out (view n records.now slots.now) x }
{
    let r = record_of(n, x, records);
    let c = cluster_of(r);
    c != 0
        && used_words(x, r, slots)
            .iter()
            .any(|w| leaves(n, c, *w, records))
}

// How many of the objects 1 to n have c as their cluster.
pub fn members(n: u32, c: u32, records: &[u32]) -> u32
    ensures { result ≡ members_of n records.now c }
{
    // Not over the records: numbers past their end count too, where c is 0.
    let mut k: u32 = 0;
    for i in 0..n {
        if cluster_of(record_of(n, i + 1, records)) == c {
            k += 1;
        }
    }
    k
}

// Every member of cluster c becomes loose.
pub fn dissolve(n: u32, c: u32, records: &mut [u32])
    ensures { records.new ≡ dissolved n c records.old }
{
    let end = (n as usize).min(records.len());
    for r in &mut records[..end] {
        if cluster_of(*r) == c {
            *r = loose(*r);
        }
    }
}
