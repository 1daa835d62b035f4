// The second half of the analysis: out pointers are counted by cluster, and new clusters that do not stay are dissolved.
ghost use Rattle.std.specs.Prelude.{◌≡◌, List, ℕ, ◌*◌, ◌≤◌, ◌<◌, length};
ghost use Rattle.graph.specs.Clusters.{leaves};
ghost use Rattle.rules.specs.Buffers.{rec_of};
ghost use Rattle.records.specs.Record.{is_sink};
ghost use Rattle.rules.specs.View.{target};
ghost use Rattle.table.specs.Clusters.{cluster_of};
ghost use Rattle.analyse.specs.Memory.{area, size_in};
ghost use Rattle.table.specs.Room.{Sized};
ghost use Rattle.analyse.specs.Filling.{Filling};
ghost use Rattle.analyse.specs.Judge.{walk_clusters, outs_at, Tallying, left_word, loss_at, Judgeable, Settled};

use crate::memory::{record_at, word_of};
use choices::{loss, settled_record, stays};
use layout::answers::Tuning;
use records::{cluster_of, is_sink, width_of};
use table::buffers::zero;
use table::clusters::target_of;

// The out loss, and the clusters formed and left, with their members.
#[derive(Clone, Copy)]
pub(crate) struct Found {
    pub(crate) loss: u32,
    pub(crate) clusters: u32,
    pub(crate) members: u32,
}

// Whether the word w is a pointer out of cluster c.
fn leaves_cluster(n: u32, records: &[u32], work: &[u32], w: u32, c: u32) -> bool
    requires { (n ≤ 4095) × (n ≤ length records.now) × (10 * n < length work.now) }
    ensures { result ≡ leaves (λ x. is_sink (rec_of n records.now x)) (walk_clusters n work.now) c (target n w) }
{
    let y = target_of(n, w);
    if y == 0 {
        return false;
    }
    if is_sink(record_at(n, records, y)) {
        return false;
    }
    word_of(n, work, 9 * n as usize, y) % 4096 != c
}

// How many pointers of object x leave cluster c.
fn outs(n: u32, records: &[u32], slots: &[u32], work: &[u32], x: u32, c: u32) -> u32
    requires { Sized n records.now slots.now work.now × (1 ≤ x) × (x ≤ n) }
    ensures { (result ≡ outs_at n records.now slots.now work.now x c) × (result ≤ 8) }
{
    let from = 8 * (x as usize - 1);
    let w = width_of(record_at(n, records, x)) as usize;
    let mut total: u32 = 0;
    // By index, from the last down, as the proof counts.
    for j in (0..w).rev() {
        total += u32::from(leaves_cluster(n, records, work, slots[from + j], c));
    }
    total
}

// Counts the out pointers of every object in its cluster.
pub(crate) fn tally(n: u32, records: &[u32], slots: &[u32], work: &mut [u32])
    requires { Judgeable n records.now slots.now work.old }
    ensures { Tallying n records.now slots.now work.old work.new n }
{
    zero(work, n as usize + 1);
    // By index: a word of one part of the work words says which one of another part counts.
    for x in 1..n + 1 {
        let c = work[9 * n as usize + x as usize] % 4096;
        if c != 0 {
            work[c as usize] += outs(n, records, slots, work, x, c);
        }
    }
}

// What object x is left with.
fn left(n: u32, t: Tuning, records: &[u32], slots: &[u32], work: &[u32], x: u32) -> u32
    requires { Judgeable n records.now slots.now work.now × (1 ≤ x) × (x ≤ n) }
    ensures { result ≡ left_word n t records.now slots.now work.now x }
{
    let c = word_of(n, work, 9 * n as usize, x) % 4096;
    if c == 0 {
        return 0;
    }
    let old = cluster_of(record_at(n, records, c));
    let s = word_of(n, work, 8 * n as usize, c) / 4096;
    // A cluster of before the walk stays.
    if (old == 0) & !stays(t, s, word_of(n, work, 0, c)) {
        return 0;
    }
    c + 4096 * u32::from(outs(n, records, slots, work, x, c) != 0)
}

// Notes what each object is left with.
pub(crate) fn decide(n: u32, t: Tuning, records: &[u32], slots: &[u32], work: &mut [u32])
    requires { Judgeable n records.now slots.now work.old }
    ensures { Filling n n (left_word n t records.now slots.now work.old) work.old work.new n }
{
    // By index: a word of one part of the work words is stored while others are read.
    for x in 1..n + 1 {
        work[n as usize + x as usize] = left(n, t, records, slots, work, x);
    }
}

// The members of the cluster that h, of the older cluster `old`, heads, if it is new and has too many out pointers.
fn loss_of(n: u32, t: Tuning, work: &[u32], old: u32, h: u32) -> u32
    requires { (n ≤ 4095) × (10 * n < length work.now) × (1 ≤ h) × (h ≤ n) × (size_in (area n (8 * n) work.now) h ≤ 4095) }
    ensures { ((recs : List ℕ) → old ≡ cluster_of n recs h → result ≡ loss_at n t recs work.now h) × (result ≤ 4095) }
{
    if old != 0 {
        return 0;
    }
    if word_of(n, work, 9 * n as usize, h) % 4096 != h {
        return 0;
    }
    let s = word_of(n, work, 8 * n as usize, h) / 4096;
    loss(t, s, word_of(n, work, 0, h))
}

// Writes what each object is left with into its record, and counts the answers.
pub(crate) fn settle(n: u32, t: Tuning, records: &mut [u32], work: &[u32]) -> Found
    requires { (n ≤ length records.old) × (10 * n < length work.now) × (n ≤ 4095) × ((x : ℕ) → size_in (area n (8 * n) work.now) x ≤ 4095) }
    ensures { Settled n t records.old work.now records.new result.loss result.clusters result.members }
{
    let mut loss: u32 = 0;
    let mut clusters: u32 = 0;
    let mut members: u32 = 0;
    // By index: a record is stored by what the work words have at the place of its object.
    for x in 1..n + 1 {
        let r = records[x as usize - 1];
        let w = word_of(n, work, n as usize, x);
        let old = cluster_of(r);
        loss += loss_of(n, t, work, old, x);
        clusters += u32::from((old == 0) & (w % 4096 == x));
        members += u32::from((old == 0) & (w % 4096 != 0));
        records[x as usize - 1] = settled_record(w, r);
    }
    Found {
        loss,
        clusters,
        members,
    }
}
