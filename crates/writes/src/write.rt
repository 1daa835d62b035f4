// Write: a word is stored in a slot; the object's cluster is dissolved, or its out bit and its cluster's set made exact.
ghost use Rattle.std.specs.Prelude.{◌≡◌, true, false, cond, ◌+◌, ◌-◌, ◌*◌, ◌≤◌, ◌<◌, eqb, length, get_or, set};
ghost use Rattle.layout.specs.Limits.{width_max, object_max};
ghost use Rattle.records.specs.Record.{with_written};
ghost use Rattle.layout.specs.Refusal.{first, refusal_of};
ghost use Rattle.graph.specs.Numbers.{has};
ghost use Rattle.graph.specs.Writes.{dissolves, store_by};
ghost use Rattle.rules.specs.Buffers.{rec_of, used_words};
ghost use Rattle.rules.specs.View.{target, view, heap_in, encoded};
ghost use Rattle.rules.specs.Write as Write;
ghost use Rattle.table.specs.Clusters.{cluster_of, members_of};
ghost use Rattle.writes.specs.Writes.{word_tests, others_of, front_tests, Slot, with_set, sets_by, Attempted, Settled};

use layout::answers::{Control, Done};
use layout::limits::{SINK_MAX, slots_len};
use layout::refusals::{Refusal, refusal_of};
use layout::words::{Word, sort_word};
use places::cluster_set;
use records::{cluster_of, legal, width_of, with_out, with_written};
use table::clusters::{dissolve, exact_out, members, record_of};
use table::named::object_refusal;

// ---- the tests

// The first of the word's tests that holds refuses.
fn word_refusal(n: u32, word: u32, records: &[u32]) -> Result<(), Refusal>
    requires { (n ≤ object_max) × (n ≤ length records.now) }
    ensures { refusal_of result ≡ first (word_tests n word records.now) }
{
    match sort_word(n, word) {
        Word::Nil => Ok(()),
        Word::Object(x) => {
            if legal(n, records[(x - 1) as usize]) {
                Ok(())
            } else {
                Err(Refusal::NamesNone)
            }
        }
        Word::Immediate => Ok(()),
        Word::Illegal => Err(Refusal::BadWord),
    }
}

// How many objects the sets have room for, or 0 where the list of sinks is too short. There is always an object, so 0 is too few.
fn others(sinks: &[u32], sets: &[u64]) -> usize
    ensures { result ≡ others_of sinks.now sets.now }
{
    if sinks.len() < SINK_MAX as usize {
        return 0;
    }
    sets.len()
}

// Object, slot and word go one by one through the functions of a write, and so do the slices: each function takes others of them, and by
// registers (docs/BENCHMARK.md, "Write").

// The first test of a write that holds, but for the last test, refuses. The slices that only the caller knows have room for `others`
// objects.
#[tactic(auto, using(crate::proofs::WriteLaws::fronts))]
fn write_refusal(
    c: Control,
    object: u32,
    slot: u32,
    word: u32,
    records: &[u32],
    slots: &[u32],
    others: usize,
) -> Result<(), Refusal>
    ensures { refusal_of result ≡ first (front_tests c object slot word records.now slots.now others) }
{
    object_refusal(c, object, records, slots, others)?;
    if width_of(records[(object - 1) as usize]) <= slot {
        return Err(Refusal::NoSlot);
    }
    word_refusal(c.n, word, records)
}

// What slot k of the object whose words begin at `at` holds once the word is stored.
fn word_after(slot: u32, word: u32, k: u32, at: usize, slots: &[u32]) -> u32
    requires { (at + k < width_max * object_max) × (at + k < length slots.now) }
    ensures { result ≡ cond (eqb k slot) word (get_or slots.now (at + k) 0) }
{
    if k == slot {
        return word;
    }
    slots[at + k as usize]
}

// Whether a used slot of the object holds the pointer once the word is stored.
fn still_holds(
    n: u32,
    object: u32,
    slot: u32,
    word: u32,
    pointer: u32,
    records: &[u32],
    slots: &[u32],
) -> bool
    requires { Slot n object slot records.now slots.now }
    ensures { result ≡ has pointer (set (used_words n records.now slots.now object) slot word) }
{
    let width = width_of(record_of(n, object, records));
    let at = slots_len(object - 1);
    // Not `any`: its closure would have to be known to take every k.
    for k in 0..width {
        if word_after(slot, word, k, at, slots) == pointer {
            return true;
        }
    }
    false
}

// Whether the old word points into the object's own cluster, and the object does not hold it any more after the write.
fn does_dissolve(n: u32, object: u32, slot: u32, word: u32, records: &[u32], slots: &[u32]) -> bool
    requires { Slot n object slot records.now slots.now }
    ensures { result ≡ dissolves (view n records.now slots.now) object slot (target n word) }
{
    let c = cluster_of(record_of(n, object, records));
    if c == 0 {
        return false;
    }
    let old = slots[slots_len(object - 1) + slot as usize];
    if cluster_of(record_of(n, old, records)) != c {
        return false;
    }
    !still_holds(n, object, slot, word, old, records, slots)
}

// Write loss after the object's cluster is dissolved.
fn loss_after(c: Control, object: u32, records: &[u32]) -> u32
    requires { (c.n ≤ object_max) × (c.write_loss ≤ c.n) }
    ensures { result ≡ c.write_loss + members_of c.n records.now (cluster_of c.n records.now object) }
{
    c.write_loss + members(c.n, cluster_of(record_of(c.n, object, records)), records)
}

// ---- the stores

// The word is stored and the object's written bit set.
fn store_word(n: u32, object: u32, slot: u32, word: u32, records: &mut [u32], slots: &mut [u32])
    requires { Slot n object slot records.old slots.old }
    ensures { (records.new ≡ set records.old (object - 1) (with_written true (rec_of n records.old object)))
        × (slots.new ≡ set slots.old (width_max * (object - 1) + slot) word) }
{
    let at = (object - 1) as usize;
    records[at] = with_written(records[at], true);
    slots[slots_len(object - 1) + slot as usize] = word;
}

// The set at head h becomes this word. There is none at 0.
fn put_set(h: u32, word: u64, sets: &mut [u64])
    ensures { sets.new ≡ cond (eqb h 0) sets.old (set sets.old (h - 1) word) }
{
    if h == 0 {
        return;
    }
    let at = (h - 1) as usize;
    // By index: no contract says what a slice's `get_mut` leaves in the slice.
    if at < sets.len() {
        sets[at] = word;
    }
}

// The set at the object's head becomes exact; nothing is done for an object in no cluster.
fn make_set(n: u32, object: u32, records: &[u32], slots: &[u32], sinks: &[u32], sets: &mut [u64])
    requires { n ≤ object_max }
    ensures { sets.new
        ≡ with_set (heap_in n records.now slots.now sinks.now) (cluster_of n records.now object) sets.old }
{
    let h = cluster_of(record_of(n, object, records));
    if h != 0 {
        put_set(h, cluster_set(n, h, records, slots, sinks), sets);
    }
}

// A store that leaves the clusters: the object's out bit and the set at its head are made exact.
fn store_staying(
    n: u32,
    object: u32,
    slot: u32,
    word: u32,
    records: &mut [u32],
    slots: &mut [u32],
    sinks: &[u32],
    sets: &mut [u64],
)
    requires { Slot n object slot records.old slots.old }
    ensures { (records.new
        ≡ encoded (store_by false (view n records.old slots.old) object slot (target n word)) records.old)
        × (slots.new ≡ set slots.old (width_max * (object - 1) + slot) word)
        × (sets.new ≡ sets_by false n object slot word records.old slots.old sinks.now sets.old) }
{
    store_word(n, object, slot, word, records, slots);
    let out = exact_out(n, object, records, slots);
    let at = (object - 1) as usize;
    records[at] = with_out(records[at], out);
    make_set(n, object, records, slots, sinks, sets);
}

// ---- the call

// Above all refusals: what `attempt` answers for an object in another cluster. It answers a number, not an enum: `write` is then short
// enough to be put into its exports (tried, and slower).
const ELSEWHERE: u32 = 63;

// The tests, and then the store, where the object is in this cluster: 0 is for none. An object in no cluster has no out bit, and there
// is no set to make.
#[inline(never)]
fn attempt(
    c: Control,
    object: u32,
    slot: u32,
    word: u32,
    records: &mut [u32],
    slots: &mut [u32],
    others: usize,
    cluster: u32,
) -> u32
    ensures { Attempted c object slot word records.old slots.old others cluster result records.new slots.new }
{
    if let Err(e) = write_refusal(c, object, slot, word, records, slots, others) {
        return u32::from(e);
    }
    if cluster_of(records[(object - 1) as usize]) != cluster {
        return ELSEWHERE;
    }
    store_word(c.n, object, slot, word, records, slots);
    0
}

// A store that dissolves the object's cluster: every member becomes loose, and the set is empty.
fn store_dissolving(
    c: Control,
    object: u32,
    slot: u32,
    word: u32,
    records: &mut [u32],
    slots: &mut [u32],
    sinks: &[u32],
    sets: &mut [u64],
)
    requires { 0 ≡ first (front_tests c object slot word records.old slots.old (others_of sinks.now sets.old)) }
    ensures { (records.new
        ≡ encoded (store_by true (view c.n records.old slots.old) object slot (target c.n word)) records.old)
        × (slots.new ≡ set slots.old (width_max * (object - 1) + slot) word)
        × (sets.new ≡ sets_by true c.n object slot word records.old slots.old sinks.now sets.old) }
{
    let h = cluster_of(record_of(c.n, object, records));
    let room = others(sinks, sets);
    let _ = attempt(c, object, slot, word, records, slots, room, h);
    dissolve(c.n, h, records);
    put_set(h, 0, sets);
}

// The store to a member of a cluster, after the other tests. The loss of one that dissolves the cluster is set in the control record.
#[inline(never)]
fn store_member(
    c: &mut Control,
    object: u32,
    slot: u32,
    word: u32,
    records: &mut [u32],
    slots: &mut [u32],
    sinks: &[u32],
    sets: &mut [u64],
) -> Result<(), Refusal>
    requires { 0 ≡ first (front_tests c.old object slot word records.old slots.old (others_of sinks.now sets.old)) }
    ensures { Settled c.old object slot word records.old slots.old sinks.now sets.old result
        records.new slots.new sets.new c.new }
{
    if !does_dissolve(c.n, object, slot, word, records, slots) {
        store_staying(c.n, object, slot, word, records, slots, &sinks[..], sets);
        return Ok(());
    }
    let loss = loss_after(*c, object, records);
    if c.n < loss {
        return Err(Refusal::LossFull);
    }
    store_dissolving(*c, object, slot, word, records, slots, &sinks[..], sets);
    c.write_loss = loss;
    Ok(())
}

// Most writes are to objects in no cluster, and `attempt` makes them. It and `store_member` stay functions that take the control record
// where it is: so this one is short enough to be put into both exports, and copies a record that stays whole (docs/BENCHMARK.md, "Write").
pub fn write(
    c: Control,
    object: u32,
    slot: u32,
    word: u32,
    records: &mut [u32],
    slots: &mut [u32],
    sinks: &[u32],
    sets: &mut [u64],
) -> Done
    ensures { Write.gives result records.new slots.new sets.new
        ≡ Write.write c object slot word records.old slots.old sinks.now sets.old }
{
    let list = &sinks[..];
    let mut d = c;
    let room = others(list, sets);
    let mut k = attempt(c, object, slot, word, records, slots, room, 0);
    if k == ELSEWHERE {
        k = refusal_of(store_member(&mut d, object, slot, word, records, slots, list, sets));
    }
    Done {
        refusal: k,
        control: d,
    }
}
