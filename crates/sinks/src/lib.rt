// Declare sink ("Writes and sinks"): the object is listed, its cluster dissolved, and every out bit and set made exact. For an object that is a sink
// already nothing is done.
#![tactic(auto)]

ghost use Rattle.std.specs.Prelude.{◌≡◌, true, ◌++◌, ◌≤◌, length, take, drop};
ghost use Rattle.layout.specs.Limits.{sink_max};
ghost use Rattle.layout.specs.Refusal.{first, refusal_of};
ghost use Rattle.graph.specs.Numbers.{has};
ghost use Rattle.graph.specs.Writes.{placed};
ghost use Rattle.rules.specs.DeclareSink.{declare_tests, gives};
ghost use Rattle.rules.specs.DeclareSink as DeclareSink;
ghost use Rattle.sinks.specs.Sinks.{made_exact, first_empty};

use layout::answers::{Control, Done};
use layout::limits::{SINK_MAX, within};
use layout::refusals::{Refusal, bad_control};
use places::fill_sets;
use records::{cluster_of, is_sink, with_out, with_sink};
use table::clusters::{dissolve, exact_out, record_of};
use table::room::{Buffers, short_heap};
use wellformed::well_formed;

// The first empty one of the 64 places, if there is one.
fn first_empty(sinks: &[u32]) -> Option<usize>
    ensures { result ≡ first_empty sinks.now }
{
    // By index: that the search begins at place 0 is then a fact by itself.
    for k in 0..sinks.len().min(SINK_MAX as usize) {
        if sinks[k] == 0 {
            return Some(k);
        }
    }
    None
}

// The first test that holds refuses.
#[tactic(auto, using(crate::proofs::SinkLaws::refusing))]
fn declare_refusal(c: Control, object: u32, heap: &Buffers) -> Result<(), Refusal>
    ensures { refusal_of result
        ≡ first (declare_tests c object heap.now.records.now heap.now.slots.now heap.now.roots.now heap.now.sinks.now heap.now.sets.now) }
{
    if bad_control(c) {
        return Err(Refusal::BadControl);
    }
    if short_heap(c.n, c.r, heap) {
        return Err(Refusal::TooShort);
    }
    if !within(1, c.n, object) {
        return Err(Refusal::NoObject);
    }
    if !well_formed(c, heap) {
        return Err(Refusal::Damaged);
    }
    let old = record_of(c.n, object, heap.records);
    if old == 0 {
        return Err(Refusal::IsFree);
    }
    if is_sink(old) {
        return Ok(());
    }
    match first_empty(heap.sinks) {
        Some(_) => Ok(()),
        None => Err(Refusal::SinksFull),
    }
}

// The object gets the first empty place.
fn place_sink(object: u32, sinks: &mut [u32])
    requires { (sink_max ≤ length sinks.old) × (has 0 (take sink_max sinks.old) ≡ true) }
    ensures { sinks.new ≡ placed object (take sink_max sinks.old) ++ drop sink_max sinks.old }
{
    let k = first_empty(sinks).unwrap();
    sinks[k] = object;
}

// Every out bit of the objects 1 to n becomes exact.
fn make_exact(n: u32, records: &mut [u32], slots: &[u32])
    ensures { records.new ≡ made_exact n slots.now records.old }
{
    let end = (n as usize).min(records.len());
    // By index: a record is stored while others are read.
    for i in 0..end {
        let out = exact_out(n, i as u32 + 1, records, slots);
        records[i] = with_out(records[i], out);
    }
}

// The object becomes a sink, for as long as it lives, and gets the first empty place of the list. The slices are handed over
// one by one, as C lends them.
#[tactic(auto, using(crate::proofs::SinkLaws::declaring))]
pub fn declare_sink(
    c: Control,
    object: u32,
    records: &mut [u32],
    slots: &[u32],
    roots: &[u32],
    sinks: &mut [u32],
    sets: &mut [u64],
) -> Done
    ensures { gives result records.new sinks.new sets.new
        ≡ DeclareSink.declare_sink c object records.old slots.now roots.now sinks.old sets.old }
{
    let heap = Buffers {
        records,
        slots,
        roots,
        sinks,
        sets,
    };
    if let Err(e) = declare_refusal(c, object, &heap) {
        return Done {
            refusal: u32::from(e),
            control: c,
        };
    }
    let at = (object - 1) as usize;
    let r = records[at];
    if !is_sink(r) {
        records[at] = with_sink(r, true);
        // Cluster 0 is none: the records of a well-formed heap stay as they are.
        dissolve(c.n, cluster_of(r), records);
        make_exact(c.n, records, slots);
        place_sink(object, sinks);
        fill_sets(c.n, records, slots, sinks, sets);
    }
    Done {
        refusal: 0,
        control: c,
    }
}
