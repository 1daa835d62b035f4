// The walk of a collection, over the heap as it is or by its clusters. `by` tells whether clusters are walked.
#![tactic(auto)]

mod heap;
mod marks;
mod scan;
mod trace;
mod visit;

ghost use Rattle.layout.specs.Refusal.{refusal_of};
ghost use Rattle.walk.specs.Walk.{AfterWalk};

use crate::heap::Heap;
use crate::trace::trace;
use layout::answers::Control;
use layout::limits::work_len;
use layout::refusals::Refusal;
use table::buffers::zero;
use table::room::Buffers;
use wellformed::heap_refusal;

// Tests the heap and walks it from its roots; the first test that holds refuses. After an accepted walk the flags are in the records, and
// the work words are 0. `rest` says that a slice besides is too short. Records and work words, which are stored to, go beside
// the struct of the others: of a struct with them each function would have to promise that it still holds the same slices.
pub fn walk(
    by: bool,
    c: Control,
    records: &mut [u32],
    slots: &[u32],
    roots: &[u32],
    sinks: &[u32],
    sets: &[u64],
    work: &mut [u32],
    rest: bool,
) -> Result<(), Refusal>
    ensures { AfterWalk by c records.old slots.now roots.now sinks.now sets.now work.old rest
        (refusal_of result) records.new work.new }
{
    let m = work_len(c.n);
    let lent = Buffers {
        records,
        slots,
        roots,
        sinks,
        sets,
    };
    heap_refusal(c, &lent, (work.len() < m) | rest)?;
    let heap = Heap {
        by,
        n: c.n,
        slots,
        sinks,
        sets,
    };
    trace(heap, c.r, roots, records, &mut work[0..m]);
    zero(work, m);
    Ok(())
}
