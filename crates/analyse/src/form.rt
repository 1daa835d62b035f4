// The clusters are formed: the walk from the roots, by index, each start when the one before is done.
ghost use Rattle.std.specs.Prelude.{◌+◌, ◌*◌, ◌≤◌, length, take};
ghost use Rattle.rules.specs.View.{starts_in};
ghost use Rattle.table.specs.Clusters.{cluster_of};
ghost use Rattle.analyse.specs.Memory.{stack_end};
ghost use Rattle.analyse.specs.Filling.{Filling};
ghost use Rattle.analyse.specs.Starts.{Fit};
ghost use Rattle.analyse.specs.Lent.{FormableIn, FromIn, WalkingIn, GoesOnIn};

use crate::heap::Heap;
use crate::memory::record_at;
use crate::walk::start;
use links::link;
use records::cluster_of;

// Each object is not seen, and in its older cluster.
fn put_states(n: u32, records: &[u32], work: &mut [u32])
    requires { (n ≤ length records.now) × (10 * n + 64 ≤ length work.old) × (n ≤ 4095) }
    ensures { Filling n (9 * n) (cluster_of n records.now) work.old work.new n }
{
    // By index: the states are one part of the work words, a word at the place of each object.
    for x in 1..n + 1 {
        work[9 * n as usize + x as usize] = cluster_of(record_at(n, records, x));
    }
}

// The walk goes on from the first r roots.
fn from_roots(heap: Heap, r: u32, roots: &[u32], work: &mut [u32])
    requires { WalkingIn heap work.old (stack_end heap.n) × (r ≤ length roots.now) × Fit heap.n (take r roots.now) }
    ensures { GoesOnIn heap.entry (take r roots.now) work.old work.new }
{
    // By index: the proof goes by how many roots are done.
    for j in 0..r as usize {
        start(heap, work, roots[j]);
    }
}

// Forms the clusters.
pub(crate) fn form(heap: Heap, r: u32, roots: &[u32], work: &mut [u32])
    requires { FormableIn heap work.old (starts_in r roots.now) × (r ≤ length roots.now) }
    ensures { FromIn heap.entry (starts_in r roots.now) work.new }
{
    let a = 8 * heap.n as usize + 1;
    let b = 9 * heap.n as usize + 1;
    link(false, heap.n, heap.records, &mut work[a..b]);
    put_states(heap.n, heap.records, work);
    from_roots(heap, r, roots, work);
}
