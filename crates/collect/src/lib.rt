// Collections: a walk over the heap, plainly or by clusters, then the sweep. `by` tells whether clusters are walked, as `kind_of` takes it.
#![tactic(auto)]

ghost use Rattle.std.specs.Prelude.{◌≡◌, cond};
ghost use Rattle.rules.specs.Collect as Collect;
ghost use Rattle.sweep.specs.Sweep.{marked_count, members_marked};
ghost use Rattle.collect.specs.Call.{kind_of};

use layout::answers::{Collected, Control};
use layout::limits::map_len;
use sweep::{count_marked, mark_members, sweep};
use walk::walk;

// Marks the members of the reached clusters, where clusters are walked.
fn mark_reached(by: bool, n: u32, records: &mut [u32])
    ensures { records.new ≡ cond by (members_marked n records.old) records.old }
{
    if by {
        mark_members(n, records);
    }
}

// How many objects are kept: those that were scanned, where clusters are not walked.
fn count_kept(by: bool, n: u32, scanned: u32, records: &[u32]) -> u32
    ensures { result ≡ cond by (marked_count n records.now) scanned }
{
    if by {
        count_marked(n, records)
    } else {
        scanned
    }
}

// Frees every object in use that cannot be reached along pointers from a root; the map tells which. By clusters only objects
// without a cluster, out members of reached clusters, and postponed members are scanned. The slices
// are handed over one by one, as C lends them.
pub fn collect(
    by: bool,
    c: Control,
    records: &mut [u32],
    slots: &mut [u32],
    roots: &[u32],
    sinks: &mut [u32],
    sets: &mut [u64],
    work: &mut [u32],
    map: &mut [u64],
) -> Collected
    ensures { Collect.gives result records.new slots.new sinks.new sets.new work.new map.new
        ≡ Collect.collect (kind_of by) c records.old slots.old roots.now sinks.old sets.old
        work.old map.old }
{
    let short = map.len() < map_len(c.n);
    if let Err(e) = walk(by, c, records, slots, roots, sinks, sets, work, short) {
        return Collected {
            refusal: u32::from(e),
            freed: 0,
            kept: 0,
            scanned: 0,
            control: c,
        };
    }
    let scanned = count_marked(c.n, records);
    mark_reached(by, c.n, records);
    let kept = count_kept(by, c.n, scanned, records);
    let freed = sweep(c.n, records, slots, sinks, sets, map);
    Collected {
        refusal: 0,
        freed,
        kept,
        scanned,
        control: c,
    }
}
