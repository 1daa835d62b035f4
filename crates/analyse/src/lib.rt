// The analysis ("Analysis"): the walk that forms clusters, then the deletion of those that are too small or too much pointed out of.
#![tactic(auto)]

mod form;
mod heap;
mod judge;
mod limit;
mod memory;
mod walk;

ghost use Rattle.std.specs.Prelude.{◌≡◌, ◌≤◌, length};
ghost use Rattle.rules.specs.View.{starts_in};
ghost use Rattle.rules.specs.Analyse.{gives};
ghost use Rattle.rules.specs.Analyse as Rules;
ghost use Rattle.analyse.specs.Starts.{Formable, formed_from};
ghost use Rattle.analyse.specs.Judge.{Judged};

use crate::form::form;
use crate::heap::Heap;
use crate::judge::{Found, decide, settle, tally};
use crate::limit::used_count;
use choices::next_limit;
use layout::answers::{Analysed, Control, Tuning};
use layout::control::with_analysis;
use layout::limits::work_len;
use places::fill_sets;
use table::buffers::zero;
use table::room::Buffers;
use wellformed::heap_refusal;

// The clusters are formed, and those that do not stay dissolved, with work words of just the length that this takes. The steps take
// different ones of these arguments, so that a struct of them would be taken apart at each.
fn form_and_judge(
    n: u32,
    r: u32,
    limit: u32,
    t: Tuning,
    records: &mut [u32],
    slots: &[u32],
    roots: &[u32],
    sinks: &[u32],
    sets: &[u64],
    work: &mut [u32],
) -> Found
    requires { Formable n limit records.old slots.now sinks.now sets.now work.old (starts_in r roots.now) × (r ≤ length roots.now) }
    ensures { Judged n t records.old slots.now (formed_from n records.old slots.now sinks.now limit (starts_in r roots.now)) records.new result.loss result.clusters result.members }
{
    let heap = Heap {
        n,
        limit,
        records,
        slots,
        sinks,
        sets,
    };
    form(heap, r, roots, work);
    tally(n, records, slots, work);
    decide(n, t, records, slots, work);
    settle(n, t, records, work)
}

// Analyses the heap. The slices are handed over one by one, as C lends them.
pub fn analyse(
    c: Control,
    records: &mut [u32],
    slots: &[u32],
    roots: &[u32],
    sinks: &[u32],
    sets: &mut [u64],
    work: &mut [u32],
) -> Analysed
    ensures { gives result records.new sets.new work.new ≡ Rules.analyse c records.old slots.now roots.now sinks.now sets.old work.old }
{
    let cap = work_len(c.n);
    let lent = Buffers {
        records,
        slots,
        roots,
        sinks,
        sets,
    };
    if let Err(e) = heap_refusal(c, &lent, work.len() < cap) {
        return Analysed {
            refusal: u32::from(e),
            clusters: 0,
            members: 0,
            control: c,
        };
    }
    let limit = next_limit(c, used_count(c.n, records));
    let found = form_and_judge(
        c.n,
        c.r,
        limit,
        c.tuning,
        records,
        slots,
        roots,
        sinks,
        sets,
        &mut work[0..cap],
    );
    fill_sets(c.n, records, slots, sinks, sets);
    zero(work, cap);
    Analysed {
        refusal: 0,
        clusters: found.clusters,
        members: found.members,
        control: with_analysis(c, limit, found.loss),
    }
}
