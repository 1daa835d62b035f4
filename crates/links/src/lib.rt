// The members of each cluster, or its out members alone, linked from the highest down: the walks go through a cluster by them. In a link word
// as in a record 0 is for none, so 0 is answered too: an `Option` would be made of the number by one more test.
#![tactic(auto)]

ghost use Rattle.std.specs.Prelude.{◌≡◌, cond, ◌-◌, ◌/◌, ◌%◌, ◌≤◌, length, drop};
ghost use Rattle.links.specs.Links.{linked_in, linked_at, linkable, links};
ghost use Rattle.links.specs.Linking.{Linking};

use layout::limits::{OBJECT_MAX, within};
use records::{cluster_of, is_out};
use table::buffers::zero;

// The next lower member of the object's cluster, 0 for none.
pub fn next_member(link: u32) -> u32
    ensures { result ≡ link % 4096 }
{
    link % 4096
}

// The highest member of the cluster that the object heads, 0 for none.
pub fn top_member(link: u32) -> u32
    ensures { result ≡ link / 4096 % 4096 }
{
    link / 4096 % 4096
}

// The cluster in which an object with the record r is linked; 0 where out members alone are linked and it is none.
fn linked_in(outs: bool, r: u32) -> u32
    ensures { result ≡ linked_in outs r }
{
    if outs && !is_out(r) { 0 } else { cluster_of(r) }
}

// Puts object x, if it is linked in a cluster, in front of the lower ones that are.
fn link_one(outs: bool, n: u32, records: &[u32], work: &mut [u32], x: u32)
    requires n_bound { (n ≤ 4095) × (n ≤ length records.now) × (n ≤ length work.old) × (1 ≤ x) × (x ≤ n) }
    requires linking { Linking n (linked_at outs n records.now) work.old (x - 1) }
    ensures { Linking n (linked_at outs n records.now) work.new x × (drop n work.new ≡ drop n work.old) }
{
    let i = x as usize - 1;
    let d = linked_in(outs, records[i]);
    if within(1, n, d) {
        let j = d as usize - 1;
        let first = work[j] / 4096;
        work[i] += first;
        work[j] = work[j] % 4096 + 4096 * x;
    }
}

fn link_all(outs: bool, n: u32, records: &[u32], work: &mut [u32])
    requires { (n ≤ 4095) × (n ≤ length records.now) × (n ≤ length work.old) }
    ensures { work.new ≡ links n (linked_at outs n records.now) work.old }
{
    zero(work, n as usize);
    for x in 1..=n {
        link_one(outs, n, records, work, x);
    }
}

// Writes the link words of n objects, of the out members alone where `outs` is true, as in `linked_at`; nothing changes where n is above 4,095 or a slice is too short.
#[tactic(auto, unfolding(crate::specs::Links::linkable, rules::specs::Buffers::short))]
pub fn link(outs: bool, n: u32, records: &[u32], work: &mut [u32])
    ensures { work.new ≡ cond (linkable n records.now work.old) (links n (linked_at outs n records.now) work.old) work.old }
{
    let count = n as usize;
    if n <= OBJECT_MAX && count <= records.len() && count <= work.len() {
        link_all(outs, n, records, work);
    }
}
