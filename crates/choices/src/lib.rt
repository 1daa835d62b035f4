// The choices of an analysis ("Analysis"), each from a record or a few numbers: the next size limit, the cluster that an object gets, whether a
// new cluster stays, and the record that is left. Small total functions.
#![tactic(auto)]

ghost use Rattle.std.specs.Prelude.{◌≡◌};
ghost use Rattle.rules.specs.Analyse.{clamped, next_limit};
ghost use Rattle.choices.specs.Choices.{goes_by, over_by, lasts, loss_by, settled};

use layout::answers::{Control, Tuning};
use layout::limits::LIMIT_MAX;
use records::{is_sink, is_written, with_cluster, with_out, with_written};

// ---- the size limit

// x, clamped to the range of limits. Not std's `clamp`, which wants the lowest to be in range.
#[tactic(auto, unfolding(rules::specs::Analyse::clamped))]
pub fn clamp(lowest: u32, x: u32) -> u32
    ensures { result ≡ clamped lowest x }
{
    x.min(LIMIT_MAX).max(lowest)
}

// The next size limit, where so many objects are in use: a sixteenth of them the first time, later half or twice the last limit.
#[tactic(auto, unfolding(rules::specs::Analyse::clamped, rules::specs::Analyse::sixteenth, rules::specs::Analyse::half, rules::specs::Analyse::next_limit))]
pub fn next_limit(c: Control, used: u32) -> u32
    ensures { result ≡ next_limit c used }
{
    let lowest = c.tuning.lowest_limit;
    if c.limit == 0 {
        return clamp(lowest, used / 16);
    }
    if c.out_loss < c.write_loss {
        return clamp(lowest, c.limit / 2);
    }
    clamp(lowest, c.limit.saturating_mul(2))
}

// ---- the cluster of an object

// The cluster that object o, with the record r and in no cluster, gets when c, with `size` members, is passed to it; 0 for none, as in its record.
#[tactic(auto, unfolding(crate::specs::Choices::goes_by, crate::specs::Choices::joined))]
pub fn choose(limit: u32, r: u32, size: u32, o: u32, c: u32) -> u32
    ensures { result ≡ goes_by limit r size o c }
{
    if is_written(r) || is_sink(r) {
        0
    } else if c != 0 && size < limit {
        c
    } else {
        o
    }
}

// ---- a new cluster of s members with p out pointers

// Whether these are too many out pointers. Words of 64 bits hold the products of any two numbers.
pub fn is_over(t: Tuning, s: u32, p: u32) -> bool
    ensures { result ≡ over_by t s p }
{
    u64::from(t.outs_per_ten) * u64::from(s) < 10 * u64::from(p)
}

// Whether it stays.
#[tactic(auto, unfolding(crate::specs::Choices::lasts))]
pub fn stays(t: Tuning, s: u32, p: u32) -> bool
    ensures { result ≡ lasts t s p }
{
    !is_over(t, s, p) && t.least_members <= s
}

// What it adds to the out loss: its members, where it has too many out pointers.
#[tactic(auto, unfolding(crate::specs::Choices::loss_by))]
pub fn loss(t: Tuning, s: u32, p: u32) -> u32
    ensures { result ≡ loss_by t s p }
{
    if is_over(t, s, p) { s } else { 0 }
}

// ---- what is left

// The record r of an object that is left with w: the cluster, and 4096 where it is an out member.
pub fn settled_record(w: u32, r: u32) -> u32
    ensures { result ≡ settled w r }
{
    with_cluster(with_out(with_written(r, false), 4096 <= w), w % 4096)
}
