// Whether the calls of a pair are answered the same.
ghost use Rattle.std.specs.Prelude.{◌≡◌, ◌+◌, ◌<◌, ◌≤◌, length, Some, MatchOption};
ghost use Rattle.calls.specs.Compare.{agrees};
ghost use Rattle.compare.specs.Answers.{part, same_part, same_values, besides, same_answers};

use calls::Ran;
use lines::kinds::*;

// Whether the answers of the call in two heaps are the same, as far as they count.
#[tactic(auto, unfolding(calls::specs::Compare::agrees, calls::specs::Compare::is_compared))]
fn agree(call: Call, x: Ran, y: Ran) -> bool
    ensures { result ≡ agrees (Some call) x y }
{
    match call.kind {
        Kind::Wrote | Kind::Loaded | Kind::Analyse => true,
        _ => x.refusal == y.refusal && x.a == y.a && x.b == y.b,
    }
}

// The `count` words of x from start on, if it has them.
fn part(x: &[u32], start: usize, count: u32) -> Option<&[u32]>
    ensures { MatchOption result (length x.now < start + count) (λ p. (start + count ≤ length x.now) × (p.now ≡ part start count x.now)) }
{
    x.get(start..)?.get(..count as usize)
}

// Whether x has `count` words from start on and y as many from `other` on, and these are the same.
#[tactic(auto, unfolding(crate::specs::Answers::same_part))]
pub(crate) fn same_part(x: &[u32], y: &[u32], start: usize, other: usize, count: u32) -> bool
    ensures { result ≡ same_part x.now y.now start other count }
{
    match (part(x, start, count), part(y, other, count)) {
        (Some(p), Some(q)) => p == q,
        _ => false,
    }
}

// What the call of a line answered on a column's heap, with the slots and the map that it speaks of.
#[derive(Clone, Copy)]
pub struct Answered<'a> {
    pub call: Option<Call>,
    pub ran: Ran,
    pub slots: &'a [u32],
    pub map: &'a [u64],
}

// Whether what an accepted call gives besides its answer is the same: what was freed, or the slots that are shown.
#[tactic(auto, unfolding(crate::specs::Answers::same_values))]
fn same_values(kind: Kind, x: &Answered, y: &Answered) -> bool
    ensures { result ≡ same_values kind x.now.ran y.now.ran x.now.slots.now x.now.map.now y.now.slots.now y.now.map.now }
{
    match kind {
        Kind::Collect => x.map == y.map,
        Kind::Show => same_part(
            x.slots,
            y.slots,
            x.ran.a as usize,
            y.ran.a as usize,
            x.ran.b,
        ),
        _ => true,
    }
}

// The answer y, but with the place of the part that x shows: shown words count, and not where they are.
#[tactic(auto, unfolding(crate::specs::Answers::besides))]
fn beside(kind: Kind, x: Ran, y: Ran) -> Ran
    ensures { result ≡ besides kind x y }
{
    match kind {
        Kind::Show => Ran { a: x.a, ..y },
        _ => y,
    }
}

// Whether two lines make calls of the same kind, answered the same, as far as it counts.
#[tactic(auto, unfolding(crate::specs::Answers::same_answers))]
pub fn same_answers(x: &Answered, y: &Answered) -> bool
    ensures { result ≡ same_answers x.now.call y.now.call x.now.ran y.now.ran x.now.slots.now x.now.map.now y.now.slots.now y.now.map.now }
{
    match (x.call, y.call) {
        (None, None) => true,
        (Some(c), Some(d)) => {
            usize::from(c.kind) == usize::from(d.kind)
                && agree(c, x.ran, beside(c.kind, x.ran, y.ran))
                && (x.ran.refusal != 0 || same_values(c.kind, x, y))
        }
        _ => false,
    }
}
