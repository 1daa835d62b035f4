// Two columns beside each other: the k-th call of one with the k-th of the other. Analyses have rows of their own.
ghost use Rattle.std.specs.Prelude.{◌≡◌};
ghost use Rattle.compare.specs.Turns.{state_after, next_turn, is_over, noted_after};
ghost use Rattle.compare.specs.Turns as T;

use lines::kinds::*;

// Where a column is: on its way to the next call, at a call that was run, at an analysis that was run, past the last line; or another number,
// which no column has and which counts as a call.
#[derive(Clone, Copy, PartialEq, Eq)]
pub enum State {
    Reading,
    AtCall,
    AtAnalysis,
    Done,
    Other(u32),
}

// What comes next: which columns are at it, and whether it is a difference.
#[derive(Clone, Copy)]
pub struct Turn {
    pub has_left: bool,
    pub has_right: bool,
    pub mark: bool,
}

// The lines of the first difference; none for a list that has no call there, and for both while the columns agree.
#[derive(Clone, Copy)]
pub struct Verdict {
    pub left: Option<u64>,
    pub right: Option<u64>,
}

// Where a column is after it ran the call of a line.
#[tactic(auto, unfolding(crate::specs::Turns::state_after))]
pub fn state_after(call: Option<Call>) -> State
    ensures { result ≡ state_after call }
{
    let Some(call) = call else {
        return State::Reading;
    };
    match call.kind {
        Kind::Wrote | Kind::Loaded => State::Reading,
        Kind::Analyse => State::AtAnalysis,
        _ => State::AtCall,
    }
}

// Which columns are next, by where they are; `same` says whether a pair of calls answered the same.
#[tactic(auto, unfolding(crate::specs::Turns::next_turn))]
pub fn next_turn(left: State, right: State, same: bool) -> Turn
    ensures { result ≡ next_turn left right same }
{
    match (left, right) {
        (State::AtAnalysis, _) => Turn {
            has_left: true,
            has_right: false,
            mark: false,
        },
        (_, State::AtAnalysis) => Turn {
            has_left: false,
            has_right: true,
            mark: false,
        },
        _ => paired(left != State::Done, right != State::Done, same),
    }
}

// The turn of calls, where each list has one or is at its end.
fn paired(has_left: bool, has_right: bool, same: bool) -> Turn
    ensures { result ≡ T.paired has_left has_right same }
{
    Turn {
        has_left,
        has_right,
        mark: !has_left || !has_right || !same,
    }
}

// Whether both lists are at their end.
pub fn is_over(t: Turn) -> bool
    ensures { result ≡ is_over t }
{
    !t.has_left && !t.has_right
}

// The first difference, after this turn at these lines.
#[tactic(auto, unfolding(crate::specs::Turns::noted_after))]
pub fn noted(v: Verdict, t: Turn, left: u64, right: u64) -> Verdict
    ensures { result ≡ noted_after v t left right }
{
    if v.left.is_none() && v.right.is_none() && t.mark {
        return Verdict {
            left: t.has_left.then_some(left),
            right: t.has_right.then_some(right),
        };
    }
    v
}
