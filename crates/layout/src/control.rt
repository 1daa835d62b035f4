// The control record made and changed. No other source spells out its fields.
ghost use Rattle.std.specs.Prelude.{◌≡◌};
ghost use Rattle.layout.specs.ControlRecord.{tuning_of, usual_tuning, new_control, no_control, with_last, with_write_loss, with_analysis};

use crate::answers::{Control, Tuning};

// These three numbers as a tuning.
pub fn tuning(least: u32, outs: u32, lowest: u32) -> Tuning
    ensures { result ≡ tuning_of least outs lowest }
{
    Tuning {
        least_members: least,
        outs_per_ten: outs,
        lowest_limit: lowest,
    }
}

// The usual numbers.
pub fn usual_tuning() -> Tuning
    ensures { result ≡ usual_tuning }
{
    tuning(4, 25, 8)
}

// The control record of a heap just created.
#[tactic(auto, unfolding(crate::specs::ControlRecord::new_control))]
pub fn new_control(n: u32, r: u32, t: Tuning) -> Control
    ensures { result ≡ new_control n r t }
{
    Control {
        n,
        r,
        last: 0,
        limit: 0,
        write_loss: 0,
        out_loss: 0,
        tuning: t,
    }
}

// That of no heap, all zeros: what a refused create or load answers.
pub fn no_control() -> Control
    ensures { result ≡ no_control }
{
    new_control(0, 0, tuning(0, 0, 0))
}

// The control record after object x is given. One number is set in a copy: built anew, the record of
// an allocation by value is ready later (docs/DECISIONS.md, "Time").
#[tactic(auto, unfolding(crate::specs::ControlRecord::with_last))]
pub fn with_last(c: Control, x: u32) -> Control
    ensures { result ≡ with_last x c }
{
    let mut d = c;
    d.last = x;
    d
}

// The control record with another write loss.
#[tactic(auto, unfolding(crate::specs::ControlRecord::with_write_loss))]
pub fn with_write_loss(c: Control, loss: u32) -> Control
    ensures { result ≡ with_write_loss loss c }
{
    Control {
        write_loss: loss,
        ..c
    }
}

// The control record after an analysis by this size limit that finds this out loss.
#[tactic(auto, unfolding(crate::specs::ControlRecord::with_analysis))]
pub fn with_analysis(c: Control, limit: u32, loss: u32) -> Control
    ensures { result ≡ with_analysis limit loss c }
{
    Control {
        limit,
        write_loss: 0,
        out_loss: loss,
        ..c
    }
}
