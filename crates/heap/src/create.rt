// Create: a heap of n free objects and r nil roots.
ghost use Rattle.std.specs.Prelude.{◌≡◌, [], ◌∷◌};
ghost use Rattle.layout.specs.Refusal.{first, refusal_of};
ghost use Rattle.layout.specs.ControlRecord.{bad_sizes, bad_tuning};
ghost use Rattle.rules.specs.Create as Create;

use layout::answers::{Done, Tuning};
use layout::control::{new_control, no_control};
use layout::limits::{SINK_MAX, slots_len};
use layout::refusals::{Refusal, bad_sizes, bad_tuning};
use table::buffers::zero;
use table::room::{Buffers, short_heap};

// The first test that holds refuses, where a slice is too short or not.
#[tactic(auto, unfolding(layout::specs::Refusal::first))]
fn create_refusal(n: u32, r: u32, t: Tuning, short: bool) -> Result<(), Refusal>
    ensures { refusal_of result ≡ first ((1, bad_sizes n r) ∷ (30, bad_tuning t) ∷ (2, short) ∷ []) }
{
    if bad_sizes(n, r) {
        return Err(Refusal::BadSizes);
    }
    if bad_tuning(t) {
        return Err(Refusal::BadTuning);
    }
    if short {
        return Err(Refusal::TooShort);
    }
    Ok(())
}

// n records, 8 n slots, r roots, the 64 places of sinks and n sets become 0; after a refusal nothing changes and the control record is all zeros.
// The slices are handed over one by one, as C lends them.
#[tactic(auto, using(crate::proofs::CreateLaws::refused))]
pub fn create(
    n: u32,
    r: u32,
    t: Tuning,
    records: &mut [u32],
    slots: &mut [u32],
    roots: &mut [u32],
    sinks: &mut [u32],
    sets: &mut [u64],
) -> Done
    ensures { Create.gives result records.new slots.new roots.new sinks.new sets.new
        ≡ Create.create n r t records.old slots.old roots.old sinks.old sets.old }
{
    let lent = Buffers {
        records,
        slots,
        roots,
        sinks,
        sets,
    };
    let short = short_heap(n, r, &lent);
    if let Err(e) = create_refusal(n, r, t, short) {
        return Done {
            refusal: u32::from(e),
            control: no_control(),
        };
    }
    zero(records, n as usize);
    zero(slots, slots_len(n));
    zero(roots, r as usize);
    zero(sinks, SINK_MAX as usize);
    zero(sets, n as usize);
    Done {
        refusal: 0,
        control: new_control(n, r, t),
    }
}
