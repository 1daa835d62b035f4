// Load: the heap of an image.
#![tactic(auto)]

ghost use Rattle.std.specs.Prelude.{◌≡◌};
ghost use Rattle.layout.specs.Refusal.{first, refusal_of};
ghost use Rattle.loads.specs.Laid.{answer_of};
ghost use Rattle.rules.specs.Load as Load;

use endian::get2;
use layout::answers::{Control, Done, Tuning};
use layout::control::{new_control, no_control, with_last};
use layout::refusals::{Refusal, bad_tuning};
use table::room::{Buffers, short_heap};

mod bodies;
mod chunks;
mod lay;
mod words;

use chunks::image_refusal;
use lay::lay;

// The first test of what it is given that holds refuses.
fn input_refusal(t: Tuning, image: &[u8]) -> Result<(), Refusal>
    ensures { refusal_of result ≡ first (Load.input_tests t image.now) }
{
    if bad_tuning(t) {
        return Err(Refusal::BadTuning);
    }
    image_refusal(image)
}

// A heap with no clusters from the bytes of an image. Every test comes before the first store: after a refusal nothing changes. The sizes
// stand at fixed places of an image that is not refused. Slices that are stored to go one by one: of a struct of them each function would
// have to promise that it still holds the same slices.
#[tactic(auto, using(crate::proofs::LoadLaws::loading))]
fn load_image(
    t: Tuning,
    image: &[u8],
    records: &mut [u32],
    slots: &mut [u32],
    roots: &mut [u32],
    sinks: &mut [u32],
    sets: &mut [u64],
) -> Result<Control, Refusal>
    ensures { Load.gives (answer_of result) records.new slots.new roots.new sinks.new sets.new
        ≡ Load.load t image.now records.old slots.old roots.old sinks.old sets.old }
{
    input_refusal(t, image)?;
    let n = get2(image, 8);
    let r = get2(image, 10);
    let heap = Buffers {
        records,
        slots,
        roots,
        sinks,
        sets,
    };
    if short_heap(n, r, &heap) {
        return Err(Refusal::TooShort);
    }
    lay(n, r, image, records, slots, roots, sinks, sets);
    Ok(with_last(new_control(n, r, t), get2(image, 12)))
}

// The heap of an image. The control record after a refusal is all zeros. The slices are handed over one by one, as C lends them.
pub fn load(
    t: Tuning,
    image: &[u8],
    records: &mut [u32],
    slots: &mut [u32],
    roots: &mut [u32],
    sinks: &mut [u32],
    sets: &mut [u64],
) -> Done
    ensures { Load.gives result records.new slots.new roots.new sinks.new sets.new
        ≡ Load.load t image.now records.old slots.old roots.old sinks.old sets.old }
{
    match load_image(t, image, records, slots, roots, sinks, sets) {
        Ok(control) => Done {
            refusal: 0,
            control,
        },
        Err(e) => Done {
            refusal: u32::from(e),
            control: no_control(),
        },
    }
}
