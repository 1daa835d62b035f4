// Read: one word of an object.
ghost use Rattle.std.specs.Prelude.{◌≡◌};
ghost use Rattle.rules.specs.Read as Read;
ghost use Rattle.access.specs.Answered.{answered};

use layout::answers::{Control, WordRead};
use layout::limits::{OBJECT_MAX, slots_len};
use layout::refusals::Refusal;
use records::width_of;
use table::named::object_refusal;

// All tests in their order, and the word.
#[tactic(auto, using(crate::proofs::ReadLaws::ends))]
fn look_up(
    c: Control,
    object: u32,
    slot: u32,
    records: &[u32],
    slots: &[u32],
) -> Result<u32, Refusal>
    ensures { answered result c ≡ Read.read c object slot records.now slots.now }
{
    object_refusal(c, object, records, slots, OBJECT_MAX as usize)?;
    let width = width_of(records[(object - 1) as usize]);
    if width <= slot {
        return Err(Refusal::NoSlot);
    }
    Ok(slots[slots_len(object - 1) + slot as usize])
}

pub fn read(c: Control, object: u32, slot: u32, records: &[u32], slots: &[u32]) -> WordRead
    ensures { result ≡ Read.read c object slot records.now slots.now }
{
    match look_up(c, object, slot, records, slots) {
        Ok(w) => WordRead {
            refusal: 0,
            word: w,
            control: c,
        },
        Err(e) => WordRead {
            refusal: u32::from(e),
            word: 0,
            control: c,
        },
    }
}
