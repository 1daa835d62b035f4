// Show: an object's used slots, in the caller's own buffer.
ghost use Rattle.std.specs.Prelude.{◌≡◌, ◌+◌, ◌*◌};
ghost use Rattle.rules.specs.Show as Show;

use layout::answers::{Control, Part};
use layout::limits::{OBJECT_MAX, slots_len};
use records::width_of;
use table::named::object_refusal;

// The part itself: what is answered is the caller's own slice, so the number goes beside it. `refusal` becomes 0, or the number of the refusal
// of an empty part.
#[tactic(auto, using(crate::proofs::ShowLaws::ends))]
pub fn show<'a>(
    c: Control,
    object: u32,
    records: &[u32],
    slots: &'a [u32],
    refusal: &mut u32,
) -> &'a [u32]
    ensures answer { (result.now ≡ (Show.show c object records.now slots.now).words)
        × (refusal.new ≡ (Show.show c object records.now slots.now).answer.refusal) }
    ensures own { (result.ref_ptr.0 ≡ slots.entry.ref_ptr.0)
        × (result.ref_ptr.1 ≡ (Show.show c object records.now slots.now).answer.start * 4 + slots.entry.ref_ptr.1) }
{
    if let Err(e) = object_refusal(c, object, records, slots, OBJECT_MAX as usize) {
        *refusal = u32::from(e);
        return &slots[0..0];
    }
    *refusal = 0;
    let start = slots_len(object - 1);
    let end = start + width_of(records[(object - 1) as usize]) as usize;
    &slots[start..end]
}

// Where the part is, for callers that cannot be given a slice.
#[tactic(auto, using(crate::proofs::ShowLaws::ends))]
pub fn show_part(c: Control, object: u32, records: &[u32], slots: &[u32]) -> Part
    ensures { result ≡ (Show.show c object records.now slots.now).answer }
{
    if let Err(e) = object_refusal(c, object, records, slots, OBJECT_MAX as usize) {
        return Part {
            refusal: u32::from(e),
            start: 0,
            length: 0,
            control: c,
        };
    }
    Part {
        refusal: 0,
        start: slots_len(object - 1) as u32,
        length: width_of(records[(object - 1) as usize]),
        control: c,
    }
}
