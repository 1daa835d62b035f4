// Allocate: the first free object past the last one given, or else from 1 on.
ghost use Rattle.std.specs.Prelude.{◌≡◌, suc, ◌+◌, ◌-◌, ◌≤◌, IfOk, length};
ghost use Rattle.layout.specs.Limits.{width_max, object_max};
ghost use Rattle.layout.specs.Refusal.{first, refusal_of};
ghost use Rattle.records.specs.Record.{free};
ghost use Rattle.rules.specs.Buffers.{rec_of, numbers};
ghost use Rattle.rules.specs.Allocate as Allocate;
ghost use Rattle.table.specs.Cleared.{cleared};
ghost use Rattle.heap.specs.Search.{object};

use layout::answers::{Allocated, Control};
use layout::control::with_last;
use layout::limits::{WIDTH_MAX, slots_len};
use layout::refusals::{Refusal, bad_control};
use records::new_record;
use table::named::object_room;

// The first free object above `from` and up to `to`.
pub(crate) fn first_free(n: u32, from: u32, to: u32, records: &[u32]) -> Option<u32>
    requires { (to ≤ n) × (n ≤ object_max) × (n ≤ length records.now) }
    ensures { result ≡ object (Allocate.first_of (λ y. free (rec_of n records.now y)) (numbers (suc from) (to - from))) }
{
    for i in from..to {
        if records[i as usize] == 0 {
            return Some(i + 1);
        }
    }
    None
}

// The object that is given, none where every record is nonzero.
pub(crate) fn next_free(c: Control, records: &[u32]) -> Option<u32>
    requires { (c.last ≤ c.n) × (c.n ≤ object_max) × (c.n ≤ length records.now) }
    ensures { result ≡ object (Allocate.given c records.now) }
{
    match first_free(c.n, c.last, c.n, records) {
        None => first_free(c.n, 0, c.last, records),
        found => found,
    }
}

// The object to give. The first test that holds refuses.
#[tactic(auto, using(crate::proofs::AllocateLaws::ends))]
pub(crate) fn choose(c: Control, width: u32, records: &[u32], slots: &[u32]) -> Result<u32, Refusal>
    ensures tests { refusal_of result ≡ first (Allocate.allocate_tests c width records.now slots.now) }
    ensures object { IfOk result (λ x. x ≡ Allocate.given c records.now) }
{
    if bad_control(c) {
        return Err(Refusal::BadControl);
    }
    if object_room(records, slots) < c.n as usize {
        return Err(Refusal::TooShort);
    }
    if WIDTH_MAX < width {
        return Err(Refusal::TooWide);
    }
    match next_free(c, records) {
        Some(x) => Ok(x),
        None => Err(Refusal::Full),
    }
}

// The eight slots from place `at` on become 0. With `table::buffers::clear_eight`, which asks for no room, allocate is too long to be put
// into its exports (docs/DECISIONS.md, "Time").
fn clear_object(slots: &mut [u32], at: usize)
    requires { at + width_max ≤ length slots.old }
    ensures { slots.new ≡ cleared at (at + width_max) slots.old }
{
    slots[at] = 0;
    slots[at + 1] = 0;
    slots[at + 2] = 0;
    slots[at + 3] = 0;
    slots[at + 4] = 0;
    slots[at + 5] = 0;
    slots[at + 6] = 0;
    slots[at + 7] = 0;
}

// The object's record becomes a new one and its eight slots 0.
#[tactic(auto, using(crate::proofs::AllocateLaws::refused))]
pub fn allocate(c: Control, width: u32, records: &mut [u32], slots: &mut [u32]) -> Allocated
    ensures { Allocate.gives result records.new slots.new
        ≡ Allocate.allocate c width records.old slots.old }
{
    match choose(c, width, records, slots) {
        Err(e) => Allocated {
            refusal: u32::from(e),
            object: 0,
            control: c,
        },
        Ok(x) => {
            records[(x - 1) as usize] = new_record(width);
            clear_object(slots, slots_len(x - 1));
            Allocated {
                refusal: 0,
                object: x,
                control: with_last(c, x),
            }
        }
    }
}
