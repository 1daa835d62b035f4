// The tests that every call on a named object begins with.
ghost use Rattle.std.specs.Prelude.{◌≡◌, length};
ghost use Rattle.layout.specs.Refusal.{first, refusal_of};
ghost use Rattle.table.specs.Named.{named_tests};
ghost use Rattle.table.specs.Room.{object_room, room_of};

use layout::answers::Control;
use layout::limits::{WIDTH_MAX, within};
use layout::refusals::{Refusal, bad_control};
use records::legal;

// How many objects records and slots have room for. A test of it is one branch (docs/BENCHMARK.md, "Read").
#[tactic(auto, unfolding(crate::specs::Room::object_room))]
pub fn object_room(records: &[u32], slots: &[u32]) -> usize
    ensures { result ≡ object_room (length records.now) (length slots.now) }
{
    records.len().min(slots.len() / WIDTH_MAX as usize)
}

// How many objects all slices have room for.
#[tactic(auto, unfolding(crate::specs::Room::room_of))]
fn room(records: &[u32], slots: &[u32], others: usize) -> usize
    ensures { result ≡ room_of (length records.now) (length slots.now) others }
{
    object_room(records, slots).min(others)
}

// The first of those tests that holds refuses. The slices that only the caller knows have room for
// `others` objects.
pub fn object_refusal(
    c: Control,
    object: u32,
    records: &[u32],
    slots: &[u32],
    others: usize,
) -> Result<(), Refusal>
    ensures { refusal_of result ≡ first (named_tests c object records.now slots.now others) }
{
    if bad_control(c) {
        return Err(Refusal::BadControl);
    }
    if room(records, slots, others) < c.n as usize {
        return Err(Refusal::TooShort);
    }
    if !within(1, c.n, object) {
        return Err(Refusal::NoObject);
    }
    let r = records[(object - 1) as usize];
    if legal(c.n, r) {
        return Ok(());
    }
    if r == 0 {
        Err(Refusal::IsFree)
    } else {
        Err(Refusal::Damaged)
    }
}
