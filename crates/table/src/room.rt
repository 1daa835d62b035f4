// The room of the lent buffers.
ghost use Rattle.std.specs.Prelude.{◌≡◌};
ghost use Rattle.rules.specs.Buffers.{short_heap};

use layout::limits::{SINK_MAX, slots_len};

// The buffers of a heap, as they are lent to what reads all of them and changes none.
#[derive(Clone, Copy)]
pub struct Buffers<'a> {
    pub records: &'a [u32],
    pub slots: &'a [u32],
    pub roots: &'a [u32],
    pub sinks: &'a [u32],
    pub sets: &'a [u64],
}

// Whether a slice is too short for n objects and r roots.
#[tactic(auto, unfolding(rules::specs::Buffers::short_heap, rules::specs::Buffers::short))]
pub fn short_heap(n: u32, r: u32, heap: &Buffers) -> bool
    ensures { result ≡ short_heap n r heap.now.records.now heap.now.slots.now heap.now.roots.now heap.now.sinks.now heap.now.sets.now }
{
    let k = n as usize;
    let short = (heap.records.len() < k)
        | (heap.slots.len() < slots_len(n))
        | (heap.roots.len() < r as usize);
    short | (heap.sinks.len() < SINK_MAX as usize) | (heap.sets.len() < k)
}
