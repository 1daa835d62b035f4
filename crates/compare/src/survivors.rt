// Whether the objects and roots that two heaps have at the end are the same.
ghost use Rattle.std.specs.Prelude.{◌≡◌, get_or};
ghost use Rattle.compare.specs.Survivors.{same_record, same_object, same_root, same_objects, same_roots};

use crate::answers::same_part;
use layout::limits::slots_len;
use records::{is_sink, width_of};

// The word at place i, 0 past the end.
pub fn word_at(words: &[u32], i: usize) -> u32
    ensures { result ≡ get_or words.now i 0 }
{
    words.get(i).copied().unwrap_or(0)
}

// Whether two records are both 0 or neither, and have the same width and sink bit. Not `==`: clusters and written bits do not count.
#[tactic(auto, unfolding(crate::specs::Survivors::same_record))]
fn same_record(x: u32, y: u32) -> bool
    ensures { result ≡ same_record x y }
{
    (x == 0) == (y == 0) && width_of(x) == width_of(y) && is_sink(x) == is_sink(y)
}

// What is compared of a column's heap, which has so many roots.
#[derive(Clone, Copy)]
pub struct Survivors<'a> {
    pub records: &'a [u32],
    pub slots: &'a [u32],
    pub roots: &'a [u32],
    pub root_count: u32,
}

// Whether object i + 1 is free in both heaps, or the same in both.
#[tactic(auto, unfolding(crate::specs::Survivors::same_object))]
pub fn same_object(i: u32, x: &Survivors, y: &Survivors) -> bool
    ensures { result ≡ same_object i x.now.records.now x.now.slots.now y.now.records.now y.now.slots.now }
{
    let a = word_at(x.records, i as usize);
    let b = word_at(y.records, i as usize);
    let at = slots_len(i);
    same_record(a, b) && (a == 0 || same_part(x.slots, y.slots, at, at, 8))
}

// Whether root j is the same in both heaps.
#[tactic(auto, unfolding(crate::specs::Survivors::same_root))]
pub fn same_root(j: u32, x: &Survivors, y: &Survivors) -> bool
    ensures { result ≡ same_root j x.now.root_count x.now.roots.now y.now.root_count y.now.roots.now }
{
    let same = word_at(x.roots, j as usize) == word_at(y.roots, j as usize);
    (x.root_count <= j) == (y.root_count <= j) && (x.root_count <= j || same)
}

// Whether the first 4095 objects are the same.
pub fn same_objects(x: &Survivors, y: &Survivors) -> bool
    ensures { result ≡ same_objects x.now.records.now x.now.slots.now y.now.records.now y.now.slots.now 0 4095 }
{
    (0..4095).all(|i| same_object(i, x, y))
}

// Whether the first 64 roots are the same.
pub fn same_roots(x: &Survivors, y: &Survivors) -> bool
    ensures { result ≡ same_roots x.now.root_count x.now.roots.now y.now.root_count y.now.roots.now 0 64 }
{
    (0..64).all(|j| same_root(j, x, y))
}
