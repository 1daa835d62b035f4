// Objects that changed hands: a number that one column freed and gave again, while the other column still named it.
// The memory `hands` has a word for each object of each column: 0 until the column frees the object, FREED from then on, and once
// it changes hands the line at which it does, above 16 bits for the place that named it. Packed, as the memory of the program is
// fixed, and has one word for an object.
ghost use Rattle.std.specs.Prelude.{◌≡◌, get_or, set};
ghost use Rattle.compare.specs.Hands.{given_by, collects, word_of, keep_one, keep_freed, found, naming, is_again, note_given};

use crate::survivors::{Survivors, word_at};
use bitmap::has_bit;
use calls::Ran;
use lines::kinds::*;

// A word of an object that was freed and has not changed hands: its place is none, and its line is 0, which no call has.
pub const FREED: u64 = 65535;

// The places of roots begin here; those of slots are below.
pub const ROOT_PLACE: usize = 32768;

// A word has no room for a place from here on.
const NOWHERE: usize = 65535;

// The first line number that has no room in a word; a list ends long before.
const LINES: u64 = 281474976710656;

// Where the word of an object is: those of the left column come first. `is_left` is a bool here and below, as the definitions take it.
#[tactic(auto, unfolding(crate::specs::Hands::word_of))]
fn word_of(is_left: bool, x: u32) -> usize
    ensures { result ≡ word_of is_left x }
{
    if is_left {
        x as usize
    } else {
        4096 + x as usize
    }
}

// The object that the call of a line gave, 0 for none.
#[tactic(auto, unfolding(crate::specs::Hands::given_by))]
pub fn given(is_there: bool, call: Option<Call>, ran: Ran) -> u32
    ensures { result ≡ given_by is_there call ran }
{
    match call {
        Some(c) if is_there && c.kind == Kind::Allocate => ran.a,
        // No `Option`: 0 is nil, which the library answers where it refuses to allocate.
        _ => 0,
    }
}

// Whether the call of a line was a collection that was accepted.
#[tactic(auto, unfolding(crate::specs::Hands::collects))]
pub fn did_collect(is_there: bool, call: Option<Call>, ran: Ran) -> bool
    ensures { result ≡ collects is_there call ran }
{
    match call {
        Some(c) => is_there && c.kind == Kind::Collect && ran.refusal == 0,
        None => false,
    }
}

// The word of object x of a column, 0 past the end.
pub fn hand_of(hands: &[u64], is_left: bool, x: u32) -> u64
    ensures { result ≡ get_or hands.now (word_of is_left x) 0 }
{
    hands.get(word_of(is_left, x)).copied().unwrap_or(0)
}

// Stores the word of object x of a column, nothing past the end.
#[tactic(auto, using(crate::proofs::DecideLaws::stores))]
fn set_hand(hands: &mut [u64], is_left: bool, x: u32, word: u64)
    ensures { hands.new ≡ set hands.old (word_of is_left x) word }
{
    let i = word_of(is_left, x);
    // By index: no contract says what a slice's `get_mut` leaves in the slice.
    if i < hands.len() {
        hands[i] = word;
    }
}

// Notes that object i of a column was freed, if its map has it. One that changed hands stays as it is.
#[tactic(auto, unfolding(crate::specs::Hands::keep_one))]
fn keep_one(hands: &mut [u64], is_left: bool, map: &[u64], i: u32)
    ensures { hands.new ≡ keep_one is_left map.now i hands.old }
{
    if has_bit(map, i as usize) && hand_of(hands, is_left, i) == 0 {
        set_hand(hands, is_left, i, FREED);
    }
}

// Notes that the objects of a column's map were freed.
#[tactic(auto, using(crate::proofs::DecideLaws::keeps))]
pub fn keep_freed(hands: &mut [u64], is_left: bool, map: &[u64])
    ensures { hands.new ≡ keep_freed is_left map.now 0 4096 hands.old }
{
    for i in 0..4096 {
        keep_one(hands, is_left, map, i);
    }
}

// The place of the first of the words that is x.
#[tactic(auto, unfolding(crate::specs::Hands::found))]
fn find(words: &[u32], x: u32) -> Option<usize>
    ensures { result ≡ found x words.now }
{
    words.iter().take(NOWHERE).position(|w| *w == x)
}

// The first slot that names x, or else the first root.
#[tactic(auto, using(crate::proofs::DecideLaws::found_below), unfolding(crate::specs::Hands::naming))]
fn named_at(slots: &[u32], roots: &[u32], x: u32) -> Option<usize>
    ensures { result ≡ naming slots.now roots.now x }
{
    if let Some(slot) = find(slots, x) {
        return Some(slot);
    }
    let root = find(roots, x)?;
    Some(ROOT_PLACE + root)
}

// Whether the object x that a column was given now was freed before, has not changed hands yet, is not what the other column was
// given now, and is in use there.
#[tactic(auto, unfolding(crate::specs::Hands::is_again))]
fn is_again(hands: &[u64], is_left: bool, x: u32, y: u32, records: &[u32]) -> bool
    ensures { result ≡ is_again hands.now is_left x y records.now }
{
    x != 0 && x != y && hand_of(hands, is_left, x) == FREED && word_at(records, x as usize - 1) != 0
}

// Notes whether the object x that a column was given at a line changed hands, where a place names it. The other column was given
// y, and has this heap.
#[tactic(auto, unfolding(crate::specs::Hands::note_given, crate::specs::Hands::handed))]
pub fn note_given(hands: &mut [u64], is_left: bool, x: u32, y: u32, line: u64, other: &Survivors)
    ensures { hands.new ≡ note_given is_left x y line other.now.records.now other.now.slots.now other.now.roots.now hands.old }
{
    if !is_again(hands, is_left, x, y, other.records) {
        return;
    }
    if let Some(place) = named_at(other.slots, other.roots, x) {
        if place < NOWHERE && line < LINES {
            set_hand(hands, is_left, x, line * 65536 + place as u64);
        }
    }
}
