// The stores of load, all of them behind its last test.
ghost use Rattle.std.specs.Prelude.{◌≡◌, ◌+◌, ◌*◌, ◌/◌, ◌%◌, ◌≤◌, ◌<◌, cond, eqb, length, get_or, set};
ghost use Rattle.std.proofs.lemmas.List.Edits.{sets};
ghost use Rattle.layout.specs.Limits.{slots_len, width_max, sink_max};
ghost use Rattle.endian.specs.Bytes.{number_at};
ghost use Rattle.rules.specs.Buffers.{each_from, each_record, zeros};
ghost use Rattle.rules.specs.Image.{saved_as_sink, saved_root, saved_list};
ghost use Rattle.rules.specs.Load.{root_words, loaded_record, loaded_word, loaded_sinks};
ghost use Rattle.loads.specs.Laid.{laid, record_or, slot_or, singles, Roomy, Tail, SinksAt, Listable, Placed, Accepted};

use crate::chunks::{FRONT, SINKS, end_of};
use crate::words::{head_byte, number_at, word_at};
use endian::get2;
use layout::limits::{SINK_MAX, slots_len};
use records::{new_record, with_sink};
use table::buffers::zero;

// The four words from a place of a body on, stored from place `to` on. All are read before the first is stored, so that they become one store.
pub(crate) fn lay_four(body: &[u8], at: usize, words: &mut [u32], to: usize)
    requires { (at + 16 ≤ length body.now) × (to + 4 ≤ length words.old) }
    ensures { words.new ≡ laid to 4 (λ i. number_at 4 (at + 4 * i) body.now) words.old }
{
    let a = word_at(body, at);
    let b = word_at(body, at + 4);
    let c = word_at(body, at + 8);
    let d = word_at(body, at + 12);
    words[to] = a;
    words[to + 1] = b;
    words[to + 2] = c;
    words[to + 3] = d;
}

// The k words from a place on, stored from place `base` on. The place behind them is counted on word by word and answered, so that a caller
// who goes on from there need not wait for k.
pub(crate) fn lay_rest(body: &[u8], from: usize, k: u32, words: &mut [u32], base: usize) -> usize
    requires { (from + 4 * k ≤ length body.now) × (base + k ≤ length words.old) }
    ensures { (result ≡ from + 4 * k) × (words.new ≡ laid base k (λ i. number_at 4 (from + 4 * i) body.now) words.old) }
{
    let mut at = from;
    // By index: four bytes of one slice go to one word of the other.
    for i in 0..k as usize {
        words[base + i] = word_at(body, at);
        at += 4;
    }
    at
}

// The same, the first four at once.
pub(crate) fn lay_words(body: &[u8], from: usize, k: u32, words: &mut [u32], base: usize) -> usize
    requires { (from + 4 * k ≤ length body.now) × (base + k ≤ length words.old) }
    ensures { (result ≡ from + 4 * k) × (words.new ≡ laid base k (λ i. number_at 4 (from + 4 * i) body.now) words.old) }
{
    let mut at = from;
    let mut to = base;
    let mut left = k;
    if 3 < k {
        lay_four(body, from, words, base);
        at += 16;
        to += 4;
        left -= 4;
    }
    lay_rest(body, at, left, words, to)
}

// The records and the words of the listed objects. By the remainder, which is the width itself, the compiler knows that the words are few.
pub(crate) fn lay_objects(n: u32, body: &[u8], records: &mut [u32], slots: &mut [u32])
    requires { Roomy n body.now records.old slots.old }
    ensures records_after { records.new ≡ each_record n (record_or body.now) records.old }
    ensures slots_after { slots.new ≡ each_from 0 (slots_len n) (slot_or body.now) slots.old }
{
    let mut at = 0;
    // Not a `for`: the place goes on by the width that was read.
    while at < body.len() {
        let i = number_at(body, at) - 1;
        let width = head_byte(body, at, 2);
        records[i as usize] = with_sink(new_record(width), head_byte(body, at, 3) == 1);
        at = lay_words(body, at + 4, width % 16, slots, slots_len(i));
    }
}

// ---- sinks

// The place of the chunk of sinks among the chunks from a place on, if there is one.
pub(crate) fn find_sinks(image: &[u8], from: usize) -> Option<usize>
    requires { Tail image.now from }
    ensures { SinksAt image.now result }
{
    let mut found = None;
    let mut at = from;
    // Not a `for`: a chunk says where the next one is.
    while at < image.len() {
        if get2(image, at + 4) == SINKS {
            found = Some(at);
        }
        at = end_of(image, at);
    }
    found
}

// The numbers of a body of kind 0x8001, from the first place on.
pub(crate) fn lay_list(body: &[u8], sinks: &mut [u32])
    requires { length body.now / 2 ≤ length sinks.old }
    ensures { sinks.new ≡ sets sinks.old 0 (saved_list body.now) }
{
    // By index: two bytes of one slice go to one word of the other.
    for i in 0..body.len() / 2 {
        sinks[i] = get2(body, 2 * i);
    }
}

// Number x in place `to`, if the byte says that it is a sink; answers the next place.
pub(crate) fn lay_number(x: u32, byte: u32, sinks: &mut [u32], to: usize) -> usize
    requires { byte ≡ 1 → to < length sinks.old }
    ensures { (result ≡ cond (eqb byte 1) (to + 1) to) × (sinks.new ≡ cond (eqb byte 1) (set sinks.old to x) sinks.old) }
{
    if byte != 1 {
        return to;
    }
    sinks[to] = x;
    to + 1
}

// The numbers of the sinks among the listed objects, from the first place on.
pub(crate) fn lay_numbers(n: u32, body: &[u8], sinks: &mut [u32])
    requires { Listable n body.now sinks.old }
    ensures { sinks.new ≡ sets sinks.old 0 (singles n (saved_as_sink body.now)) }
{
    let mut to = 0;
    let mut at = 0;
    // Not a `for`: the place goes on by the width that was read.
    while at < body.len() {
        to = lay_number(number_at(body, at), head_byte(body, at, 3), sinks, to);
        at += 4 + 4 * head_byte(body, at, 2) as usize;
    }
}

// The list of the sinks: as their chunk has them, and without one by number. The second chunk, the third and those behind are at places.
pub(crate) fn lay_sinks(
    n: u32,
    image: &[u8],
    second: usize,
    third: usize,
    tail: usize,
    sinks: &mut [u32],
)
    requires { Placed n image.now second third tail × (sink_max ≤ length sinks.old) }
    ensures { sinks.new ≡ each_from 0 sink_max (λ k y. get_or (loaded_sinks image.now) k 0) sinks.old }
{
    zero(sinks, SINK_MAX as usize);
    match find_sinks(image, tail) {
        Some(at) => lay_list(&image[at + FRONT..end_of(image, at)], sinks),
        None => lay_numbers(n, &image[second + FRONT..third], sinks),
    }
}

// The heap of an image that is not refused. The slices go one by one, as in `load_image`.
pub(crate) fn lay(
    n: u32,
    r: u32,
    image: &[u8],
    records: &mut [u32],
    slots: &mut [u32],
    roots: &mut [u32],
    sinks: &mut [u32],
    sets: &mut [u64],
)
    requires { Accepted n r image.now records.old slots.old roots.old sinks.old sets.old }
    ensures records_after { records.new ≡ each_record n (λ x w. loaded_record image.now x) records.old }
    ensures slots_after { slots.new ≡ each_from 0 (slots_len n) (λ j w. loaded_word image.now (j / width_max + 1) (j % width_max)) slots.old }
    ensures roots_after { roots.new ≡ each_from 0 r (λ j w. saved_root (root_words image.now) j) roots.old }
    ensures sinks_after { sinks.new ≡ each_from 0 sink_max (λ k y. get_or (loaded_sinks image.now) k 0) sinks.old }
    ensures sets_after { sets.new ≡ zeros n sets.old }
{
    let second = end_of(image, 0);
    let third = end_of(image, second);
    let end = end_of(image, third);
    zero(records, n as usize);
    zero(slots, slots_len(n));
    let objects = second + FRONT;
    lay_objects(n, &image[objects..third], records, slots);
    let words = third + FRONT;
    lay_words(&image[words..end], 0, r, roots, 0);
    lay_sinks(n, image, second, third, end, sinks);
    zero(sets, n as usize);
}
