// The bodies of an image, tested. Nothing is stored but two sets, a bit for each number: the listed objects, and the sinks among them. That n
// is a size is asked of each function and held by no type, which would be taken off at each of the comparisons with numbers of the image.
ghost use Rattle.std.specs.Prelude.{◌≡◌, ◌+◌, ◌*◌, ◌/◌, ◌<◌, ◌≤◌, true, cond, eqb, length};
ghost use Rattle.layout.specs.Limits.{object_max};
ghost use Rattle.bitmap.specs.Bits.{holds, put_bit};
ghost use Rattle.rules.specs.Buffers.{all_of, all_to};
ghost use Rattle.rules.specs.Image.{sizes_ok, words_ok, sinks_ok};
ghost use Rattle.loads.specs.Bodies.{shape_ok, objects_pass, Fit, Listed, Sunk, Empty, NoZero, take_bit, passes, words_at, four_pass, words_end, roots_pass};

use crate::words::{head_byte, number_at, word_at};
use bitmap::{has_bit, ones, put_bit};
use endian::get2;
use layout::limits::{SINK_MAX, WIDTH_MAX};
use layout::refusals::bad_sizes;

// Whether the body of kind 1 keeps its layout.
#[tactic(auto, unfolding(rules::specs::Image::sizes_ok, rules::specs::Image::saved_n, rules::specs::Image::saved_r, rules::specs::Image::saved_last))]
pub(crate) fn sizes_ok(body: &[u8]) -> bool
    ensures { result ≡ sizes_ok body.now }
{
    let n = get2(body, 2);
    (body.len() == 8) & (get2(body, 0) == 1) & !bad_sizes(n, get2(body, 4)) & (get2(body, 6) <= n)
}

// ---- objects

// Number x goes into the set, if the byte says that it is a sink.
pub(crate) fn put_sink(sinks: &mut [u64], x: u32, byte: u32)
    ensures { sinks.new ≡ cond (eqb byte 1) (put_bit x sinks.old) sinks.old }
{
    if byte == 1 {
        put_bit(sinks, x as usize);
    }
}

// Whether the object at a place, behind object `last`, keeps the layout.
pub(crate) fn fits(n: u32, last: u32, body: &[u8], at: usize) -> bool
    requires { at ≤ length body.now }
    ensures { (result ≡ true → Fit n body.now last at) × (Fit n body.now last at → result ≡ true) }
{
    let left = body.len() - at;
    if left < 4 {
        return false;
    }
    let x = number_at(body, at);
    let width = head_byte(body, at, 2);
    last < x
        && x <= n
        && width <= WIDTH_MAX
        && head_byte(body, at, 3) <= 1
        && width as usize <= (left - 4) / 4
}

// Whether the listed objects keep the layout; their numbers go into the first set, and those of the sinks into the second.
pub(crate) fn shape(n: u32, body: &[u8], words: &mut [u64], sinks: &mut [u64]) -> bool
    requires { (n ≤ object_max) × Empty words.old × Empty sinks.old }
    ensures value { result ≡ shape_ok n body.now }
    ensures listed { result ≡ true → Listed n body.now words.new }
    ensures sunk { result ≡ true → Sunk n body.now sinks.new }
{
    let mut last = 0;
    let mut at = 0;
    // Not a `for`: the place goes on by the width that was read.
    while at < body.len() {
        if !fits(n, last, body, at) {
            return false;
        }
        last = number_at(body, at);
        put_bit(words, last as usize);
        put_sink(sinks, last, head_byte(body, at, 3));
        at += 4 + 4 * head_byte(body, at, 2) as usize;
    }
    true
}

// ---- words

// Whether a word is nil, a number in the set, or an immediate where these may stand (`immediates`: in slots, not in roots). By the remainder, which is the number itself, the
// compiler knows that the set has a word for it.
pub(crate) fn word_passes(immediates: bool, n: u32, word: u32, words: &[u64]) -> bool
    requires { n ≤ object_max }
    ensures { result ≡ passes immediates n words.now word }
{
    if (word == 0) | (immediates & (0x8000_0000 <= word)) {
        return true;
    }
    if n < word {
        return false;
    }
    has_bit(words, (word % 4096) as usize)
}

// Whether the four words from a place on pass.
#[tactic(auto, unfolding(crate::specs::Bodies::four_pass))]
pub(crate) fn four_pass(immediates: bool, n: u32, body: &[u8], at: usize, words: &[u64]) -> bool
    requires { (n ≤ object_max) × (at + 16 ≤ length body.now) }
    ensures { result ≡ four_pass (passes immediates n words.now) at body.now }
{
    word_passes(immediates, n, word_at(body, at), words)
        && word_passes(immediates, n, word_at(body, at + 4), words)
        && word_passes(immediates, n, word_at(body, at + 8), words)
        && word_passes(immediates, n, word_at(body, at + 12), words)
}

// The place behind the k words from a place on, if all of them pass. The place is counted on word by word, so that a caller who
// goes on from there need not wait for k.
pub(crate) fn rest_end(
    immediates: bool,
    n: u32,
    body: &[u8],
    from: usize,
    k: u32,
    words: &[u64],
) -> Option<usize>
    requires { (n ≤ object_max) × (from + 4 * k ≤ length body.now) }
    ensures { result ≡ words_end from k (all_of (passes immediates n words.now) (words_at from k body.now)) }
{
    let mut at = from;
    for _ in 0..k {
        if !word_passes(immediates, n, word_at(body, at), words) {
            return None;
        }
        at += 4;
    }
    Some(at)
}

// The same, four words at a time as long as there are as many.
pub(crate) fn words_end(
    immediates: bool,
    n: u32,
    body: &[u8],
    from: usize,
    k: u32,
    words: &[u64],
) -> Option<usize>
    requires { (n ≤ object_max) × (from + 4 * k ≤ length body.now) }
    ensures { result ≡ words_end from k (all_of (passes immediates n words.now) (words_at from k body.now)) }
{
    let mut at = from;
    for _ in 0..k / 4 {
        if !four_pass(immediates, n, body, at, words) {
            return None;
        }
        at += 16;
    }
    rest_end(immediates, n, body, at, k % 4, words)
}

// Whether the words of every listed object are legal.
pub(crate) fn words_ok(n: u32, body: &[u8], words: &[u64]) -> bool
    requires { (n ≤ object_max) × (shape_ok n body.now ≡ true) × Listed n body.now words.now }
    ensures { result ≡ all_to n (words_ok body.now n) }
{
    let mut at = 0;
    // Not a `for`: the place goes on by the width that was read.
    while at < body.len() {
        let width = head_byte(body, at, 2);
        let Some(end) = words_end(true, n, body, at + 4, width, words) else {
            return false;
        };
        at = end;
    }
    true
}

// Whether the body of kind 2 is one of objects 1 to n with no more than 64 sinks; the numbers go into the two sets.
pub(crate) fn objects_ok(n: u32, body: &[u8], words: &mut [u64], sinks: &mut [u64]) -> bool
    requires { (n ≤ object_max) × Empty words.old × Empty sinks.old }
    ensures value { result ≡ objects_pass n body.now }
    ensures listed { result ≡ true → Listed n body.now words.new }
    ensures sunk { result ≡ true → Sunk n body.now sinks.new }
{
    shape(n, body, words, sinks) && ones(sinks) <= SINK_MAX && words_ok(n, body, words)
}

// Whether the body of kind 3 is r roots, each nil or a number in the set.
#[tactic(auto, unfolding(crate::specs::Bodies::roots_pass))]
pub(crate) fn roots_ok(n: u32, r: u32, body: &[u8], words: &[u64]) -> bool
    requires { n ≤ object_max }
    ensures { result ≡ roots_pass n r words.now body.now }
{
    body.len() == 4 * r as usize && rest_end(false, n, body, 0, r, words).is_some()
}

// ---- sinks

// Number x is taken out of the set.
pub(crate) fn take_bit(sinks: &mut [u64], x: u32)
    requires { x / 64 < length sinks.old }
    ensures { sinks.new ≡ take_bit x sinks.old }
{
    let i = x as usize;
    sinks[i / 64] &= !(1 << (i % 64));
}

// Whether the numbers of a body of kind 0x8001 are those in the set, each once. They are taken out of it, so that no second body passes.
pub(crate) fn sinks_ok(body: &[u8], sinks: &mut [u64]) -> bool
    requires { NoZero sinks.old }
    ensures value { result ≡ sinks_ok object_max (λ z. holds z sinks.old) body.now }
    ensures empty { result ≡ true → Empty sinks.new }
{
    let k = ones(sinks) as usize;
    if (k == 0) | (body.len() != 2 * k) {
        return false;
    }
    for i in 0..k {
        let x = get2(body, 2 * i);
        if !has_bit(sinks, x as usize) {
            return false;
        }
        take_bit(sinks, x);
    }
    true
}
