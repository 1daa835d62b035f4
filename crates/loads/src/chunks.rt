// The chunks of an image, in their order. No number is added to a place before it is compared with the bytes left.
ghost use Rattle.std.specs.Prelude.{◌≡◌, ◌≤◌, false, not, length, drop, OnOk};
ghost use Rattle.layout.specs.Limits.{object_max};
ghost use Rattle.layout.specs.Refusal.{first, refusal_of};
ghost use Rattle.rules.specs.Image.{body_of, past, cut, sizes_ok};
ghost use Rattle.rules.specs.Load.{objects, image_n, image_tests};
ghost use Rattle.loads.specs.Bodies.{Listed, Sunk, Empty, NoZero, objects_pass, roots_pass};
ghost use Rattle.loads.specs.Chunks.{kind_refusal, front_refusal, chunk_refusal, refusal_from, Chunk, bad_tail, TailSet};

use crate::bodies::{objects_ok, roots_ok, sinks_ok, sizes_ok};
use endian::{get2, get4};
use layout::refusals::Refusal;

// The bytes of a chunk before its body.
pub(crate) const FRONT: usize = 6;

// The kind of the chunk of sinks.
pub(crate) const SINKS: u32 = 0x8001;

// The test of a chunk by its kind, where it is chunk t, counted from 0.
#[tactic(auto, unfolding(crate::specs::Chunks::kind_refusal, rules::specs::Load::known, rules::specs::Load::passed, rules::specs::Load::misplaced, layout::specs::Limits::within))]
fn kind_refusal(t: u32, kind: u32) -> Result<(), Refusal>
    ensures { refusal_of result ≡ kind_refusal t kind }
{
    match kind {
        1..=3 if kind - 1 == t => Ok(()),
        1..=3 => Err(Refusal::BadImage),
        0x8000.. if 3 <= t => Ok(()),
        0x8000.. => Err(Refusal::BadImage),
        _ => Err(Refusal::UnknownKind),
    }
}

// That of the chunk at a place, by its length and kind.
fn front_refusal(t: u32, image: &[u8], at: usize) -> Result<(), Refusal>
    requires { at ≤ length image.now }
    ensures { refusal_of result ≡ front_refusal t (drop at image.now) }
{
    let left = image.len() - at;
    if left < FRONT || left - FRONT < get4(image, at) as usize {
        return Err(Refusal::ImageCut);
    }
    kind_refusal(t, get2(image, at + 4))
}

// Where the chunk at a place ends.
pub(crate) fn end_of(image: &[u8], at: usize) -> usize
    requires { (at ≤ length image.now) × (cut (drop at image.now) ≡ false) }
    ensures { Chunk image.now at result }
{
    at + FRONT + get4(image, at) as usize
}

// The tests of the first chunk.
fn sizes_refusal(image: &[u8]) -> Result<(), Refusal>
    ensures { refusal_of result ≡ chunk_refusal 0 image.now (not (sizes_ok (body_of image.now))) }
{
    front_refusal(0, image, 0)?;
    let end = end_of(image, 0);
    if sizes_ok(&image[FRONT..end]) {
        Ok(())
    } else {
        Err(Refusal::BadImage)
    }
}

// Those of the second, which is at a place; the numbers of the listed objects go into the first set, and those of the sinks into the second.
fn objects_refusal(
    n: u32,
    image: &[u8],
    at: usize,
    words: &mut [u64],
    sinks: &mut [u64],
) -> Result<(), Refusal>
    requires { (n ≤ object_max) × (at ≤ length image.now) × Empty words.old × Empty sinks.old }
    ensures value { refusal_of result ≡ chunk_refusal 1 (drop at image.now) (not (objects_pass n (body_of (drop at image.now)))) }
    ensures listed { OnOk result (Listed n (body_of (drop at image.now)) words.new) }
    ensures sunk { OnOk result (Sunk n (body_of (drop at image.now)) sinks.new) }
{
    front_refusal(1, image, at)?;
    let start = at + FRONT;
    let end = end_of(image, at);
    if objects_ok(n, &image[start..end], words, sinks) {
        Ok(())
    } else {
        Err(Refusal::BadImage)
    }
}

// Those of the third.
fn roots_refusal(n: u32, r: u32, image: &[u8], at: usize, words: &[u64]) -> Result<(), Refusal>
    requires { (n ≤ object_max) × (at ≤ length image.now) }
    ensures { refusal_of result ≡ chunk_refusal 2 (drop at image.now) (not (roots_pass n r words.now (body_of (drop at image.now)))) }
{
    front_refusal(2, image, at)?;
    let start = at + FRONT;
    let end = end_of(image, at);
    if roots_ok(n, r, &image[start..end], words) {
        Ok(())
    } else {
        Err(Refusal::BadImage)
    }
}

// Those of a chunk behind the third. One of sinks takes its numbers out of the set.
fn tail_refusal(image: &[u8], at: usize, sinks: &mut [u64]) -> Result<(), Refusal>
    requires { (at ≤ length image.now) × NoZero sinks.old }
    ensures value { refusal_of result ≡ chunk_refusal 3 (drop at image.now) (bad_tail sinks.old (drop at image.now)) }
    ensures tail_set { OnOk result (TailSet (drop at image.now) sinks.old sinks.new) }
{
    front_refusal(3, image, at)?;
    if get2(image, at + 4) != SINKS {
        return Ok(());
    }
    let start = at + FRONT;
    let end = end_of(image, at);
    if sinks_ok(&image[start..end], sinks) {
        Ok(())
    } else {
        Err(Refusal::BadImage)
    }
}

// Those of all chunks behind the third, the first of which is at a place. The set has the sinks.
fn rest_refusal(image: &[u8], from: usize, sinks: &mut [u64]) -> Result<(), Refusal>
    requires from_in_bounds { (from ≤ length image.now) × (past 3 image.now ≡ drop from image.now) × (image_n image.now ≤ object_max) }
    requires sunk { Sunk (image_n image.now) (objects image.now) sinks.old }
    ensures { refusal_of result ≡ refusal_from image.now 3 }
{
    let mut at = from;
    // Not a `for`: a chunk says where the next one is.
    while at < image.len() {
        tail_refusal(image, at, sinks)?;
        at = end_of(image, at);
    }
    Ok(())
}

// The first test of an image that holds refuses.
pub(crate) fn image_refusal(image: &[u8]) -> Result<(), Refusal>
    ensures { refusal_of result ≡ first (image_tests image.now) }
{
    sizes_refusal(image)?;
    let second = end_of(image, 0);
    let n = get2(image, 8);
    let mut words = [0u64; 64];
    let mut sinks = [0u64; 64];
    objects_refusal(n, image, second, &mut words, &mut sinks)?;
    let third = end_of(image, second);
    roots_refusal(n, get2(image, 10), image, third, &words)?;
    rest_refusal(image, end_of(image, third), &mut sinks)
}
