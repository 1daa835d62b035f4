// Save ("Saves"): the heap as three chunks, and a fourth that lists its sinks if it has any. Each body is written into the part of the image after its length and kind.
#![tactic(auto)]

ghost use Rattle.std.specs.Prelude.{◌≡◌, ◌+◌, ◌*◌, ◌≤◌, ◌<◌, [], ◌∷◌, ◌++◌, length, take};
ghost use Rattle.std.proofs.lemmas.List.Edits.{sets};
ghost use Rattle.layout.specs.Field.{digit};
ghost use Rattle.layout.specs.Limits.{sink_max};
ghost use Rattle.endian.specs.Bytes.{bytes, bytes_of, word_bytes};
ghost use Rattle.graph.specs.Heap.{pointers};
ghost use Rattle.rules.specs.Image.{front_len, chunk, sizes_body, sinks_chunk};
ghost use Rattle.rules.specs.Save.{heap_image};
ghost use Rattle.rules.specs.Save as Save;
ghost use Rattle.saves.specs.Saves.{record_len, objects_len, objects_to, sinks_len, Writable, ObjectRoom, ObjectPut, Savable, answer_of};

use endian::{put2, put4};
use layout::answers::{Control, Saved};
use layout::limits::SINK_MAX;
use layout::refusals::Refusal;
use records::{in_use, is_sink, width_of};
use table::room::Buffers;
use wellformed::heap_refusal;

// The kind of the chunk of sinks, which `loads` has too: neither crate stands on the other.
const SINKS: u32 = 0x8001;

// ---- lengths

// The bytes that an object takes, by its record.
fn record_len(r: u32) -> u32
    ensures { result ≡ record_len r }
{
    if in_use(r) { 4 + 4 * width_of(r) } else { 0 }
}

// The bytes that all objects take.
fn objects_len(n: u32, records: &[u32]) -> u32
    requires { (n ≤ 4095) × (n ≤ length records.now) }
    ensures { result ≡ objects_len n records.now n }
{
    // Not a `sum`: with one a save takes up to a tenth longer.
    let mut total = 0;
    for r in &records[..n as usize] {
        total += record_len(*r);
    }
    total
}

// How many the 64 places list.
fn sinks_count(sinks: &[u32]) -> u32
    requires { sink_max ≤ length sinks.now }
    ensures { result ≡ length (pointers (take sink_max sinks.now)) }
{
    sinks[..SINK_MAX as usize]
        .iter()
        .filter(|y| **y != 0)
        .count() as u32
}

// The bytes of the chunk that lists k sinks.
fn sinks_len(k: u32) -> u32
    requires { k ≤ sink_max }
    ensures { result ≡ sinks_len k }
{
    if k == 0 { 0 } else { 6 + 2 * k }
}

// ---- bodies

// The four bytes of v. The part is lent, so that its length is known and no test is left.
fn put_word(body: &mut [u8], at: usize, v: u32)
    requires { at + 4 ≤ length body.old }
    ensures { body.new ≡ sets body.old at (bytes 4 v) }
{
    let e = at + 4;
    put4(&mut body[at..e], 0, v);
}

// Words, four bytes each, from place `at` on.
fn put_words(words: &[u32], body: &mut [u8], at: usize)
    requires { at + 4 * length words.now ≤ length body.old }
    ensures { body.new ≡ sets body.old at (word_bytes words.now) }
{
    for (j, w) in words.iter().enumerate() {
        put_word(body, at + 4 * j, *w);
    }
}

// Number, width and sink as the word whose bytes they are.
fn head_word(x: u32, w: u32, sink: bool) -> u32
    requires { (x < 65536) × (w < 16) }
    ensures { bytes 4 result ≡ bytes 2 x ++ (w ∷ digit sink ∷ []) }
{
    if sink {
        x + 65536 * w + 16777216
    } else {
        x + 65536 * w
    }
}

// The object of record r, if it is in use, at place `at`; answers the place after it.
fn put_object(i: u32, r: u32, slots: &[u32], body: &mut [u8], at: usize) -> usize
    requires { ObjectRoom i r slots.now body.old at }
    ensures { ObjectPut i r slots.now body.old at body.new result }
{
    if !in_use(r) {
        return at;
    }
    let w = width_of(r);
    put_word(body, at, head_word(i + 1, w, is_sink(r)));
    let start = 8 * i as usize;
    let end = start + w as usize;
    put_words(&slots[start..end], body, at + 4);
    at + 4 + 4 * w as usize
}

// The body of kind 1.
fn write_sizes(c: Control, body: &mut [u8])
    requires { length body.old ≡ 8 }
    ensures { body.new ≡ sizes_body c.n c.r c.last }
{
    put2(body, 0, 1);
    put2(body, 2, c.n);
    put2(body, 4, c.r);
    put2(body, 6, c.last);
}

// The body of kind 2.
fn write_objects(n: u32, records: &[u32], slots: &[u32], body: &mut [u8])
    requires { Writable n records.now slots.now × (length body.old ≡ objects_len n records.now n) }
    ensures { body.new ≡ objects_to n records.now slots.now n }
{
    let mut at = 0;
    for (i, r) in records[..n as usize].iter().enumerate() {
        at = put_object(i as u32, *r, slots, body, at);
    }
}

// The body of kind 3.
fn write_roots(r: u32, roots: &[u32], body: &mut [u8])
    requires { (r ≤ length roots.now) × (length body.old ≡ 4 * r) }
    ensures { body.new ≡ word_bytes (take r roots.now) }
{
    put_words(&roots[..r as usize], body, 0);
}

// The body of kind 0x8001.
fn write_sinks(sinks: &[u32], body: &mut [u8])
    requires { (sink_max ≤ length sinks.now) × (length body.old ≡ 2 * length (pointers (take sink_max sinks.now))) }
    ensures { body.new ≡ bytes_of 2 (pointers (take sink_max sinks.now)) }
{
    let mut at = 0;
    for y in &sinks[..SINK_MAX as usize] {
        if *y != 0 {
            put2(body, at, *y);
            at += 2;
        }
    }
}

// ---- chunks

// The length and the kind of a chunk.
fn put_front(kind: u32, len: u32, image: &mut [u8], at: usize)
    requires { at + front_len ≤ length image.old }
    ensures { image.new ≡ sets image.old at (bytes 4 len ++ bytes 2 kind) }
{
    put4(image, at, len);
    put2(image, at + 4, kind);
}

// The chunk of the sizes, in front.
fn put_sizes(c: Control, image: &mut [u8])
    requires { 14 ≤ length image.old }
    ensures { image.new ≡ sets image.old 0 (chunk 1 (sizes_body c.n c.r c.last)) }
{
    put_front(1, 8, image, 0);
    write_sizes(c, &mut image[6..14]);
}

// The chunk of the objects, whose body takes len bytes.
fn put_objects(n: u32, len: u32, records: &[u32], slots: &[u32], image: &mut [u8], at: usize)
    requires { Writable n records.now slots.now × (len ≡ objects_len n records.now n) × (at + (6 + len) ≤ length image.old) }
    ensures { image.new ≡ sets image.old at (chunk 2 (objects_to n records.now slots.now n)) }
{
    put_front(2, len, image, at);
    let a = at + 6;
    let e = a + len as usize;
    write_objects(n, records, slots, &mut image[a..e]);
}

// The chunk of the roots.
fn put_roots(r: u32, roots: &[u32], image: &mut [u8], at: usize)
    requires { (r ≤ 64) × (r ≤ length roots.now) × (at + (6 + 4 * r) ≤ length image.old) }
    ensures { image.new ≡ sets image.old at (chunk 3 (word_bytes (take r roots.now))) }
{
    put_front(3, 4 * r, image, at);
    let a = at + 6;
    let e = a + 4 * r as usize;
    write_roots(r, roots, &mut image[a..e]);
}

// The chunk of the k sinks that are listed, if there are any.
fn put_sinks(k: u32, sinks: &[u32], image: &mut [u8], at: usize)
    requires { (sink_max ≤ length sinks.now) × (k ≡ length (pointers (take sink_max sinks.now))) × (at + sinks_len k ≤ length image.old) }
    ensures { image.new ≡ sets image.old at (sinks_chunk (pointers (take sink_max sinks.now))) }
{
    if k == 0 {
        return;
    }
    put_front(SINKS, 2 * k, image, at);
    let a = at + 6;
    let e = a + 2 * k as usize;
    write_sinks(sinks, &mut image[a..e]);
}

// The chunks, one after the other; the objects take len bytes, and k sinks are listed.
fn put_image(c: Control, len: u32, k: u32, heap: &Buffers, image: &mut [u8])
    requires { Savable c len k heap.now.records.now heap.now.slots.now heap.now.roots.now heap.now.sinks.now
        × (26 + len + 4 * c.r + sinks_len k ≤ length image.old) }
    ensures { image.new ≡ sets image.old 0 (heap_image c heap.now.records.now heap.now.slots.now heap.now.roots.now heap.now.sinks.now) }
{
    put_sizes(c, image);
    put_objects(c.n, len, heap.records, heap.slots, image, 14);
    let third = 20 + len as usize;
    put_roots(c.r, heap.roots, image, third);
    put_sinks(k, heap.sinks, image, third + 6 + 4 * c.r as usize);
}

// Saves the heap, and answers the length of the image. No byte is stored before the last test has passed.
fn write_image(c: Control, heap: &Buffers, image: &mut [u8]) -> Result<u32, Refusal>
    ensures { Save.gives (answer_of c result) image.new
        ≡ Save.save c heap.now.records.now heap.now.slots.now heap.now.roots.now heap.now.sinks.now heap.now.sets.now image.old }
{
    heap_refusal(c, heap, false)?;
    let objects = objects_len(c.n, heap.records);
    let listed = sinks_count(heap.sinks);
    let length = 26 + objects + 4 * c.r + sinks_len(listed);
    if image.len() < length as usize {
        return Err(Refusal::TooShort);
    }
    put_image(c, objects, listed, heap, image);
    Ok(length)
}

// Saves the heap. The slices are handed over one by one, as C lends them.
pub fn save(
    c: Control,
    records: &[u32],
    slots: &[u32],
    roots: &[u32],
    sinks: &[u32],
    sets: &[u64],
    image: &mut [u8],
) -> Saved
    ensures { Save.gives result image.new
        ≡ Save.save c records.now slots.now roots.now sinks.now sets.now image.old }
{
    let heap = Buffers {
        records,
        slots,
        roots,
        sinks,
        sets,
    };
    match write_image(c, &heap, image) {
        Ok(length) => Saved {
            refusal: 0,
            length,
            control: c,
        },
        Err(e) => Saved {
            refusal: u32::from(e),
            length: 0,
            control: c,
        },
    }
}
