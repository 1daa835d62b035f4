// Numbers as bytes, the lowest first. Past the end a byte reads as 0, and a store does nothing.
#![tactic(auto)]

ghost use Rattle.std.specs.Prelude.{◌≡◌, get_or, set};
ghost use Rattle.std.proofs.lemmas.List.Edits.{sets};
ghost use Rattle.endian.specs.Bytes.{bytes, number, number_at};

// ---- reading

// The byte at place i, 0 past the end.
fn byte_or_zero(b: &[u8], i: usize) -> u8
    ensures { result ≡ get_or b.now i 0 }
{
    b.get(i).copied().unwrap_or(0)
}

// The same as a number.
pub fn byte_at(b: &[u8], i: usize) -> u32
    ensures { result ≡ get_or b.now i 0 }
{
    u32::from(byte_or_zero(b, i))
}

// The K bytes from place i on, 0 for those past the end. Byte by byte, each behind a test of its own: of a copy of those that are there the
// compiler makes a call of memcpy, which a program in C would have to bring.
#[inline(never)]
fn near_end<const K: usize>(b: &[u8], i: usize) -> [u8; K]
    ensures { number result ≡ number_at K i b.now }
{
    let rest = b.get(i..).unwrap_or(&[]);
    let mut all = [0; K];
    // By index: a part of `all` to copy into is lent only where K is known to be below 2^63.
    for k in 0..K {
        all[k] = byte_or_zero(rest, k);
    }
    all
}

// The same. Where all are there, no test stands between them, so that they can be loaded as one; the other way is a function of its own,
// so that this one is put into the loops that read (docs/DECISIONS.md, "Time").
fn bytes_at<const K: usize>(b: &[u8], i: usize) -> [u8; K]
    ensures { number result ≡ number_at K i b.now }
{
    match b.len().checked_sub(K) {
        Some(last) if i <= last => *b[i..].first_chunk().unwrap(),
        _ => near_end(b, i),
    }
}

// The number in the two bytes from place i on.
#[tactic(auto, using(crate::proofs::BytesLaws::number_two))]
pub fn get2(b: &[u8], i: usize) -> u32
    ensures { result ≡ number_at 2 i b.now }
{
    u32::from(u16::from_le_bytes(bytes_at(b, i)))
}

// The number in the four bytes from place i on.
#[tactic(auto, using(crate::proofs::BytesLaws::number_four))]
pub fn get4(b: &[u8], i: usize) -> u32
    ensures { result ≡ number_at 4 i b.now }
{
    u32::from_le_bytes(bytes_at(b, i))
}

// ---- writing

// Stores a byte at place k, nothing past the end.
#[tactic(auto, using(crate::proofs::BytesLaws::stores))]
fn set_byte(out: &mut [u8], k: usize, v: u8)
    ensures { out.new ≡ set out.old k v }
{
    // By index: no contract says what `get_mut` leaves in a slice.
    if k < out.len() {
        out[k] = v;
    }
}

// Writes a value from place 0 on, as far as its bytes have a place. Byte by byte, as `near_end` reads.
#[inline(never)]
fn put_near_end<const K: usize>(out: &mut [u8], value: [u8; K])
    ensures { out.new ≡ sets out.old 0 value.entry }
{
    for k in 0..K {
        set_byte(out, k, value[k]);
    }
}

// Writes a value from place i on, as far as its bytes have a place.
fn put_at<const K: usize>(out: &mut [u8], i: usize, value: [u8; K])
    ensures { out.new ≡ sets out.old i value.entry }
{
    if out.len() < i {
        return;
    }
    let rest = &mut out[i..];
    // Where all have a place, they can be stored as one.
    if let Some(all) = rest.first_chunk_mut::<K>() {
        *all = value;
    } else {
        put_near_end(rest, value);
    }
}

// The two lowest bytes of v from place i on.
#[tactic(auto, unfolding(crate::specs::Bytes::bytes))]
pub fn put2(out: &mut [u8], i: usize, v: u32)
    ensures { out.new ≡ sets out.old i (bytes 2 v) }
{
    let [low, next, _, _] = v.to_le_bytes();
    put_at(out, i, [low, next]);
}

// The four bytes of v from place i on.
#[tactic(auto, unfolding(crate::specs::Bytes::bytes))]
pub fn put4(out: &mut [u8], i: usize, v: u32)
    ensures { out.new ≡ sets out.old i (bytes 4 v) }
{
    put_at(out, i, v.to_le_bytes());
}
