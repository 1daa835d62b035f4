// The record of an object, packed into a word: seven flags from bit 0 up (in use, written, sink, out, and three for the walks),
// the width from bit 8 and the cluster from bit 16.
#![tactic(auto)]

ghost use Rattle.std.specs.Prelude.{◌≡◌, ◌%◌};
ghost use Rattle.layout.specs.Field.{flag};
ghost use Rattle.records.specs.Record as R;

use layout::bits::with_bit;
use layout::limits::WIDTH_MAX;

// The flags of a walk, by their bits.
pub const MARKED: u32 = 4;

pub const POSTPONED: u32 = 5;

pub const REACHED: u32 = 6;

// ---- one bit

// Each flag has a reader and a writer below, one line each over `bit_at` and `with_bit`: at a call, `is_sink(r)` says more than a
// flag handed over beside the record, and the definitions name the flags in the same way.

// Whether bit p, modulo 32, is set.
fn bit_at(r: u32, p: u32) -> bool
    ensures { result ≡ flag (p % 32) r }
{
    (r >> (p % 32)) & 1 == 1
}

// ---- reading

pub fn in_use(r: u32) -> bool
    ensures { result ≡ R.in_use r }
{
    bit_at(r, 0)
}

pub fn is_written(r: u32) -> bool
    ensures { result ≡ R.is_written r }
{
    bit_at(r, 1)
}

pub fn is_sink(r: u32) -> bool
    ensures { result ≡ R.is_sink r }
{
    bit_at(r, 2)
}

pub fn is_out(r: u32) -> bool
    ensures { result ≡ R.is_out r }
{
    bit_at(r, 3)
}

pub fn is_marked(r: u32) -> bool
    ensures { result ≡ R.is_marked r }
{
    bit_at(r, MARKED)
}

pub fn is_reached(r: u32) -> bool
    ensures { result ≡ R.is_reached r }
{
    bit_at(r, REACHED)
}

pub fn width_of(r: u32) -> u32
    ensures { result ≡ R.width r }
{
    (r >> 8) & 0xF
}

pub fn cluster_of(r: u32) -> u32
    ensures { result ≡ R.cluster r }
{
    (r >> 16) & 0xFFF
}

// ---- setting: all other bits stay

pub fn with_use(r: u32, on: bool) -> u32
    ensures { result ≡ R.with_use on r }
{
    with_bit(r, 0, on)
}

pub fn with_written(r: u32, on: bool) -> u32
    ensures { result ≡ R.with_written on r }
{
    with_bit(r, 1, on)
}

pub fn with_sink(r: u32, on: bool) -> u32
    ensures { result ≡ R.with_sink on r }
{
    with_bit(r, 2, on)
}

pub fn with_out(r: u32, on: bool) -> u32
    ensures { result ≡ R.with_out on r }
{
    with_bit(r, 3, on)
}

pub fn with_marked(r: u32, on: bool) -> u32
    ensures { result ≡ R.with_marked on r }
{
    with_bit(r, MARKED, on)
}

pub fn with_postponed(r: u32, on: bool) -> u32
    ensures { result ≡ R.with_postponed on r }
{
    with_bit(r, POSTPONED, on)
}

pub fn with_reached(r: u32, on: bool) -> u32
    ensures { result ≡ R.with_reached on r }
{
    with_bit(r, REACHED, on)
}

// The width is taken modulo 16.
pub fn with_width(r: u32, w: u32) -> u32
    ensures { result ≡ R.with_width w r }
{
    (r & !0xF00) | ((w & 0xF) << 8)
}

// The cluster is taken modulo 4096.
pub fn with_cluster(r: u32, c: u32) -> u32
    ensures { result ≡ R.with_cluster c r }
{
    (r & !0xFFF_0000) | ((c & 0xFFF) << 16)
}

// A member after its cluster is dissolved.
pub fn loose(r: u32) -> u32
    ensures { result ≡ R.loose r }
{
    with_cluster(with_out(r, false), 0)
}

// The record of an object just given.
pub fn new_record(width: u32) -> u32
    ensures { result ≡ R.new_record width }
{
    with_width(with_use(0, true), width)
}

// ---- legality

// Whether r is a legal record in a heap of n objects. The mask has the flags of the walks and every bit without a name.
pub fn legal(n: u32, r: u32) -> bool
    ensures { result ≡ R.legal n r }
{
    let c = cluster_of(r);
    let flags = (r & 0xF000_F0F0 != 0) | !in_use(r);
    let past = (WIDTH_MAX < width_of(r)) | (n < c);
    if flags | past {
        return false;
    }
    // Most objects are neither, and no branch on the cluster number is taken for them.
    if !(is_sink(r) | is_out(r)) {
        return true;
    }
    if c == 0 { !is_out(r) } else { !is_sink(r) }
}
