// What an image has at a place. The part is lent to the reader, so that its length is known and no test is left.
ghost use Rattle.std.specs.Prelude.{◌≡◌, ◌+◌, ◌<◌, ◌≤◌, length, get_or};
ghost use Rattle.endian.specs.Bytes.{number_at};

use endian::{byte_at, get2, get4};

// The word in the four bytes from a place on.
pub(crate) fn word_at(body: &[u8], at: usize) -> u32
    requires { at + 4 ≤ length body.now }
    ensures { result ≡ number_at 4 at body.now }
{
    let e = at + 4;
    get4(&body[at..e], 0)
}

// The number of the object whose four bytes before its words are at a place.
pub(crate) fn number_at(body: &[u8], at: usize) -> u32
    requires { at + 4 ≤ length body.now }
    ensures { result ≡ number_at 2 at body.now }
{
    let e = at + 4;
    get2(&body[at..e], 0)
}

// Byte k of these four.
pub(crate) fn head_byte(body: &[u8], at: usize, k: usize) -> u32
    requires { (at + 4 ≤ length body.now) × (k < 4) }
    ensures { result ≡ get_or body.now (at + k) 0 }
{
    let e = at + 4;
    byte_at(&body[at..e], k)
}
