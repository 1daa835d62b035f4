// A set of numbers as bits of words of 64 bits: word 0 has the numbers 0 to 63, the lowest in its lowest bit, and so on.
#![tactic(auto)]

ghost use Rattle.std.specs.Prelude.{◌≡◌, ◌-◌, length, take};
ghost use Rattle.std.specs.Int.Bits.{bit_and};
ghost use Rattle.std.specs.Int.Count.{count_trailing_zeros};
ghost use Rattle.bitmap.specs.Bits.{holds, put_bit, numbers_in, map_max};

// The words of the longest map.
const MAP_MAX: usize = 64;

// Whether number i is in the set.
pub fn has_bit(map: &[u64], i: usize) -> bool
    ensures { result ≡ holds i map.now }
{
    map.get(i / 64).is_some_and(|w| (*w >> (i % 64)) & 1 == 1)
}

// Number i goes into the set; a number past the end does not.
pub fn put_bit(map: &mut [u64], i: usize)
    ensures { map.new ≡ put_bit i map.old }
{
    let at = i / 64;
    // By index: no contract says what a slice's `get_mut` leaves in the slice.
    if at < map.len() {
        map[at] |= 1 << (i % 64);
    }
}

// How many numbers are in the set, of a map's first 64 words.
pub fn ones(map: &[u64]) -> u32
    ensures { result ≡ length (numbers_in 0 (take map_max map.now)) }
{
    let mut n = 0;
    // By index: that each word is counted is then a fact by itself.
    for i in 0..map.len().min(MAP_MAX) {
        n += map[i].count_ones();
    }
    n
}

// The place of the lowest set bit, 64 for a word that is 0.
pub fn lowest_bit(w: u64) -> u32
    ensures { result ≡ count_trailing_zeros 64 w }
{
    w.trailing_zeros()
}

// The word with its lowest set bit clear.
pub fn without_lowest(w: u64) -> u64
    ensures { result ≡ bit_and w (w - 1) }
{
    w & w.wrapping_sub(1)
}
