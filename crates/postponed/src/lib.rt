// The set of postponed objects in a collection's work words from 9 n on: a bit for each number, 32 to a word; and after these words the summary,
// a bit for each of them that is not 0.
#![tactic(auto)]

ghost use Rattle.std.specs.Prelude.{◌≡◌, ◌%◌, get_or, set};
ghost use Rattle.layout.specs.Field.{put_flag};
ghost use Rattle.postponed.specs.Postponed as P;

use layout::bits::with_bit;

// The words that a summary of 4,095 numbers has.
const SUMMARY_MAX: usize = 4;

// A bit of the word at a place, which is answered; past the end nothing changes, and the word is 0.
fn put_bit(work: &mut [u32], at: usize, i: usize, on: bool) -> u32
    ensures value { result ≡ get_or work.new at 0 }
    ensures work_after { work.new ≡ set work.old at (put_flag (i % 32) on (get_or work.old at 0)) }
{
    let Some(old) = work.get(at) else { return 0 };
    let w = with_bit(*old, (i % 32) as u32, on);
    // By index: no contract says what a slice's `get_mut` leaves in the slice.
    work[at] = w;
    w
}

// The word at a place, 0 past the end. `compare` has the same line, and stands on other crates.
fn word_at(work: &[u32], at: usize) -> u32
    ensures { result ≡ get_or work.now at 0 }
{
    work.get(at).copied().unwrap_or(0)
}

// Object x of 1 to n is put into the set or taken out.
pub fn put(n: u32, work: &mut [u32], x: u32, on: bool)
    ensures { work.new ≡ P.put n x on work.old }
{
    let m = n as usize;
    let i = x as usize;
    let j = i / 32;
    let w = put_bit(work, 9 * m + j, i, on);
    put_bit(work, 9 * m + (m / 32 + 1) + j / 32, j, w != 0);
}

// The lowest number of the set. 0 for none, as in all work words: no object has it, and an `Option` would be made by one more test.
pub fn lowest(n: u32, work: &[u32]) -> u32
    ensures { result ≡ P.lowest n work.now }
{
    let m = n as usize;
    let base = 9 * m + (m / 32 + 1);
    for k in 0..SUMMARY_MAX {
        let w = word_at(work, base + k);
        if w != 0 {
            let j = 32 * k + w.trailing_zeros() as usize;
            return 32 * j as u32 + word_at(work, 9 * m + j).trailing_zeros();
        }
    }
    0
}
