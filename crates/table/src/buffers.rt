// Words of a buffer that become 0; all others stay.
ghost use Rattle.std.specs.Prelude.{◌≡◌, ℕ, ◌+◌, ◌≤◌, refl, List, length};
ghost use Rattle.layout.specs.Limits.{width_max};
ghost use Rattle.rules.specs.Buffers.{each_from, zeros};
ghost use Rattle.table.specs.Cleared.{cleared};

// A word of a buffer: one of 32 bits, or a set of sinks, which has 64.
pub trait Word: Copy {
    ghost ZERO: { Self };

    const ZERO: Self;

    // The first k words of a list become 0.
    ghost zeros: { ℕ → List Self → List Self };

    // Each of them, and no other.
    ghost each_zero: { (k : ℕ) (l : List Self) → zeros k l ≡ each_from 0 k (λ i w. ZERO) l };
}

impl Word for u32 {
    ghost ZERO = { 0 };

    const ZERO: u32 = 0;

    ghost zeros = { zeros };

    ghost each_zero = { λ k l. unfold zeros in refl };
}

impl Word for u64 {
    ghost ZERO = { 0 };

    const ZERO: u64 = 0;

    ghost zeros = { zeros };

    ghost each_zero = { λ k l. unfold zeros in refl };
}

// The first k words become 0.
pub fn zero<T: Word>(words: &mut [T], k: usize)
    ensures { words.new ≡ T.zeros k words.old }
{
    let end = k.min(words.len());
    for w in &mut words[..end] {
        *w = T::ZERO;
    }
}

// The words from place `from` up to place `to` become 0, or up to the end where the slice is shorter.
pub fn clear(words: &mut [u32], from: usize, to: usize)
    ensures { words.new ≡ cleared from to words.old }
{
    if from < words.len() && from < to {
        zero(&mut words[from..], to - from);
    }
}

// Eight words that are all there become 0.
// The stores are written one by one because a loop would become a call of memset, which takes longer than they do.
fn store_eight(words: &mut [u32], at: usize)
    requires { at + width_max ≤ length words.old }
    ensures { words.new ≡ cleared at (at + width_max) words.old }
{
    words[at] = 0;
    words[at + 1] = 0;
    words[at + 2] = 0;
    words[at + 3] = 0;
    words[at + 4] = 0;
    words[at + 5] = 0;
    words[at + 6] = 0;
    words[at + 7] = 0;
}

// The eight words from place `at` on become 0, as far as they are there.
pub fn clear_eight(words: &mut [u32], at: usize)
    ensures { words.new ≡ cleared at (at + width_max) words.old }
{
    let end = words.len();
    if end < 8 || end - 8 < at {
        clear(words, at, end);
    } else {
        store_eight(words, at);
    }
}
