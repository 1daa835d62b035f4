// One word for each object x: its record, and word base + x of the work words. What is asked of x, n and the lengths is about two of them at
// a time, and so a requirement, and no type's.
ghost use Rattle.std.specs.Prelude.{◌≡◌, ◌+◌, ◌≤◌, ◌<◌, length};
ghost use Rattle.rules.specs.Buffers.{rec_of};
ghost use Rattle.analyse.specs.Memory.{area};

// Not `record_of` of the table, which tests that x is an object: callers here know it.
pub(crate) fn record_at(n: u32, records: &[u32], x: u32) -> u32
    requires { (1 ≤ x) × (x ≤ n) × (n ≤ length records.now) }
    ensures { result ≡ rec_of n records.now x }
{
    records[x as usize - 1]
}

pub(crate) fn word_of(n: u32, work: &[u32], base: usize, x: u32) -> u32
    requires { (1 ≤ x) × (x ≤ n) × (base + n < length work.now) }
    ensures { result ≡ area n base work.now x }
{
    work[base + x as usize]
}
