// What the first size limit is a share of.
ghost use Rattle.std.specs.Prelude.{◌≡◌, ◌≤◌, length};
ghost use Rattle.rules.specs.Analyse.{used_count};

use crate::memory::record_at;
use records::in_use;

// How many objects are in use.
pub(crate) fn used_count(n: u32, records: &[u32]) -> u32
    requires { (n ≤ length records.now) × (n ≤ 4095) }
    ensures { result ≡ used_count n records.now }
{
    let mut total: u32 = 0;
    for x in 1..n + 1 {
        total += u32::from(in_use(record_at(n, records, x)));
    }
    total
}
