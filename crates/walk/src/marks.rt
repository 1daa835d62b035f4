// The flags of the walk, stored in the records.
ghost use Rattle.std.specs.Prelude.{◌≡◌, ◌-◌, ◌%◌, ◌≤◌, length, get_or, set};
ghost use Rattle.layout.specs.Field.{put_flag};

use layout::bits::with_bit;

// Bit k of the record of object x becomes on.
pub(crate) fn put_bit(records: &mut [u32], x: u32, k: u32, on: bool)
    requires { (1 ≤ x) × (x ≤ length records.old) }
    ensures { records.new ≡ set records.old (x - 1) (put_flag (k % 32) on (get_or records.old (x - 1) 0)) }
{
    let i = (x - 1) as usize;
    records[i] = with_bit(records[i], k, on);
}
