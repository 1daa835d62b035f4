// One bit of a word.
ghost use Rattle.std.specs.Prelude.{◌≡◌, ◌%◌};
ghost use Rattle.layout.specs.Field.{put_flag};

// w with bit p, modulo 32, set or clear: `on` is the bit, here and in what is made of this.
pub fn with_bit(w: u32, p: u32, on: bool) -> u32
    ensures { result ≡ put_flag (p % 32) on w }
{
    let bit: u32 = 1 << (p % 32);
    if on { w | bit } else { w & !bit }
}
