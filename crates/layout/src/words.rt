// What a word of a slot or a root is.
ghost use Rattle.std.specs.Prelude.{◌≡◌};
ghost use Rattle.layout.specs.Word.{sort_of};

use crate::limits::OBJECT_MAX;

#[derive(Clone, Copy)]
pub enum Word {
    Nil,
    Object(u32),
    Immediate,
    Illegal,
}

// What word w is in a heap of n objects.
pub fn sort_word(n: u32, w: u32) -> Word
    ensures { result ≡ sort_of n w }
{
    match w {
        0 => Word::Nil,
        1..=OBJECT_MAX => {
            if w <= n {
                Word::Object(w)
            } else {
                Word::Illegal
            }
        }
        4096..=0x7FFF_FFFF => Word::Illegal,
        _ => Word::Immediate,
    }
}
