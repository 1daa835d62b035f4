// Numbers: decimal, hexadecimal after 0x or 0X, or `nil`; each below 2^32.
ghost use Rattle.std.specs.Prelude.{◌≡◌, ◌≤◌};
ghost use Rattle.lines.specs.Numeral.{digit_of, numeral_of, value_of};

use crate::kinds::Problem;

const BOUND: u64 = 0x1_0000_0000;

// The value of a digit to base 16, or 16: no base is above it, so one comparison refuses it with the digits that are too large.
#[tactic(auto, unfolding(crate::specs::Numeral::digit_of, crate::specs::Numeral::between))]
fn digit(b: u8) -> u64
    ensures { result ≡ digit_of b }
{
    match b {
        b'0'..=b'9' => u64::from(b - b'0'),
        b'a'..=b'f' => u64::from(b - b'a') + 10,
        b'A'..=b'F' => u64::from(b - b'A') + 10,
        _ => 16,
    }
}

// The number that the digits write.
#[tactic(auto, using(crate::proofs::NumeralLaws::numerals))]
fn numeral(digits: &[u8], base: u64) -> Result<u32, Problem>
    requires { (1 ≤ base) × (base ≤ 16) }
    ensures { result ≡ numeral_of base digits.now }
{
    if digits.is_empty() {
        return Err(Problem::NoNumber);
    }
    let mut v: u64 = 0;
    for b in digits {
        let d = digit(*b);
        if base <= d {
            return Err(Problem::NoNumber);
        }
        // Never above 2^32: a number that is too large stays so.
        v = (v * base + d).min(BOUND);
    }
    if v < BOUND {
        Ok(v as u32)
    } else {
        Err(Problem::LargeNumber)
    }
}

// The number that a word says.
#[tactic(auto, using(crate::proofs::NumeralLaws::short_no_hex), unfolding(crate::specs::Numeral::value_of, crate::specs::Numeral::is_hex))]
pub fn value(word: &[u8]) -> Result<u32, Problem>
    ensures { result ≡ value_of word.now }
{
    if word == b"nil".as_slice() {
        return Ok(0);
    }
    match word {
        [b'0', b'x' | b'X', digits @ ..] => numeral(digits, 16),
        _ => numeral(word, 10),
    }
}
