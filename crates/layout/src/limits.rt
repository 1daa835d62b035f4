// The numbers that sizes are held to, and the lengths of the lent slices.
ghost use Rattle.std.specs.Prelude.{◌≡◌};
ghost use Rattle.layout.specs.Limits.{slots_len, work_len, map_len, within as inside};

pub const OBJECT_MAX: u32 = 4095;

pub const ROOT_MAX: u32 = 64;

pub const WIDTH_MAX: u32 = 8;

pub const SINK_MAX: u32 = 64;

pub const LEAST_MAX: u32 = 4095;

pub const OUTS_MAX: u32 = 80;

pub const LIMIT_MAX: u32 = 4095;

#[tactic(auto, unfolding(crate::specs::Limits::slots_len))]
pub fn slots_len(n: u32) -> usize
    ensures { result ≡ slots_len n }
{
    (WIDTH_MAX as usize) * (n as usize)
}

#[tactic(auto, unfolding(crate::specs::Limits::work_len))]
pub fn work_len(n: u32) -> usize
    ensures { result ≡ work_len n }
{
    10 * (n as usize) + ROOT_MAX as usize
}

#[tactic(auto, unfolding(crate::specs::Limits::map_len))]
pub fn map_len(n: u32) -> usize
    ensures { result ≡ map_len n }
{
    n as usize / 64 + 1
}

// Whether a ≤ x ≤ b.
#[tactic(auto, unfolding(crate::specs::Limits::within))]
pub fn within(a: u32, b: u32, x: u32) -> bool
    ensures { result ≡ inside a b x }
{
    (a..=b).contains(&x)
}
