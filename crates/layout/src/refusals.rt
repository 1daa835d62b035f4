// The refusals and their numbers, and the tests of the control record.
ghost use Rattle.std.specs.Prelude.{◌≡◌, Some};
ghost use Rattle.layout.specs.Refusal.{number, refusal_of, Numbered};
ghost use Rattle.layout.specs.Told.{told};
ghost use Rattle.layout.specs.ControlRecord.{bad_sizes, bad_tuning, bad_limit, bad_control};

use crate::answers::{Control, Tuning};
use crate::limits::{LEAST_MAX, LIMIT_MAX, OBJECT_MAX, OUTS_MAX, ROOT_MAX, within};
use std::fmt;

// Why a call is refused. C is given the numbers; 0 is for an accepted call.
#[derive(Clone, Copy, PartialEq, Eq)]
pub enum Refusal {
    // Of a call's arguments.
    BadSizes = 1,
    TooShort = 2,
    TooWide = 3,
    NoObject = 4,
    NoSlot = 5,
    BadWord = 6,
    NoRoot = 7,
    // Of the heap that was handed in.
    BadControl = 20,
    Damaged = 21,
    IsFree = 22,
    NamesNone = 23,
    Full = 24,
    LossFull = 25,
    // Of an image.
    ImageCut = 26,
    BadImage = 27,
    UnknownKind = 28,
    // Of a new sink: all places of the list are taken.
    SinksFull = 29,
    // Of the numbers that an analysis is to go by.
    BadTuning = 30,
}

impl From<Refusal> for u32 {
    ghost from_gives = { λ e k. k ≡ number e };

    fn from(e: Refusal) -> u32 {
        e as u32
    }
}

impl fmt::Display for Refusal {
    ghost output = { λ e. Some (told e) };

    fn fmt<W: fmt::Write>(&self, f: &mut fmt::Formatter<W>) -> fmt::Result {
        f.write_str(match self {
            Refusal::BadSizes => "sizes out of range",
            Refusal::TooShort => "a buffer is too short",
            Refusal::TooWide => "width above 8",
            Refusal::NoObject => "no such object",
            Refusal::NoSlot => "no such slot",
            Refusal::BadWord => "illegal word",
            Refusal::NoRoot => "no such root",
            Refusal::BadControl => "control record out of order",
            Refusal::Damaged => "the heap is damaged",
            Refusal::IsFree => "the object is free",
            Refusal::NamesNone => "the word names a free object",
            Refusal::Full => "no object is free",
            Refusal::LossFull => "the write loss is too large",
            Refusal::ImageCut => "the image is cut",
            Refusal::BadImage => "the image is not a heap",
            Refusal::UnknownKind => "a chunk of unknown kind",
            Refusal::SinksFull => "64 sinks are listed",
            Refusal::BadTuning => "an analysis number is out of range",
        })
    }
}

// The number that C is given: that of the refusal, 0 where the tests pass.
pub fn refusal_of(tests: Result<(), Refusal>) -> u32
    ensures { result ≡ refusal_of tests }
{
    match tests {
        Ok(()) => 0,
        Err(e) => u32::from(e),
    }
}

// A number that no refusal has.
#[derive(Clone, Copy, PartialEq, Eq)]
pub struct NoRefusal(pub u32);

impl TryFrom<u32> for Refusal {
    type Error = NoRefusal;

    ghost try_from_gives = { Numbered };

    fn try_from(k: u32) -> Result<Refusal, NoRefusal> {
        match k {
            1 => Ok(Refusal::BadSizes),
            2 => Ok(Refusal::TooShort),
            3 => Ok(Refusal::TooWide),
            4 => Ok(Refusal::NoObject),
            5 => Ok(Refusal::NoSlot),
            6 => Ok(Refusal::BadWord),
            7 => Ok(Refusal::NoRoot),
            20 => Ok(Refusal::BadControl),
            21 => Ok(Refusal::Damaged),
            22 => Ok(Refusal::IsFree),
            23 => Ok(Refusal::NamesNone),
            24 => Ok(Refusal::Full),
            25 => Ok(Refusal::LossFull),
            26 => Ok(Refusal::ImageCut),
            27 => Ok(Refusal::BadImage),
            28 => Ok(Refusal::UnknownKind),
            29 => Ok(Refusal::SinksFull),
            30 => Ok(Refusal::BadTuning),
            _ => Err(NoRefusal(k)),
        }
    }
}

// Whether n or r is outside its range.
#[tactic(auto, unfolding(crate::specs::ControlRecord::bad_sizes))]
pub fn bad_sizes(n: u32, r: u32) -> bool
    ensures { result ≡ bad_sizes n r }
{
    !within(1, OBJECT_MAX, n) || !within(1, ROOT_MAX, r)
}

// Whether one of the three numbers is outside its range. Its tests are joined as those of `bad_control` are.
#[tactic(auto, unfolding(crate::specs::ControlRecord::bad_tuning))]
pub fn bad_tuning(t: Tuning) -> bool
    ensures { result ≡ bad_tuning t }
{
    !within(1, LEAST_MAX, t.least_members)
        | (OUTS_MAX < t.outs_per_ten)
        | !within(1, LIMIT_MAX, t.lowest_limit)
}

// Whether the size limit is neither 0 nor in its range, from the lowest on.
fn bad_limit(lowest: u32, limit: u32) -> bool
    ensures { result ≡ bad_limit lowest limit }
{
    (LIMIT_MAX < limit) | ((limit != 0) & (limit < lowest))
}

// Whether the control record is refused. The tests are joined by `|`, of which the compiler makes one branch each, in two steps: with
// all of them in one it makes numbers of some (docs/BENCHMARK.md, "Read").
pub fn bad_control(c: Control) -> bool
    ensures { result ≡ bad_control c }
{
    let t = c.tuning;
    if bad_limit(t.lowest_limit, c.limit) | bad_tuning(t) {
        return true;
    }
    bad_sizes(c.n, c.r) | (c.n < c.last) | (c.n < c.write_loss) | (c.n < c.out_loss)
}
