// The call that a line makes, and what may be wrong with a line.
ghost use Rattle.std.specs.Prelude.{◌≡◌, Some};
ghost use Rattle.lines.specs.Kinds.{kind_number, with_number, problem_of};
ghost use Rattle.lines.specs.Told.{name, told};

use std::fmt;

// The most numbers of a call.
pub const MOST: usize = 5;

// For each kind of line the first word, and how many numbers belong to it: a text, as in the definition of the table.
pub const TABLE: [u8; 106] =
    *b"wrote 0 loaded 0 create 2 allocate 1 read 2 show 1 write 3 root 2 sink 1 analyse 0 collect 1 save 0 load 0";

// The numbers of a create that names those of the analysis behind its sizes.
pub const TUNED: u32 = 5;

// The kinds of line, in the order of TABLE. `Other` has a number of no row, which no line makes: what is lent a kind answers for each number,
// as it does for a kind that a caller makes.
#[derive(Clone, Copy, PartialEq, Eq)]
pub enum Kind {
    Wrote,
    Loaded,
    Create,
    Allocate,
    Read,
    Show,
    Write,
    Root,
    Sink,
    Analyse,
    Collect,
    Save,
    Load,
    Other(usize),
}

// The number of a kind: that of its row in TABLE, from 1 on.
impl From<Kind> for usize {
    ghost from_gives = { λ k n. n ≡ kind_number k };

    fn from(kind: Kind) -> usize {
        match kind {
            Kind::Wrote => 1,
            Kind::Loaded => 2,
            Kind::Create => 3,
            Kind::Allocate => 4,
            Kind::Read => 5,
            Kind::Show => 6,
            Kind::Write => 7,
            Kind::Root => 8,
            Kind::Sink => 9,
            Kind::Analyse => 10,
            Kind::Collect => 11,
            Kind::Save => 12,
            Kind::Load => 13,
            Kind::Other(n) => n,
        }
    }
}

impl fmt::Display for Kind {
    ghost output = { λ k. Some (name k) };

    fn fmt<W: fmt::Write>(&self, f: &mut fmt::Formatter<W>) -> fmt::Result {
        f.write_str(match self {
            Kind::Wrote => "wrote",
            Kind::Loaded => "loaded",
            Kind::Create => "create",
            Kind::Allocate => "allocate",
            Kind::Read => "read",
            Kind::Show => "show",
            Kind::Write => "write",
            Kind::Root => "root",
            Kind::Sink => "sink",
            Kind::Analyse => "analyse",
            Kind::Collect => "collect",
            Kind::Save => "save",
            Kind::Load => "load",
            Kind::Other(_) => "",
        })
    }
}

// The kinds in the order of TABLE.
pub const KINDS: [Kind; 13] = [
    Kind::Wrote,
    Kind::Loaded,
    Kind::Create,
    Kind::Allocate,
    Kind::Read,
    Kind::Show,
    Kind::Write,
    Kind::Root,
    Kind::Sink,
    Kind::Analyse,
    Kind::Collect,
    Kind::Save,
    Kind::Load,
];

// An array with its count, since a call is copied and nothing allocates: only the first `count` numbers are used, and the others are 0. `collect` has one: 0 for `plain`, 1 for `clusters`. `create` has its two
// sizes, or TUNED numbers.
#[derive(Clone, Copy, PartialEq, Eq)]
pub struct Call {
    pub kind: Kind,
    pub count: u32,
    pub numbers: [u32; MOST],
}

// What is wrong with a list.
#[derive(Clone, Copy, PartialEq, Eq)]
pub enum Problem {
    // A line that should have had: the name of a call, a number, one below 2^32, no further word, `plain` or `clusters`, a name.
    NoCall,
    NoNumber,
    LargeNumber,
    NoEnd,
    NoWay,
    NoName,
    // A call before create.
    NoCreate,
    SecondCreate,
    // A list without a create.
    NeverCreated,
    // A line that is too long.
    TooLong,
    // A list that could not be read.
    Unreadable,
    // A number of none of these, which no line has.
    Other(u32),
}

impl fmt::Display for Problem {
    ghost output = { λ e. Some (told e) };

    fn fmt<W: fmt::Write>(&self, f: &mut fmt::Formatter<W>) -> fmt::Result {
        f.write_str(match self {
            Problem::NoCall => "expected the name of a call",
            Problem::NoNumber => "expected a number",
            Problem::LargeNumber => "expected a number below 4294967296",
            Problem::NoEnd => "expected the end of the line",
            Problem::NoWay => "expected plain or clusters",
            Problem::NoName => "expected a name",
            Problem::NoCreate => "expected create, which is the first call of a list",
            Problem::SecondCreate => "a second create, and a list has one",
            Problem::NeverCreated => "expected create, and the list has no call",
            Problem::TooLong => "the line is longer than 4096 bytes",
            Problem::Unreadable => "the list could not be read",
            Problem::Other(_) => "",
        })
    }
}

// The call with v as its k-th number.
#[tactic(auto, unfolding(crate::specs::Kinds::with_number))]
pub fn with_number(call: Call, k: usize, v: u32) -> Call
    ensures { result ≡ with_number k v call }
{
    let mut c = call;
    // By index: no contract says what `get_mut` leaves in an array.
    if k < MOST {
        c.numbers[k] = v;
    }
    c
}

// What is wrong with a line, after an earlier create or before one.
#[tactic(auto, unfolding(crate::specs::Kinds::problem_of, crate::specs::Kinds::call_problem))]
pub fn problem_of(line: Result<Option<Call>, Problem>, created: bool) -> Option<Problem>
    ensures { result ≡ problem_of line created }
{
    match line {
        Err(problem) => Some(problem),
        Ok(None) => None,
        Ok(Some(call)) => match (call.kind, created) {
            (Kind::Wrote | Kind::Loaded, _) => None,
            (Kind::Create, true) => Some(Problem::SecondCreate),
            (Kind::Create, false) | (_, true) => None,
            (_, false) => Some(Problem::NoCreate),
        },
    }
}
