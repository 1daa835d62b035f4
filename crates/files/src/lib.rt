// A call list that is read line by line. No contract can say what a file holds: a function that reads says what holds whatever was read, and
// the others are given exactly.
#![tactic(auto)]

ghost use Rattle.std.specs.Prelude.{◌≡◌, ◌-◌, ◌+◌, ◌≤◌, length, drop, IfOk};
ghost use Rattle.std.proofs.Math.Seq.{paste};
ghost use Rattle.files.specs.Reading.{room, new_source, held, line_state, taken, looked, Found, Searched, call_at, end_problem};

use lines::kinds::{Call, Problem};
use lines::parse::parse;
use lines::words::line_end;
use std::io;
use std::io::Read;

// The bytes of a list that are at hand at a time.
pub const ROOM: usize = 65536;

// The most bytes of a line.
const LONGEST: usize = 4096;

// The state of a source: bytes are wanted, a line was found, the file is at its end, a line is too long, a read failed; or another number, which
// `next_line` never answers.
#[derive(Clone, Copy, PartialEq, Eq)]
pub enum State {
    More,
    Line,
    End,
    Long,
    Failed,
    Other(u32),
}

// A list. Of its input the bytes from `from` to `end` are still to be used; the line found has those from `start` to `stop`. `fd` is a number of the
// caller's own for the list, which stays (`Found.file`); the reader is handed over.
// The places stay beside the state, since the clauses speak of them in more than one.
#[derive(Clone, Copy)]
pub struct Source {
    pub fd: i32,
    pub from: usize,
    pub end: usize,
    pub number: u64,
    pub start: usize,
    pub stop: usize,
    pub state: State,
}

pub fn opened(fd: i32) -> Source
    ensures { result ≡ new_source fd }
{
    Source {
        fd,
        from: 0,
        end: 0,
        number: 0,
        start: 0,
        stop: 0,
        state: State::More,
    }
}

// The source with other bytes to use.
fn holding(s: Source, from: usize, end: usize, state: State) -> Source
    ensures { result ≡ held s from end state }
{
    Source {
        from,
        end,
        state,
        ..s
    }
}

// The state of a source whose line has `length` bytes.
#[tactic(auto, unfolding(crate::specs::Reading::line_state))]
fn line_state(length: usize) -> State
    ensures { result ≡ line_state length }
{
    if LONGEST < length {
        State::Long
    } else {
        State::Line
    }
}

// The source with a line from `from` to `stop`, and the next one from `next` on.
fn found(s: Source, stop: usize, next: usize) -> Source
    ensures { result ≡ taken s stop next }
{
    Source {
        from: next,
        number: s.number.wrapping_add(1),
        start: s.from,
        stop,
        state: line_state(stop.saturating_sub(s.from)),
        ..s
    }
}

// Looks for a whole line among the bytes at hand.
#[tactic(auto, using(crate::proofs::ReadingLaws::held_found), unfolding(crate::specs::Reading::looked))]
fn look(s: Source, input: &[u8; ROOM]) -> Source
    ensures value { result ≡ looked s input.now }
    ensures found { Found s result }
{
    let from = s.from;
    let end = s.end;
    if ROOM < end {
        return holding(s, from, end, State::Failed);
    }
    let stop = line_end(&input[..end], from);
    if stop < end {
        return found(s, stop, stop + 1);
    }
    if LONGEST < end.saturating_sub(from) {
        return found(s, end, end);
    }
    holding(s, from, end, State::More)
}

// Moves the bytes from `from` to `end` to the front, and answers how many they are.
fn to_front(input: &mut [u8], from: usize, end: usize) -> usize
    requires { end ≤ length input.old }
    ensures value { result ≡ end - from }
    ensures input_after { input.new ≡ paste input.old 0 (drop from input.old) (end - from) }
{
    if from < end {
        input.copy_within(from..end, 0);
    }
    end.saturating_sub(from)
}

// Reads once into the bytes from `kept` on.
fn read_on<R: Read>(reader: &mut R, input: &mut [u8], kept: usize) -> io::Result<usize>
    requires { kept ≤ length input.old }
    ensures { IfOk result (λ n. kept + n ≤ length input.new) }
{
    reader.read(&mut input[kept..])
}

// Moves the bytes at hand to the front, reads on, and looks again.
#[tactic(auto, using(crate::proofs::ReadingLaws::fills))]
fn fill<R: Read>(s: Source, reader: &mut R, input: &mut [u8; ROOM]) -> Source
    requires { s.end ≤ room }
    ensures { Found s result }
{
    let kept = to_front(input, s.from, s.end);
    match read_on(reader, input, kept) {
        Err(_) => holding(s, 0, kept, State::Failed),
        Ok(0) => {
            if kept == 0 {
                return holding(s, 0, 0, State::End);
            }
            found(holding(s, 0, kept, State::More), kept, kept)
        }
        Ok(more) => look(holding(s, 0, kept + more, State::More), input),
    }
}

// The next line.
pub fn next_line<R: Read>(s: Source, reader: &mut R, input: &mut [u8; ROOM]) -> Source
    ensures found { Found s result }
    ensures searched { Searched s input.old result input.new }
{
    let mut t = look(s, input);
    for _ in 0..ROOM {
        if t.state != State::More {
            return t;
        }
        t = fill(t, reader, input);
    }
    t
}

// The call that the line found makes; none where its places are out of order.
#[tactic(auto, unfolding(crate::specs::Reading::call_at))]
pub fn call_of(s: Source, input: &[u8; ROOM]) -> Result<Option<Call>, Problem>
    ensures { result ≡ call_at s input.now }
{
    match input.get(s.start..s.stop) {
        Some(line) => parse(line),
        None => Ok(None),
    }
}

// What is wrong where no line was found, with an earlier create or without one.
#[tactic(auto, unfolding(crate::specs::Reading::end_problem))]
pub fn end_problem(state: State, created: bool) -> Option<Problem>
    ensures { result ≡ end_problem state created }
{
    match (state, created) {
        (State::Long, _) => Some(Problem::TooLong),
        (State::Failed, _) => Some(Problem::Unreadable),
        (_, true) => None,
        (_, false) => Some(Problem::NeverCreated),
    }
}
