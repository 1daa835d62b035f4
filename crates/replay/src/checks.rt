// The first reading of the lists: their lines are checked, and the names of the builds are kept.
use crate::page::fail;
use crate::text::Text;
use files::{ROOM, Source, State, call_of, end_problem, next_line, opened};
use lines::kinds::{Kind, Problem, problem_of};
use lines::words::next_word;
use std::fmt::Display;
use std::fs::File;
use std::io;
use std::io::{Read, Seek};
use std::rt::Files;

// A list that was opened: its file, what failed last as it was read (error 0, success, while nothing did), and the number of the last line
// that was checked.
#[derive(Drop)]
pub(crate) struct List {
    file: File,
    pub why: io::Error,
    pub last: u64,
}

impl Read for List {
    fn read(&mut self, buf: &mut [u8]) -> io::Result<usize> {
        let got = self.file.read(buf);
        if let Err(e) = got {
            self.why = e;
        }
        got
    }
}

// The names of the builds that wrote and that loaded, each from the first line of a list that has it, and else empty. A line has at most
// 4,096 bytes.
#[derive(Drop)]
pub(crate) struct Names {
    pub wrote: Text<4096>,
    pub loaded: Text<4096>,
}

impl Names {
    pub(crate) fn none() -> Names {
        Names {
            wrote: Text::new(),
            loaded: Text::new(),
        }
    }
}

// Why a list is not run: it cannot be read, this is wrong with a line of it, or this is wrong with it as a whole.
#[derive(Clone, Copy)]
enum Wrong {
    Unreadable(io::Error),
    Line(u64, Problem),
    Whole(Problem),
}

impl From<io::Error> for Wrong {
    fn from(why: io::Error) -> Wrong {
        Wrong::Unreadable(why)
    }
}

// Writes a line to standard error at once, however long the path in it is, so that nothing of another program stands inside it.
fn tell<R: Eprint, W: Print>(rt: &R, err: &W, line: impl Display + Drop) {
    let mut text = Text::<8192>::new();
    text.put(line);
    if let Err(why) = err.write_all(text.bytes()) {
        fail(rt, "write", why);
    }
}

// Says on standard error why the list at path is not run.
fn complain<R: Eprint, W: Print>(rt: &R, err: &W, path: &str, wrong: Wrong) {
    match wrong {
        Wrong::Unreadable(why) => fail(rt, path, why),
        Wrong::Line(number, problem) => {
            tell(rt, err, format_args!("{path}, line {number}: {problem}\n"));
        }
        Wrong::Whole(problem) => tell(rt, err, format_args!("{path}: {problem}\n")),
    }
}

// Keeps the second word of the line found, where no name is kept yet.
fn keep_name(name: &mut Text<4096>, s: Source, input: &[u8; ROOM]) {
    if name.is_empty() {
        let line = input.get(s.start..s.stop).unwrap_or(&[]);
        let first = next_word(line, 0);
        let second = next_word(line, first.end);
        name.extend(line.get(second.start..second.end).unwrap_or(&[]));
    }
}

// Checks the list to its end or to its first problem.
fn check_lines(list: &mut List, names: &mut Names) -> Result<(), Wrong> {
    let mut input = [0; ROOM];
    let mut source = opened(0);
    let mut created = false;
    // Counted, since nothing says how many lines a file has.
    for _ in 0..u64::MAX {
        source = next_line(source, list, &mut input);
        if source.state != State::Line {
            break;
        }
        let line = call_of(source, &input);
        if let Some(problem) = problem_of(line, created) {
            return Err(Wrong::Line(source.number, problem));
        }
        let Ok(Some(call)) = line else {
            continue;
        };
        match call.kind {
            Kind::Create => created = true,
            Kind::Wrote => keep_name(&mut names.wrote, source, &input),
            Kind::Loaded => keep_name(&mut names.loaded, source, &input),
            _ => {}
        }
    }
    list.last = source.number;
    match end_problem(source.state, created) {
        None => Ok(()),
        Some(Problem::Unreadable) => Err(Wrong::Unreadable(list.why)),
        Some(Problem::NeverCreated) => Err(Wrong::Whole(Problem::NeverCreated)),
        Some(problem) => Err(Wrong::Line(source.number, problem)),
    }
}

// Opens the list at path, checks it, and sets it back to its first line. A pipe cannot be set back, and is refused at once.
fn checked<R: Files<File = File>>(rt: &R, path: &str, names: &mut Names) -> Result<List, Wrong> {
    let mut list = List {
        file: File::open(rt, path)?,
        why: io::Error::from_raw_os_error(0),
        last: 0,
    };
    list.file.rewind()?;
    check_lines(&mut list, names)?;
    // If this fails, the list is not read again to its last line, which the report says.
    let _ = list.file.rewind();
    Ok(list)
}

// The list at path, ready to be run. Where it cannot be, standard error is told why.
pub(crate) fn open<R: Files<File = File> + Eprint, W: Print>(
    rt: &R,
    err: &W,
    path: &str,
    names: &mut Names,
) -> Option<List> {
    match checked(rt, path, names) {
        Ok(list) => Some(list),
        Err(wrong) => {
            complain(rt, err, path, wrong);
            None
        }
    }
}
