// Runs one call list in two ways, or two call lists, and reports in two columns: replay LIST, or replay LIST LIST.
#![tactic(auto)]

use crate::checks::{List, Names, open};
use crate::columns::{Column, Columns};
use crate::ends::ends;
use crate::memory::Memory;
use crate::page::{Page, fail};
use compare::turns::Verdict;
use std::env::FillError;
use std::fs::File;
use std::rt::{Env, Files};
use std::{io, str};

mod checks;
mod columns;
mod ends;
mod memory;
mod page;
mod pairs;
mod text;
mod wording;

const USAGE: &str = "usage: replay LIST [LIST]
Runs one call list plainly and as it is listed, or two call lists, and reports in two columns what was answered and what survives.
";

// The heads of the columns, for one list and for two.
const ONE_HEAD: &str =
    "Call                            | Plain heap                     | As listed";

const TWO_HEADS: &str =
    "Call                            | Build that wrote               | Build that loaded";

// The system's numbers for an argument that is not there, one that is too long, and one that is not UTF-8.
const NO_ARG: i32 = 22;

const TOO_LONG_NAME: i32 = 36;

const NO_TEXT: i32 = 84;

// Puts a line with a build's name: the first of two, or where that is empty the second.
fn name_line<R: Print + Eprint>(rt: &R, page: &mut Page, label: &str, name: &[u8], other: &[u8]) {
    let name = if name.is_empty() { other } else { name };
    let shown = if name.is_empty() { b"not named" } else { name };
    page.labelled(rt, label, shown);
}

// The names of the builds, and the heads of the columns.
fn heading<R: Print + Eprint>(rt: &R, page: &mut Page, one: bool, first: &Names, second: &Names) {
    let (a, b) = (first.wrote.bytes(), second.wrote.bytes());
    name_line(rt, page, "Build that wrote: ", a, b);
    let (a, b) = (first.loaded.bytes(), second.loaded.bytes());
    name_line(rt, page, "Build that loaded: ", b, a);
    page.line(rt, "");
    page.line(rt, if one { ONE_HEAD } else { TWO_HEADS });
}

// Runs two lists that were checked, the left one plainly if it is also the right one, and reports. The memory is made here, where it is
// used: a function clears its locals as it begins, and clears them once only where nothing comes before they are made.
fn report<R: Print + Eprint>(rt: &R, page: &mut Page, left: List, right: List, one: bool) {
    let mut left_memory = Memory::new();
    let mut right_memory = Memory::new();
    let mut columns = Columns {
        left: Column::new(left, one, &mut left_memory),
        right: Column::new(right, false, &mut right_memory),
        one,
        hands: [0; 8192],
        verdict: Verdict {
            left: None,
            right: None,
        },
    };
    columns.play(rt, page);
    ends(rt, page, &columns);
}

// Reports on the lists at `first` and `second`, or, if they are one, on that list run in two ways.
fn replay<R: Files<File = File> + Print + Eprint, W: Print>(
    rt: &R,
    err: &W,
    first: &str,
    second: &str,
    one: bool,
) {
    let mut first_names = Names::none();
    let Some(left) = open(rt, err, first, &mut first_names) else {
        return;
    };
    let mut second_names = Names::none();
    let Some(right) = open(rt, err, second, &mut second_names) else {
        return;
    };
    let mut page = Page::new();
    heading(rt, &mut page, one, &first_names, &second_names);
    report(rt, &mut page, left, right, one);
}

// Whether there is an argument i; 0 is the program's name.
fn has_arg<R: Env>(rt: &R, i: usize) -> bool {
    !matches!(rt.arg(i, &mut [0; 1]), Err(FillError::NotPresent))
}

// Argument i, which is put into the buffer. Where it does not fit or is not UTF-8, standard error is told, and the argument is called
// `what`.
fn arg<'a, R: Env + Eprint>(
    rt: &R,
    i: usize,
    what: &str,
    buf: &'a mut [u8; 4096],
) -> Option<&'a str> {
    let why = match rt.arg(i, buf) {
        Ok(n) => {
            let whole = &buf[..];
            if let Ok(path) = str::from_utf8(&whole[..n]) {
                return Some(path);
            }
            NO_TEXT
        }
        Err(FillError::TooLong) => TOO_LONG_NAME,
        Err(FillError::NotPresent) => NO_ARG,
    };
    fail(rt, what, io::Error::from_raw_os_error(why));
    None
}

fn main(rt: HostRuntime) {
    if !has_arg(&rt, 1) || has_arg(&rt, 3) {
        let _ = eprint!(rt; "{USAGE}");
        return;
    }
    let one = !has_arg(&rt, 2);
    let mut first = [0; 4096];
    let Some(left) = arg(&rt, 1, "first list", &mut first) else {
        return;
    };
    if left == "--help" {
        let _ = print!(rt; "{USAGE}");
        return;
    }
    let mut second = [0; 4096];
    let last = if one { 1 } else { 2 };
    let Some(right) = arg(&rt, last, "second list", &mut second) else {
        return;
    };
    replay(&rt, &rt.stderr(), left, right, one);
}
