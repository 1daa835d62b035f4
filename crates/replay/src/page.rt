// The page, which is written out when it is nearly full, and its rows: three cells side by side. A cell is broken at blanks into as many
// lines as it needs.
ghost use Rattle.std.specs.Prelude.{◌≤◌, ◌<◌, length};

use crate::text::Text;
use std::fmt::{Display, InlineText};
use std::io;

// The widths of the cells: that of a call, and those of two answers.
const CALL: usize = 31;

const ANSWER: usize = 30;

// Behind this place the page is written out. A line is shorter than what is left.
const FULL: usize = 49152;

// The text of an error without the number that the library puts behind the system's words.
fn words_of(said: &str) -> &str {
    match said.split_once(" (os error ") {
        Some((words, _)) => words,
        None => said,
    }
}

// Says on standard error what failed, and why in the system's words.
pub(crate) fn fail<R: Eprint>(rt: &R, what: &str, why: io::Error) {
    let said = InlineText::<256>::of(why);
    let words = words_of(said.as_str());
    let _ = eprintln!(rt; "{what}: {words}");
}

// The next line of a cell, and what is left of the cell. The line ends at the last blank that leaves it at most `width` bytes, and that
// blank is passed over, or after `width` bytes of a longer word.
fn line_of(cell: &[u8], width: usize) -> (&[u8], &[u8])
    ensures shorter { 0 < width → 0 < length cell.now → length result.1.now < length cell.now }
    ensures no_longer { length result.1.now ≤ length cell.now }
{
    if cell.len() <= width {
        return (cell, &[]);
    }
    let stop = match cell[1..width + 1].iter().rposition(|b| *b == b' ') {
        Some(i) => i + 1,
        None => width,
    };
    let (line, rest) = cell.split_at(stop);
    (line, rest.strip_prefix(b" ").unwrap_or(rest))
}

#[derive(Drop)]
pub(crate) struct Page {
    text: Text<65536>,
}

impl Page {
    pub(crate) fn new() -> Page {
        Page { text: Text::new() }
    }

    // Writes out what is on the page.
    pub(crate) fn flush<R: Print + Eprint>(&mut self, rt: &R) {
        if let Err(e) = rt.write_all(self.text.bytes()) {
            fail(rt, "write", e);
        }
        self.text.clear();
    }

    fn end_line<R: Print + Eprint>(&mut self, rt: &R) {
        self.text.put("\n");
        if FULL < self.text.bytes().len() {
            self.flush(rt);
        }
    }

    // Puts a line.
    pub(crate) fn line<R: Print + Eprint>(&mut self, rt: &R, line: impl Display + Drop) {
        self.text.put(line);
        self.end_line(rt);
    }

    // Puts a line of a label and a name, which need not be text.
    pub(crate) fn labelled<R: Print + Eprint>(&mut self, rt: &R, label: &str, name: &[u8]) {
        self.text.put(label);
        self.text.extend(name);
        self.end_line(rt);
    }

    // Puts a line of a cell, with blanks up to its width.
    fn padded(&mut self, line: &[u8], width: usize) {
        self.text.extend(line);
        for _ in line.len()..width {
            self.text.put(" ");
        }
    }

    // Puts a line of a row, of these lines of its cells.
    fn row_line<R: Print + Eprint>(&mut self, rt: &R, call: &[u8], left: &[u8], right: &[u8]) {
        self.padded(call, CALL);
        self.text.put(" | ");
        self.padded(left, ANSWER);
        self.text.put(if right.is_empty() { " |" } else { " | " });
        self.text.extend(right);
        self.end_line(rt);
    }

    // Puts the lines of a row of these cells.
    fn row_lines<R: Print + Eprint>(
        &mut self,
        rt: &R,
        mut call: &[u8],
        mut left: &[u8],
        mut right: &[u8],
    ) {
        // Not a `for`: each turn takes a line off what is left of the cells.
        while !(call.is_empty() && left.is_empty() && right.is_empty()) {
            let (a, after_a) = line_of(call, CALL);
            let (b, after_b) = line_of(left, ANSWER);
            let (c, after_c) = line_of(right, ANSWER);
            self.row_line(rt, a, b, c);
            call = after_a;
            left = after_b;
            right = after_c;
        }
    }

    // Puts a row. The longest calls are a pair of creates, in under 200 bytes, and the longest answer names 4,095 freed objects, in under
    // 24,000.
    pub(crate) fn row<R: Print + Eprint>(
        &mut self,
        rt: &R,
        call: impl Display + Drop,
        left: impl Display + Drop,
        right: impl Display + Drop,
    ) {
        let mut first = Text::<256>::new();
        let mut second = Text::<32768>::new();
        let mut third = Text::<32768>::new();
        first.put(call);
        second.put(left);
        third.put(right);
        self.row_lines(rt, first.bytes(), second.bytes(), third.bytes());
    }
}
