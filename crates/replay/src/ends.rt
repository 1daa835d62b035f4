// What follows the rows of the calls: what survives, what changed hands, and the verdict.
use crate::columns::{Column, Columns};
use crate::page::Page;
use crate::wording::*;
use compare::hands::*;
use compare::survivors::*;
use layout::limits::{OBJECT_MAX, ROOT_MAX, slots_len};
use records::{is_sink, width_of};
use std::fmt;

// ---- what survives

// Object i + 1 of a column.
#[derive(Clone, Copy)]
struct ObjectCell<'a>(Survivors<'a>, u32);

impl<'a> fmt::Display for ObjectCell<'a> {
    fn fmt<W: fmt::Write>(&self, f: &mut fmt::Formatter<W>) -> fmt::Result {
        let ObjectCell(heap, i) = *self;
        let record = word_at(heap.records, i as usize);
        if record == 0 {
            return write!(f, "free");
        }
        let count = width_of(record);
        write!(f, "width {count}")?;
        if count != 0 {
            let slots = heap.slots;
            let from = slots_len(i);
            write!(f, ", {}", WordsText { slots, from, count })?;
        }
        if is_sink(record) {
            write!(f, ", sink")?;
        }
        Ok(())
    }
}

// Root j of a column.
#[derive(Clone, Copy)]
struct RootCell<'a>(Survivors<'a>, u32);

impl<'a> fmt::Display for RootCell<'a> {
    fn fmt<W: fmt::Write>(&self, f: &mut fmt::Formatter<W>) -> fmt::Result {
        let RootCell(heap, j) = *self;
        if j < heap.root_count {
            write!(f, "{}", WordText(word_at(heap.roots, j as usize)))
        } else {
            write!(f, "no root")
        }
    }
}

// The mark of a row whose columns differ.
fn mark_of(same: bool) -> &'static str {
    if same { "" } else { "* " }
}

// The row of object i + 1, unless it is free in both columns.
fn object_row<R: Print + Eprint>(
    rt: &R,
    page: &mut Page,
    i: u32,
    left: Survivors<'_>,
    right: Survivors<'_>,
) {
    let x = word_at(left.records, i as usize);
    let y = word_at(right.records, i as usize);
    if x == 0 && y == 0 {
        return;
    }
    let mark = mark_of(same_object(i, &left, &right));
    page.row(
        rt,
        format_args!("{mark}object {}", u64::from(i) + 1),
        ObjectCell(left, i),
        ObjectCell(right, i),
    );
}

// The row of root j, if one of the columns has it.
fn root_row<R: Print + Eprint>(
    rt: &R,
    page: &mut Page,
    j: u32,
    left: Survivors<'_>,
    right: Survivors<'_>,
) {
    if left.root_count <= j && right.root_count <= j {
        return;
    }
    let mark = mark_of(same_root(j, &left, &right));
    page.row(
        rt,
        format_args!("{mark}root {j}"),
        RootCell(left, j),
        RootCell(right, j),
    );
}

// Whether no object is in use.
fn is_empty(heap: Survivors<'_>) -> bool {
    heap.records.iter().all(|r| *r == 0)
}

// The objects and roots that survive.
fn survivors<R: Print + Eprint>(
    rt: &R,
    page: &mut Page,
    left: Survivors<'_>,
    right: Survivors<'_>,
) {
    page.line(rt, "\nSurvivors");
    if is_empty(left) && is_empty(right) {
        page.line(rt, "none");
    }
    for i in 0..OBJECT_MAX {
        object_row(rt, page, i, left, right);
    }
    for j in 0..ROOT_MAX {
        root_row(rt, page, j, left, right);
    }
}

// ---- what changed hands

// The name of a column, by whether one list is run in both.
fn column_name(one: bool, is_left: bool) -> &'static str {
    match (one, is_left) {
        (true, true) => "plain heap",
        (true, false) => "as listed",
        (false, true) => "build that wrote",
        (false, false) => "build that loaded",
    }
}

// The place that a word of an object that changed hands names.
#[derive(Clone, Copy)]
struct PlaceText(u64);

impl fmt::Display for PlaceText {
    fn fmt<W: fmt::Write>(&self, f: &mut fmt::Formatter<W>) -> fmt::Result {
        let place = self.0;
        if place < ROOT_PLACE as u64 {
            write!(f, "slot {} of object {}", place % 8, place / 8 + 1)
        } else {
            write!(f, "root {}", place - ROOT_PLACE as u64)
        }
    }
}

// Tells of object x of a column, if it changed hands, as its word says. Answers whether it did.
fn tell<R: Print + Eprint>(
    rt: &R,
    page: &mut Page,
    columns: &Columns,
    is_left: bool,
    x: u32,
) -> bool {
    let word = hand_of(&columns.hands, is_left, x);
    if word <= FREED {
        return false;
    }
    let line = word / 65536;
    let place = PlaceText(word % 65536);
    let here = column_name(columns.one, is_left);
    let there = column_name(columns.one, !is_left);
    page.line(
        rt,
        format_args!(
            "Object {x}: given again at line {line} ({here}), while {place} ({there}) still named it."
        ),
    );
    true
}

// What changed hands.
fn hands_part<R: Print + Eprint>(rt: &R, page: &mut Page, columns: &Columns) {
    page.line(rt, "\nObjects that changed hands");
    let mut any = false;
    for x in 1..=OBJECT_MAX {
        any |= tell(rt, page, columns, true, x);
        any |= tell(rt, page, columns, false, x);
    }
    if !any {
        page.line(rt, "none");
    }
}

// ---- the verdict

// Whether the same survives in both columns.
fn is_same(left: &Column, right: &Column) -> bool {
    let (l, r) = (left.survivors(), right.survivors());
    same_objects(&l, &r) && same_roots(&l, &r)
}

// The last line of a report.
#[derive(Clone, Copy)]
struct VerdictText<'a>(&'a Columns<'a>);

impl<'a> fmt::Display for VerdictText<'a> {
    fn fmt<W: fmt::Write>(&self, f: &mut fmt::Formatter<W>) -> fmt::Result {
        let columns = self.0;
        let verdict = columns.verdict;
        if !(columns.left.is_whole() && columns.right.is_whole()) {
            return write!(
                f,
                "A list was not read again as it was checked, so nothing is said."
            );
        }
        match (verdict.left, verdict.right) {
            (None, None) => {
                if is_same(&columns.left, &columns.right) {
                    write!(f, "The columns agree.")
                } else {
                    write!(f, "The columns differ in what survives.")
                }
            }
            (Some(i), None) => write!(
                f,
                "The columns differ: the build that wrote has more calls, from line {i} on."
            ),
            (None, Some(j)) => write!(
                f,
                "The columns differ: the build that loaded has more calls, from line {j} on."
            ),
            (Some(i), Some(j)) => {
                write!(f, "The columns differ first at line {i}")?;
                if columns.one {
                    return write!(f, ".");
                }
                write!(f, " (build that wrote) and line {j} (build that loaded).")
            }
        }
    }
}

// What follows the rows of the calls, to the last line.
pub(crate) fn ends<R: Print + Eprint>(rt: &R, page: &mut Page, columns: &Columns) {
    survivors(
        rt,
        page,
        columns.left.survivors(),
        columns.right.survivors(),
    );
    hands_part(rt, page, columns);
    page.line(rt, "");
    page.line(rt, VerdictText(columns));
    page.flush(rt);
}
