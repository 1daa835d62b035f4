// Two columns beside each other: the k-th call of one with the k-th of the other. Analyses have rows of their own.
use crate::columns::{Column, Columns};
use crate::page::Page;
use crate::wording::*;
use compare::answers::same_answers;
use compare::hands::*;
use compare::turns::*;
use std::fmt;

// ---- the row of a turn

// The calls of a turn, with one number or one call where they have it in common.
#[derive(Clone, Copy)]
struct CallCell<'a> {
    columns: &'a Columns<'a>,
    turn: Turn,
}

impl<'a> fmt::Display for CallCell<'a> {
    fn fmt<W: fmt::Write>(&self, f: &mut fmt::Formatter<W>) -> fmt::Result {
        let left = &self.columns.left;
        let right = &self.columns.right;
        let (i, j) = (left.source.number, right.source.number);
        if self.turn.mark {
            write!(f, "* ")?;
        }
        match (
            left.called(self.turn.has_left),
            right.called(self.turn.has_right),
        ) {
            (None, None) => Ok(()),
            (Some(x), None) => write!(f, "Line {i}, {}", CallText(x)),
            (None, Some(y)) => write!(f, "Line {j}, {}", CallText(y)),
            (Some(x), Some(y)) => {
                let same = x == y;
                if self.columns.one || (i == j && same) {
                    write!(f, "Line {j}, {}", CallText(y))
                } else if same {
                    write!(f, "Lines {i} and {j}, {}", CallText(y))
                } else {
                    write!(f, "Line {i}, {}; line {j}, {}", CallText(x), CallText(y))
                }
            }
        }
    }
}

// What stands in a column's cell: what it answered, or what is printed where it has no call in this turn.
#[derive(Clone, Copy)]
enum AnswerCell<'a> {
    Empty,
    LeftOut,
    NoCall,
    Answer(AnswerText<'a>),
}

impl<'a> fmt::Display for AnswerCell<'a> {
    fn fmt<W: fmt::Write>(&self, f: &mut fmt::Formatter<W>) -> fmt::Result {
        match self {
            AnswerCell::Empty => Ok(()),
            AnswerCell::LeftOut => write!(f, "left out"),
            AnswerCell::NoCall => write!(f, "no call"),
            AnswerCell::Answer(answer) => write!(f, "{answer}"),
        }
    }
}

// The cell of a column that is at this turn or not.
fn answer_cell<'a>(column: &'a Column, is_there: bool, mark: bool, one: bool) -> AnswerCell<'a> {
    match column.called(is_there) {
        Some(call) => AnswerCell::Answer(AnswerText {
            kind: call.kind,
            ran: column.ran,
            slots: &column.memory.slots,
            map: &column.memory.map,
        }),
        None if mark => AnswerCell::NoCall,
        None if one => AnswerCell::LeftOut,
        None => AnswerCell::Empty,
    }
}

// Whether a column that is at this turn or not has an answer to print.
fn is_told(column: &Column, is_there: bool) -> bool {
    match column.called(is_there) {
        Some(call) => has_answer(call.kind, column.ran),
        None => false,
    }
}

// Whether a turn has a row: a difference, or an answer to print.
fn has_row(left: &Column, right: &Column, t: Turn) -> bool {
    (t.mark && !is_over(t)) || is_told(left, t.has_left) || is_told(right, t.has_right)
}

// Puts the row of a turn, if it has one.
pub(crate) fn put_turn<R: Print + Eprint>(rt: &R, page: &mut Page, columns: &Columns, t: Turn) {
    let left = &columns.left;
    let right = &columns.right;
    let one = columns.one;
    if has_row(left, right, t) {
        page.row(
            rt,
            CallCell { columns, turn: t },
            answer_cell(left, t.has_left, t.mark, one),
            answer_cell(right, t.has_right, t.mark, one),
        );
    }
}

// ---- going on

// Notes what changed hands at the calls of this turn, and what they freed.
pub(crate) fn note_turn(hands: &mut [u64; 8192], left: &Column, right: &Column, t: Turn) {
    let i = left.source.number;
    let j = right.source.number;
    let x = given(t.has_left, left.call, left.ran);
    let y = given(t.has_right, right.call, right.ran);
    note_given(hands, true, x, y, i, &right.survivors());
    note_given(hands, false, y, x, j, &left.survivors());
    if did_collect(t.has_left, left.call, left.ran) {
        keep_freed(hands, true, &left.memory.map);
    }
    if did_collect(t.has_right, right.call, right.ran) {
        keep_freed(hands, false, &right.memory.map);
    }
}

// What comes next of two columns that both wait.
pub(crate) fn turn_of(left: &Column, right: &Column) -> Turn {
    let same = left.state != State::AtCall
        || right.state != State::AtCall
        || same_answers(&left.answered(), &right.answered());
    next_turn(left.state, right.state, same)
}
