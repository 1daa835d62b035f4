// Two lists that are run side by side, line by line, each on buffers of its own.
use crate::checks::List;
use crate::memory::Memory;
use crate::page::{Page, fail};
use crate::pairs::{note_turn, put_turn, turn_of};
use calls::{Ran, answer, as_run, run};
use compare::answers::Answered;
use compare::survivors::Survivors;
use compare::turns::{State, Verdict, is_over, noted, state_after};
use files::{Source, call_of, next_line, opened};
use layout::control::no_control;
use lines::kinds::Call;

// A list that is run, plainly or as it says: the call run last, and what it answered.
#[derive(Drop)]
pub(crate) struct Column<'a> {
    list: List,
    pub source: Source,
    plain: bool,
    pub call: Option<Call>,
    pub ran: Ran,
    pub state: State,
    pub memory: &'a mut Memory,
}

impl<'a> Column<'a> {
    // The column before the first line of its list.
    pub(crate) fn new(list: List, plain: bool, memory: &'a mut Memory) -> Column<'a> {
        Column {
            list,
            source: opened(0),
            plain,
            call: None,
            ran: answer(0, 0, 0, 0, no_control(), 0),
            state: State::Reading,
            memory,
        }
    }

    // Goes on to the next line, and runs its call.
    fn next<R: Eprint>(&mut self, rt: &R) {
        let memory = &mut *self.memory;
        let source = next_line(self.source, &mut self.list, &mut memory.input);
        match source.state {
            files::State::Line => {
                let call = call_of(source, &memory.input).unwrap_or(None);
                self.source = source;
                self.run(as_run(call, self.plain));
            }
            files::State::Failed => {
                fail(rt, "read", self.list.why);
                self.state = State::Done;
            }
            _ => self.state = State::Done,
        }
    }

    // Whether the list was read to the last line that was checked.
    pub(crate) fn is_whole(&self) -> bool {
        self.source.number == self.list.last
    }

    pub(crate) fn roots(&self) -> u32 {
        self.ran.control.r
    }

    // What the call run last answered, as it is compared.
    pub(crate) fn answered(&self) -> Answered<'_> {
        Answered {
            call: self.call,
            ran: self.ran,
            slots: &self.memory.slots,
            map: &self.memory.map,
        }
    }

    // What is in the heap, as it is compared.
    pub(crate) fn survivors(&self) -> Survivors<'_> {
        Survivors {
            records: &self.memory.records,
            slots: &self.memory.slots,
            roots: &self.memory.roots,
            root_count: self.roots(),
        }
    }

    // The call run last, where the column is at it in a turn.
    pub(crate) fn called(&self, is_there: bool) -> Option<Call> {
        if is_there { self.call } else { None }
    }

    fn run(&mut self, call: Option<Call>) {
        let memory = &mut *self.memory;
        self.ran = run(
            call,
            self.ran.control,
            self.ran.saved,
            &mut memory.records,
            &mut memory.slots,
            &mut memory.roots,
            &mut memory.sinks,
            &mut memory.sets,
            &mut memory.work,
            &mut memory.map,
            &mut memory.image,
        );
        self.call = call;
        self.state = state_after(call);
    }
}

// The two columns, whether one list is run in both, the words of the objects that change hands, and the first difference.
#[derive(Drop)]
pub(crate) struct Columns<'a> {
    pub left: Column<'a>,
    pub right: Column<'a>,
    pub one: bool,
    pub hands: [u64; 8192],
    pub verdict: Verdict,
}

impl<'a> Columns<'a> {
    // Runs both lists to their ends: a line of a column that is on its way to its next call, or else the next turn of both.
    pub(crate) fn play<R: Print + Eprint>(&mut self, rt: &R, page: &mut Page) {
        // Counted, since nothing says how many lines a file has, and down, not by a `for`: that the turns end is then a fact by itself.
        let mut turns = u64::MAX;
        while 0 < turns {
            if self.left.state == State::Reading {
                self.left.next(rt);
            } else if self.right.state == State::Reading {
                self.right.next(rt);
            } else if self.turn(rt, page) {
                break;
            }
            turns -= 1;
        }
    }

    // The next turn of two columns that both wait: its row, what changed hands at it, and the first difference. Answers whether both lists
    // are at their ends.
    fn turn<R: Print + Eprint>(&mut self, rt: &R, page: &mut Page) -> bool {
        let t = turn_of(&self.left, &self.right);
        put_turn(rt, page, self, t);
        note_turn(&mut self.hands, &self.left, &self.right, t);
        let i = self.left.source.number;
        let j = self.right.source.number;
        self.verdict = noted(self.verdict, t, i, j);
        if t.has_left {
            self.left.state = State::Reading;
        }
        if t.has_right {
            self.right.state = State::Reading;
        }
        is_over(t)
    }
}
