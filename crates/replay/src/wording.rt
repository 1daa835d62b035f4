// Calls, words and answers as they are printed.
use bitmap::has_bit;
use calls::Ran;
use layout::limits::OBJECT_MAX;
use layout::refusals::Refusal;
use layout::words::{Word, sort_word};
use lines::kinds::{Call, Kind};
use std::fmt;

// A number, in hexadecimal from 65536 on.
#[derive(Clone, Copy)]
struct Number(u32);

impl fmt::Display for Number {
    fn fmt<W: fmt::Write>(&self, f: &mut fmt::Formatter<W>) -> fmt::Result {
        let n = self.0;
        if n < 65536 {
            write!(f, "{n}")
        } else {
            write!(f, "{n:#010x}")
        }
    }
}

// A call with its numbers.
#[derive(Clone, Copy)]
pub(crate) struct CallText(pub Call);

impl fmt::Display for CallText {
    fn fmt<W: fmt::Write>(&self, f: &mut fmt::Formatter<W>) -> fmt::Result {
        let Call { kind, count, .. } = self.0;
        write!(f, "{kind}")?;
        if kind == Kind::Collect {
            let way = if self.0.numbers[0] == 0 {
                "plain"
            } else {
                "clusters"
            };
            return write!(f, " {way}");
        }
        for n in self.0.numbers.iter().take(count as usize) {
            write!(f, " {}", Number(*n))?;
        }
        Ok(())
    }
}

// A refusal of this number, with its words.
#[derive(Clone, Copy)]
struct Refused(u32);

impl fmt::Display for Refused {
    fn fmt<W: fmt::Write>(&self, f: &mut fmt::Formatter<W>) -> fmt::Result {
        let number = self.0;
        write!(f, "refused {number}: ")?;
        match Refusal::try_from(number) {
            Ok(refusal) => write!(f, "{refusal}"),
            Err(_) => Ok(()),
        }
    }
}

// A word of a heap.
#[derive(Clone, Copy)]
pub(crate) struct WordText(pub u32);

impl fmt::Display for WordText {
    fn fmt<W: fmt::Write>(&self, f: &mut fmt::Formatter<W>) -> fmt::Result {
        let w = self.0;
        match sort_word(OBJECT_MAX, w) {
            Word::Nil => write!(f, "nil"),
            Word::Object(x) => write!(f, "object {x}"),
            Word::Immediate => write!(f, "immediate {w:#010x}"),
            Word::Illegal => write!(f, "{w:#010x}"),
        }
    }
}

// So many slots from a place on.
#[derive(Clone, Copy)]
pub(crate) struct WordsText<'a> {
    pub slots: &'a [u32],
    pub from: usize,
    pub count: u32,
}

impl<'a> fmt::Display for WordsText<'a> {
    fn fmt<W: fmt::Write>(&self, f: &mut fmt::Formatter<W>) -> fmt::Result {
        if self.count == 0 {
            return write!(f, "no words");
        }
        let shown = self.slots.iter().skip(self.from).take(self.count as usize);
        for (k, w) in shown.enumerate() {
            let before = if k == 0 { "words " } else { ", " };
            write!(f, "{before}{}", WordText(*w))?;
        }
        Ok(())
    }
}

// The objects of a set.
#[derive(Clone, Copy)]
struct SetText<'a>(&'a [u64]);

impl<'a> fmt::Display for SetText<'a> {
    fn fmt<W: fmt::Write>(&self, f: &mut fmt::Formatter<W>) -> fmt::Result {
        let mut before = "";
        for x in 1..4096 {
            if has_bit(self.0, x) {
                write!(f, "{before}{x}")?;
                before = ", ";
            }
        }
        Ok(())
    }
}

// What a call of this kind answered, by a heap with these slots and this map.
#[derive(Clone, Copy)]
pub(crate) struct AnswerText<'a> {
    pub kind: Kind,
    pub ran: Ran,
    pub slots: &'a [u32],
    pub map: &'a [u64],
}

impl<'a> fmt::Display for AnswerText<'a> {
    fn fmt<W: fmt::Write>(&self, f: &mut fmt::Formatter<W>) -> fmt::Result {
        let Ran {
            refusal,
            a,
            b,
            c,
            ..
        } = self.ran;
        if refusal != 0 {
            return write!(f, "{}", Refused(refusal));
        }
        match self.kind {
            Kind::Allocate => write!(f, "object {a}"),
            Kind::Read => write!(f, "{}", WordText(a)),
            Kind::Show => {
                let slots = self.slots;
                let from = a as usize;
                write!(
                    f,
                    "{}",
                    WordsText {
                        slots,
                        from,
                        count: b
                    }
                )
            }
            Kind::Analyse => write!(f, "clusters {a}, members {b}"),
            Kind::Collect => {
                write!(f, "freed {a}, kept {b}, scanned {c}")?;
                if a == 0 {
                    return Ok(());
                }
                write!(f, "; freed objects {}", SetText(self.map))
            }
            Kind::Save => write!(f, "bytes {a}"),
            Kind::Load => write!(f, "objects {a}, roots {b}"),
            _ => write!(f, "accepted"),
        }
    }
}

// Whether there is more to print of an answer than that the call was accepted.
pub(crate) fn has_answer(kind: Kind, ran: Ran) -> bool {
    let is_told = matches!(
        kind,
        Kind::Allocate
            | Kind::Read
            | Kind::Show
            | Kind::Analyse
            | Kind::Collect
            | Kind::Save
            | Kind::Load
    );
    ran.refusal != 0 || is_told
}
