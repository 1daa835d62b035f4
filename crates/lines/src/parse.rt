// The call that a line makes.
ghost use Rattle.std.specs.Prelude.{◌≡◌};
ghost use Rattle.lines.specs.Line.{ended as ended_at, number_at, row_of, numbers_from, follows, sizes as sizes_at, named as named_at, way as way_at, parsed};

use crate::kinds::*;
use crate::numbers::value;
use crate::words::{Span, next_word};

// The call, if no word is left.
#[tactic(auto, unfolding(crate::specs::Line::ended))]
fn ended(line: &[u8], from: usize, call: Call) -> Result<Call, Problem>
    ensures { result ≡ ended_at line.now from call }
{
    let w = next_word(line, from);
    if w.start != w.end {
        return Err(Problem::NoEnd);
    }
    Ok(call)
}

// A number with the place after it.
#[tactic(auto, using(crate::proofs::LineLaws::words), unfolding(crate::specs::Line::number_at))]
fn number_at(line: &[u8], from: usize) -> Result<(u32, usize), Problem>
    ensures { result ≡ number_at line.now from }
{
    let Span { start, end } = next_word(line, from);
    if start == end {
        return Err(Problem::NoNumber);
    }
    let v = value(&line[start..end])?;
    Ok((v, end))
}

// The call that a word names in a table, still without its numbers.
#[tactic(auto, using(crate::proofs::LineLaws::rows), unfolding(crate::specs::Line::row_of))]
fn row_of(table: &[u8], word: &[u8]) -> Result<Call, Problem>
    ensures { result ≡ row_of table.now word.now }
{
    let mut at = 0;
    for kind in KINDS {
        let Span { start, end } = next_word(table, at);
        if start == end {
            return Err(Problem::NoCall);
        }
        let (count, after) = number_at(table, end)?;
        if word == &table[start..end] {
            return Ok(Call {
                kind,
                count,
                numbers: [0; MOST],
            });
        }
        at = after;
    }
    Err(Problem::NoCall)
}

// The call with its numbers, and the end of the line.
#[tactic(auto, using(crate::proofs::LineLaws::numbers_next, crate::proofs::LineLaws::numbers_end))]
fn numbers(line: &[u8], from: usize, call: Call) -> Result<Call, Problem>
    ensures { result ≡ numbers_from call.count 0 call line.now from }
{
    let mut c = call;
    let mut at = from;
    for k in 0..call.count as usize {
        let (v, after) = number_at(line, at)?;
        c = with_number(c, k, v);
        at = after;
    }
    ended(line, at, c)
}

// The create with its sizes; where a further word stands behind them, with the numbers of the analysis too.
#[tactic(auto, unfolding(crate::specs::Line::sizes))]
fn sizes(line: &[u8], from: usize, call: Call) -> Result<Call, Problem>
    ensures { result ≡ sizes_at call line.now from }
{
    let tuned = Call {
        count: TUNED,
        ..call
    };
    match numbers(line, from, call) {
        Err(Problem::NoEnd) => numbers(line, from, tuned),
        usual => usual,
    }
}

#[tactic(auto, unfolding(crate::specs::Line::named))]
fn named(line: &[u8], from: usize, call: Call) -> Result<Call, Problem>
    ensures { result ≡ named_at call line.now from }
{
    let w = next_word(line, from);
    if w.start == w.end {
        return Err(Problem::NoName);
    }
    ended(line, w.end, call)
}

// How to collect.
#[tactic(auto, using(crate::proofs::LineLaws::ways), unfolding(crate::specs::Line::way))]
fn way(line: &[u8], from: usize, call: Call) -> Result<Call, Problem>
    ensures { result ≡ way_at call line.now from }
{
    let Span { start, end } = next_word(line, from);
    if start == end {
        return Err(Problem::NoWay);
    }
    let word = &line[start..end];
    if word == b"plain".as_slice() {
        return ended(line, end, with_number(call, 0, 0));
    }
    if word == b"clusters".as_slice() {
        return ended(line, end, with_number(call, 0, 1));
    }
    Err(Problem::NoWay)
}

// The call with what follows its name.
#[tactic(auto, unfolding(crate::specs::Line::follows))]
fn follows(line: &[u8], from: usize, call: Call) -> Result<Call, Problem>
    ensures { result ≡ follows call line.now from }
{
    match call.kind {
        Kind::Wrote | Kind::Loaded => named(line, from, call),
        Kind::Create => sizes(line, from, call),
        Kind::Collect => way(line, from, call),
        _ => numbers(line, from, call),
    }
}

// The call that a line makes, if it makes one.
#[tactic(auto, using(crate::proofs::LineLaws::lines))]
pub fn parse(line: &[u8]) -> Result<Option<Call>, Problem>
    ensures { result ≡ parsed line.now }
{
    let Span { start, end } = next_word(line, 0);
    if start == end {
        return Ok(None);
    }
    let call = row_of(&TABLE, &line[start..end])?;
    let made = follows(line, end, call)?;
    Ok(Some(made))
}
