// The words of a line: runs of bytes that are neither blank nor '#'.
ghost use Rattle.std.specs.Prelude.{◌≡◌};
ghost use Rattle.lines.specs.Word.{is_blank, has, run_end, word_at, line_end};

// A word from start to end; where there is none, start is end. No `Option`: the place counts there too, as `word_at` says.
#[derive(Clone, Copy)]
pub struct Span {
    pub start: usize,
    pub end: usize,
}

// The bytes of a run.
#[derive(Clone, Copy)]
pub enum Kind {
    Blank,
    Word,
    Line,
}

#[tactic(auto, unfolding(crate::specs::Word::is_blank))]
fn is_blank(b: u8) -> bool
    ensures { result ≡ is_blank b }
{
    matches!(b, b' ' | b'\t' | b'\r')
}

#[tactic(auto, unfolding(crate::specs::Word::has, crate::specs::Word::in_word, crate::specs::Word::in_line))]
fn belongs(kind: Kind, b: u8) -> bool
    ensures { result ≡ has kind b }
{
    match kind {
        Kind::Blank => is_blank(b),
        Kind::Word => !is_blank(b) && b != b'#',
        Kind::Line => b != b'\n',
    }
}

// Where the run of the kind that begins at from ends.
#[tactic(auto, using(crate::proofs::WordLaws::runs))]
fn run_end(kind: Kind, s: &[u8], from: usize) -> usize
    ensures { result ≡ run_end kind s.now from }
{
    // By index, since `from` may be past the end, and is the answer then.
    for i in from..s.len() {
        if !belongs(kind, s[i]) {
            return i;
        }
    }
    s.len().max(from)
}

#[tactic(auto, unfolding(crate::specs::Word::word_at))]
pub fn next_word(line: &[u8], from: usize) -> Span
    ensures { result ≡ word_at line.now from }
{
    let start = run_end(Kind::Blank, line, from);
    let end = run_end(Kind::Word, line, start);
    Span { start, end }
}

// The index of the first newline at or after from, or the length.
#[tactic(auto, unfolding(crate::specs::Word::line_end))]
pub fn line_end(buf: &[u8], from: usize) -> usize
    ensures { result ≡ line_end buf.now from }
{
    if from <= buf.len() {
        run_end(Kind::Line, buf, from)
    } else {
        buf.len()
    }
}
