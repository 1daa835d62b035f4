// What a walk reads and does not change; the records and the work words, which it writes, go beside it. `by` tells whether clusters are walked:
// a yes or no, asked within a visit, where a type for each of both walks would double its functions.
// Handed on by value: behind a reference each visit reads `by` and `n` anew, and a plain collection takes up to a quarter longer.
#[derive(Clone, Copy)]
pub(crate) struct Heap<'a> {
    pub(crate) by: bool,
    pub(crate) n: u32,
    pub(crate) slots: &'a [u32],
    pub(crate) sinks: &'a [u32],
    pub(crate) sets: &'a [u64],
}
