// What the walk reads and does not change: the heap, and the size limit. Handed on by value, as in a collection's walk.
#[derive(Clone, Copy)]
pub(crate) struct Heap<'a> {
    pub(crate) n: u32,
    pub(crate) limit: u32,
    pub(crate) records: &'a [u32],
    pub(crate) slots: &'a [u32],
    pub(crate) sinks: &'a [u32],
    pub(crate) sets: &'a [u64],
}
