// The memory of a column, made once and lent.
use files::ROOM;

// The bytes of a list that are at hand, the buffers of a heap, of the size of the largest one, and the set of what was freed last.
#[derive(Drop)]
pub(crate) struct Memory {
    pub input: [u8; ROOM],
    pub records: [u32; 4095],
    pub slots: [u32; 32760],
    pub roots: [u32; 64],
    // The list of sinks.
    pub sinks: [u32; 64],
    // The sets of sinks, one for each head.
    pub sets: [u64; 4095],
    pub work: [u32; 41014],
    pub map: [u64; 64],
    // What was saved last, of the longest image: 160 bytes, 36 for each object and 4 for each root.
    pub image: [u8; 147836],
}

impl Memory {
    pub(crate) fn new() -> Memory {
        Memory {
            input: [0; ROOM],
            records: [0; 4095],
            slots: [0; 32760],
            roots: [0; 64],
            sinks: [0; 64],
            sets: [0; 4095],
            work: [0; 41014],
            map: [0; 64],
            image: [0; 147836],
        }
    }
}
