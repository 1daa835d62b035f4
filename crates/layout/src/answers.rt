// The control record and the answers of the calls, as they cross to C: structs of u32 by value.
// `refusal` is 0 for an accepted call. After a refusal every count, word and number is 0 and the control record is the one handed in.

// What an analysis goes by: a new cluster with fewer members than the least is deleted, and so is one with more out pointers than
// so many for ten members; no size limit is below the lowest.
#[repr(C)]
#[derive(Clone, Copy)]
pub struct Tuning {
    pub least_members: u32,
    pub outs_per_ten: u32,
    pub lowest_limit: u32,
}

// n objects, r roots, the number given last, the size limit (0 until there was an analysis), the two losses, and the tuning: nine
// numbers, one after the other.
#[repr(C)]
#[derive(Clone, Copy)]
pub struct Control {
    pub n: u32,
    pub r: u32,
    pub last: u32,
    pub limit: u32,
    pub write_loss: u32,
    pub out_loss: u32,
    pub tuning: Tuning,
}

// What create, write, set root, declare sink and load answer.
#[repr(C)]
#[derive(Clone, Copy)]
pub struct Done {
    pub refusal: u32,
    pub control: Control,
}

#[repr(C)]
#[derive(Clone, Copy)]
pub struct Allocated {
    pub refusal: u32,
    pub object: u32,
    pub control: Control,
}

// What allocate answers where the control record is lent and changed.
#[repr(C)]
#[derive(Clone, Copy)]
pub struct AllocatedInPlace {
    pub refusal: u32,
    pub object: u32,
}

#[repr(C)]
#[derive(Clone, Copy)]
pub struct WordRead {
    pub refusal: u32,
    pub word: u32,
    pub control: Control,
}

// What show answers over C: the part of the lent slots from `start`, `length` words long.
#[repr(C)]
#[derive(Clone, Copy)]
pub struct Part {
    pub refusal: u32,
    pub start: u32,
    pub length: u32,
    pub control: Control,
}

// How many new clusters an analysis leaves, and how many objects are in them.
#[repr(C)]
#[derive(Clone, Copy)]
pub struct Analysed {
    pub refusal: u32,
    pub clusters: u32,
    pub members: u32,
    pub control: Control,
}

#[repr(C)]
#[derive(Clone, Copy)]
pub struct Collected {
    pub refusal: u32,
    pub freed: u32,
    pub kept: u32,
    pub scanned: u32,
    pub control: Control,
}

// What save answers: how long the image is, in bytes.
#[repr(C)]
#[derive(Clone, Copy)]
pub struct Saved {
    pub refusal: u32,
    pub length: u32,
    pub control: Control,
}
