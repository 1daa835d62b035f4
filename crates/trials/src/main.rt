// The trials of docs/HEAP.md ("Trials") that are run and not proved, a line of output each. Each begins with buffers of zeros.
#![tactic(auto)]

use analyse::analyse;
use collect::collect;
use heap::allocate::allocate;
use heap::create::create;
use layout::answers::{Allocated, Control};
use layout::control::{new_control, no_control, usual_tuning, with_analysis, with_write_loss};
use std::fmt;
use writes::write::write;

// ---- a heap and its calls

// A heap of one root and at most OBJECTS objects. SLOTS is eight for each object.
#[derive(Drop)]
struct Heap<const OBJECTS: usize, const SLOTS: usize> {
    control: Control,
    records: [u32; OBJECTS],
    slots: [u32; SLOTS],
    roots: [u32; 1],
    sinks: [u32; 64],
    sets: [u64; OBJECTS],
}

impl<const OBJECTS: usize, const SLOTS: usize> Heap<OBJECTS, SLOTS> {
    fn zeros() -> Self {
        Heap {
            control: no_control(),
            records: [0; OBJECTS],
            slots: [0; SLOTS],
            roots: [0; 1],
            sinks: [0; 64],
            sets: [0; OBJECTS],
        }
    }

    // Each call below goes on with the control record that the one before answered. Where it says no more, it answers its refusal.
    fn create(&mut self, n: u32) -> u32 {
        let done = create(
            n,
            1,
            usual_tuning(),
            &mut self.records,
            &mut self.slots,
            &mut self.roots,
            &mut self.sinks,
            &mut self.sets,
        );
        self.control = done.control;
        done.refusal
    }

    fn allocate(&mut self, width: u32) -> Allocated {
        let given = allocate(self.control, width, &mut self.records, &mut self.slots);
        self.control = given.control;
        given
    }

    fn write(&mut self, object: u32, slot: u32, word: u32) -> u32 {
        let done = write(
            self.control,
            object,
            slot,
            word,
            &mut self.records,
            &mut self.slots,
            &self.sinks,
            &mut self.sets,
        );
        self.control = done.control;
        done.refusal
    }

    fn analyse(&mut self, work: &mut [u32]) -> u32 {
        let analysed = analyse(
            self.control,
            &mut self.records,
            &self.slots,
            &self.roots,
            &self.sinks,
            &mut self.sets,
            work,
        );
        self.control = analysed.control;
        analysed.refusal
    }

    fn collect(&mut self, by_clusters: bool, work: &mut [u32]) -> u32 {
        let mut map = [0; 1];
        let collected = collect(
            by_clusters,
            self.control,
            &mut self.records,
            &mut self.slots,
            &self.roots,
            &mut self.sinks,
            &mut self.sets,
            work,
            &mut map,
        );
        self.control = collected.control;
        collected.refusal
    }
}

// A heap of one free object.
fn small() -> Heap<1, 8> {
    let mut heap = Heap::zeros();
    heap.create(1);
    heap
}

// ---- the trials

// A refusal as it is printed.
#[derive(Clone, Copy)]
struct Refusal(u32);

impl fmt::Display for Refusal {
    fn fmt<W: fmt::Write>(&self, f: &mut fmt::Formatter<W>) -> fmt::Result {
        match self.0 {
            0 => write!(f, "accepted"),
            k => write!(f, "refusal {k}"),
        }
    }
}

// The refusal of create, with buffers that are long enough for 4,096 objects.
fn creating(n: u32) -> Refusal {
    let mut heap = Heap::<4096, 32768>::zeros();
    Refusal(heap.create(n))
}

// The refusal of an analysis of one free object.
fn analysing(work: &mut [u32]) -> Refusal {
    let mut heap = small();
    Refusal(heap.analyse(work))
}

// The refusal of a collection of one free object, by clusters or plainly.
fn collecting(by_clusters: bool, work: &mut [u32]) -> Refusal {
    let mut heap = small();
    Refusal(heap.collect(by_clusters, work))
}

// The refusal of allocate with a free object left.
fn allocating(width: u32) -> Refusal {
    let mut heap = small();
    Refusal(heap.allocate(width).refusal)
}

// The refusal of a write to a slot that there is.
fn writing(word: u32) -> Refusal {
    let mut heap = small();
    let object = heap.allocate(1).object;
    Refusal(heap.write(object, 0, word))
}

// The size limit after an analysis that finds write loss above out loss.
fn halved(limit: u32) -> u32 {
    let mut heap = Heap::<1, 8>::zeros();
    let analysed = with_analysis(new_control(1, 1, usual_tuning()), limit, 0);
    heap.control = with_write_loss(analysed, 1);
    heap.analyse(&mut [0; 74]);
    heap.control.limit
}

// The size limit after the first analysis, with so many of 144 objects in use.
fn first_limit(used: u32) -> u32 {
    let mut heap = Heap::<144, 1152>::zeros();
    heap.create(144);
    for _ in 0..used {
        heap.allocate(0);
    }
    heap.analyse(&mut [0; 1504]);
    heap.control.limit
}

// A line of output. That it could not be written changes nothing, as no line stands on another.
fn tell<R: Print, D: fmt::Display + Drop>(rt: &R, trial: &str, value: D) {
    let _ = println!(rt; "{trial}: {value}");
}

fn main(rt: HostRuntime) {
    tell(&rt, "create, n 0", creating(0));
    tell(&rt, "create, n 4096", creating(4096));
    let mut enough = [0; 74];
    let mut less = [0; 73];
    tell(
        &rt,
        "analyse, n 1, 74 words of work",
        analysing(&mut enough),
    );
    tell(
        &rt,
        "collect plainly, n 1, 74 words of work",
        collecting(false, &mut enough),
    );
    tell(
        &rt,
        "collect by clusters, n 1, 74 words of work",
        collecting(true, &mut enough),
    );
    tell(&rt, "analyse, n 1, 73 words of work", analysing(&mut less));
    tell(
        &rt,
        "collect plainly, n 1, 73 words of work",
        collecting(false, &mut less),
    );
    tell(
        &rt,
        "collect by clusters, n 1, 73 words of work",
        collecting(true, &mut less),
    );
    tell(&rt, "allocate, width 9", allocating(9));
    tell(&rt, "write of 0x7FFFFFFF", writing(0x7FFFFFFF));
    tell(&rt, "size limit 17, halved", halved(17));
    tell(&rt, "first limit, 143 in use", first_limit(143));
    tell(&rt, "first limit, 144 in use", first_limit(144));
}
