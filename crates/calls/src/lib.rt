// A call of a list run on the buffers of a heap.
#![tactic(auto)]

ghost use Rattle.std.specs.Prelude.{◌≡◌, take};
ghost use Rattle.rules.specs.Load as Load;
ghost use Rattle.calls.specs.Compare.{plain_call, as_run};
ghost use Rattle.calls.specs.Run as Run;

use access::read::read;
use access::set_root::set_root;
use access::show::show_part;
use analyse::analyse;
use collect::collect;
use heap::allocate::allocate;
use heap::create::create;
use layout::answers::*;
use layout::control::{tuning, usual_tuning};
use lines::kinds::*;
use loads::load;
use saves::save;
use sinks::declare_sink;
use writes::write::write;

// What a line answers: `refusal` is 0 for an accepted call. a, b, c: the object of allocate; the word of read; start and length of what show names;
// clusters and members of an analysis; freed, kept and scanned of a collection; the length of what save wrote; n and r of what load made. The
// others are 0. Control record and length of the last image are those that the next call is handed.
#[derive(Clone, Copy)]
pub struct Ran {
    pub refusal: u32,
    pub a: u32,
    pub b: u32,
    pub c: u32,
    pub control: Control,
    pub saved: u32,
}

// An answer of these parts.
pub fn answer(refusal: u32, a: u32, b: u32, c: u32, control: Control, saved: u32) -> Ran
    ensures { result ≡ Run.ran refusal a b c control saved }
{
    Ran {
        refusal,
        a,
        b,
        c,
        control,
        saved,
    }
}

// The answer of a call, as those of all calls are told. No `From`: the length of the last image is told besides.
fn of_done(a: Done, saved: u32) -> Ran
    ensures { result ≡ Run.ran a.refusal 0 0 0 a.control saved }
{
    answer(a.refusal, 0, 0, 0, a.control, saved)
}

fn of_allocated(a: Allocated, saved: u32) -> Ran
    ensures { result ≡ Run.ran a.refusal a.object 0 0 a.control saved }
{
    answer(a.refusal, a.object, 0, 0, a.control, saved)
}

fn of_read(a: WordRead, saved: u32) -> Ran
    ensures { result ≡ Run.ran a.refusal a.word 0 0 a.control saved }
{
    answer(a.refusal, a.word, 0, 0, a.control, saved)
}

fn of_part(a: Part, saved: u32) -> Ran
    ensures { result ≡ Run.ran a.refusal a.start a.length 0 a.control saved }
{
    answer(a.refusal, a.start, a.length, 0, a.control, saved)
}

fn of_analysed(a: Analysed, saved: u32) -> Ran
    ensures { result ≡ Run.ran a.refusal a.clusters a.members 0 a.control saved }
{
    answer(a.refusal, a.clusters, a.members, 0, a.control, saved)
}

fn of_collected(a: Collected, saved: u32) -> Ran
    ensures { result ≡ Run.ran a.refusal a.freed a.kept a.scanned a.control saved }
{
    answer(a.refusal, a.freed, a.kept, a.scanned, a.control, saved)
}

// Refused, the image before it is the last one still.
#[tactic(auto, unfolding(crate::specs::Run::ran_save))]
fn of_saved(a: Saved, saved: u32) -> Ran
    ensures { result ≡ Run.ran_save a saved }
{
    if a.refusal == 0 {
        return answer(0, a.length, 0, 0, a.control, a.length);
    }
    answer(a.refusal, a.length, 0, 0, a.control, saved)
}

// Refused, it answers a control record of zeros, and the column goes on with its own.
#[tactic(auto, unfolding(crate::specs::Run::ran_load))]
fn of_loaded(a: Done, c: Control, saved: u32) -> Ran
    ensures { result ≡ Run.ran_load a c saved }
{
    let made = a.control;
    if a.refusal == 0 {
        return answer(0, made.n, made.r, 0, made, saved);
    }
    answer(a.refusal, made.n, made.r, 0, c, saved)
}

// Loads as many of the bytes as were saved last.
fn load_last(
    t: Tuning,
    saved: u32,
    image: &[u8],
    records: &mut [u32],
    slots: &mut [u32],
    roots: &mut [u32],
    sinks: &mut [u32],
    sets: &mut [u64],
) -> Done
    ensures { Load.gives result records.new slots.new roots.new sinks.new sets.new
        ≡ Load.load t (take saved image.now) records.old slots.old roots.old sinks.old sets.old }
{
    let last = &image[..image.len().min(saved as usize)];
    load(t, last, records, slots, roots, sinks, sets)
}

// The numbers of the analysis that a create names; the usual ones where it names none.
#[tactic(auto, unfolding(crate::specs::Run::tuning_in))]
fn tuning_in(call: Call) -> Tuning
    ensures { result ≡ Run.tuning_in call }
{
    let v = call.numbers;
    if call.count == TUNED {
        return tuning(v[2], v[3], v[4]);
    }
    usual_tuning()
}

// The call as a heap without clusters runs it: no analysis, and every collection plainly.
#[tactic(auto, unfolding(crate::specs::Compare::plain_call))]
pub fn plainly(call: Call) -> Option<Call>
    ensures { result ≡ plain_call call }
{
    match call.kind {
        Kind::Analyse => None,
        Kind::Collect => Some(with_number(call, 0, 0)),
        _ => Some(call),
    }
}

// The call of a line, if it makes one, as a column runs it: `plain` is no third way besides, so a bool, as in the definition.
#[tactic(auto, unfolding(crate::specs::Compare::as_run))]
pub fn as_run(call: Option<Call>, plain: bool) -> Option<Call>
    ensures { result ≡ as_run plain call }
{
    if plain { plainly(call?) } else { call }
}

// Runs the call of a line; a line that makes none does nothing, and neither does another kind. `saved` is the length of the last image, which is at the front of its bytes; 0
// before any save. The buffers go one by one: of a struct of lent ones this would have to promise that it still holds the same.
#[tactic(auto, unfolding(crate::specs::Run::run, crate::specs::Run::run_kind))]
pub fn run(
    call: Option<Call>,
    c: Control,
    saved: u32,
    records: &mut [u32],
    slots: &mut [u32],
    roots: &mut [u32],
    sinks: &mut [u32],
    sets: &mut [u64],
    work: &mut [u32],
    map: &mut [u64],
    image: &mut [u8],
) -> Ran
    ensures { Run.gives result records.new slots.new roots.new sinks.new sets.new work.new map.new image.new
        ≡ Run.run c saved records.old slots.old roots.old sinks.old sets.old work.old map.old image.old call }
{
    let Some(call) = call else {
        return answer(0, 0, 0, 0, c, saved);
    };
    let v = call.numbers;
    match call.kind {
        Kind::Wrote | Kind::Loaded | Kind::Other(_) => answer(0, 0, 0, 0, c, saved),
        Kind::Create => of_done(
            create(
                v[0],
                v[1],
                tuning_in(call),
                records,
                slots,
                roots,
                sinks,
                sets,
            ),
            saved,
        ),
        Kind::Allocate => of_allocated(allocate(c, v[0], records, slots), saved),
        Kind::Read => of_read(read(c, v[0], v[1], records, slots), saved),
        Kind::Show => of_part(show_part(c, v[0], records, slots), saved),
        Kind::Write => of_done(
            write(c, v[0], v[1], v[2], records, slots, sinks, sets),
            saved,
        ),
        Kind::Root => of_done(set_root(c, v[0], v[1], records, roots), saved),
        Kind::Sink => of_done(
            declare_sink(c, v[0], records, slots, roots, sinks, sets),
            saved,
        ),
        Kind::Analyse => of_analysed(analyse(c, records, slots, roots, sinks, sets, work), saved),
        Kind::Collect => of_collected(
            collect(v[0] != 0, c, records, slots, roots, sinks, sets, work, map),
            saved,
        ),
        Kind::Save => of_saved(save(c, records, slots, roots, sinks, sets, image), saved),
        Kind::Load => of_loaded(
            load_last(c.tuning, saved, image, records, slots, roots, sinks, sets),
            c,
            saved,
        ),
    }
}
