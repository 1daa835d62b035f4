// The calls as C sees them: numbers and structs by value, a slice as a pointer and a length. Only exports are here.
#![tactic(auto)]

ghost use Rattle.std.specs.Prelude.{◌≡◌};
ghost use Rattle.layout.specs.ControlRecord.{tuning_of};
ghost use Rattle.rules.specs.Create as Create;
ghost use Rattle.rules.specs.Allocate as Allocate;
ghost use Rattle.rules.specs.Read as Read;
ghost use Rattle.rules.specs.Show as Show;
ghost use Rattle.rules.specs.Write as Write;
ghost use Rattle.rules.specs.SetRoot as SetRoot;
ghost use Rattle.rules.specs.DeclareSink as DeclareSink;
ghost use Rattle.rules.specs.Analyse as Analyse;
ghost use Rattle.rules.specs.Collect as Collect;
ghost use Rattle.rules.specs.Save as Save;
ghost use Rattle.rules.specs.Load as Load;

use layout::answers::{Allocated, Analysed, Collected, Control, Done, Part, Saved, WordRead};
use layout::control::tuning;

pub mod in_place;

#[unsafe(no_mangle)]
pub extern "C" fn pakzid_create(
    n: u32,
    r: u32,
    least: u32,
    outs: u32,
    lowest: u32,
    records: &mut [u32],
    slots: &mut [u32],
    roots: &mut [u32],
    sinks: &mut [u32],
    sets: &mut [u64],
) -> Done
    ensures { Create.gives result records.new slots.new roots.new sinks.new sets.new
        ≡ Create.create n r (tuning_of least outs lowest) records.old slots.old roots.old sinks.old sets.old }
{
    heap::create::create(
        n,
        r,
        tuning(least, outs, lowest),
        records,
        slots,
        roots,
        sinks,
        sets,
    )
}

#[unsafe(no_mangle)]
pub extern "C" fn pakzid_allocate(
    c: Control,
    width: u32,
    records: &mut [u32],
    slots: &mut [u32],
) -> Allocated
    ensures { Allocate.gives result records.new slots.new
        ≡ Allocate.allocate c width records.old slots.old }
{
    heap::allocate::allocate(c, width, records, slots)
}

#[unsafe(no_mangle)]
pub extern "C" fn pakzid_read(
    c: Control,
    object: u32,
    slot: u32,
    records: &[u32],
    slots: &[u32],
) -> WordRead
    ensures { result ≡ Read.read c object slot records.now slots.now }
{
    access::read::read(c, object, slot, records, slots)
}

// Where in the lent slots the part is that `access::show::show` gives.
#[unsafe(no_mangle)]
pub extern "C" fn pakzid_show(c: Control, object: u32, records: &[u32], slots: &[u32]) -> Part
    ensures { result ≡ (Show.show c object records.now slots.now).answer }
{
    access::show::show_part(c, object, records, slots)
}

#[unsafe(no_mangle)]
pub extern "C" fn pakzid_write(
    c: Control,
    object: u32,
    slot: u32,
    word: u32,
    records: &mut [u32],
    slots: &mut [u32],
    sinks: &[u32],
    sets: &mut [u64],
) -> Done
    ensures { Write.gives result records.new slots.new sets.new
        ≡ Write.write c object slot word records.old slots.old sinks.now sets.old }
{
    writes::write::write(c, object, slot, word, records, slots, sinks, sets)
}

#[unsafe(no_mangle)]
pub extern "C" fn pakzid_set_root(
    c: Control,
    index: u32,
    word: u32,
    records: &[u32],
    roots: &mut [u32],
) -> Done
    ensures { SetRoot.gives result roots.new ≡ SetRoot.set_root c index word records.now roots.old }
{
    access::set_root::set_root(c, index, word, records, roots)
}

#[unsafe(no_mangle)]
pub extern "C" fn pakzid_declare_sink(
    c: Control,
    object: u32,
    records: &mut [u32],
    slots: &[u32],
    roots: &[u32],
    sinks: &mut [u32],
    sets: &mut [u64],
) -> Done
    ensures { DeclareSink.gives result records.new sinks.new sets.new
        ≡ DeclareSink.declare_sink c object records.old slots.now roots.now sinks.old sets.old }
{
    sinks::declare_sink(c, object, records, slots, roots, sinks, sets)
}

#[unsafe(no_mangle)]
pub extern "C" fn pakzid_analyse(
    c: Control,
    records: &mut [u32],
    slots: &[u32],
    roots: &[u32],
    sinks: &[u32],
    sets: &mut [u64],
    work: &mut [u32],
) -> Analysed
    ensures { Analyse.gives result records.new sets.new work.new
        ≡ Analyse.analyse c records.old slots.now roots.now sinks.now sets.old work.old }
{
    analyse::analyse(c, records, slots, roots, sinks, sets, work)
}

#[unsafe(no_mangle)]
pub extern "C" fn pakzid_collect_plain(
    c: Control,
    records: &mut [u32],
    slots: &mut [u32],
    roots: &[u32],
    sinks: &mut [u32],
    sets: &mut [u64],
    work: &mut [u32],
    map: &mut [u64],
) -> Collected
    ensures { Collect.gives result records.new slots.new sinks.new sets.new work.new map.new
        ≡ Collect.collect Collect.plainly c records.old slots.old roots.now sinks.old sets.old work.old map.old }
{
    collect::collect(false, c, records, slots, roots, sinks, sets, work, map)
}

#[unsafe(no_mangle)]
pub extern "C" fn pakzid_collect_clusters(
    c: Control,
    records: &mut [u32],
    slots: &mut [u32],
    roots: &[u32],
    sinks: &mut [u32],
    sets: &mut [u64],
    work: &mut [u32],
    map: &mut [u64],
) -> Collected
    ensures { Collect.gives result records.new slots.new sinks.new sets.new work.new map.new
        ≡ Collect.collect Collect.by_clusters c records.old slots.old roots.now sinks.old sets.old work.old map.old }
{
    collect::collect(true, c, records, slots, roots, sinks, sets, work, map)
}

#[unsafe(no_mangle)]
pub extern "C" fn pakzid_save(
    c: Control,
    records: &[u32],
    slots: &[u32],
    roots: &[u32],
    sinks: &[u32],
    sets: &[u64],
    image: &mut [u8],
) -> Saved
    ensures { Save.gives result image.new
        ≡ Save.save c records.now slots.now roots.now sinks.now sets.now image.old }
{
    saves::save(c, records, slots, roots, sinks, sets, image)
}

#[unsafe(no_mangle)]
pub extern "C" fn pakzid_load(
    least: u32,
    outs: u32,
    lowest: u32,
    image: &[u8],
    records: &mut [u32],
    slots: &mut [u32],
    roots: &mut [u32],
    sinks: &mut [u32],
    sets: &mut [u64],
) -> Done
    ensures { Load.gives result records.new slots.new roots.new sinks.new sets.new
        ≡ Load.load (tuning_of least outs lowest) image.now records.old slots.old roots.old sinks.old sets.old }
{
    loads::load(
        tuning(least, outs, lowest),
        image,
        records,
        slots,
        roots,
        sinks,
        sets,
    )
}
