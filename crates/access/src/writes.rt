// The writes of an access that is not refused, in order: its line with the dirty count, the cycle at which that was taken and the
// tree of its set, the miss table, the queue. Then what it tells, and the act of a read and of a write, which each have their own, so that
// no write asks which it is. Last a write to a line that is there and a read that hits, which need two or three.
ghost use Rattle.std.specs.Prelude.{◌≡◌, ◌+◌, ◌*◌, ◌≤◌, ◌<◌, [], ◌∷◌, length, get_or, true, false, is_some, Ok};
ghost use Rattle.words.specs.Regions.{put};
ghost use Rattle.words.specs.Words.{one};
ghost use Rattle.model.specs.Address.{is_read, address_of, sector_index, set_index};
ghost use Rattle.model.specs.Lent.{lent, sector_at};
ghost use Rattle.model.specs.Range.{lines_of};
ghost use Rattle.layout.specs.Layout.{words_most};
ghost use Rattle.layout.specs.Sectors.{SectorRoom};
ghost use Rattle.access.specs.Plan.{Meets, MayAct, Acted, Offered, ticket_of};
ghost use Rattle.model.specs.Tables.{empty, reading, writing};
ghost use Rattle.access.specs.Written.{line_written, misses_written, queue_written, queues_of, telling_queued, telling_of, Alone, MissRoom, QueueRoom, TreeRoom, line_offered, taken_written, trees_written, LineMayChange, SectorLeft};
ghost use Rattle.access.specs.declared.plan.MissPlan.TheVariants.{Stays};
ghost use Rattle.probe.specs.Decided.{listed};
ghost use Rattle.model.specs.Steps.{is_miss, on_sector, takes_line};
ghost use Rattle.model.specs.declared.Event.TheVariants.{Answered};
ghost use Rattle.tables.specs.Telling.{telling};

use crate::asked::{Offer, is_merge, is_miss, takes_line, ticket_of};
use crate::plan::MissPlan;
use crate::sector::{empty_sector, is_invalid, read_sector, taken_sectors, written_sector};
use layout::{Geometry, Layout};
use model::{Access, Answer, BlockAddress, Event, QueueKind, Queued, Reply, Sector, SectorAddress};
use probe::{Back, Decision};

// The line's cycle becomes the current one.
fn touch(words: &mut [u32], line: usize)
    requires { 1 + line < length words.old }
    ensures { words.new ≡ put words.old (1 + line) (get_or words.old 0 0 ∷ []) }
{
    words[1 + line] = words[0];
}

// The line's tag.
fn write_tag(longs: &mut [u64], line: usize, block: BlockAddress)
    requires { line < length longs.old }
    ensures { longs.new ≡ put longs.old line (block.0 ∷ []) }
{
    longs[line] = block.0;
}

// A line with its tag, the current cycle and its four sectors.
fn write_line(
    at: Layout,
    longs: &mut [u64],
    words: &mut [u32],
    marks: &mut [u8],
    line: usize,
    block: BlockAddress,
    four: [Sector; 4],
)
    requires { (line < length longs.old) × (1 + line < length words.old) × (at.masks + 4 * line + 4 ≤ length words.old)
        × (4 * line + 4 ≤ length marks.old) × (at.readables + 4 * line + 4 ≤ length marks.old) }
    ensures { lent longs.new words.new marks.new
        ≡ line_written at (lent longs.old words.old marks.old) line block.0 four }
{
    write_tag(longs, line, block);
    touch(words, line);
    layout::store(at, words, marks, line, four);
}

// The access's own sector of its line.
fn own_sector(g: Geometry, words: &[u32], marks: &[u8], o: Offer) -> Sector
    requires { SectorRoom g words.now marks.now × (o.decision.line < lines_of g.settings) }
    ensures { result ≡ sector_at g.settings words.now marks.now (4 * o.decision.line + sector_index (address_of o.access)) }
{
    let k = values::sector_index(values::address_of(o.access));
    layout::sector_at(g, words, marks, 4 * o.decision.line + k)
}

// A line that is taken over: empty, but for the access's own sector, and counted. It was dirty if it is written back. The runner of the
// archive would be left with a call of it.
#[inline(always)]
fn take_line(
    g: Geometry,
    longs: &mut [u64],
    words: &mut [u32],
    marks: &mut [u8],
    o: Offer,
    one: Sector,
)
    requires { Meets g.settings (lent longs.old words.old marks.old) o.access o.decision × (takes_line o.decision.answer ≡ true) × (one ≡ on_sector o.access o.decision.answer empty) }
    ensures { lent longs.new words.new marks.new
        ≡ line_offered g.settings g.at o (lent longs.old words.old marks.old) }
{
    let four = taken_sectors(o.access, one);
    layout::recount(
        words,
        g.at.dirty,
        o.decision.back.is_some(),
        layout::some_modified(four),
    );
    let block = values::block_of(values::address_of(o.access));
    write_line(g.at, longs, words, marks, o.decision.line, block, four);
}

// A read's own sector of a line that is there becomes as the read leaves it, and the line is counted: as dirty as it was if the sector was INVALID.
fn fetch_sector(g: Geometry, words: &mut [u32], marks: &mut [u8], o: Offer)
    requires { LineMayChange g o.decision.line words.old marks.old × (is_read o.access ≡ true) }
    ensures { SectorLeft g.settings g.at o.access o.decision.answer o.decision.line words.old marks.old words.new marks.new }
{
    let line = o.decision.line;
    let address = values::address_of(o.access);
    let own = own_sector(g, words, marks, o);
    let one = read_sector(o.decision.answer, own);
    let k = values::sector_index(address);
    let was = tables::is_dirty(marks, line);
    // Two calls: where the line stays as dirty as it was, the compiler leaves the count alone. By one call `run` takes more than 1.15 times the instructions of plain Rust.
    if is_invalid(own.status) {
        tables::change(g, words, marks, line, k, one, was, was);
    } else {
        let four = layout::lift(g, words, marks, line);
        let left = layout::with_sector(four, values::sector_number(address), one);
        let is = layout::some_modified(left);
        tables::change(g, words, marks, line, k, one, was, is);
    }
}

// The line of a read that is there: where it misses its own sector changes, else only its cycle is written. The tag stays.
fn found_line(g: Geometry, longs: &[u64], words: &mut [u32], marks: &mut [u8], o: Offer)
    requires { Meets g.settings (lent longs.now words.old marks.old) o.access o.decision × (is_read o.access ≡ true) × (takes_line o.decision.answer ≡ false) }
    ensures { lent longs.now words.new marks.new
        ≡ line_offered g.settings g.at o (lent longs.now words.old marks.old) }
{
    if is_miss(o.decision.answer) {
        fetch_sector(g, words, marks, o);
    }
    touch(words, o.decision.line);
}

// A line that a MISS takes over keeps the current cycle as the one at which it was taken.
fn mark_taken(at: Layout, words: &mut [u32], line: usize, a: Answer)
    requires { (at.taken + line < length words.old) × (length words.old ≤ words_most) }
    ensures { words.new ≡ taken_written at a line words.old }
{
    if takes_line(a) {
        words[at.taken + line] = words[0];
    }
}

// Under the rule by trees each node on the path to the access's way points to the half not taken.
fn turn_tree(g: Geometry, words: &mut [u32], o: Offer)
    requires { TreeRoom g.settings g.at o.access (length words.old) }
    ensures { words.new ≡ trees_written g.settings g.at (set_index g.settings (address_of o.access)) o.decision.way words.old }
{
    if g.settings.rule == trees::TREE {
        let set = values::set_index(values::address_of(o.access), g.settings.sets);
        let place = g.at.trees + set;
        words[place] = trees::touched(words[place], o.decision.way, g.settings.ways);
    }
}

// When the line was taken, and the tree of its set.
fn mark_set(g: Geometry, words: &mut [u32], o: Offer)
    requires { (g.at.taken + o.decision.line < length words.old) × TreeRoom g.settings g.at o.access (length words.old) }
    ensures { words.new ≡ trees_written g.settings g.at (set_index g.settings (address_of o.access)) o.decision.way (taken_written g.at o.decision.answer o.decision.line words.old) }
{
    mark_taken(g.at, words, o.decision.line, o.decision.answer);
    turn_tree(g, words, o);
}

// The miss table by the plan: the access's ticket joins, or a new entry stands behind the others.
fn write_misses(
    g: Geometry,
    longs: &mut [u64],
    words: &mut [u32],
    marks: &mut [u8],
    plan: MissPlan,
    x: Access,
)
    requires { MissRoom g.at g.settings.readers plan longs.old words.old marks.old }
    ensures { lent longs.new words.new marks.new
        ≡ misses_written g.at g.settings.readers plan (address_of x) (ticket_of x) (lent longs.old words.old marks.old) }
{
    let readers = g.settings.readers;
    match plan {
        MissPlan::Stays => {}
        MissPlan::Joins { entry, count } => {
            tables::append_ticket(g.at, words, marks, entry, count, readers, ticket_of(x));
        }
        MissPlan::Starts(entry) => {
            let address = SectorAddress(values::address_of(x));
            tables::new_entry(
                g.at,
                longs,
                words,
                marks,
                entry,
                readers,
                address,
                ticket_of(x),
            );
        }
    }
}

// The queue entry of the access's read.
fn read_entry(x: Access) -> Queued
    ensures { result ≡ reading (address_of x) }
{
    Queued {
        address: values::address_of(x),
        masks: [0; 4],
        kind: QueueKind::Read,
    }
}

// The queue entry of the victim's write-back.
fn write_back_entry(b: Back) -> Queued
    ensures { result ≡ writing b.block b.masks }
{
    let masks = b.masks;
    Queued {
        address: b.block,
        masks,
        kind: QueueKind::WriteBack,
    }
}

// The write-back, if there is one, at queue place n.
fn queue_back(
    at: Layout,
    longs: &mut [u64],
    words: &mut [u32],
    marks: &mut [u8],
    n: usize,
    back: Option<Back>,
)
    requires { QueueRoom at (n + one (is_some back)) longs.old words.old marks.old }
    ensures { lent longs.new words.new marks.new
        ≡ queue_written at n (listed back) (lent longs.old words.old marks.old) }
{
    if let Some(b) = back {
        tables::push(at, longs, words, marks, n, write_back_entry(b));
    }
}

// What a read queues behind what stands there: itself and the write-back, where it misses.
fn queue_read(at: Layout, longs: &mut [u64], words: &mut [u32], marks: &mut [u8], o: Offer)
    requires { Alone o.access o.decision × QueueRoom at (o.queued + (one (is_miss o.decision.answer) + one (is_some o.decision.back))) longs.old words.old marks.old }
    ensures { lent longs.new words.new marks.new
        ≡ queue_written at o.queued (queues_of o.access o.decision) (lent longs.old words.old marks.old) }
{
    if is_miss(o.decision.answer) {
        tables::push(at, longs, words, marks, o.queued, read_entry(o.access));
        queue_back(at, longs, words, marks, o.queued + 1, o.decision.back);
    }
}

// How an access was answered.
fn answered(d: Decision) -> Event
    requires { d.line < 1024 }
    ensures { result ≡ Answered d.answer d.line }
{
    Event::Answered {
        answer: d.answer,
        line: d.line as u16,
    }
}

// What an accepted access tells that queues so many entries.
fn tell(d: Decision, queued: [Queued; 2], queues: usize) -> Reply
    requires { d.line < 1024 }
    ensures { result ≡ telling_queued d queued queues }
{
    Reply {
        queued,
        queues,
        ..tables::blank(answered(d))
    }
}

// What an accepted read tells.
fn tell_read(o: Offer) -> Reply
    requires { Alone o.access o.decision × (o.decision.line < 1024) }
    ensures { result ≡ telling_of o.access o.decision }
{
    let d = o.decision;
    if !is_miss(d.answer) {
        return tables::blank(answered(d));
    }
    let read = read_entry(o.access);
    match d.back {
        Some(b) => tell(d, [read, write_back_entry(b)], 2),
        None => tell(d, [read, values::idle()], 1),
    }
}

// What an accepted write tells.
fn tell_write(o: Offer) -> Reply
    requires { (is_read o.access ≡ false) × (o.decision.line < 1024) }
    ensures { result ≡ telling_of o.access o.decision }
{
    let d = o.decision;
    match d.back {
        Some(b) => tell(d, [write_back_entry(b), values::idle()], 1),
        None => tables::blank(answered(d)),
    }
}

// The line of a read, taken over or there.
fn read_line(g: Geometry, longs: &mut [u64], words: &mut [u32], marks: &mut [u8], o: Offer)
    requires { Meets g.settings (lent longs.old words.old marks.old) o.access o.decision × (is_read o.access ≡ true) }
    ensures { lent longs.new words.new marks.new
        ≡ line_offered g.settings g.at o (lent longs.old words.old marks.old) }
{
    if takes_line(o.decision.answer) {
        let one = read_sector(o.decision.answer, empty_sector());
        take_line(g, longs, words, marks, o, one);
    } else {
        found_line(g, longs, words, marks, o);
    }
}

// The act of a read that doesn't hit and is not refused; nothing is written before it.
pub(crate) fn act_read(
    g: Geometry,
    longs: &mut [u64],
    words: &mut [u32],
    marks: &mut [u8],
    o: Offer,
    plan: MissPlan,
) -> Reply
    requires acts { MayAct g.settings (lent longs.old words.old marks.old) o plan }
    requires reads { is_read o.access ≡ true }
    ensures { Acted g.settings (lent longs.old words.old marks.old) o plan result
        (lent longs.new words.new marks.new) }
{
    read_line(g, longs, words, marks, o);
    mark_set(g, words, o);
    write_misses(g, longs, words, marks, plan, o.access);
    queue_read(g.at, longs, words, marks, o);
    tell_read(o)
}

// The act of a write that takes a line over and is not refused; it leaves the miss table.
pub(crate) fn act_write(
    g: Geometry,
    longs: &mut [u64],
    words: &mut [u32],
    marks: &mut [u8],
    o: Offer,
) -> Reply
    requires acts { MayAct g.settings (lent longs.old words.old marks.old) o Stays }
    requires writes { is_read o.access ≡ false }
    requires takes { takes_line o.decision.answer ≡ true }
    ensures { Acted g.settings (lent longs.old words.old marks.old) o Stays result
        (lent longs.new words.new marks.new) }
{
    let one = written_sector(o.access, o.decision.answer, empty_sector());
    take_line(g, longs, words, marks, o, one);
    mark_set(g, words, o);
    queue_back(g.at, longs, words, marks, o.queued, o.decision.back);
    tell_write(o)
}

// A write's own sector of a line that is there becomes as the write leaves it, and the line is counted: dirty, or as it was if the status stays.
fn write_sector(g: Geometry, words: &mut [u32], marks: &mut [u8], o: Offer)
    requires { LineMayChange g o.decision.line words.old marks.old × (is_read o.access ≡ false) }
    ensures { SectorLeft g.settings g.at o.access o.decision.answer o.decision.line words.old marks.old words.new marks.new }
{
    let line = o.decision.line;
    let a = o.decision.answer;
    let one = written_sector(o.access, a, own_sector(g, words, marks, o));
    let k = values::sector_index(values::address_of(o.access));
    let was = tables::is_dirty(marks, line);
    // Two calls, as in `fetch_sector`.
    if is_merge(a) {
        tables::change(g, words, marks, line, k, one, was, was);
    } else {
        tables::change(g, words, marks, line, k, one, was, true);
    }
}

// A write to a line that is there: its own sector, the cycle, and the tree of its set. It queues nothing, so nothing refuses it.
pub(crate) fn act_change(
    g: Geometry,
    longs: &[u64],
    words: &mut [u32],
    marks: &mut [u8],
    o: Offer,
) -> Reply
    requires { Meets g.settings (lent longs.now words.old marks.old) o.access o.decision × (is_read o.access ≡ false) × (takes_line o.decision.answer ≡ false) }
    ensures { Offered g.settings (lent longs.now words.old marks.old) o.access o.decision (Ok result)
        (lent longs.now words.new marks.new) }
{
    write_sector(g, words, marks, o);
    touch(words, o.decision.line);
    turn_tree(g, words, o);
    tables::blank(answered(o.decision))
}

// A read that hits: its line's cycle and the tree of its set.
pub(crate) fn act_hit(g: Geometry, words: &mut [u32], o: Offer) -> Reply
    requires { (o.decision.line < 1024) × (1 + o.decision.line < length words.old) × TreeRoom g.settings g.at o.access (length words.old) }
    ensures value { result ≡ telling (Answered o.decision.answer o.decision.line) }
    ensures words_after { words.new
        ≡ trees_written g.settings g.at (set_index g.settings (address_of o.access)) o.decision.way (put words.old (1 + o.decision.line) (get_or words.old 0 0 ∷ [])) }
{
    touch(words, o.decision.line);
    turn_tree(g, words, o);
    tables::blank(answered(o.decision))
}
