// Events, commands and what a call tells, put where there is room for them; how many bytes each of them is; what each step tells, by the
// step.
ghost use Rattle.std.specs.Prelude.{◌≡◌, ℕ, true, ◌+◌, ◌*◌, ◌≤◌, List, ◌++◌, length, map, take};
ghost use Rattle.records.specs.Stores.{Laid};
ghost use Rattle.records.specs.Fitting.{Fitting, AllFitting, CommandFits};
ghost use Rattle.records.specs.Parts.{given};
ghost use Rattle.model.specs.declared.Event.TheVariants.{Released};
ghost use Rattle.model.specs.Steps.{queued_event};
ghost use Rattle.model.specs.Calls.{events_told};
ghost use Rattle.model.specs.Runner.{event_room};
ghost use Rattle.model.specs.ReplyShape.{of_access, of_send, of_fill, of_tick, Shaped};
ghost use Rattle.model.specs.Records.{bytes_of, write_back_bytes, event_bytes, log_bytes, settings_kind, rule_bytes, given_bytes, command_bytes};

use crate::format::{RULED_KIND, RULED_SIZE, SETTINGS_KIND, SETTINGS_SIZE};
use crate::numbers::Number;
use model::{Answer, Command, Event, Given, QueueKind, Queued, Refusal, Reply};

// What is written as records: an event, a command, all that a call tells.
pub trait Recorded: Copy {
    ghost bytes: { Self → List ℕ };

    ghost Fits: { Self → Type 0 };

    // How many bytes it is. Its numbers fit theirs: they are bound here because a bound number's type tells its range.
    fn size(self) -> usize
        ensures { (result ≡ length (bytes self)) × Fits self };

    // Its bytes, put where there is room for them.
    fn write(self, out: &mut [u8], at: usize) -> usize
        requires { at + length (bytes self) ≤ length out.old }
        ensures { Laid out.old at (length (bytes self)) (bytes self) result out.new };
}

// A kind and a number.
fn put_numbered<T: Number>(out: &mut [u8], at: usize, kind: u8, x: T) -> usize
    requires { at + (1 + T.size) ≤ length out.old }
    ensures { Laid out.old at (1 + T.size) (bytes_of 1 kind ++ bytes_of T.size (T.value x)) result out.new }
{
    let i = kind.put(out, at);
    x.put(out, i)
}

// A kind, a block and four masks.
fn put_back(
    out: &mut [u8],
    at: usize,
    kind: u8,
    block: u64,
    m0: u32,
    m1: u32,
    m2: u32,
    m3: u32,
) -> usize
    requires { at + 25 ≤ length out.old }
    ensures { Laid out.old at 25 (bytes_of 1 kind ++ write_back_bytes block m0 m1 m2 m3) result out.new }
{
    let i = put_numbered(out, at, kind, block);
    let j = m0.put(out, i);
    let k = m1.put(out, j);
    let l = m2.put(out, k);
    m3.put(out, l)
}

// An answer's record.
fn put_answer(out: &mut [u8], at: usize, answer: Answer, line: u16) -> usize
    requires { at + 4 ≤ length out.old }
    ensures { Laid out.old at 4 (event_bytes (Event.Answered answer line)) result out.new }
{
    let i = 0x10u8.put(out, at);
    let j = u8::from(answer).put(out, i);
    line.put(out, j)
}

// A refusal's record.
fn put_refusal(out: &mut [u8], at: usize, n: Refusal) -> usize
    requires { at + 2 ≤ length out.old }
    ensures { Laid out.old at 2 (event_bytes (Event.Refused n)) result out.new }
{
    let i = 0x11u8.put(out, at);
    u8::from(n).put(out, i)
}

impl Recorded for Event {
    ghost bytes = { event_bytes };

    ghost Fits = { Fitting };

    fn size(self) -> usize {
        match self {
            Event::Answered {
                answer: _,
                line: _line,
            } => 4,
            Event::Refused(_) => 2,
            Event::ReadQueued(_address) => 9,
            Event::WriteBackQueued {
                block: _block,
                m0: _m0,
                m1: _m1,
                m2: _m2,
                m3: _m3,
            } => 25,
            Event::Released(_ticket) => 5,
            Event::ReadSent(_address) => 9,
            Event::WriteBackSent {
                block: _block,
                m0: _m0,
                m1: _m1,
                m2: _m2,
                m3: _m3,
            } => 25,
            Event::Filled(_address) => 9,
            Event::Ticked => 1,
        }
    }

    fn write(self, out: &mut [u8], at: usize) -> usize {
        match self {
            Event::Answered { answer, line } => put_answer(out, at, answer, line),
            Event::Refused(n) => put_refusal(out, at, n),
            Event::ReadQueued(a) => put_numbered(out, at, 0x12, a),
            Event::WriteBackQueued {
                block,
                m0,
                m1,
                m2,
                m3,
            } => put_back(out, at, 0x13, block, m0, m1, m2, m3),
            Event::Released(t) => put_numbered(out, at, 0x14, t),
            Event::ReadSent(a) => put_numbered(out, at, 0x15, a),
            Event::WriteBackSent {
                block,
                m0,
                m1,
                m2,
                m3,
            } => put_back(out, at, 0x16, block, m0, m1, m2, m3),
            Event::Filled(a) => put_numbered(out, at, 0x17, a),
            Event::Ticked => 0x18u8.put(out, at),
        }
    }
}

// A kind, an address and four bytes.
fn put_request(out: &mut [u8], at: usize, kind: u8, address: u64, x: u32) -> usize
    requires { at + 13 ≤ length out.old }
    ensures { Laid out.old at 13 (bytes_of 1 kind ++ (bytes_of 8 address ++ bytes_of 4 x)) result out.new }
{
    let i = put_numbered(out, at, kind, address);
    x.put(out, i)
}

// The kind of a settings record with this rule.
fn settings_kind(rule: Option<u8>) -> u8
    ensures { result ≡ settings_kind rule }
{
    match rule {
        None => SETTINGS_KIND,
        Some(_) => RULED_KIND,
    }
}

// The rule byte of a settings record that says it.
fn put_rule(out: &mut [u8], at: usize, rule: Option<u8>) -> usize
    requires { at + length (rule_bytes rule) ≤ length out.old }
    ensures { Laid out.old at (length (rule_bytes rule)) (rule_bytes rule) result out.new }
{
    match rule {
        None => at,
        Some(r) => r.put(out, at),
    }
}

// The settings in front of the rule byte.
fn put_numbers(
    out: &mut [u8],
    at: usize,
    sets: u16,
    ways: u8,
    dirty: u8,
    misses: u8,
    readers: u8,
    queue: u8,
) -> usize
    requires { at + 7 ≤ length out.old }
    ensures { Laid out.old at 7 (given_bytes (given sets ways dirty misses readers queue None)) result out.new }
{
    let i = sets.put(out, at);
    let j = ways.put(out, i);
    let k = dirty.put(out, j);
    let l = misses.put(out, k);
    let m = readers.put(out, l);
    queue.put(out, m)
}

// A settings record.
fn put_settings(out: &mut [u8], at: usize, g: Given) -> usize
    requires { at + length (command_bytes (Command.Settings g)) ≤ length out.old }
    ensures { Laid out.old at (length (command_bytes (Command.Settings g))) (command_bytes (Command.Settings g)) result out.new }
{
    let rule = g.rule;
    let i = settings_kind(rule).put(out, at);
    let j = put_numbers(
        out, i, g.sets, g.ways, g.dirty, g.misses, g.readers, g.queue,
    );
    put_rule(out, j, rule)
}

// How many bytes settings are, with numbers that fit theirs, as in an event's `size`.
// Beside `settings_kind`: a kind and a size for each, which are no instances of one.
fn settings_size(
    sets: u16,
    ways: u8,
    dirty: u8,
    misses: u8,
    readers: u8,
    queue: u8,
    rule: Option<u8>,
) -> usize
    ensures { (result ≡ length (command_bytes (Command.Settings (given sets ways dirty misses readers queue rule))))
        × CommandFits (Command.Settings (given sets ways dirty misses readers queue rule)) }
{
    match rule {
        None => SETTINGS_SIZE,
        Some(_rule) => RULED_SIZE,
    }
}

impl Recorded for Command {
    ghost bytes = { command_bytes };

    ghost Fits = { CommandFits };

    fn size(self) -> usize {
        match self {
            Command::Settings(g) => {
                let rule = g.rule;
                settings_size(g.sets, g.ways, g.dirty, g.misses, g.readers, g.queue, rule)
            }
            Command::Read {
                address: _address,
                ticket: _ticket,
            } => 13,
            Command::Write {
                address: _address,
                mask: _mask,
            } => 13,
            Command::Send => 1,
            Command::Fill(_address) => 9,
            Command::Tick(_cycle) => 5,
        }
    }

    fn write(self, out: &mut [u8], at: usize) -> usize {
        match self {
            Command::Settings(g) => put_settings(out, at, g),
            Command::Read { address, ticket } => put_request(out, at, 1, address, ticket),
            Command::Write { address, mask } => put_request(out, at, 2, address, mask),
            Command::Send => 3u8.put(out, at),
            Command::Fill(address) => put_numbered(out, at, 4, address),
            Command::Tick(cycle) => put_numbered(out, at, 5, cycle),
        }
    }
}

// The entries that a call queued, in order.
fn put_queued(out: &mut [u8], at: usize, queued: &[Queued]) -> usize
    requires { at + length (log_bytes (map queued_event queued.now)) ≤ length out.old }
    ensures { Laid out.old at (length (log_bytes (map queued_event queued.now))) (log_bytes (map queued_event queued.now)) result out.new }
{
    let mut i = at;
    for x in queued {
        i = values::queued_event(*x).write(out, i);
    }
    i
}

// The tickets that a call released, in order.
// Not as `put_queued`: a ticket is a plain number, and no record by itself.
fn put_tickets(out: &mut [u8], at: usize, tickets: &[u32]) -> usize
    requires { at + 5 * length tickets.now ≤ length out.old }
    ensures { Laid out.old at (5 * length tickets.now) (log_bytes (map Released tickets.now)) result out.new }
{
    let mut i = at;
    for t in tickets {
        i = put_numbered(out, i, 0x14, *t);
    }
    i
}

// The first so many: a value has room for two entries and eight tickets, and a greater count means all of them.
fn first_of<T>(all: &[T], count: usize) -> &[T]
    ensures { result.now ≡ take count all.now }
{
    &all[..count.min(all.len())]
}

// How many bytes the events of the entries are, with numbers that fit theirs.
fn queued_size(queued: &[Queued]) -> usize
    requires { length queued.now ≤ 2 }
    ensures { (result ≡ length (log_bytes (map queued_event queued.now))) × (result ≤ 50) × AllFitting (map queued_event queued.now) }
{
    let mut n = 0;
    for x in queued {
        n += values::queued_event(*x).size();
    }
    n
}

impl Recorded for Reply {
    ghost bytes = { λ r. log_bytes (events_told r) };

    ghost Fits = { λ r. AllFitting (events_told r) };

    fn size(self) -> usize {
        let queued = first_of(&self.queued, self.queues);
        let tickets = first_of(&self.tickets, self.count);
        self.first.size() + queued_size(queued) + 5 * tickets.len()
    }

    fn write(self, out: &mut [u8], at: usize) -> usize {
        let queued = first_of(&self.queued, self.queues);
        let tickets = first_of(&self.tickets, self.count);
        let i = self.first.write(out, at);
        let j = put_queued(out, i, queued);
        put_tickets(out, j, tickets)
    }
}

// What a step tells, for a caller that knows which step it was and has looked for room: a writer for each step is small enough to be
// inlined where the step is called. First the event of an entry.
fn put_entry(out: &mut [u8], at: usize, x: Queued) -> usize
    requires { at + length (event_bytes (queued_event x)) ≤ length out.old }
    ensures { Laid out.old at (length (event_bytes (queued_event x))) (event_bytes (queued_event x)) result out.new }
{
    let kind = x.kind;
    let m = x.masks;
    match kind {
        QueueKind::Read => put_numbered(out, at, 0x12, x.address),
        QueueKind::WriteBack => put_back(out, at, 0x13, x.address, m[0], m[1], m[2], m[3]),
    }
}

// The first event of an access; the shape excludes the others, here and below.
fn put_access_first(e: Event, out: &mut [u8], at: usize) -> usize
    requires { (of_access e ≡ true) × (at + length (event_bytes e) ≤ length out.old) }
    ensures { Laid out.old at (length (event_bytes e)) (event_bytes e) result out.new }
{
    match e {
        Event::Answered { answer, line } => put_answer(out, at, answer, line),
        Event::Refused(n) => put_refusal(out, at, n),
        _ => at,
    }
}

// The events of an access: its answer or its refusal, then up to two entries. Each entry is read at a place that is known, in no loop: so an
// inlined value stays out of memory.
pub fn put_access(reply: Reply, out: &mut [u8], at: usize) -> usize
    requires { Shaped of_access 2 0 reply × (at + event_room ≤ length out.old) }
    ensures { Laid out.old at (length (log_bytes (events_told reply))) (log_bytes (events_told reply)) result out.new }
{
    let first = reply.first;
    let queued = reply.queued;
    let i = put_access_first(first, out, at);
    if reply.queues == 0 {
        return i;
    }
    let x = queued[0];
    let j = put_entry(out, i, x);
    if reply.queues == 1 {
        return j;
    }
    let y = queued[1];
    put_entry(out, j, y)
}

// The event of a send.
pub fn put_sent(reply: Reply, out: &mut [u8], at: usize) -> usize
    requires { Shaped of_send 0 0 reply × (at + event_room ≤ length out.old) }
    ensures { Laid out.old at (length (log_bytes (events_told reply))) (log_bytes (events_told reply)) result out.new }
{
    let first = reply.first;
    match first {
        Event::ReadSent(a) => put_numbered(out, at, 0x15, a),
        Event::WriteBackSent {
            block,
            m0,
            m1,
            m2,
            m3,
        } => put_back(out, at, 0x16, block, m0, m1, m2, m3),
        Event::Refused(n) => put_refusal(out, at, n),
        _ => at,
    }
}

// The first event of a fill.
fn put_fill_first(e: Event, out: &mut [u8], at: usize) -> usize
    requires { (of_fill e ≡ true) × (at + length (event_bytes e) ≤ length out.old) }
    ensures { Laid out.old at (length (event_bytes e)) (event_bytes e) result out.new }
{
    match e {
        Event::Filled(a) => put_numbered(out, at, 0x17, a),
        Event::Refused(n) => put_refusal(out, at, n),
        _ => at,
    }
}

// The events of a fill: its sector or its refusal, then the tickets.
pub fn put_filled(reply: Reply, out: &mut [u8], at: usize) -> usize
    requires { Shaped of_fill 0 8 reply × (at + event_room ≤ length out.old) }
    ensures { Laid out.old at (length (log_bytes (events_told reply))) (log_bytes (events_told reply)) result out.new }
{
    let first = reply.first;
    // Lent by themselves: the compiler then keeps the rest of the reply in no memory.
    let tickets = reply.tickets;
    let i = put_fill_first(first, out, at);
    put_tickets(out, i, &tickets[..reply.count])
}

// The event of a tick.
pub fn put_ticked(reply: Reply, out: &mut [u8], at: usize) -> usize
    requires { Shaped of_tick 0 0 reply × (at + event_room ≤ length out.old) }
    ensures { Laid out.old at (length (log_bytes (events_told reply))) (log_bytes (events_told reply)) result out.new }
{
    let first = reply.first;
    match first {
        Event::Ticked => 0x18u8.put(out, at),
        Event::Refused(n) => put_refusal(out, at, n),
        _ => at,
    }
}
