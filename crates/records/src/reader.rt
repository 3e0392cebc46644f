// Records, and the events and commands that they are, read out of a stream of any bytes.
ghost use Rattle.std.specs.Prelude.{◌≡◌, true, ◌+◌, ◌≤◌, length};
ghost use Rattle.records.specs.Parts.{PartAt};
ghost use Rattle.records.specs.Items.{item_whole, item_stopped, item_at};
ghost use Rattle.model.specs.Records.{length_of, is_command, is_settings, read_at, answered, refused_by, event_of, rule_in, given_in, command_of};

use crate::Item;
use crate::format::{COMMAND_KINDS, LENGTHS, RULE_PLACE, RULED_KIND, SETTINGS_KIND};
use crate::numbers::Number;
use model::{Answer, Body, Command, Event, Given, Refusal, Stop};

// The length of a body of a kind.
pub fn length_of(kind: u8) -> u8
    ensures { result ≡ length_of kind }
{
    let k = kind as usize;
    if k < 25 { LENGTHS[k] } else { 255 }
}

// Whether a kind is a command's: "To the runner event kinds are unknown kinds".
pub fn is_command(kind: u8) -> bool
    ensures { result ≡ is_command kind }
{
    kind < COMMAND_KINDS
}

// Whether a kind is that of a settings record.
pub fn is_settings(kind: u8) -> bool
    ensures { result ≡ is_settings kind }
{
    (kind == SETTINGS_KIND) | (kind == RULED_KIND)
}

// "it refuses with 14 (a kind in neither list), then 15, also where no byte is left"
pub fn read_at(stream: &[u8], at: usize) -> Result<Body, Stop>
    ensures { result ≡ read_at stream.now at }
{
    if stream.len() <= at {
        return Err(Stop::CutShort);
    }
    let kind = stream[at];
    let n = length_of(kind);
    if n == 255 {
        return Err(Stop::UnknownKind);
    }
    let len = n as usize;
    let start = at + 1;
    if len <= stream.len() - start {
        Ok(Body {
            kind,
            start,
            len,
            next: start + len,
        })
    } else {
        Err(Stop::CutShort)
    }
}

// The body of a command's record that is there whole. Where the caller's kind is a constant, the table of lengths folds away.
pub fn body_of(stream: &[u8], at: usize, kind: u8) -> &[u8]
    requires { (is_command kind ≡ true) × (at + 1 + length_of kind ≤ length stream.now) }
    ensures { PartAt stream.entry (at + 1) (length_of kind) result }
{
    let k = kind as usize;
    let start = at + 1;
    let next = start + LENGTHS[k] as usize;
    &stream[start..next]
}

// The answer of a number, with its line.
// By hand: `event_of` gives None for another number, and no error is told.
fn answer_event(n: u8, line: u16) -> Option<Event>
    ensures { result ≡ answered n line }
{
    match n {
        1 => Some(Event::Answered {
            answer: Answer::Hit,
            line,
        }),
        2 => Some(Event::Answered {
            answer: Answer::HitReserved,
            line,
        }),
        3 => Some(Event::Answered {
            answer: Answer::Miss,
            line,
        }),
        4 => Some(Event::Answered {
            answer: Answer::SectorMiss,
            line,
        }),
        _ => None,
    }
}

// The refusals in the order of their numbers, from 1 on.
const REFUSALS: [Refusal; 12] = [
    Refusal::SettingOutOfRange,
    Refusal::SliceLength,
    Refusal::NotSound,
    Refusal::BadAccess,
    Refusal::SetBusy,
    Refusal::SetHeld,
    Refusal::QueueFull,
    Refusal::EntryFull,
    Refusal::MissTableFull,
    Refusal::NotSent,
    Refusal::BadCycle,
    Refusal::QueueEmpty,
];

// The refusal of a number.
fn refusal_event(n: u8) -> Option<Event>
    ensures { result ≡ refused_by n }
{
    let k = n as usize;
    if k < 1 {
        return None;
    }
    if 12 < k {
        return None;
    }
    Some(Event::Refused(REFUSALS[k - 1]))
}

// The event of a body of a kind.
pub fn event_of(kind: u8, b: &[u8]) -> Option<Event>
    ensures { result ≡ event_of kind b.now }
{
    if b.len() != length_of(kind) as usize {
        return None;
    }
    match kind {
        0x10 => answer_event(Number::read(b, 0), Number::read(b, 1)),
        0x11 => refusal_event(Number::read(b, 0)),
        0x12 => Some(Event::ReadQueued(Number::read(b, 0))),
        0x13 => Some(Event::WriteBackQueued {
            block: Number::read(b, 0),
            m0: Number::read(b, 8),
            m1: Number::read(b, 12),
            m2: Number::read(b, 16),
            m3: Number::read(b, 20),
        }),
        0x14 => Some(Event::Released(Number::read(b, 0))),
        0x15 => Some(Event::ReadSent(Number::read(b, 0))),
        0x16 => Some(Event::WriteBackSent {
            block: Number::read(b, 0),
            m0: Number::read(b, 8),
            m1: Number::read(b, 12),
            m2: Number::read(b, 16),
            m3: Number::read(b, 20),
        }),
        0x17 => Some(Event::Filled(Number::read(b, 0))),
        0x18 => Some(Event::Ticked),
        _ => None,
    }
}

// The rule byte, where the kind has one.
fn rule_in(kind: u8, b: &[u8]) -> Option<u8>
    ensures { result ≡ rule_in kind b.now }
{
    if kind == RULED_KIND {
        Some(Number::read(b, RULE_PLACE))
    } else {
        None
    }
}

// The settings of a body of a settings kind.
fn given_in(kind: u8, b: &[u8]) -> Given
    ensures { result ≡ given_in kind b.now }
{
    Given {
        sets: Number::read(b, 0),
        ways: Number::read(b, 2),
        dirty: Number::read(b, 3),
        misses: Number::read(b, 4),
        readers: Number::read(b, 5),
        queue: Number::read(b, 6),
        rule: rule_in(kind, b),
    }
}

// The command of a body of a kind, unjudged.
pub fn command_of(kind: u8, b: &[u8]) -> Option<Command>
    ensures { result ≡ command_of kind b.now }
{
    if b.len() != length_of(kind) as usize {
        return None;
    }
    if is_settings(kind) {
        return Some(Command::Settings(given_in(kind, b)));
    }
    match kind {
        1 => Some(Command::Read {
            address: Number::read(b, 0),
            ticket: Number::read(b, 8),
        }),
        2 => Some(Command::Write {
            address: Number::read(b, 0),
            mask: Number::read(b, 8),
        }),
        3 => Some(Command::Send),
        4 => Some(Command::Fill(Number::read(b, 0))),
        5 => Some(Command::Tick(Number::read(b, 0))),
        _ => None,
    }
}

// A whole record: its command, or its event, if it is either's.
fn whole_item(kind: u8, next: usize, c: Option<Command>, e: Option<Event>) -> Item
    ensures { result ≡ item_whole kind next c e }
{
    match c {
        Some(command) => Item::Command { command, next },
        None => match e {
            Some(event) => Item::Event { event, next },
            None => Item::Strange(kind),
        },
    }
}

// A record that reading stops at, with so many bytes behind its kind.
fn stopped_item(kind: u8, left: usize) -> Item
    ensures { result ≡ item_stopped kind left }
{
    let wants = length_of(kind);
    if wants == 255 {
        Item::Unknown(kind)
    } else {
        Item::Cut { kind, wants, left }
    }
}

// What stands at a place of a stream.
pub fn item_at(stream: &[u8], at: usize) -> Item
    ensures { result ≡ item_at stream.now at }
{
    if stream.len() <= at {
        return Item::End;
    }
    match read_at(stream, at) {
        Ok(found) => {
            let kind = found.kind;
            let body = &stream[found.start..found.next];
            whole_item(
                kind,
                found.next,
                command_of(kind, body),
                event_of(kind, body),
            )
        }
        Err(_) => stopped_item(stream[at], stream.len() - (at + 1)),
    }
}
