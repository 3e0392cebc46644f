// The model's values in code: the number of what stopped a run, the event of a queued entry, what an address says, the constant table of answers.
#![tactic(auto)]

ghost use Rattle.std.specs.Prelude.{◌≡◌, ◌/◌, ◌%◌, ◌<◌, true, get_or};
ghost use Rattle.model.specs.Range.{power_to256};
ghost use Rattle.model.specs.declared.Answer.TheVariants.{Hit};
ghost use Rattle.model.specs.Probe.{answer_at, answer_of};
ghost use Rattle.model.specs.Numbers.{stop_number};
ghost use Rattle.model.specs.Tables.{idle};
ghost use Rattle.model.specs.Steps.{queued_event, sent_event};
ghost use Rattle.model.specs.Address.{address_of, block_of, sector_address_of, sector_index};

use model::{
    Access, Answer, BlockAddress, Event, QueueKind, Queued, Sector, SectorAddress, Status, Stop,
};

// The number of what stopped, 0 where nothing did.
pub fn stop_number(stop: Option<Stop>) -> u8
    ensures { result ≡ stop_number stop }
{
    stop.map_or(0, u8::from)
}

// What stands in an unused place of what a call tells.
pub fn idle() -> Queued
    ensures { result ≡ idle }
{
    Queued {
        address: 0,
        masks: [0; 4],
        kind: QueueKind::Read,
    }
}

// The event of an entry that is queued.
// Two functions, this and the next: an event's kind is its variant, which is no value to pass.
pub fn queued_event(x: Queued) -> Event
    ensures { result ≡ queued_event x }
{
    let kind = x.kind;
    let m = x.masks;
    match kind {
        QueueKind::Read => Event::ReadQueued(x.address),
        QueueKind::WriteBack => Event::WriteBackQueued {
            block: x.address,
            m0: m[0],
            m1: m[1],
            m2: m[2],
            m3: m[3],
        },
    }
}

// The event of an entry that is sent.
pub fn sent_event(x: Queued) -> Event
    ensures { result ≡ sent_event x }
{
    let kind = x.kind;
    let m = x.masks;
    match kind {
        QueueKind::Read => Event::ReadSent(x.address),
        QueueKind::WriteBack => Event::WriteBackSent {
            block: x.address,
            m0: m[0],
            m1: m[1],
            m2: m[2],
            m3: m[3],
        },
    }
}

// The address of an access.
pub fn address_of(x: Access) -> u64
    ensures { result ≡ address_of x }
{
    match x {
        Access::Read { address, .. } | Access::Write { address, .. } => address,
    }
}

// The block that an address lies in.
pub fn block_of(address: u64) -> BlockAddress
    ensures { result.0 ≡ block_of address }
{
    BlockAddress(address - address % 128)
}

// "(address / 128) mod sets", without dividing by sets, a power of two: the one place where it is worked out.
pub fn set_index(address: u64, sets: usize) -> usize
    requires { power_to256 sets ≡ true }
    ensures { result ≡ address / 128 % sets }
{
    (address / 128 & (sets as u64 - 1)) as usize
}

// The sector that an address lies in.
pub fn sector_of(address: u64) -> SectorAddress
    ensures { result.0 ≡ sector_address_of address }
{
    SectorAddress(address - address % 32)
}

// Which of its line's four sectors an address lies in.
pub fn sector_index(address: u64) -> usize
    ensures { (result ≡ sector_index address) × (result < 4) }
{
    (address % 128 / 32) as usize
}

// The same as a byte: four sectors compared with it are compared at once.
pub fn sector_number(address: u64) -> u8
    ensures { (result ≡ sector_index address) × (result < 4) }
{
    (address % 256) as u8 / 32 % 4
}

// "Probe and victim": the answer by status, a row each, and by column: a write, a read of a readable sector, of an unreadable one.
const ANSWERS: [[Answer; 3]; 4] = [
    [Answer::SectorMiss, Answer::SectorMiss, Answer::SectorMiss],
    [
        Answer::HitReserved,
        Answer::HitReserved,
        Answer::HitReserved,
    ],
    [Answer::Hit, Answer::Hit, Answer::Hit],
    [Answer::Hit, Answer::Hit, Answer::SectorMiss],
];

// A row's answer at a column. Each index is a constant, so that the compiler keeps no table in memory.
fn in_row(row: [Answer; 3], column: usize) -> Answer
    requires { column < 3 }
    ensures { result ≡ get_or row column Hit }
{
    match column {
        0 => row[0],
        1 => row[1],
        _ => row[2],
    }
}

// A status's answer at a column of the table, by number as `answer_at` has it: 0 of a write, 1 of a read that may read the sector, 2 of a
// read that may not.
fn in_column(status: Status, column: usize) -> Answer
    requires { column < 3 }
    ensures { result ≡ answer_at status column }
{
    match status {
        Status::Invalid => in_row(ANSWERS[0], column),
        Status::Reserved => in_row(ANSWERS[1], column),
        Status::Valid => in_row(ANSWERS[2], column),
        Status::Modified => in_row(ANSWERS[3], column),
    }
}

// The answer of an access to a sector of a line that has its tag. A read and a write part here: a write doesn't ask what may be read.
pub fn answer_of(x: Access, s: Sector) -> Answer
    ensures { result ≡ answer_of x s }
{
    let status = s.status;
    match x {
        Access::Read { .. } => {
            if s.readable {
                in_column(status, 1)
            } else {
                in_column(status, 2)
            }
        }
        Access::Write { .. } => in_column(status, 0),
    }
}
