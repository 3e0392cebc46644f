// The types of the cache model (document 01), with document 01's number for each case; in `numbers` these numbers and back, in `commands`
// the access of a command and back.
// Settings; sector status, sector and addresses; answers and refusals; an access; commands, events and the reading of
// records; an entry of the queue; what a call tells and what a run returns.
#![tactic(auto)]

mod commands;
mod numbers;

// "The modelled cache": the settings, any values; document 01's ranges are checked by number 1.
// Numbers, the rule too, and no enum: settings are any values until refusal 1 looks at them.
#[derive(Clone, Copy)]
pub struct Settings {
    pub sets: usize,
    pub ways: usize,
    pub dirty: usize,
    pub misses: usize,
    pub readers: usize,
    pub queue: usize,
    pub rule: usize,
}

#[derive(Clone, Copy, PartialEq, Eq)]
pub enum Status {
    Invalid = 0,
    Reserved = 1,
    Valid = 2,
    Modified = 3,
}

#[derive(Clone, Copy)]
pub struct Sector {
    pub status: Status,
    pub mask: u32,
    pub readable: bool,
}

// A block address: what tags are compared with.
#[derive(Clone, Copy, PartialEq, Eq)]
pub struct BlockAddress(pub u64);

// A sector address: what the miss table is searched for.
#[derive(Clone, Copy, PartialEq, Eq)]
pub struct SectorAddress(pub u64);

#[derive(Clone, Copy, PartialEq, Eq)]
pub enum Answer {
    Hit = 1,
    HitReserved = 2,
    Miss = 3,
    SectorMiss = 4,
}

// "Refusal numbers", in document 01's order: 1 to 12.
#[derive(Clone, Copy, PartialEq, Eq)]
pub enum Refusal {
    SettingOutOfRange = 1,
    SliceLength = 2,
    NotSound = 3,
    BadAccess = 4,
    SetBusy = 5,
    SetHeld = 6,
    QueueFull = 7,
    EntryFull = 8,
    MissTableFull = 9,
    NotSent = 10,
    BadCycle = 11,
    QueueEmpty = 12,
}

// One access: a read wants mask 0, a write leaves its ticket unused.
#[derive(Clone, Copy)]
pub enum Access {
    Read {
        address: u64,
        mask: u32,
        ticket: u32,
    },
    Write {
        address: u64,
        mask: u32,
        ticket: u32,
    },
}

// "Records": the events. A write-back's four masks stand side by side: of an
// array the definitions would have a list, and every law of an event would have to say that it has four.
#[derive(Clone, Copy)]
pub enum Event {
    Answered {
        answer: Answer,
        line: u16,
    },
    Refused(Refusal),
    ReadQueued(u64),
    WriteBackQueued {
        block: u64,
        m0: u32,
        m1: u32,
        m2: u32,
        m3: u32,
    },
    Released(u32),
    ReadSent(u64),
    WriteBackSent {
        block: u64,
        m0: u32,
        m1: u32,
        m2: u32,
        m3: u32,
    },
    Filled(u64),
    Ticked,
}

// The settings as a record gives them, unjudged.
#[derive(Clone, Copy)]
pub struct Given {
    pub sets: u16,
    pub ways: u8,
    pub dirty: u8,
    pub misses: u8,
    pub readers: u8,
    pub queue: u8,
    // Kind 0 has none, which means least recently used (L1).
    pub rule: Option<u8>,
}

// "Records": the commands, unjudged.
#[derive(Clone, Copy)]
pub enum Command {
    Settings(Given),
    Read { address: u64, ticket: u32 },
    Write { address: u64, mask: u32 },
    Send,
    Fill(u64),
    Tick(u32),
}

// A record's kind, where its body lies and where the next record begins.
#[derive(Clone, Copy)]
pub struct Body {
    pub kind: u8,
    pub start: usize,
    pub len: usize,
    pub next: usize,
}

// "Records", the stop numbers: 1, 2, 3, 13, 14, 15, 16; where nothing stops, 0.
#[derive(Clone, Copy, PartialEq, Eq)]
pub enum Stop {
    SettingOutOfRange = 1,
    SliceLength = 2,
    NotSound = 3,
    OutOfPlace = 13,
    UnknownKind = 14,
    CutShort = 15,
    NoRoom = 16,
}

// What a run of a stream returns: why it stopped, the bytes consumed before that and the bytes written.
#[derive(Clone, Copy)]
pub struct Ran {
    pub stop: Option<Stop>,
    pub consumed: usize,
    pub written: usize,
}

#[derive(Clone, Copy, PartialEq, Eq)]
pub enum QueueKind {
    Read = 1,
    WriteBack = 2,
}

// An entry of the queue: a read of a sector address, its masks zero, or a write-back of a block address with its four masks.
#[derive(Clone, Copy)]
pub struct Queued {
    pub address: u64,
    pub masks: [u32; 4],
    pub kind: QueueKind,
}

// What a call tells: its first event, then the first `queues` entries, which it queued, then the first `count` tickets, which it
// released.
// Arrays with counts: a reply is copied, and no heap is used.
#[derive(Clone, Copy)]
pub struct Reply {
    pub first: Event,
    pub queued: [Queued; 2],
    pub queues: usize,
    pub tickets: [u32; 8],
    pub count: usize,
}
