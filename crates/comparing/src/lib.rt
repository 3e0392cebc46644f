// Two logs side by side: the groups of a log, the refusals of one that cannot be read so, and the first pair of groups that differs
// from a number on. In order: kinds, records, the check of a log, groups, bytes, pairs. Logs that come in parts, of any length: the
// check in `checks`, the pairs in `walking`.
#![tactic(auto)]

pub mod checks;
pub mod walking;

ghost use Rattle.std.specs.Prelude.{◌≡◌, ◌-◌, ◌<◌, length, take, drop};
ghost use Rattle.comparing.specs.Kinds.{starts_group, is_event};
ghost use Rattle.comparing.specs.Checks.{wrong_number, wrong_at, scanned, checked};
ghost use Rattle.comparing.specs.Groups.{group_end, group_side};
ghost use Rattle.comparing.specs.Groups.{record_past};
ghost use Rattle.comparing.specs.Pairs.{same_bytes, at_start, found_pair, compared};

// One of the two logs.
#[derive(Clone, Copy, PartialEq, Eq)]
pub enum Log {
    First,
    Second,
}

// Why a log is refused: a kind that is no event's; a record that is cut short; it begins inside a group.
#[derive(Clone, Copy, PartialEq, Eq)]
pub enum Wrong {
    UnknownKind,
    CutShort,
    InsideGroup,
}

// The number of the refusal.
impl From<Wrong> for u8 {
    ghost from_gives = { λ w n. n ≡ wrong_number w };

    fn from(wrong: Wrong) -> u8 {
        match wrong {
            Wrong::UnknownKind => 14,
            Wrong::CutShort => 15,
            Wrong::InsideGroup => 17,
        }
    }
}

// What is wrong with a log, and where.
#[derive(Clone, Copy, PartialEq, Eq)]
pub struct Fault {
    pub wrong: Wrong,
    pub place: usize,
}

// Which log is refused, and why.
#[derive(Clone, Copy, PartialEq, Eq)]
pub struct Refused {
    pub log: Log,
    pub fault: Fault,
}

// A part of a log.
#[derive(Clone, Copy, PartialEq, Eq)]
pub struct Part {
    pub place: usize,
    pub size: usize,
}

// A pair of groups that differs: its number, and each side.
#[derive(Clone, Copy, PartialEq, Eq)]
pub struct Difference {
    pub number: usize,
    pub first: Part,
    pub second: Part,
}

// Where the groups of a number begin in both logs.
#[derive(Clone, Copy)]
pub struct Cursor {
    pub number: usize,
    pub first: usize,
    pub second: usize,
}

// The first pair that differs, if there is one, and a cursor behind it to go on from.
#[derive(Clone, Copy)]
pub struct Found {
    pub difference: Option<Difference>,
    pub next: Cursor,
}

// The check of a log that comes in parts: the bytes passed; of its last record the place, how many bytes of the body are to come, and
// whether its kind is no event's; whether the log begins inside a group.
// `place` is the last record's in every case, so that `wrong` is no Option of it.
#[derive(Clone, Copy)]
pub struct Checking {
    pub passed: usize,
    pub place: usize,
    pub body: u8,
    pub wrong: bool,
    pub inside: bool,
}

// One side of the pair that is being passed: where its group begins, and the bytes of it that are passed.
#[derive(Clone, Copy)]
pub struct Side {
    pub place: usize,
    pub passed: usize,
}

// Two logs that come in parts, passed record by record: the pair and its sides, whether they are the same so far; of the pairs before
// it how many differ, and the lowest number among those, if there is one.
#[derive(Clone, Copy)]
pub struct Walk {
    pub number: usize,
    pub first: Side,
    pub second: Side,
    pub same: bool,
    pub differing: usize,
    pub lowest: Option<usize>,
}

// The bytes to come of a log, and whether no more come behind them.
#[derive(Clone, Copy)]
pub struct Ahead<'a> {
    pub bytes: &'a [u8],
    pub ends: bool,
}

// The next step over two logs: a log has to show more bytes; the next record of each side, by its length (0 behind a group's end), and
// whether the two are the same; the end of a pair, and whether it differs; the end of both logs.
// A length of 0 and no Option: a side that is over passes no bytes.
#[derive(Clone, Copy)]
pub enum Step {
    Wants(Log),
    Row {
        first: usize,
        second: usize,
        same: bool,
        next: Walk,
    },
    Pair {
        differs: bool,
        next: Walk,
    },
    Over,
}

// "A group starts at 0x10, 0x11, 0x15, 0x16, 0x17 or 0x18".
const STARTERS: [u8; 6] = [0x10, 0x11, 0x15, 0x16, 0x17, 0x18];

// Whether a record of a kind starts a group.
#[tactic(auto, unfolding(crate::specs::Kinds::starts_group))]
pub fn starts(kind: u8) -> bool
    ensures { result ≡ starts_group kind }
{
    STARTERS.contains(&kind)
}

// Whether a kind is an event's.
fn is_event(kind: u8) -> bool
    ensures { result ≡ is_event kind }
{
    !records::is_command(kind) && records::length_of(kind) != 255
}

// The place behind the record at a place, no further than the log goes.
#[tactic(auto, unfolding(crate::specs::Groups::record_past, crate::specs::Groups::record_end))]
fn past(log: &[u8], at: usize) -> usize
    requires { at < length log.now }
    ensures { result ≡ record_past log.now at }
{
    let n = records::length_of(log[at]) as usize;
    if n < log.len() - at {
        at + 1 + n
    } else {
        log.len()
    }
}

// What is wrong with the record at a place.
#[tactic(auto, using(crate::proofs::Scans::wrong_kind, crate::proofs::Scans::wrong_none, crate::proofs::Scans::wrong_cut), unfolding(crate::specs::Checks::wrong_at))]
fn wrong_at(log: &[u8], at: usize) -> Option<Wrong>
    requires { at < length log.now }
    ensures { result ≡ wrong_at log.now at }
{
    let kind = log[at];
    if !is_event(kind) {
        return Some(Wrong::UnknownKind);
    }
    let n = records::length_of(kind) as usize;
    if n < log.len() - at {
        None
    } else {
        Some(Wrong::CutShort)
    }
}

// Up to the first record that is wrong.
pub fn scan(log: &[u8]) -> Result<(), Fault>
    ensures { result ≡ scanned log.now }
{
    // A record's kind gives its length, so each step is of its own size.
    let mut at = 0;
    while at < log.len() {
        if let Some(wrong) = wrong_at(log, at) {
            return Err(Fault { wrong, place: at });
        }
        at = past(log, at);
    }
    Ok(())
}

// "at each record 14 and 15 with the place, then, after its last record, 17 for a log that begins inside a group"
#[tactic(auto, unfolding(crate::specs::Checks::checked))]
pub fn check(log: &[u8]) -> Result<(), Fault>
    ensures { result ≡ checked log.now }
{
    scan(log)?;
    if log.is_empty() || starts(log[0]) {
        return Ok(());
    }
    Err(Fault {
        wrong: Wrong::InsideGroup,
        place: 0,
    })
}

// The end of the group that begins at a place; the place itself where no byte is left.
// Each step is a record's own size, as in `scan`.
pub fn group_end(log: &[u8], at: usize) -> usize
    ensures { result ≡ group_end log.now at }
{
    if log.len() <= at {
        return at;
    }
    let mut end = past(log, at);
    while end < log.len() && !starts(log[end]) {
        end = past(log, end);
    }
    end
}

// The place of the group of a number; the log's end where it has run out.
fn skip(log: &[u8], number: usize) -> usize
    ensures { result ≡ (group_side log.now number).place }
{
    let mut at = 0;
    for _i in 0..number {
        if log.len() <= at {
            break;
        }
        at = group_end(log, at);
    }
    at
}

// The bytes from one place to another, as far as the log has them.
pub fn bytes_between(log: &[u8], from: usize, to: usize) -> &[u8]
    ensures { result.now ≡ take (to - from) (drop from log.now) }
{
    let end = to.min(log.len());
    if end < from {
        return &[];
    }
    &log[from..end]
}

// Whether the bytes are the same.
pub fn same(a: &[u8], b: &[u8]) -> bool
    ensures { result ≡ same_bytes a.now b.now }
{
    a == b
}

impl Cursor {
    // The cursor to begin with.
    pub fn begin() -> Cursor
        ensures { result ≡ at_start }
    {
        Cursor {
            number: 0,
            first: 0,
            second: 0,
        }
    }
}

// The first pair from a cursor on that differs, and the cursor behind that pair: where it stands at the groups of its number, the same
// answer as asking with that number. It reads what lies between the two cursors and no more, so that to list all pairs takes one pass.
// Each step is a group's own size.
pub fn compare_from(a: &[u8], b: &[u8], cursor: Cursor) -> Found
    ensures { result ≡ found_pair a.now b.now cursor }
{
    let mut c = cursor;
    while c.first < a.len() || c.second < b.len() {
        let next = Cursor {
            number: c.number.wrapping_add(1),
            first: group_end(a, c.first),
            second: group_end(b, c.second),
        };
        if !same(
            bytes_between(a, c.first, next.first),
            bytes_between(b, c.second, next.second),
        ) {
            let difference = Difference {
                number: c.number,
                first: Part {
                    place: c.first,
                    size: next.first - c.first,
                },
                second: Part {
                    place: c.second,
                    size: next.second - c.second,
                },
            };
            return Found {
                difference: Some(difference),
                next,
            };
        }
        c = next;
    }
    Found {
        difference: None,
        next: c,
    }
}

// The first pair from a number on that differs, of two logs of any bytes: "the first log is checked whole, then the second, before
// any pairing".
#[tactic(auto, using(crate::proofs::Firsts::found_answered), unfolding(crate::specs::Pairs::compared))]
pub fn compare(a: &[u8], b: &[u8], from: usize) -> Result<Option<Difference>, Refused>
    ensures { result ≡ compared a.now b.now from }
{
    check(a).map_err(|fault| Refused {
        log: Log::First,
        fault,
    })?;
    check(b).map_err(|fault| Refused {
        log: Log::Second,
        fault,
    })?;
    let cursor = Cursor {
        number: from,
        first: skip(a, from),
        second: skip(b, from),
    };
    Ok(compare_from(a, b, cursor).difference)
}
