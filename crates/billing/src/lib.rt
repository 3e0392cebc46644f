// What a log of events adds up to: a sum at each place of a bill, checked, and the bill of a log up to where it is damaged.
#![tactic(auto)]

ghost use Rattle.std.specs.Prelude.{◌≡◌, ◌<◌, get_or};
ghost use Rattle.billing.specs.Dues.{due_once, one_and, dues_of};
ghost use Rattle.billing.specs.Bills.{empty_bill, filled_up, raised, added_to, rate_of};
ghost use Rattle.billing.specs.Logs.{billed_log};

use model::Event;
use records::Item;

// The places of a bill. Accesses with an answer of number n stand at n, refusals of number n at REFUSALS + n.
pub const ACCESSES: usize = 0;

pub const REFUSALS: usize = 5;

pub const READS_QUEUED: usize = 18;

pub const WRITE_BACKS_QUEUED: usize = 19;

pub const READS_SENT: usize = 20;

pub const WRITE_BACKS_SENT: usize = 21;

pub const DIRTY_BYTES_SENT: usize = 22;

pub const FILLS: usize = 23;

pub const BYTES_FILLED: usize = 24;

pub const RELEASED: usize = 25;

pub const TICKS: usize = 26;

// The sums, and whether one more would have passed 64 bits: they then stand as before that event.
// Numbers for places: `count` takes any number, and `empty_bill_owed` speaks of every place below 27 at once.
// A flag beside the sums, and no Result: the sums of a full bill are read too.
#[derive(Clone, Copy)]
pub struct Bill {
    pub counts: [u64; 27],
    pub full: bool,
}

// What an event adds: 1 at a place, and `also` at another.
#[derive(Clone, Copy)]
pub struct Dues {
    pub place: usize,
    pub other: usize,
    pub also: u64,
}

// Why a part of a whole has no rate: the whole is nothing, or 64 bits do not hold what is divided.
#[derive(Clone, Copy, PartialEq, Eq)]
pub enum NoRate {
    OfNothing,
    TooLarge,
}

// The bill of a log's events, and the first place where no whole event stands.
#[derive(Clone, Copy)]
pub struct Billed {
    pub bill: Bill,
    pub next: usize,
}

// A bill of nothing.
pub fn empty_bill() -> Bill
    ensures { result ≡ empty_bill }
{
    Bill {
        counts: [0; 27],
        full: false,
    }
}

// The sum at a place.
pub fn count(bill: Bill, place: usize) -> u64
    ensures { result ≡ get_or bill.counts place 0 }
{
    if place < 27 { bill.counts[place] } else { 0 }
}

// One more at a place of the bill.
// Where there is no other place, 0 more at the same one: `add` then has one case.
fn one(place: usize) -> Dues
    ensures { result ≡ due_once place }
{
    Dues {
        place,
        other: place,
        also: 0,
    }
}

// One more at a place, and so many at another.
fn one_and(place: usize, other: usize, also: u64) -> Dues
    ensures { result ≡ one_and place other also }
{
    Dues { place, other, also }
}

// What an event adds to a bill.
#[tactic(auto, unfolding(crate::specs::Dues::dues_of))]
pub fn dues_of(e: Event) -> Dues
    ensures { result ≡ dues_of e }
{
    match e {
        Event::Answered { answer, .. } => one_and(ACCESSES, u8::from(answer) as usize, 1),
        Event::Refused(n) => one_and(REFUSALS, REFUSALS + u8::from(n) as usize, 1),
        Event::ReadQueued(_) => one(READS_QUEUED),
        Event::WriteBackQueued { .. } => one(WRITE_BACKS_QUEUED),
        Event::Released(_) => one(RELEASED),
        Event::ReadSent(_) => one(READS_SENT),
        Event::WriteBackSent { m0, m1, m2, m3, .. } => one_and(
            WRITE_BACKS_SENT,
            DIRTY_BYTES_SENT,
            records::dirty_bytes(m0, m1, m2, m3),
        ),
        Event::Filled(_) => one_and(FILLS, BYTES_FILLED, 32),
        Event::Ticked => one(TICKS),
    }
}

// A bill with one more sum refused.
fn filled_up(bill: Bill) -> Bill
    ensures { result ≡ filled_up bill }
{
    Bill { full: true, ..bill }
}

// `by` more at a place, where 64 bits hold the sum.
#[tactic(auto, unfolding(crate::specs::Bills::raised))]
fn raise(bill: Bill, place: usize, by: u64) -> Bill
    requires { place < 27 }
    ensures { result ≡ raised bill place by }
{
    let mut b = bill;
    if b.full {
        return b;
    }
    match b.counts[place].checked_add(by) {
        Some(sum) => b.counts[place] = sum,
        None => b.full = true,
    }
    b
}

// A bill with one more event; where its sums do not all fit, the bill as it was, marked full.
#[tactic(auto, using(crate::proofs::Sums::dues_within), unfolding(crate::specs::Bills::added_to, crate::specs::Bills::billed, crate::specs::Bills::bill_kept))]
pub fn add(bill: Bill, e: Event) -> Bill
    ensures { result ≡ added_to bill e }
{
    let d = dues_of(e);
    let b = raise(raise(bill, d.place, 1), d.other, d.also);
    if b.full {
        return filled_up(bill);
    }
    b
}

// A part of a whole in tenths of a percent, to the nearest.
pub fn rate_of(part: u64, whole: u64) -> Result<u64, NoRate>
    ensures { result ≡ rate_of part whole }
{
    if whole == 0 {
        return Err(NoRate::OfNothing);
    }
    let tenths = part.checked_mul(1000).ok_or(NoRate::TooLarge)?;
    let rounded = tenths.checked_add(whole / 2).ok_or(NoRate::TooLarge)?;
    Ok(rounded / whole)
}

// The bill with the events of a log up to the first place where no whole event stands, and that place.
pub fn bill_log(bill: Bill, log: &[u8]) -> Billed
    ensures { result ≡ billed_log bill log.now }
{
    let mut b = bill;
    let mut at = 0;
    while let Item::Event { event, next } = records::item_at(log, at) {
        b = add(b, event);
        at = next;
    }
    Billed { bill: b, next: at }
}
