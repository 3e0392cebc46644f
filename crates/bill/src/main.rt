// The bill of an event log, from standard input or the file that the first argument names: what a designer of the memory bus
// reads first. A log that is damaged, or that cannot be read to its end, is billed up to there, and the last line says so.
#![tactic(auto)]

mod damage;
mod summary;

use billing::Bill;
use damage::{Lack, Stop};
use input::{NoMore, Source};
use output::{Output, Page};
use std::fmt::Write as _;
use summary::Summary;

// The bytes that wait at the front of the buffer, the bytes billed before them, and their bill.
#[derive(Clone, Copy)]
struct Account {
    have: usize,
    place: u64,
    bill: Bill,
}

// The whole events of the first n bytes of the buffer; what is no whole event yet goes to its front.
fn bill_buffer(buf: &mut [u8], n: usize, a: Account) -> Account {
    let r = billing::bill_log(a.bill, text::front(buf, n));
    Account {
        have: input::carry(buf, r.next, n),
        place: a.place.wrapping_add(r.next as u64),
        bill: r.bill,
    }
}

// What the bill lacks where no more bytes come: all that could not be read, or what the end leaves.
fn lack_of(why: NoMore, s: &[u8]) -> Option<Lack> {
    match why {
        NoMore::End(end) => damage::left_in(end, s),
        NoMore::Full | NoMore::Failed(_) => Some(Lack::Unread),
    }
}

// Bills a log part by part, to its end or to its damage; says what the bill lacks.
fn bill_all(source: &mut Source, to: Output, buf: &mut [u8]) -> (Account, Option<Lack>) {
    let mut a = Account {
        have: 0,
        place: 0,
        bill: billing::empty_bill(),
    };
    let mut left = u64::MAX;
    loop {
        if let Some(lack) = damage::damage_in(text::front(buf, a.have)) {
            return (a, Some(lack));
        }
        match source.read_more(to, buf, a.have, left) {
            Ok(w) => {
                a = bill_buffer(buf, w.have, a);
                left = w.left;
            }
            Err(why) => return (a, lack_of(why, text::front(buf, a.have))),
        }
    }
}

// Where that is: behind what was read, for what could not be; else where the bytes that wait begin.
fn place_of(a: Account, lack: Lack) -> u64 {
    match lack {
        Lack::Unread => a.place.wrapping_add(a.have as u64),
        Lack::Command | Lack::CutShort | Lack::NoRecord | Lack::NoEvent => a.place,
    }
}

// Bills the log that is named or comes on standard input.
fn main(rt: HostRuntime) {
    let to = Output::new(rt.stdout(), rt.stderr());
    let Some(mut source) = input::open_input(&rt, rt.stdin(), to) else {
        return;
    };
    let mut space = [0u8; 65536];
    let (a, lack) = bill_all(&mut source, to, &mut space);
    let mut page: Page<4096> = Page::new();
    let bill = Summary {
        bytes: a.place,
        bill: a.bill,
    };
    let _ = write!(page, "{bill}");
    if let Some(why) = lack {
        let place = place_of(a, why);
        let _ = write!(page, "{}", Stop { place, why });
    }
    to.write(page.text());
}
