// A pair that differs, record by record: a second reading of both logs, which follows the first one up to that pair.
ghost use Rattle.std.specs.Prelude.{◌<◌, OnOk};

use crate::page::{Page, Stopped};
use crate::reading::Feed;
use crate::turns::Pass;
use comparing::{Side, Step};
use output::Output;
use records::Item;
use std::fmt;
use std::fmt::Write as _;

// The most bytes of an event in words.
const WORDS: usize = 256;

// A record in words, or the bytes of one whose body is no event's.
fn words(page: &mut Page, record: &[u8]) {
    if let Item::Event { event, .. } = records::item_at(record, 0) {
        let mut words = [0; WORDS];
        let n = wording::events::put_event(event, &mut words, 0);
        page.push(text::front(&words, n));
        return;
    }
    let _ = write!(page, "no event's body:");
    for byte in record {
        let _ = write!(page, " {byte:#x}");
    }
}

// The record of n bytes that a log comes to.
fn record(feed: &Feed, n: usize) -> &[u8] {
    text::front(feed.ahead().bytes, n)
}

// Its place in the log.
fn place(s: Side) -> usize {
    s.place.wrapping_add(s.passed)
}

// The place of a record, in its log's column: a record that both logs have, the first log's, the second's.
#[derive(Clone, Copy)]
enum Column {
    Both(usize, usize),
    First(usize),
    Second(usize),
}

impl fmt::Display for Column {
    fn fmt<W: fmt::Write>(&self, f: &mut fmt::Formatter<W>) -> fmt::Result {
        match self {
            Column::Both(first, second) => write!(f, "  {first:>11}{second:>11}  "),
            Column::First(place) => write!(f, "< {place:>11}             "),
            Column::Second(place) => write!(f, ">            {place:>11}  "),
        }
    }
}

// A line for a record.
fn line(page: &mut Page, column: Column, record: &[u8]) -> Result<(), Stopped> {
    page.start_line()?;
    let _ = write!(page, "{column}");
    words(page, record);
    page.push(b"\n");
    Ok(())
}

// The next records of both sides, of m and n bytes: one line where both logs have the same, else one for each that there is.
fn row(page: &mut Page, pass: &Pass, m: usize, n: usize, same: bool) -> Result<(), Stopped> {
    let first = place(pass.walk.first);
    let second = place(pass.walk.second);
    if same {
        return line(page, Column::Both(first, second), record(&pass.first, m));
    }
    if m != 0 {
        line(page, Column::First(first), record(&pass.first, m))?;
    }
    if n != 0 {
        line(page, Column::Second(second), record(&pass.second, n))?;
    }
    Ok(())
}

// On to the pair of a number, and past it: each turn passes some, reads some, or ends a pair.
pub fn show(pass: &mut Pass, page: &mut Page, to: Output, number: usize) -> Result<(), Stopped>
    ensures { OnOk result (number < pass.new.walk.number) }
{
    while pass.walk.number <= number {
        let step = pass.step();
        match step {
            Step::Row {
                first,
                second,
                same,
                ..
            } => {
                if pass.walk.number == number {
                    row(page, pass, first, second, same)?;
                }
            }
            Step::Over => return Err(Stopped),
            _ => {}
        }
        pass.turn(to, step)?;
    }
    Ok(())
}
