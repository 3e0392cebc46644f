// Reading up to the first record, which says how long the tables are.
ghost use Rattle.std.specs.Prelude.{◌≡◌, ◌≤◌, false};
ghost use Rattle.input.specs.Buffers.{turns_left};
ghost use Rattle.streaming.specs.Works.{reads_next};
ghost use Rattle.streaming.specs.First.{Opened, after_reading};

use crate::work::{Next, Work};
use input::{NoMore, Source, Waiting};
use output::Output;

// Once the first record is there, nothing behind it changes what it comes to.
fn next_after(s: &[u8]) -> Next
    ensures { result ≡ after_reading s.now }
{
    if running::first_there(s) {
        Next::Run
    } else {
        Next::Read
    }
}

// Reads once. A buffer without room for a first record is a failure.
fn read_once(source: &mut Source, to: Output, buf: &mut [u8], w: Work) -> Work
    requires { Opened buf.old w }
    ensures opened { Opened buf.new result }
    ensures left_bound { turns_left (reads_next result.next) result.left ≤ w.left }
{
    match source.read_more(to, buf, w.have, w.left) {
        Ok(Waiting { have, left }) => {
            Work::at_start(have, left, next_after(text::front(buf, have)))
        }
        Err(NoMore::End(end)) => Work::at_start(w.have, w.left, Next::Ended(end)),
        Err(NoMore::Full | NoMore::Failed(_)) => Work::at_start(w.have, w.left, Next::Failed),
    }
}

// To the first record, or to the end of the input as the system told it, or to where reading failed.
pub fn read_first(source: &mut Source, to: Output, buf: &mut [u8]) -> Work
    ensures opened { Opened buf.new result }
    ensures next_value { reads_next result.next ≡ false }
{
    let mut w = Work::at_start(0, u64::MAX, Next::Read);
    // Each turn reads, until the system says that there is no more: nothing is counted.
    while w.reads() {
        w = read_once(source, to, buf, w);
    }
    w
}
