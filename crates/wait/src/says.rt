// What is printed: on standard output what is waited for, each round and how it ends; on standard error why there is
// nothing to wait for.
use crate::page;
use crate::waiting::Counts;
use model::{Access, Command, Reply, Stop};
use output::Output;
use rounds::{Accepted, NotAccepted};

// Standard output, as long as it takes what is printed: behind a page that did not go there is none.
#[derive(Clone, Copy)]
pub(crate) struct Pages {
    to: Output,
    goes: bool,
}

impl Pages {
    // Nothing is printed yet.
    pub(crate) fn new(to: Output) -> Pages {
        Pages { to, goes: true }
    }

    // Prints what `put` makes of a page, if all before it went.
    fn print<F: FnOnce(&mut [u8]) -> usize>(&mut self, put: F)
        requires { F.IsAlwaysCallable put }
    {
        if self.goes {
            let mut page = [0u8; 4096];
            let end = put(&mut page);
            self.goes = self.to.write(text::front(&page, end));
        }
    }

    // Says what is waited for.
    pub(crate) fn start(&mut self, x: Access, place: u64, n: Counts, most: usize) {
        self.print(|page| page::put_start(x, place, n, most, page));
    }

    // One round.
    pub(crate) fn round(&mut self, round: usize, events: &[u8], reply: Reply) {
        self.print(|page| page::put_round(round, events, reply, page));
    }

    // Says what waiting came to.
    pub(crate) fn end(&mut self, waiting: Result<Accepted, NotAccepted>, most: usize) {
        self.print(|page| page::put_end(waiting, most, page));
    }
}

// Writes what `put` makes of a page to standard error.
fn complain<F: FnOnce(&mut [u8]) -> usize>(to: Output, put: F)
    requires { F.IsAlwaysCallable put }
{
    let mut page = [0u8; 4096];
    let end = put(&mut page);
    to.say(text::front(&page, end));
}

// Complains of an access that is not well formed.
pub(crate) fn malformed(to: Output, x: Access, place: u64) {
    complain(to, |page| page::put_malformed(x, place, page));
}

// Complains of a stream that does not end in an access.
pub(crate) fn no_access(to: Output, c: Command, place: u64) {
    complain(to, |page| page::put_no_access(c, place, page));
}

// Complains of a stream that ends behind its settings.
pub(crate) fn only_settings(to: Output) {
    complain(to, |page| page::put_only_settings(page));
}

// Complains of a stream that stopped.
pub(crate) fn stopped(to: Output, stop: Stop, rest: &[u8], place: u64) {
    complain(to, |page| page::put_stopped(stop, rest, place, page));
}

// With no byte there is no first record, and nothing has stopped.
pub(crate) fn first_stop(to: Output, stop: Option<Stop>, rest: &[u8]) {
    if let Some(stop) = stop {
        stopped(to, stop, rest, 0);
        return;
    }
    complain(to, |page| page::put_empty(page));
}
