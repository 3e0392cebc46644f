// Where a run stands between two parts of its stream.
ghost use Rattle.std.specs.Prelude.{◌≡◌, ◌+◌, ◌^◌, ◌<◌};
ghost use Rattle.streaming.specs.Works.{next_after_stop, over_next, reads_next, goes_next, stopped_next, failed_next, start_of, begun_of, read_of, stopped_of, ended_of, failed_of, behind_of};

use input::Ended;
use model::Stop;

// What to do next: read more bytes; run those that wait; nothing, since the stream has stopped, whatever may follow; nothing,
// since the input has ended, which the system said; nothing, since reading or writing failed, which standard error says.
#[derive(Clone, Copy)]
pub enum Next {
    Read,
    Run,
    Stopped,
    Ended(Ended),
    Failed,
}

// The bytes that wait at the front of the buffer, those that may still come, the bytes consumed and written before them, why
// the part before stopped.
// The stop stands beside `next`: it is told at the end of the input too.
#[derive(Clone, Copy)]
pub struct Work {
    pub have: usize,
    pub left: u64,
    pub consumed: u64,
    pub written: u64,
    pub stop: Option<Stop>,
    pub next: Next,
}

impl Work {
    // Before anything has run.
    pub fn at_start(have: usize, left: u64, next: Next) -> Work
        ensures { result ≡ start_of have left next }
    {
        Work {
            have,
            left,
            consumed: 0,
            written: 0,
            stop: None,
            next,
        }
    }

    // Behind settings that are accepted: a record of `size` bytes that writes no event.
    pub fn begun(size: usize, have: usize, left: u64) -> Work
        ensures { result ≡ begun_of size have left }
    {
        let start = Work::at_start(have, left, Next::Run);
        Work {
            consumed: size as u64,
            ..start
        }
    }

    // With more bytes: they wait to be run.
    pub fn read(self, have: usize, left: u64) -> Work
        ensures { result ≡ read_of self have left }
    {
        Work {
            have,
            left,
            next: Next::Run,
            ..self
        }
    }

    // Stopped by the first record.
    pub fn stopped(self, stop: Option<Stop>) -> Work
        ensures { result ≡ stopped_of self stop }
    {
        Work {
            stop,
            next: self.next.over(),
            ..self
        }
    }

    // At the end of the input the last stop stands.
    pub fn ended(self, end: Ended) -> Work
        ensures { result ≡ ended_of self end }
    {
        Work {
            next: Next::Ended(end),
            ..self
        }
    }

    // The work ends: the input could not be read, or the output written.
    pub fn failed(self) -> Work
        ensures { result ≡ failed_of self }
    {
        Work {
            next: Next::Failed,
            ..self
        }
    }

    // Behind a part that consumed some bytes and stopped, whose events are handed out, with `have` bytes left of it.
    pub fn behind(self, stop: Option<Stop>, consumed: usize, written: usize, have: usize) -> Work
        requires { self.consumed + consumed < 2 ^ 64 }
        ensures { result ≡ behind_of self stop consumed written have }
    {
        Work {
            have,
            left: self.left,
            consumed: self.consumed + consumed as u64,
            written: self.written.wrapping_add(written as u64),
            stop,
            next: next_of(stop),
        }
    }

    // Whether more bytes are wanted before anything can run.
    pub fn reads(self) -> bool
        ensures { result ≡ reads_next self.next }
    {
        matches!(self.next, Next::Read)
    }

    // Whether a run goes on.
    pub fn goes_on(self) -> bool
        ensures { result ≡ goes_next self.next }
    {
        matches!(self.next, Next::Read | Next::Run)
    }

    // Stopped, or at the end of its input: its stop may be told.
    pub fn has_stopped(self) -> bool
        ensures { result ≡ stopped_next self.next }
    {
        matches!(self.next, Next::Stopped | Next::Ended(_))
    }

    // Whether it ended so.
    pub fn has_failed(self) -> bool
        ensures { result ≡ failed_next self.next }
    {
        matches!(self.next, Next::Failed)
    }
}

impl Next {
    // What ends a run whose first record stops it: that stop, once the record is there; the end, where that was told. Of bytes
    // that were read to neither nothing is known.
    fn over(self) -> Next
        ensures { result ≡ over_next self }
    {
        match self {
            Next::Read | Next::Failed => Next::Failed,
            Next::Run | Next::Stopped => Next::Stopped,
            Next::Ended(end) => Next::Ended(end),
        }
    }
}

// A record that is cut short may become whole with more bytes, and one without event room has it once the events before it
// are written out.
fn next_of(stop: Option<Stop>) -> Next
    ensures { result ≡ next_after_stop stop }
{
    match stop {
        None | Some(Stop::CutShort) => Next::Read,
        Some(Stop::NoRoom) => Next::Run,
        Some(_) => Next::Stopped,
    }
}
