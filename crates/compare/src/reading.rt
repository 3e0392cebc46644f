// A log through a buffer: the bytes that wait in it, and more behind them.
ghost use Rattle.std.specs.Prelude.{◌≡◌, ◌≤◌, true, length};
ghost use Rattle.compare.specs.Windows.{unread, waiting_in, moved_by, came_to, WindowSound, Fed};

use crate::page::Stopped;
use crate::says;
use comparing::{Ahead, Log};
use input::{Ended, NoMore, Source};
use output::Output;

// How many bytes of a log a buffer holds.
const ROOM: usize = 65536;

// The place in the log of the buffer's first byte, where the bytes that wait begin and end in the buffer, whether the log ends there.
#[derive(Clone, Copy)]
pub struct Window {
    pub base: usize,
    pub at: usize,
    pub have: usize,
    pub ended: bool,
}

// A log, what it is read from, its buffer, and what of it stands there.
#[derive(Drop)]
pub struct Feed {
    log: Log,
    source: Source,
    pub bytes: [u8; ROOM],
    pub window: Window,
    pub ghost sound: { WindowSound 65536 window },
}

// Whether the log ends, by the system's word for it.
fn ends(_end: Ended) -> bool
    ensures { result ≡ true }
{
    true
}

// A window that begins at byte `base` of its log and has n bytes in it; none where a place cannot say how far they go.
#[tactic(auto, unfolding(crate::specs::Windows::came_to))]
fn window_to(base: usize, n: usize) -> Option<Window>
    ensures { result ≡ came_to base n }
{
    base.checked_add(n)?;
    Some(Window {
        base,
        at: 0,
        have: n,
        ended: false,
    })
}

impl Feed {
    // A log of which nothing has been read.
    pub fn new(log: Log, source: Source) -> Feed
        ensures { result.window ≡ unread }
    {
        Feed {
            log,
            source,
            bytes: [0; ROOM],
            window: Window {
                base: 0,
                at: 0,
                have: 0,
                ended: false,
            },
        }
    }

    // The bytes that wait.
    pub fn ahead(&self) -> Ahead<'_>
        ensures { (result.bytes.now ≡ waiting_in self.now.bytes self.now.window) × (result.ends ≡ self.now.window.ended) }
    {
        let w = self.window;
        Ahead {
            bytes: &self.bytes[w.at..w.have],
            ends: w.ended,
        }
    }

    // Past n of them.
    pub fn pass(&mut self, n: usize)
        requires { n ≤ length (waiting_in self.old.bytes self.old.window) }
        ensures { (self.new.bytes ≡ self.old.bytes) × (self.new.window ≡ moved_by self.old.window n) }
    {
        self.window.at += n;
    }

    // The bytes that wait go to the front of the buffer, and more is read behind them, or the log ends there.
    pub fn read_on(&mut self, to: Output) -> Result<(), Stopped>
        ensures { Fed self.old.bytes self.old.window self.new.window result self.new.bytes }
    {
        let Window { base, at, have, .. } = self.window;
        let base = base + at;
        let have = input::carry(&mut self.bytes, at, have);
        self.window = Window {
            base,
            at: 0,
            have,
            ended: false,
        };
        match self.source.fill(&mut self.bytes, have) {
            Ok(n) => {
                let Some(window) = window_to(base, n) else {
                    says::too_long(to);
                    return Err(Stopped);
                };
                self.window = window;
                Ok(())
            }
            Err(NoMore::End(end)) => {
                self.window.ended = ends(end);
                Ok(())
            }
            Err(NoMore::Full) => Err(Stopped),
            Err(NoMore::Failed(why)) => {
                says::unread(to, self.log, why);
                Err(Stopped)
            }
        }
    }
}
