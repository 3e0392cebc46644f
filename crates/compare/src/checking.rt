// The check of a log of any length, part by part.
ghost use Rattle.std.specs.Prelude.{◌≡◌, IfOk};
ghost use Rattle.compare.specs.Checking.{started, came_of, check_verdict, Checked, PartRead};

use crate::page::Stopped;
use crate::says;
use comparing::{Checking, Fault, Log};
use input::{Ended, NoMore, Source};
use output::Output;

// The check so far, and the bytes read.
#[derive(Clone, Copy)]
pub struct Check {
    pub checking: Checking,
    pub read: usize,
}

impl Check {
    // A check of which nothing has come yet.
    fn begin() -> Check
        ensures { result ≡ started }
    {
        Check {
            checking: Checking::begin(),
            read: 0,
        }
    }

    // The next part of the log has come, unless a place cannot say how far it goes.
    #[tactic(auto, unfolding(crate::specs::Checking::came_of))]
    fn came(self, part: &[u8]) -> Option<Check>
        ensures { result ≡ came_of part.now self }
    {
        let read = self.read.checked_add(part.len())?;
        Some(Check {
            checking: self.checking.pass(part),
            read,
        })
    }

    // The log has ended, by the system's word for it.
    fn ended(self, _end: Ended) -> Check
        ensures { result ≡ self }
    {
        self
    }

    // Reads the next part of a log and checks it; says whether more of it is to come. A log with a wrong kind needs no more. A flag beside
    // the check and no Option of it: at the end the check is told too.
    fn read_part(
        self,
        log: Log,
        source: &mut Source,
        to: Output,
        buf: &mut [u8],
    ) -> Result<(Check, bool), Stopped>
        ensures { IfOk result (PartRead buf.new self) }
    {
        match source.fill(buf, 0) {
            Ok(n) => match self.came(text::front(buf, n)) {
                Some(c) => Ok((c, !c.checking.wrong)),
                None => {
                    says::too_long(to);
                    Err(Stopped)
                }
            },
            Err(NoMore::End(end)) => Ok((self.ended(end), false)),
            Err(NoMore::Full) => Err(Stopped),
            Err(NoMore::Failed(why)) => {
                says::unread(to, log, why);
                Err(Stopped)
            }
        }
    }

    // What the check of a whole log came to: a good log's bytes, or what is wrong with it.
    #[tactic(auto, unfolding(crate::specs::Checking::check_verdict))]
    pub fn verdict(self) -> Result<usize, Fault>
        ensures { result ≡ check_verdict self }
    {
        self.checking.end()?;
        Ok(self.read)
    }
}

// Reads a log to its end, or to a wrong kind, and checks it. Each turn reads some, or is the last.
pub fn check_log(log: Log, source: &mut Source, to: Output) -> Result<Check, Stopped>
    ensures { IfOk result Checked }
{
    let mut buf = [0u8; 65536];
    let mut c = Check::begin();
    let mut more = true;
    while more {
        let (next, goes_on) = c.read_part(log, source, to, &mut buf)?;
        c = next;
        more = goes_on;
    }
    Ok(c)
}
