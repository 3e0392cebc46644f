// Assembles plain text, from standard input or the file that the first argument names, to a command stream on standard
// output. A bad line is refused on standard error, with its number and what was expected. A stream of which something could
// not be read or assembled ends in an unknown kind, at which the runner stops, so that no part of a text runs as if it were
// all.
#![tactic(auto)]

mod says;

ghost use Rattle.std.specs.Prelude.{◌≤◌, length};

use assembly::Refused;
use input::{Ended, NoMore, Source};
use output::Output;
use std::process::ExitCode;

// The most bytes of a line before its comment.
const LONGEST: usize = 4096;

// The most bytes of a command.
const COMMAND: usize = 13;

// A kind in neither of document 01's lists.
const UNKNOWN_KIND: u8 = 0xFF;

// Why the work ends before the text does: something could not be read or assembled, or writing failed.
#[derive(Clone, Copy, PartialEq, Eq, Debug)]
enum Stop {
    Cut,
    Lost,
}

// Writes to standard output.
fn write(to: Output, s: &[u8]) -> Result<(), Stop> {
    if to.write(s) { Ok(()) } else { Err(Stop::Lost) }
}

// The bytes of a line before its comment.
fn text_end(line: &[u8]) -> usize
    ensures { result ≤ length line.now }
{
    line.iter().position(|c| *c == b'#').unwrap_or(line.len())
}

// The stream that is made: its bytes that wait to be written, how many they are, and the number of the line that comes next.
// A slice and no `output::Page`: `assembly` puts at a place of it.
#[derive(Drop)]
struct Stream<'a> {
    to: Output,
    bytes: &'a mut [u8],
    put: usize,
    line: u64,
}

impl Stream<'_> {
    // Writes what waits.
    fn write_out(&mut self) -> Result<(), Stop> {
        let waiting = self.put;
        self.put = 0;
        write(self.to, text::front(self.bytes, waiting))
    }

    // Writes what waits where few places are free.
    fn make_room(&mut self) -> Result<(), Stop> {
        if self.bytes.len().saturating_sub(self.put) < COMMAND {
            self.write_out()?;
        }
        Ok(())
    }

    // Refuses a line that is too long before its comment.
    fn check_length(&self, line: &[u8]) -> Result<(), Stop> {
        if LONGEST < text_end(line) {
            says::too_long(self.to, self.line, LONGEST);
            return Err(Stop::Cut);
        }
        Ok(())
    }

    // Assembles one line, or says why it is bad.
    fn one_line(&mut self, line: &[u8]) -> Result<(), Stop> {
        self.check_length(line)?;
        self.make_room()?;
        match assembly::assemble_line(line, self.bytes, self.put) {
            Ok(put) => {
                self.put = put;
                self.line = self.line.wrapping_add(1);
                Ok(())
            }
            Err(why) => {
                if let Refused::Bad(e) = why {
                    says::bad(self.to, self.line, e, line);
                }
                Err(Stop::Cut)
            }
        }
    }

    // The whole lines of a text; says how many bytes are left behind them.
    fn whole_lines(&mut self, text: &[u8]) -> Result<usize, Stop> {
        let mut rest = text;
        while let Some(end) = rest.iter().position(|c| *c == b'\n') {
            self.one_line(&rest[..end])?;
            rest = &rest[end + 1..];
        }
        Ok(rest.len())
    }

    // The line that the buffer ends in, before its end has come; says how much of it to keep. Of its comment that is only the
    // first character, so that a comment may have any length.
    fn part_line(&self, line: &[u8]) -> Result<usize, Stop> {
        self.check_length(line)?;
        Ok(line.len().min(text_end(line) + 1))
    }

    // At the end of the text, by the system's word for it: a last line needs no line feed.
    fn last_line(&mut self, _end: Ended, line: &[u8]) -> Result<(), Stop> {
        if line.is_empty() {
            return Ok(());
        }
        self.one_line(line)
    }

    // Assembles a text line by line, to its end or to its first bad line.
    fn assemble(&mut self, source: &mut Source, buf: &mut [u8]) -> Result<(), Stop> {
        let mut have = 0;
        let mut left = u64::MAX;
        loop {
            match source.read_more(self.to, buf, have, left) {
                Ok(more) => {
                    left = more.left;
                    let rest = self.whole_lines(text::front(buf, more.have))?;
                    let kept = input::carry(buf, more.have.saturating_sub(rest), more.have);
                    have = self.part_line(text::front(buf, kept))?;
                }
                Err(NoMore::End(end)) => return self.last_line(end, text::front(buf, have)),
                Err(NoMore::Full | NoMore::Failed(_)) => return Err(Stop::Cut),
            }
        }
    }

    // After a failed write nothing more is written.
    fn end(&mut self, text: Result<(), Stop>) -> Result<(), Stop> {
        if text == Err(Stop::Lost) {
            return text;
        }
        self.write_out()?;
        if text == Err(Stop::Cut) {
            write(self.to, &[UNKNOWN_KIND])?;
        }
        Ok(())
    }
}

// Assembles the text that is named or comes on standard input. The status says whether the stream could be written.
fn main(rt: HostRuntime) -> ExitCode {
    let to = Output::new(rt.stdout(), rt.stderr());
    let Some(mut source) = input::open_input(&rt, rt.stdin(), to) else {
        to.write(&[UNKNOWN_KIND]);
        return ExitCode::SUCCESS;
    };
    let mut buf = [0u8; 65536];
    let mut bytes = [0u8; 65536];
    let mut stream = Stream {
        to,
        bytes: &mut bytes,
        put: 0,
        line: 1,
    };
    let text = stream.assemble(&mut source, &mut buf);
    match stream.end(text) {
        Ok(()) => ExitCode::SUCCESS,
        Err(_) => ExitCode::FAILURE,
    }
}
