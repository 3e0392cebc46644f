// What is said of two logs.
ghost use Rattle.std.specs.Prelude.{◌≤◌};

use crate::page::{Page, Stopped};
use comparing::{Fault, Log, Side, Walk, Wrong};
use output::Output;
use std::env::FillError;
use std::fmt;
use std::fmt::Write as _;
use std::io::Error;
use std::rt::Env;

// The most bytes of a file's name.
const LONGEST: usize = 4096;

// An argument's own words.
#[derive(Drop)]
pub struct Name {
    words: [u8; LONGEST],
    len: usize,
    ghost within: { len ≤ 4096 },
}

impl Name {
    // The words of an argument, unless they are longer than any path, which standard error then says.
    pub fn of<R: Env>(rt: &R, to: Output, i: usize) -> Result<Name, Stopped> {
        let mut words = [0; LONGEST];
        match rt.arg(i, &mut words) {
            Ok(len) => Ok(Name { words, len }),
            Err(FillError::TooLong) => {
                input::name_too_long(to);
                Err(Stopped)
            }
            Err(FillError::NotPresent) => Ok(Name { words, len: 0 }),
        }
    }

    pub fn bytes(&self) -> &[u8] {
        &self.words[..self.len]
    }
}

// Says that a log is longer than places have numbers.
pub fn too_long(to: Output) {
    to.say(b"a log is too long: its places have no numbers\n");
}

// Says of a log that it is shorter or longer than when it was checked.
pub fn changed(to: Output) {
    to.say(b"a log changed while it was read: give two files that stay as they are\n");
}

// Says which log could not be read.
pub fn unread(to: Output, log: Log, why: Error) {
    let what = match log {
        Log::First => b"reading the first log".as_slice(),
        Log::Second => b"reading the second log".as_slice(),
    };
    to.fail(what, why);
}

// What is wrong with a log, and what to do about it.
#[derive(Clone, Copy)]
struct Advice(Wrong);

impl fmt::Display for Advice {
    fn fmt<W: fmt::Write>(&self, f: &mut fmt::Formatter<W>) -> fmt::Result {
        f.write_str(match self.0 {
            Wrong::UnknownKind => "no event's record begins so. See that this is an event log.",
            Wrong::CutShort => "its record is cut short. Get the rest of the file.",
            Wrong::InsideGroup => "it begins inside a group. Get the log from its first byte on.",
        })
    }
}

// A log that is refused, by its name. A line of its own, and no `Page`: none is there before both logs have passed.
pub fn refuse(to: Output, name: &Name, fault: Fault) {
    let mut line: output::Page<256> = output::Page::new();
    let number = u8::from(fault.wrong);
    let place = fault.place;
    let _ = write!(
        line,
        " is refused with {number} at byte {place}: {}\n",
        Advice(fault.wrong)
    );
    if to.write(name.bytes()) {
        to.write(line.text());
    }
}

// Which mark stands for which log.
pub fn name_both(page: &Page, first: &Name, second: &Name) -> Result<(), Stopped> {
    page.write_now(b"< ")?;
    page.write_now(first.bytes())?;
    page.write_now(b"\n> ")?;
    page.write_now(second.bytes())?;
    page.write_now(b"\n")
}

// A count and what is counted, in the plural unless it is one.
#[derive(Clone, Copy)]
struct Many(usize, &'static str);

impl fmt::Display for Many {
    fn fmt<W: fmt::Write>(&self, f: &mut fmt::Formatter<W>) -> fmt::Result {
        let plural = if self.0 == 1 { "" } else { "s" };
        write!(f, "{} {}{plural}", self.0, self.1)
    }
}

// A side's place and length; nothing is left of a log that has run out.
#[derive(Clone, Copy)]
struct Sided(Side);

impl fmt::Display for Sided {
    fn fmt<W: fmt::Write>(&self, f: &mut fmt::Formatter<W>) -> fmt::Result {
        let Side { place, passed } = self.0;
        if passed == 0 {
            write!(f, "has run out at byte {place}")
        } else {
            write!(f, "at byte {place}, {}", Many(passed, "byte"))
        }
    }
}

// A pair that differs: its number, and the place and length of each side.
pub fn pair(page: &mut Page, w: Walk) -> Result<(), Stopped> {
    page.start_line()?;
    let _ = write!(
        page,
        "group {}: < {}; > {}\n",
        w.number,
        Sided(w.first),
        Sided(w.second)
    );
    Ok(())
}

// The last line.
pub fn counts(page: &mut Page, w: Walk) -> Result<(), Stopped> {
    page.start_line()?;
    let groups = Many(w.number, "group");
    let _ = match w.lowest {
        Some(lowest) => write!(
            page,
            "{} of {groups} differ, first at group {lowest}\n",
            w.differing
        ),
        None => write!(page, "no difference in {groups}\n"),
    };
    Ok(())
}
