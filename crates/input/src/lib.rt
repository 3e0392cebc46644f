// Where a program's bytes come from: standard input or the file that its first argument names, through a buffer.
#![tactic(auto)]

ghost use Rattle.std.specs.Prelude.{◌≡◌, ◌≤◌, length};
ghost use Rattle.input.specs.Buffers.{Read, Grown, carried, carried_count};
ghost use Rattle.input.specs.declared.NoMore.TheVariants.{Failed};

use output::Output;
use std::env::FillError;
use std::fs::File;
use std::io;
use std::io::{Error, ErrorKind, Read, Stdin};
use std::rt::{Env, Files};

// The system's word that an input has ended, behind so many bytes of a buffer. The field is private: only `fill` makes such a
// value, of a read that gave nothing, so that no other crate can claim an end that it was not told.
#[derive(Clone, Copy)]
pub struct Ended {
    behind: usize,
}

// Why no more bytes come: the input has ended, the buffer is full, or a read failed.
#[derive(Clone, Copy)]
pub enum NoMore {
    End(Ended),
    Full,
    Failed(Error),
}

impl From<Error> for NoMore {
    ghost from_gives = { λ e n. n ≡ Failed e };

    fn from(why: Error) -> NoMore {
        NoMore::Failed(why)
    }
}

// How many bytes wait at the front of a buffer, and how many may still come.
#[derive(Clone, Copy)]
pub struct Waiting {
    pub have: usize,
    pub left: u64,
}

// What is read. These two and no type parameter: an end is the system's to tell, and no reader's of the caller's own (`Ended`).
#[derive(Drop)]
pub enum Source {
    Standard(Stdin),
    Named(File),
}

impl From<Stdin> for Source {
    fn from(stdin: Stdin) -> Source {
        Source::Standard(stdin)
    }
}

impl From<File> for Source {
    fn from(file: File) -> Source {
        Source::Named(file)
    }
}

impl Read for Source {
    fn read(&mut self, buf: &mut [u8]) -> io::Result<usize> {
        match self {
            Source::Standard(stdin) => stdin.read(buf),
            Source::Named(file) => file.read(buf),
        }
    }
}

impl Source {
    // Reads once, behind the bytes that the buffer has; says how far they then go.
    pub fn fill(&mut self, buf: &mut [u8], have: usize) -> Result<usize, NoMore>
        ensures { Read buf.old have result buf.new }
    {
        if buf.len() <= have {
            return Err(NoMore::Full);
        }
        let n = self.read(&mut buf[have..])?;
        if n == 0 {
            return Err(NoMore::End(Ended { behind: have }));
        }
        Ok(have + n)
    }

    // The same, with what came taken off the bytes that may still come.
    fn fill_counted(&mut self, buf: &mut [u8], have: usize, left: u64) -> Result<Waiting, NoMore>
        ensures { Grown buf.old have left result buf.new }
    {
        let n = self.fill(buf, have)?;
        match left.checked_sub((n - have) as u64) {
            Some(left) => Ok(Waiting { have: n, left }),
            None => Err(NoMore::Failed(Error::other(
                "the input is longer than 18446744073709551615 bytes",
            ))),
        }
    }

    // Reads once, as `fill`. Each read takes at least a byte off `left`, so that a loop over any input ends. What failed is said on
    // standard error.
    pub fn read_more(
        &mut self,
        to: Output,
        buf: &mut [u8],
        have: usize,
        left: u64,
    ) -> Result<Waiting, NoMore>
        ensures { Grown buf.old have left result buf.new }
    {
        let more = self.fill_counted(buf, have, left);
        if let Err(NoMore::Failed(why)) = more {
            to.fail(b"read", why);
        }
        more
    }

    // Reads until the buffer is full, the input ends or a read fails, and says how many bytes stand at the front of the buffer.
    pub fn read_full(&mut self, buf: &mut [u8]) -> usize
        ensures { result ≤ length buf.new }
    {
        let mut have = 0;
        while let Ok(n) = self.fill(buf, have) {
            have = n;
        }
        have
    }
}

// The file of this name.
fn named<R: Files<File = File>>(rt: &R, name: &[u8]) -> io::Result<Source> {
    let Ok(path) = std::str::from_utf8(name) else {
        return Err(Error::new(ErrorKind::InvalidFilename, "the name is not in UTF-8"));
    };
    Ok(File::open(rt, path)?.into())
}

// The file of this name, or nothing where it cannot be opened, which standard error then says.
pub fn open_file<R: Files<File = File>>(rt: &R, to: Output, name: &[u8]) -> Option<Source> {
    match named(rt, name) {
        Ok(source) => Some(source),
        Err(why) => {
            to.fail(name, why);
            None
        }
    }
}

// The system's number for a name that is too long: the words that are said are the system's for it, and no `ErrorKind` has them.
const TOO_LONG: i32 = 36;

// Says that a file's name is longer than any path.
pub fn name_too_long(to: Output) {
    to.fail(b"the file's name", Error::from_raw_os_error(TOO_LONG));
}

// What to read from; nothing where the file cannot be opened, which standard error then says.
pub fn open_input<R: Env + Files<File = File>>(rt: &R, stdin: Stdin, to: Output) -> Option<Source> {
    let mut path = [0u8; 4096];
    match rt.arg(1, &mut path) {
        Ok(n) => open_file(rt, to, &path[..n]),
        Err(FillError::NotPresent) => Some(stdin.into()),
        Err(FillError::TooLong) => {
            name_too_long(to);
            None
        }
    }
}

// The bytes between two places, moved to the front of the buffer; says how many.
pub fn carry(buf: &mut [u8], from: usize, to: usize) -> usize
    ensures { (result ≡ carried_count buf.old from to) × (buf.new ≡ carried buf.old from to) }
{
    if to < from || buf.len() < to {
        return 0;
    }
    buf.copy_within(from..to, 0);
    to - from
}
