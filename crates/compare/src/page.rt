// The text that waits to be written.
use output::Output;
use std::fmt;

// Nothing more is to be done: standard error has said why, where it is not what was written.
#[derive(Clone, Copy)]
pub struct Stopped;

// The most bytes of a line.
const LINE: usize = 2048;

// The text that waits. After a write that failed nothing more is written.
#[derive(Drop)]
pub struct Page {
    to: Output,
    text: output::Page<65536>,
}

impl Page {
    pub fn new(to: Output) -> Page {
        Page {
            to,
            text: output::Page::new(),
        }
    }

    // Writes all of s at once, before what waits.
    pub fn write_now(&self, s: &[u8]) -> Result<(), Stopped> {
        if self.to.write(s) {
            Ok(())
        } else {
            Err(Stopped)
        }
    }

    // Writes what waits.
    pub fn flush(&mut self) -> Result<(), Stopped> {
        let written = self.write_now(self.text.text());
        self.text.clear();
        written
    }

    // Room for a line: writes what waits where few places are free.
    pub fn start_line(&mut self) -> Result<(), Stopped> {
        if self.text.room() < LINE {
            return self.flush();
        }
        Ok(())
    }

    // These bytes behind what waits.
    pub fn push(&mut self, s: &[u8]) {
        self.text.push(s);
    }
}

impl fmt::Write for Page {
    fn write_str(&mut self, s: &str) -> fmt::Result {
        self.text.write_str(s)
    }
}
