// The record reader (document 01, "Records") that holds the stream and its place together. Its steps are thin: each calls a function on the
// plain stream and the number.
#![tactic(auto)]

ghost use Rattle.std.specs.Prelude.{◌≡◌};
ghost use Rattle.model.specs.Records.{read_at};
ghost use Rattle.reader.specs.Taken.{behind, PartOf, Takes};

use model::{Body, Stop};

#[derive(Clone, Copy)]
pub struct Reader<'a> {
    pub stream: &'a [u8],
    pub at: usize,
}

// A record that was read: its kind and places, or why reading stops; and the part of the stream that holds its body.
// The body stands beside the Result: `Takes` says both of any record.
#[derive(Clone, Copy)]
pub struct Taken<'a> {
    pub found: Result<Body, Stop>,
    pub body: &'a [u8],
}

// The place behind the record at a place; the same place where reading stops.
fn behind(stream: &[u8], at: usize) -> usize
    ensures { result ≡ behind stream.now at }
{
    match records::read_at(stream, at) {
        Ok(body) => body.next,
        Err(_) => at,
    }
}

// The part of a stream that holds the body of the record at a place; no byte where reading stops.
fn body_part(stream: &[u8], at: usize) -> &[u8]
    ensures { PartOf stream.entry at result }
{
    match records::read_at(stream, at) {
        Ok(body) => &stream[body.start..body.next],
        Err(_) => &stream[..0],
    }
}

impl<'a> Reader<'a> {
    // A reader at a place of a stream.
    pub fn new(stream: &'a [u8], at: usize) -> Reader<'a>
        ensures { (result.stream ≡ stream.entry) × (result.at ≡ at) }
    {
        Reader { stream, at }
    }

    // The record at the place.
    pub fn peek(&self) -> Result<Body, Stop>
        ensures { result ≡ read_at self.now.stream.now self.now.at }
    {
        records::read_at(self.stream, self.at)
    }

    // Steps behind the record at its place.
    pub fn skip(&mut self)
        ensures { (self.new.stream ≡ self.old.stream) × (self.new.at ≡ behind self.old.stream.now self.old.at) }
    {
        self.at = behind(self.stream, self.at);
    }

    // The record at the place and its body; the reader steps behind it.
    pub fn next(&mut self) -> Taken<'a>
        ensures { Takes self.old result self.new }
    {
        let stream = self.stream;
        let at = self.at;
        let found = records::read_at(stream, at);
        let body = body_part(stream, at);
        self.at = behind(stream, at);
        Taken { found, body }
    }
}
