// What is wrong with a line, on standard error.
use assembly::Expected;
use output::Output;
use std::fmt;
use text::rules;

// Bytes of a bad line that are shown.
const SHOWN: usize = 120;

// What was expected, in words.
#[derive(Drop)]
struct Words(Expected);

impl fmt::Display for Words {
    fn fmt<W: fmt::Write>(&self, f: &mut fmt::Formatter<W>) -> fmt::Result {
        match self.0 {
            Expected::Command => f.write_str("settings, read, write, send, fill or tick"),
            Expected::Sets => f.write_str("sets and a number from 0 to 65535"),
            Expected::Ways => f.write_str("ways and a number from 0 to 255"),
            Expected::Dirty => f.write_str("dirty and a number from 0 to 255"),
            Expected::Misses => f.write_str("misses and a number from 0 to 255"),
            Expected::Readers => f.write_str("readers and a number from 0 to 255"),
            Expected::Queue => f.write_str("queue and a number from 0 to 255"),
            Expected::Rule => write_rules(f),
            Expected::Address => f.write_str("an address of at most 64 bits, decimal or behind 0x"),
            Expected::Ticket => f.write_str("ticket and a number of at most 32 bits"),
            Expected::Mask => f.write_str("mask and a number of at most 32 bits"),
            Expected::Cycle => f.write_str("a cycle of at most 32 bits"),
            Expected::End => f.write_str("the end of the line or a comment"),
        }
    }
}

// What may follow the six settings: the rules by name, as they stand in their table, or by number.
fn write_rules<W: fmt::Write>(f: &mut fmt::Formatter<W>) -> fmt::Result {
    f.write_str("rule and ")?;
    for name in rules::NAMES {
        write!(f, "{name}, ")?;
    }
    f.write_str("or a number from 0 to 255; or the end of the line or a comment")
}

// Says where the stream then ends.
fn ends(to: Output) {
    to.say(b"The stream ends before this line, with an unknown kind.\n");
}

// Complains of a line that is too long.
pub fn too_long(to: Output, line: u64, most: usize) {
    to.say_shown(format_args!("line {line}: longer than {most} bytes before its comment\n"));
    ends(to);
}

// Complains of a bad line: what was expected, and the line itself, as far as a page goes.
pub fn bad(to: Output, line: u64, e: Expected, words: &[u8]) {
    to.say_shown(format_args!("line {line}: expected {}; found: ", Words(e)));
    to.say(text::front(words, SHOWN));
    if SHOWN < words.len() {
        to.say(b" ..");
    }
    to.say(b"\n");
    ends(to);
}
