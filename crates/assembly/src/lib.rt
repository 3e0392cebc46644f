// One line of the assembler's language to a command: words and numbers in order. Then the command's bytes, put into a stream.
#![tactic(auto)]

ghost use Rattle.std.specs.Prelude.{◌≡◌, ◌≤◌, IfSome, IfOk, Ok, Some};
ghost use Rattle.std.specs.Option.{ok_or};
ghost use Rattle.assembly.specs.Language.{number_next, field_next, rule_next, ends_at, whole_line, with_rule, settings_form, read_form, write_form, fill_form, tick_form, form_from, command_in, parse_line};
ghost use Rattle.assembly.specs.Output.{Assembles};
ghost use Rattle.assembly.specs.declared.Refused.TheVariants.{Bad};

use model::{Command, Given};
use text::Number;

// What a bad line lacks at the first place that is wrong.
#[derive(Clone, Copy, PartialEq, Eq, Debug)]
pub enum Expected {
    Command,
    Sets,
    Ways,
    Dirty,
    Misses,
    Readers,
    Queue,
    Rule,
    Address,
    Ticket,
    Mask,
    Cycle,
    End,
}

// Why a line made nothing of a stream: no room for its command, or what it lacks.
#[derive(Clone, Copy, PartialEq, Eq, Debug)]
pub enum Refused {
    NoRoom,
    Bad(Expected),
}

impl From<Expected> for Refused {
    ghost from_gives = { λ e r. r ≡ Bad e };

    fn from(e: Expected) -> Refused {
        Refused::Bad(e)
    }
}

// The next word as a number of at most `most`.
fn number_next(line: &[u8], at: usize, most: u64) -> Option<Number>
    ensures value { result ≡ number_next most line.now at }
    ensures within { IfSome result (λ n. n.value ≤ most) }
{
    let number = text::parse_number(line, text::skip_spaces(line, at)).ok()?;
    let whole = text::word_end(line, number.next) == number.next;
    (number.value <= most && whole).then_some(number)
}

// The word, if it is not empty, and the number behind it.
// An empty word is none: the forms of the language say it so (`field_next`).
fn field_next(line: &[u8], at: usize, word: &[u8], most: u64) -> Option<Number>
    ensures value { result ≡ field_next word.now most line.now at }
    ensures within { IfSome result (λ n. n.value ≤ most) }
{
    if word.is_empty() {
        return number_next(line, at, most);
    }
    let start = text::skip_spaces(line, at);
    if text::word_is(line, start, word) {
        number_next(line, text::word_end(line, start), most)
    } else {
        None
    }
}

// The same, or what a line without it lacks.
fn wanted(
    line: &[u8],
    at: usize,
    word: &[u8],
    most: u64,
    lacks: Expected,
) -> Result<Number, Expected>
    ensures value { result ≡ ok_or (field_next word.now most line.now at) lacks }
    ensures within { IfOk result (λ n. n.value ≤ most) }
{
    field_next(line, at, word, most).ok_or(lacks)
}

// The rule behind the word `rule`: one with a name, or the number of its byte.
fn rule_next(line: &[u8], at: usize) -> Result<Number, Expected>
    ensures value { result ≡ ok_or (rule_next line.now at) Expected.Rule }
    ensures within { IfOk result (λ n. n.value ≤ 0xff) }
{
    let start = text::skip_spaces(line, at);
    if !text::word_is(line, start, b"rule") {
        return Err(Expected::Rule);
    }
    let end = text::word_end(line, start);
    let name = text::skip_spaces(line, end);
    match text::rules::rule_at(line, name) {
        Some(rule) => Ok(Number {
            value: rule as u64,
            next: text::word_end(line, name),
        }),
        None => wanted(line, end, b"", 0xff, Expected::Rule),
    }
}

// Whether no word is left.
fn ends_at(line: &[u8], at: usize) -> bool
    ensures { result ≡ ends_at line.now at }
{
    let start = text::skip_spaces(line, at);
    text::word_end(line, start) == start
}

// The command, where no word is left.
fn ended(line: &[u8], at: usize, c: Command) -> Result<Command, Expected>
    ensures { result ≡ whole_line line.now at c }
{
    if ends_at(line, at) {
        Ok(c)
    } else {
        Err(Expected::End)
    }
}

// The settings without a rule, and the rule behind them if there is one.
fn with_rule(line: &[u8], at: usize, given: Given) -> Result<Command, Expected>
    ensures { result ≡ with_rule given line.now at }
{
    if ends_at(line, at) {
        return Ok(Command::Settings(given));
    }
    let rule = rule_next(line, at)?;
    let given = Given {
        rule: Some(rule.value as u8),
        ..given
    };
    ended(line, rule.next, Command::Settings(given))
}

// `settings`: six numbers, and a rule if there is one.
fn settings(line: &[u8], at: usize) -> Result<Command, Expected>
    ensures { result ≡ form_from settings_form line.now at }
{
    let sets = wanted(line, at, b"sets", 0xffff, Expected::Sets)?;
    let ways = wanted(line, sets.next, b"ways", 0xff, Expected::Ways)?;
    let dirty = wanted(line, ways.next, b"dirty", 0xff, Expected::Dirty)?;
    let misses = wanted(line, dirty.next, b"misses", 0xff, Expected::Misses)?;
    let readers = wanted(line, misses.next, b"readers", 0xff, Expected::Readers)?;
    let queue = wanted(line, readers.next, b"queue", 0xff, Expected::Queue)?;
    let given = Given {
        sets: sets.value as u16,
        ways: ways.value as u8,
        dirty: dirty.value as u8,
        misses: misses.value as u8,
        readers: readers.value as u8,
        queue: queue.value as u8,
        rule: None,
    };
    with_rule(line, queue.next, given)
}

// `read`: an address, and a ticket.
// A function a command, as its form: what they share is `wanted`.
fn read(line: &[u8], at: usize) -> Result<Command, Expected>
    ensures { result ≡ form_from read_form line.now at }
{
    let address = wanted(line, at, b"", u64::MAX, Expected::Address)?;
    let ticket = wanted(line, address.next, b"ticket", 0xffff_ffff, Expected::Ticket)?;
    let command = Command::Read {
        address: address.value,
        ticket: ticket.value as u32,
    };
    ended(line, ticket.next, command)
}

// `write`: an address, and a mask.
fn write(line: &[u8], at: usize) -> Result<Command, Expected>
    ensures { result ≡ form_from write_form line.now at }
{
    let address = wanted(line, at, b"", u64::MAX, Expected::Address)?;
    let mask = wanted(line, address.next, b"mask", 0xffff_ffff, Expected::Mask)?;
    let command = Command::Write {
        address: address.value,
        mask: mask.value as u32,
    };
    ended(line, mask.next, command)
}

// `fill`: an address.
fn fill(line: &[u8], at: usize) -> Result<Command, Expected>
    ensures { result ≡ form_from fill_form line.now at }
{
    let address = wanted(line, at, b"", u64::MAX, Expected::Address)?;
    ended(line, address.next, Command::Fill(address.value))
}

// `tick`: a cycle.
fn tick(line: &[u8], at: usize) -> Result<Command, Expected>
    ensures { result ≡ form_from tick_form line.now at }
{
    let cycle = wanted(line, at, b"", 0xffff_ffff, Expected::Cycle)?;
    ended(line, cycle.next, Command::Tick(cycle.value as u32))
}

// The command of a line that is not empty, by its word.
fn command_in(line: &[u8]) -> Result<Command, Expected>
    ensures { result ≡ command_in line.now }
{
    let at = text::skip_spaces(line, 0);
    let end = text::word_end(line, at);
    if text::word_is(line, at, b"settings") {
        settings(line, end)
    } else if text::word_is(line, at, b"read") {
        read(line, end)
    } else if text::word_is(line, at, b"write") {
        write(line, end)
    } else if text::word_is(line, at, b"send") {
        ended(line, end, Command::Send)
    } else if text::word_is(line, at, b"fill") {
        fill(line, end)
    } else if text::word_is(line, at, b"tick") {
        tick(line, end)
    } else {
        Err(Expected::Command)
    }
}

// What a line says: a command or nothing; or what it lacks.
pub fn parse_line(line: &[u8]) -> Result<Option<Command>, Expected>
    ensures { result ≡ parse_line line.now }
{
    if ends_at(line, 0) {
        return Ok(None);
    }
    Ok(Some(command_in(line)?))
}

// Puts a command's record into the stream, if there is room: the place behind it. No room is 0 bytes in `encode`'s clause.
fn put_command(c: Command, out: &mut [u8], at: usize) -> Result<usize, Refused>
    ensures { Assembles (Ok (Some c)) out.old at result out.new }
{
    let n = records::encode(c, out, at);
    if n == 0 {
        return Err(Refused::NoRoom);
    }
    Ok(at + n)
}

// Puts a line's command where there is room for it, and nothing of an empty line and of a bad one: the place in the stream then.
pub fn assemble_line(line: &[u8], out: &mut [u8], at: usize) -> Result<usize, Refused>
    ensures { Assembles (parse_line line.now) out.old at result out.new }
{
    match parse_line(line)? {
        Some(command) => put_command(command, out, at),
        None => Ok(at),
    }
}
