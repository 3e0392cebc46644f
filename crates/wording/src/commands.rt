// Commands in the assembler's own language.
ghost use Rattle.wording.specs.Pieces.{Puts};
ghost use Rattle.wording.specs.Commands.{rule_words, settings_words, command_words};

use crate::rows::Piece::{Decimal, Hex, Rule, Words};
use crate::rows::put_all;
use model::{Command, Given};

// The rule, where one is given.
fn put_rule(rule: Option<u8>, out: &mut [u8], at: usize) -> usize
    ensures { Puts out.old at (rule_words rule) result out.new }
{
    match rule {
        None => put_all(&[], out, at),
        Some(n) => put_all(&[Words(b" rule "), Rule(n)], out, at),
    }
}

// Settings, with their rule where one is given.
fn put_settings(g: Given, out: &mut [u8], at: usize) -> usize
    ensures { Puts out.old at (settings_words g) result out.new }
{
    let numbers = [
        Words(b"settings sets "),
        Decimal(g.sets as u64),
        Words(b" ways "),
        Decimal(g.ways as u64),
        Words(b" dirty "),
        Decimal(g.dirty as u64),
        Words(b" misses "),
        Decimal(g.misses as u64),
        Words(b" readers "),
        Decimal(g.readers as u64),
        Words(b" queue "),
        Decimal(g.queue as u64),
    ];
    let next = put_all(&numbers, out, at);
    put_rule(g.rule, out, next)
}

// A command, by a line of its own.
#[tactic(auto, unfolding(crate::specs::Commands::command_words))]
pub fn put_command(c: Command, out: &mut [u8], at: usize) -> usize
    ensures { Puts out.old at (command_words c) result out.new }
{
    match c {
        Command::Settings(g) => put_settings(g, out, at),
        Command::Read { address, ticket } => {
            let ticket = ticket as u64;
            put_all(
                &[
                    Words(b"read "),
                    Hex(address),
                    Words(b" ticket "),
                    Decimal(ticket),
                ],
                out,
                at,
            )
        }
        Command::Write { address, mask } => {
            let mask = mask as u64;
            put_all(
                &[Words(b"write "), Hex(address), Words(b" mask "), Hex(mask)],
                out,
                at,
            )
        }
        Command::Send => put_all(&[Words(b"send")], out, at),
        Command::Fill(address) => put_all(&[Words(b"fill "), Hex(address)], out, at),
        Command::Tick(cycle) => put_all(&[Words(b"tick "), Decimal(cycle as u64)], out, at),
    }
}
