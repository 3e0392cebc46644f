// Why a run stopped, in a few plain words.
ghost use Rattle.wording.specs.Pieces.{Puts};
ghost use Rattle.wording.specs.Stops.{number_words, unknown_words, place_words, cut_words, why_words};

use crate::rows::Piece::{Decimal, Hex, Words};
use crate::rows::put_all;
use crate::settings;
use model::Stop;
use records::Number;

// Words, then a number.
pub fn put_number(words: &[u8], n: u64, out: &mut [u8], at: usize) -> usize
    ensures { Puts out.old at (number_words words.now n) result out.new }
{
    put_all(&[Words(words), Decimal(n)], out, at)
}

// Event kinds are unknown to a stream of commands; the words say so, since a log is easily taken for a stream.
fn put_unknown(kind: u8, place: u64, out: &mut [u8], at: usize) -> usize
    ensures { Puts out.old at (unknown_words kind place) result out.new }
{
    let next = put_all(
        &[
            Words(b"unknown kind "),
            Hex(kind as u64),
            Words(b" at byte "),
            Decimal(place),
        ],
        out,
        at,
    );
    if records::length_of(kind) == 255 {
        return next;
    }
    put_all(
        &[Words(b": an event, and a stream has only commands")],
        out,
        next,
    )
}

// Settings that are not first, or another kind that is.
fn put_out_of_place(kind: u8, place: u64, out: &mut [u8], at: usize) -> usize
    ensures { Puts out.old at (place_words kind place) result out.new }
{
    if records::is_settings(kind) {
        let words = Words(b": they stand only at the start of a stream");
        return put_all(
            &[Words(b"settings at byte "), Decimal(place), words],
            out,
            at,
        );
    }
    let pieces = [
        Words(b"kind "),
        Decimal(kind as u64),
        Words(b" at byte "),
        Decimal(place),
        Words(b": a stream starts with its settings, kind 0 or 6"),
    ];
    put_all(&pieces, out, at)
}

// A record that is cut short: what it wants, and what is left behind its kind.
fn put_cut(kind: u8, left: usize, place: u64, out: &mut [u8], at: usize) -> usize
    ensures { Puts out.old at (cut_words kind left place) result out.new }
{
    let pieces = [
        Words(b"record cut short at byte "),
        Decimal(place),
        Words(b": kind "),
        Decimal(kind as u64),
        Words(b" wants "),
        Decimal(records::length_of(kind) as u64),
        Words(b" bytes, "),
        Decimal(left as u64),
        Words(b" are left"),
    ];
    put_all(&pieces, out, at)
}

// In plain words, of the bytes at which the run stopped. Stops 2 and 16 do not come here: the tables are as long as the
// settings ask, and events are written out before their room ends.
#[tactic(auto, unfolding(crate::specs::Stops::why_words))]
pub fn put_why(stop: Option<Stop>, rest: &[u8], place: u64, out: &mut [u8], at: usize) -> usize
    ensures { Puts out.old at (why_words stop rest.now place) result out.new }
{
    let kind = u8::read(rest, 0);
    match stop {
        None => put_all(&[Words(b"end of input")], out, at),
        Some(Stop::SettingOutOfRange) => settings::put_bad(rest, out, at),
        Some(Stop::SliceLength) => put_all(&[Words(b"tables of another length")], out, at),
        Some(Stop::NotSound) => put_all(&[Words(b"tables not sound")], out, at),
        Some(Stop::OutOfPlace) => put_out_of_place(kind, place, out, at),
        Some(Stop::UnknownKind) => put_unknown(kind, place, out, at),
        Some(Stop::CutShort) => put_cut(kind, rest.len().saturating_sub(1), place, out, at),
        Some(Stop::NoRoom) => put_all(&[Words(b"too little event room")], out, at),
    }
}
