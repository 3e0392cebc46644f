// Events as text.
ghost use Rattle.std.specs.Prelude.{◌≡◌};
ghost use Rattle.wording.specs.Pieces.{Puts};
ghost use Rattle.wording.specs.Rows.{plural};
ghost use Rattle.wording.specs.Events.{back_words, event_words};

use crate::names;
use crate::rows::Piece::{Decimal, Hex, Mask, Words};
use crate::rows::put_all;
use model::Event;

// An s behind what is counted, but for one.
fn plural(n: u64) -> &'static [u8]
    ensures { result.now ≡ plural n }
{
    if n == 1 { b"" } else { b"s" }
}

// What becomes of a write-back, its block, the dirty bytes that its masks mark, the masks: four, as `Event` has them.
fn put_back(
    what: &[u8],
    block: u64,
    m0: u32,
    m1: u32,
    m2: u32,
    m3: u32,
    out: &mut [u8],
    at: usize,
) -> usize
    ensures { Puts out.old at (back_words what.now block m0 m1 m2 m3) result out.new }
{
    let n = records::dirty_bytes(m0, m1, m2, m3);
    let pieces = [
        Words(what),
        Words(b" "),
        Hex(block),
        Words(b", "),
        Decimal(n),
        Words(b" dirty byte"),
        Words(plural(n)),
        Words(b", masks "),
        Mask(m0),
        Words(b" "),
        Mask(m1),
        Words(b" "),
        Mask(m2),
        Words(b" "),
        Mask(m3),
    ];
    put_all(&pieces, out, at)
}

// An event, by a line of its own.
#[tactic(auto, unfolding(crate::specs::Events::event_words))]
pub fn put_event(e: Event, out: &mut [u8], at: usize) -> usize
    ensures { Puts out.old at (event_words e) result out.new }
{
    match e {
        Event::Answered { answer, line } => {
            let name = Words(names::answer_name(answer));
            put_all(
                &[
                    Words(b"answer "),
                    name,
                    Words(b" line "),
                    Decimal(line as u64),
                ],
                out,
                at,
            )
        }
        Event::Refused(n) => {
            let number = Decimal(u8::from(n) as u64);
            let meaning = Words(names::meaning_of(n));
            put_all(
                &[
                    Words(b"refused "),
                    number,
                    Words(b" ("),
                    meaning,
                    Words(b")"),
                ],
                out,
                at,
            )
        }
        Event::ReadQueued(address) => put_all(&[Words(b"read queued "), Hex(address)], out, at),
        Event::WriteBackQueued {
            block,
            m0,
            m1,
            m2,
            m3,
        } => put_back(b"write-back queued", block, m0, m1, m2, m3, out, at),
        Event::Released(ticket) => {
            put_all(
                &[Words(b"released ticket "), Decimal(ticket as u64)],
                out,
                at,
            )
        }
        Event::ReadSent(address) => put_all(&[Words(b"read sent "), Hex(address)], out, at),
        Event::WriteBackSent {
            block,
            m0,
            m1,
            m2,
            m3,
        } => put_back(b"write-back sent", block, m0, m1, m2, m3, out, at),
        Event::Filled(address) => put_all(&[Words(b"filled "), Hex(address)], out, at),
        Event::Ticked => put_all(&[Words(b"ticked")], out, at),
    }
}
