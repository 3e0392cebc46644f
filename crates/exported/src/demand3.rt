// The rounds of demand 3 and the struck rounds as C sees them (include/labintugmo.h). How many were run and the bytes of their events go to a
// slice of two numbers.
ghost use Rattle.std.specs.Prelude.{◌≡◌, [], ◌∷◌, length};
ghost use Rattle.model.specs.Lent.{lent};
ghost use Rattle.rounds.specs.Demand3.{rounds_call, flags_call, struck_call};
ghost use Rattle.lending.specs.Lending.{settings_from};
ghost use Rattle.exported.specs.Exported.{access_for};
ghost use Rattle.exported.specs.Demand3.{not_run_number, went_number, rounds_run, bytes_written, ShownCalled, FlagsCalled};

use crate::access_for;
use lending::settings_from;
use rounds::{NotRun, Went};

// Why no round ran, as C gets it: the refusal's number, or 16 where flags or bytes are too few.
fn not_run_number(why: NotRun) -> u32
    ensures { result ≡ not_run_number why }
{
    match why {
        NotRun::Refused(n) => u8::from(n) as u32,
        NotRun::NoRoom => 16,
    }
}

// How many rounds ran and the bytes of their events go to the counts; 0, or why none ran.
fn note_went(went: Result<Went, NotRun>, counts: &mut [u64]) -> u32
    requires { length counts.old ≡ 2 }
    ensures number { result ≡ went_number went }
    ensures counts { counts.new ≡ rounds_run went ∷ bytes_written went ∷ [] }
{
    match went {
        Ok(ran) => {
            counts[0] = ran.rounds as u64;
            counts[1] = ran.written as u64;
            0
        }
        Err(why) => {
            counts[0] = 0;
            counts[1] = 0;
            not_run_number(why)
        }
    }
}

// `rounds::run_rounds` for C: 0 for rounds that ran, 1 to 4, or 16 for no room; `counts` takes rounds and bytes.
pub fn labintugmo_rounds(
    settings: &[u32],
    longs: &mut [u64],
    words: &mut [u32],
    marks: &mut [u8],
    is_write: u32,
    address: u64,
    mask: u32,
    ticket: u32,
    n: usize,
    flags: &mut [u8],
    events: &mut [u8],
    counts: &mut [u64],
) -> u32
    ensures shown_called { ShownCalled (rounds_call (settings_from settings.now) (access_for is_write address mask ticket) n (lent longs.old words.old marks.old) flags.old events.old) (lent longs.old words.old marks.old)
        events.old counts.old result events.new counts.new (lent longs.new words.new marks.new) }
    ensures flags_called { FlagsCalled (flags_call (settings_from settings.now) (access_for is_write address mask ticket) n (lent longs.old words.old marks.old) flags.old events.old)
        flags.old counts.old flags.new }
{
    if counts.len() != 2 {
        return 2;
    }
    let s = settings_from(settings);
    let x = access_for(is_write, address, mask, ticket);
    let went = rounds::run_rounds(s, longs, words, marks, x, n, flags, events);
    note_went(went, counts)
}

// `rounds::run_struck` for C, from the flags that the rounds left.
pub fn labintugmo_struck(
    settings: &[u32],
    longs: &mut [u64],
    words: &mut [u32],
    marks: &mut [u8],
    is_write: u32,
    address: u64,
    mask: u32,
    ticket: u32,
    flags: &[u8],
    events: &mut [u8],
    counts: &mut [u64],
) -> u32
    ensures { ShownCalled (struck_call (settings_from settings.now) (access_for is_write address mask ticket) (lent longs.old words.old marks.old) flags.now events.old) (lent longs.old words.old marks.old)
        events.old counts.old result events.new counts.new (lent longs.new words.new marks.new) }
{
    if counts.len() != 2 {
        return 2;
    }
    let s = settings_from(settings);
    let x = access_for(is_write, address, mask, ticket);
    let went = rounds::run_struck(s, longs, words, marks, x, flags, events);
    note_went(went, counts)
}
