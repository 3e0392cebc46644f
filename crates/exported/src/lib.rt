// The calls as C sees them (include/labintugmo.h): numbers and slices alone, a slice as a pointer and a length. A call writes its event
// records at the start of the caller's buffer and returns how many bytes they are. `demand3` has the rounds of demand 3, `unchecked` the
// steps behind the calls' checks. The stream runner is in `exported_runner`. The static library `exported_c` exports each function here.
// What a call returns is a number, as the header of C says it: 0 and refusal numbers for verdicts, 0 for no bytes, no length and no round.
#![tactic(auto)]

pub mod demand3;
pub mod unchecked;

ghost use Rattle.std.specs.Prelude.{◌≡◌, true, false, [], ◌∷◌, length, get_or};
ghost use Rattle.model.specs.Range.{in_range};
ghost use Rattle.model.specs.Layout.{longs_length, words_length, marks_length};
ghost use Rattle.model.specs.Tables.{after};
ghost use Rattle.model.specs.Lent.{lent};
ghost use Rattle.model.specs.SoundLent.{Small};
ghost use Rattle.model.specs.Calls.{fresh_call, check_call, verdict_of, call, access_call, send_call, fill_call, tick_call};
ghost use Rattle.model.specs.History.{step_by};
ghost use Rattle.model.specs.declared.Access.TheVariants.{Read, Write};
ghost use Rattle.cache.specs.Made.{model_call};
ghost use Rattle.rounds.specs.Waiting.{wait_call};
ghost use Rattle.lending.specs.Lending.{settings_from};
ghost use Rattle.exported.specs.Exported.{verdict_number, length_for, access_for, round_number, Called, WaitCalled};

use cache::Call;
use lending::settings_from;
use model::{Access, Refusal, Settings};
use records::{EVENT_ROOM, WAIT_ROOM};
use rounds::{Accepted, NotAccepted};

// A verdict as its number: 0 where nothing is refused.
fn verdict_number(v: Result<(), Refusal>) -> u32
    ensures { result ≡ verdict_number v }
{
    match v {
        Ok(()) => 0,
        Err(n) => u8::from(n) as u32,
    }
}

// The access that C asks for.
fn access_for(is_write: u32, address: u64, mask: u32, ticket: u32) -> Access
    ensures { result ≡ access_for is_write address mask ticket }
{
    if is_write == 0 {
        return Access::Read {
            address,
            mask,
            ticket,
        };
    }
    Access::Write {
        address,
        mask,
        ticket,
    }
}

// A length that the settings fix; 0 for settings out of range.
fn length_of<F: FnOnce(Settings) -> usize>(settings: &[u32], length: F) -> usize
    requires { in_range (settings_from settings.now) ≡ true → F.pre length (settings_from settings.now) }
    ensures in_range { in_range (settings_from settings.now) ≡ true → F.post length (settings_from settings.now) result }
    ensures out_of_range { in_range (settings_from settings.now) ≡ false → result ≡ 0 }
{
    let s = settings_from(settings);
    if layout::in_range(s) { length(s) } else { 0 }
}

// How long `longs` must be; 0 for settings out of range.
pub fn labintugmo_longs_length(settings: &[u32]) -> usize
    ensures { result ≡ length_for (settings_from settings.now) (longs_length (settings_from settings.now)) }
{
    length_of(settings, |s| layout::longs_length(s))
}

// How long `words` must be; 0 for settings out of range.
pub fn labintugmo_words_length(settings: &[u32]) -> usize
    ensures { result ≡ length_for (settings_from settings.now) (words_length (settings_from settings.now)) }
{
    length_of(settings, |s| layout::words_length(s))
}

// How long `marks` must be; 0 for settings out of range.
pub fn labintugmo_marks_length(settings: &[u32]) -> usize
    ensures { result ≡ length_for (settings_from settings.now) (marks_length (settings_from settings.now)) }
{
    length_of(settings, |s| layout::marks_length(s))
}

// Makes the tables fresh: 0, or refusal 1 or 2.
pub fn labintugmo_fresh(
    settings: &[u32],
    longs: &mut [u64],
    words: &mut [u32],
    marks: &mut [u8],
) -> u32
    ensures { (result ≡ verdict_number (verdict_of (fresh_call (settings_from settings.now) (lent longs.old words.old marks.old))))
        × ((lent longs.new words.new marks.new) ≡ after (lent longs.old words.old marks.old) (fresh_call (settings_from settings.now) (lent longs.old words.old marks.old))) }
{
    let s = settings_from(settings);
    verdict_number(cache::fresh(s, longs, words, marks))
}

// Whether the tables are sound: 0, or refusal 1, 2 or 3.
pub fn labintugmo_check(settings: &[u32], longs: &[u64], words: &[u32], marks: &[u8]) -> u32
    ensures { result ≡ verdict_number (verdict_of (check_call (settings_from settings.now) (lent longs.now words.now marks.now))) }
{
    let s = settings_from(settings);
    verdict_number(soundness::check(s, longs, words, marks))
}

// The lent words are 32-bit numbers, which a proof can still cite once they have changed.
fn words_fit(words: &[u32])
    ensures { Small (lent [] words.now []) }
{}

// Makes a call, where there is room for its events, and writes them.
fn made(
    settings: &[u32],
    longs: &mut [u64],
    words: &mut [u32],
    marks: &mut [u8],
    k: Call,
    events: &mut [u8],
) -> usize
    ensures { Called (call (settings_from settings.now) (step_by (settings_from settings.now) (model_call k)) (lent longs.old words.old marks.old)) (lent longs.old words.old marks.old)
        events.old result events.new (lent longs.new words.new marks.new) }
{
    if events.len() < EVENT_ROOM {
        return 0;
    }
    words_fit(words);
    let s = settings_from(settings);
    let reply = cache::perform(s, longs, words, marks, k);
    records::encode(reply, events, 0)
}

// A read; its events are written, and how many bytes they are is returned.
pub fn labintugmo_read(
    settings: &[u32],
    longs: &mut [u64],
    words: &mut [u32],
    marks: &mut [u8],
    address: u64,
    ticket: u32,
    events: &mut [u8],
) -> usize
    ensures { Called (access_call (settings_from settings.now) (Read address 0 ticket) (lent longs.old words.old marks.old)) (lent longs.old words.old marks.old)
        events.old result events.new (lent longs.new words.new marks.new) }
{
    let x = Access::Read {
        address,
        mask: 0,
        ticket,
    };
    made(settings, longs, words, marks, Call::Offer(x), events)
}

// A write; its events are written, and how many bytes they are is returned.
pub fn labintugmo_write(
    settings: &[u32],
    longs: &mut [u64],
    words: &mut [u32],
    marks: &mut [u8],
    address: u64,
    mask: u32,
    events: &mut [u8],
) -> usize
    ensures { Called (access_call (settings_from settings.now) (Write address mask 0) (lent longs.old words.old marks.old)) (lent longs.old words.old marks.old)
        events.old result events.new (lent longs.new words.new marks.new) }
{
    let x = Access::Write {
        address,
        mask,
        ticket: 0,
    };
    made(settings, longs, words, marks, Call::Offer(x), events)
}

// A send; its events are written, and how many bytes they are is returned.
pub fn labintugmo_send(
    settings: &[u32],
    longs: &mut [u64],
    words: &mut [u32],
    marks: &mut [u8],
    events: &mut [u8],
) -> usize
    ensures { Called (send_call (settings_from settings.now) (lent longs.old words.old marks.old)) (lent longs.old words.old marks.old)
        events.old result events.new (lent longs.new words.new marks.new) }
{
    made(settings, longs, words, marks, Call::Send, events)
}

// A fill; its events are written, and how many bytes they are is returned.
pub fn labintugmo_fill(
    settings: &[u32],
    longs: &mut [u64],
    words: &mut [u32],
    marks: &mut [u8],
    address: u64,
    events: &mut [u8],
) -> usize
    ensures { Called (fill_call (settings_from settings.now) address (lent longs.old words.old marks.old)) (lent longs.old words.old marks.old)
        events.old result events.new (lent longs.new words.new marks.new) }
{
    made(settings, longs, words, marks, Call::Fill(address), events)
}

// A tick; its events are written, and how many bytes they are is returned.
pub fn labintugmo_tick(
    settings: &[u32],
    longs: &mut [u64],
    words: &mut [u32],
    marks: &mut [u8],
    cycle: u32,
    events: &mut [u8],
) -> usize
    ensures { Called (tick_call (settings_from settings.now) cycle (lent longs.old words.old marks.old)) (lent longs.old words.old marks.old)
        events.old result events.new (lent longs.new words.new marks.new) }
{
    made(settings, longs, words, marks, Call::Tick(cycle), events)
}

// Any access, also one that refusal 4 turns away.
pub fn labintugmo_access(
    settings: &[u32],
    longs: &mut [u64],
    words: &mut [u32],
    marks: &mut [u8],
    is_write: u32,
    address: u64,
    mask: u32,
    ticket: u32,
    events: &mut [u8],
) -> usize
    ensures { Called (access_call (settings_from settings.now) (access_for is_write address mask ticket) (lent longs.old words.old marks.old)) (lent longs.old words.old marks.old)
        events.old result events.new (lent longs.new words.new marks.new) }
{
    let x = access_for(is_write, address, mask, ticket);
    made(settings, longs, words, marks, Call::Offer(x), events)
}

// The accepting round; 0 where there is none.
fn round_number(waiting: Result<Accepted, NotAccepted>) -> u64
    ensures { result ≡ round_number waiting }
{
    match waiting {
        Ok(accepted) => accepted.round as u64,
        Err(_) => 0,
    }
}

// `rounds::wait` for C: the bytes of its events; `round` takes the accepting round, or 0.
pub fn labintugmo_wait(
    settings: &[u32],
    longs: &mut [u64],
    words: &mut [u32],
    marks: &mut [u8],
    is_write: u32,
    address: u64,
    mask: u32,
    ticket: u32,
    events: &mut [u8],
    round: &mut [u64],
) -> usize
    ensures { WaitCalled (wait_call (settings_from settings.now) (access_for is_write address mask ticket) (lent longs.old words.old marks.old)) (lent longs.old words.old marks.old)
        events.old round.old result events.new round.new (lent longs.new words.new marks.new) }
{
    if round.len() != 1 {
        return 0;
    }
    if events.len() < WAIT_ROOM {
        return 0;
    }
    let s = settings_from(settings);
    let x = access_for(is_write, address, mask, ticket);
    let waited = rounds::wait(s, longs, words, marks, x, events);
    round[0] = round_number(waited.waiting);
    waited.written
}
