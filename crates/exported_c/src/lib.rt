// The calls of `exported` under their C names (include/labintugmo.h): a static library, whose exports call that library's functions and
// state their clauses again. `demand3` has the rounds of demand 3, `unchecked` the steps behind the calls' checks.
#![tactic(auto)]

mod demand3;
mod unchecked;

ghost use Rattle.std.specs.Prelude.{◌≡◌};
ghost use Rattle.model.specs.Layout.{longs_length, words_length, marks_length};
ghost use Rattle.model.specs.Tables.{after};
ghost use Rattle.model.specs.Lent.{lent};
ghost use Rattle.model.specs.Calls.{fresh_call, check_call, verdict_of, access_call, send_call, fill_call, tick_call};
ghost use Rattle.model.specs.declared.Access.TheVariants.{Read, Write};
ghost use Rattle.rounds.specs.Waiting.{wait_call};
ghost use Rattle.lending.specs.Lending.{settings_from};
ghost use Rattle.exported.specs.Exported.{verdict_number, length_for, access_for, Called, WaitCalled};

// How long `longs` must be; 0 for settings out of range.
#[unsafe(no_mangle)]
pub extern "C" fn labintugmo_longs_length(settings: &[u32]) -> usize
    ensures { result ≡ length_for (settings_from settings.now) (longs_length (settings_from settings.now)) }
{
    exported::labintugmo_longs_length(settings)
}

// How long `words` must be; 0 for settings out of range.
#[unsafe(no_mangle)]
pub extern "C" fn labintugmo_words_length(settings: &[u32]) -> usize
    ensures { result ≡ length_for (settings_from settings.now) (words_length (settings_from settings.now)) }
{
    exported::labintugmo_words_length(settings)
}

// How long `marks` must be; 0 for settings out of range.
#[unsafe(no_mangle)]
pub extern "C" fn labintugmo_marks_length(settings: &[u32]) -> usize
    ensures { result ≡ length_for (settings_from settings.now) (marks_length (settings_from settings.now)) }
{
    exported::labintugmo_marks_length(settings)
}

// Makes the tables fresh: 0, or refusal 1 or 2.
#[unsafe(no_mangle)]
pub extern "C" fn labintugmo_fresh(
    settings: &[u32],
    longs: &mut [u64],
    words: &mut [u32],
    marks: &mut [u8],
) -> u32
    ensures { (result ≡ verdict_number (verdict_of (fresh_call (settings_from settings.now) (lent longs.old words.old marks.old))))
        × ((lent longs.new words.new marks.new) ≡ after (lent longs.old words.old marks.old) (fresh_call (settings_from settings.now) (lent longs.old words.old marks.old))) }
{
    exported::labintugmo_fresh(settings, longs, words, marks)
}

// Whether the tables are sound: 0, or refusal 1, 2 or 3.
#[unsafe(no_mangle)]
pub extern "C" fn labintugmo_check(
    settings: &[u32],
    longs: &[u64],
    words: &[u32],
    marks: &[u8],
) -> u32
    ensures { result ≡ verdict_number (verdict_of (check_call (settings_from settings.now) (lent longs.now words.now marks.now))) }
{
    exported::labintugmo_check(settings, longs, words, marks)
}

// A read; its events are written, and how many bytes they are is returned.
#[unsafe(no_mangle)]
pub extern "C" fn labintugmo_read(
    settings: &[u32],
    longs: &mut [u64],
    words: &mut [u32],
    marks: &mut [u8],
    address: u64,
    ticket: u32,
    events: &mut [u8],
) -> usize
    ensures { Called (access_call (settings_from settings.now) (Read address 0 ticket) (lent longs.old words.old marks.old)) (lent longs.old words.old marks.old)
        events.old result events.new (lent longs.new words.new marks.new) }
{
    exported::labintugmo_read(settings, longs, words, marks, address, ticket, events)
}

// A write; its events are written, and how many bytes they are is returned.
#[unsafe(no_mangle)]
pub extern "C" fn labintugmo_write(
    settings: &[u32],
    longs: &mut [u64],
    words: &mut [u32],
    marks: &mut [u8],
    address: u64,
    mask: u32,
    events: &mut [u8],
) -> usize
    ensures { Called (access_call (settings_from settings.now) (Write address mask 0) (lent longs.old words.old marks.old)) (lent longs.old words.old marks.old)
        events.old result events.new (lent longs.new words.new marks.new) }
{
    exported::labintugmo_write(settings, longs, words, marks, address, mask, events)
}

// A send; its events are written, and how many bytes they are is returned.
#[unsafe(no_mangle)]
pub extern "C" fn labintugmo_send(
    settings: &[u32],
    longs: &mut [u64],
    words: &mut [u32],
    marks: &mut [u8],
    events: &mut [u8],
) -> usize
    ensures { Called (send_call (settings_from settings.now) (lent longs.old words.old marks.old)) (lent longs.old words.old marks.old)
        events.old result events.new (lent longs.new words.new marks.new) }
{
    exported::labintugmo_send(settings, longs, words, marks, events)
}

// A fill; its events are written, and how many bytes they are is returned.
#[unsafe(no_mangle)]
pub extern "C" fn labintugmo_fill(
    settings: &[u32],
    longs: &mut [u64],
    words: &mut [u32],
    marks: &mut [u8],
    address: u64,
    events: &mut [u8],
) -> usize
    ensures { Called (fill_call (settings_from settings.now) address (lent longs.old words.old marks.old)) (lent longs.old words.old marks.old)
        events.old result events.new (lent longs.new words.new marks.new) }
{
    exported::labintugmo_fill(settings, longs, words, marks, address, events)
}

// A tick; its events are written, and how many bytes they are is returned.
#[unsafe(no_mangle)]
pub extern "C" fn labintugmo_tick(
    settings: &[u32],
    longs: &mut [u64],
    words: &mut [u32],
    marks: &mut [u8],
    cycle: u32,
    events: &mut [u8],
) -> usize
    ensures { Called (tick_call (settings_from settings.now) cycle (lent longs.old words.old marks.old)) (lent longs.old words.old marks.old)
        events.old result events.new (lent longs.new words.new marks.new) }
{
    exported::labintugmo_tick(settings, longs, words, marks, cycle, events)
}

// Any access, also one that refusal 4 turns away.
#[unsafe(no_mangle)]
pub extern "C" fn labintugmo_access(
    settings: &[u32],
    longs: &mut [u64],
    words: &mut [u32],
    marks: &mut [u8],
    is_write: u32,
    address: u64,
    mask: u32,
    ticket: u32,
    events: &mut [u8],
) -> usize
    ensures { Called (access_call (settings_from settings.now) (access_for is_write address mask ticket) (lent longs.old words.old marks.old)) (lent longs.old words.old marks.old)
        events.old result events.new (lent longs.new words.new marks.new) }
{
    exported::labintugmo_access(
        settings, longs, words, marks, is_write, address, mask, ticket, events,
    )
}

// `rounds::wait` for C: the bytes of its events; `round` takes the accepting round, or 0.
#[unsafe(no_mangle)]
pub extern "C" fn labintugmo_wait(
    settings: &[u32],
    longs: &mut [u64],
    words: &mut [u32],
    marks: &mut [u8],
    is_write: u32,
    address: u64,
    mask: u32,
    ticket: u32,
    events: &mut [u8],
    round: &mut [u64],
) -> usize
    ensures { WaitCalled (wait_call (settings_from settings.now) (access_for is_write address mask ticket) (lent longs.old words.old marks.old)) (lent longs.old words.old marks.old)
        events.old round.old result events.new round.new (lent longs.new words.new marks.new) }
{
    exported::labintugmo_wait(
        settings, longs, words, marks, is_write, address, mask, ticket, events, round,
    )
}
