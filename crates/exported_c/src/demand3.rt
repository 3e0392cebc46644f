// The rounds of demand 3 and the struck rounds under their C names.
ghost use Rattle.model.specs.Lent.{lent};
ghost use Rattle.rounds.specs.Demand3.{rounds_call, flags_call, struck_call};
ghost use Rattle.lending.specs.Lending.{settings_from};
ghost use Rattle.exported.specs.Exported.{access_for};
ghost use Rattle.exported.specs.Demand3.{ShownCalled, FlagsCalled};

// `rounds::run_rounds` for C: 0 for rounds that ran, 1 to 4, or 16 for no room; `counts` takes rounds and bytes.
#[unsafe(no_mangle)]
pub extern "C" fn labintugmo_rounds(
    settings: &[u32],
    longs: &mut [u64],
    words: &mut [u32],
    marks: &mut [u8],
    is_write: u32,
    address: u64,
    mask: u32,
    ticket: u32,
    n: usize,
    flags: &mut [u8],
    events: &mut [u8],
    counts: &mut [u64],
) -> u32
    ensures shown_called { ShownCalled (rounds_call (settings_from settings.now) (access_for is_write address mask ticket) n (lent longs.old words.old marks.old) flags.old events.old) (lent longs.old words.old marks.old)
        events.old counts.old result events.new counts.new (lent longs.new words.new marks.new) }
    ensures flags_called { FlagsCalled (flags_call (settings_from settings.now) (access_for is_write address mask ticket) n (lent longs.old words.old marks.old) flags.old events.old)
        flags.old counts.old flags.new }
{
    exported::demand3::labintugmo_rounds(
        settings, longs, words, marks, is_write, address, mask, ticket, n, flags, events, counts,
    )
}

// `rounds::run_struck` for C, from the flags that the rounds left.
#[unsafe(no_mangle)]
pub extern "C" fn labintugmo_struck(
    settings: &[u32],
    longs: &mut [u64],
    words: &mut [u32],
    marks: &mut [u8],
    is_write: u32,
    address: u64,
    mask: u32,
    ticket: u32,
    flags: &[u8],
    events: &mut [u8],
    counts: &mut [u64],
) -> u32
    ensures { ShownCalled (struck_call (settings_from settings.now) (access_for is_write address mask ticket) (lent longs.old words.old marks.old) flags.now events.old) (lent longs.old words.old marks.old)
        events.old counts.old result events.new counts.new (lent longs.new words.new marks.new) }
{
    exported::demand3::labintugmo_struck(
        settings, longs, words, marks, is_write, address, mask, ticket, flags, events, counts,
    )
}
