// The steps without their check under their C names (include/labintugmo_steps.h): each asks for slices that are the encoding of sound
// tables.
ghost use Rattle.model.specs.Lent.{lent};
ghost use Rattle.model.specs.Inner.{SoundSlices};
ghost use Rattle.model.specs.Calls.{access_call, send_call, fill_call, tick_call};
ghost use Rattle.model.specs.declared.Access.TheVariants.{Read, Write};
ghost use Rattle.lending.specs.Lending.{settings_from};
ghost use Rattle.exported.specs.Exported.{Stepped};

// A read on tables that the caller has kept sound.
#[unsafe(no_mangle)]
pub extern "C" fn labintugmo_step_read(
    settings: &[u32],
    longs: &mut [u64],
    words: &mut [u32],
    marks: &mut [u8],
    address: u64,
    ticket: u32,
    events: &mut [u8],
) -> usize
    requires { SoundSlices (settings_from settings.now) (lent longs.old words.old marks.old) }
    ensures { Stepped (settings_from settings.now) (access_call (settings_from settings.now) (Read address 0 ticket) (lent longs.old words.old marks.old)) (lent longs.old words.old marks.old)
        events.old result events.new (lent longs.new words.new marks.new) }
{
    exported::unchecked::labintugmo_step_read(
        settings, longs, words, marks, address, ticket, events,
    )
}

// A write on tables that the caller has kept sound.
#[unsafe(no_mangle)]
pub extern "C" fn labintugmo_step_write(
    settings: &[u32],
    longs: &mut [u64],
    words: &mut [u32],
    marks: &mut [u8],
    address: u64,
    mask: u32,
    events: &mut [u8],
) -> usize
    requires { SoundSlices (settings_from settings.now) (lent longs.old words.old marks.old) }
    ensures { Stepped (settings_from settings.now) (access_call (settings_from settings.now) (Write address mask 0) (lent longs.old words.old marks.old)) (lent longs.old words.old marks.old)
        events.old result events.new (lent longs.new words.new marks.new) }
{
    exported::unchecked::labintugmo_step_write(settings, longs, words, marks, address, mask, events)
}

// A send on tables that the caller has kept sound.
#[unsafe(no_mangle)]
pub extern "C" fn labintugmo_step_send(
    settings: &[u32],
    longs: &mut [u64],
    words: &mut [u32],
    marks: &mut [u8],
    events: &mut [u8],
) -> usize
    requires { SoundSlices (settings_from settings.now) (lent longs.old words.old marks.old) }
    ensures { Stepped (settings_from settings.now) (send_call (settings_from settings.now) (lent longs.old words.old marks.old)) (lent longs.old words.old marks.old)
        events.old result events.new (lent longs.new words.new marks.new) }
{
    exported::unchecked::labintugmo_step_send(settings, longs, words, marks, events)
}

// A fill on tables that the caller has kept sound.
#[unsafe(no_mangle)]
pub extern "C" fn labintugmo_step_fill(
    settings: &[u32],
    longs: &mut [u64],
    words: &mut [u32],
    marks: &mut [u8],
    address: u64,
    events: &mut [u8],
) -> usize
    requires { SoundSlices (settings_from settings.now) (lent longs.old words.old marks.old) }
    ensures { Stepped (settings_from settings.now) (fill_call (settings_from settings.now) address (lent longs.old words.old marks.old)) (lent longs.old words.old marks.old)
        events.old result events.new (lent longs.new words.new marks.new) }
{
    exported::unchecked::labintugmo_step_fill(settings, longs, words, marks, address, events)
}

// A tick on tables that the caller has kept sound.
#[unsafe(no_mangle)]
pub extern "C" fn labintugmo_step_tick(
    settings: &[u32],
    longs: &mut [u64],
    words: &mut [u32],
    marks: &mut [u8],
    cycle: u32,
    events: &mut [u8],
) -> usize
    requires { SoundSlices (settings_from settings.now) (lent longs.old words.old marks.old) }
    ensures { Stepped (settings_from settings.now) (tick_call (settings_from settings.now) cycle (lent longs.old words.old marks.old)) (lent longs.old words.old marks.old)
        events.old result events.new (lent longs.new words.new marks.new) }
{
    exported::unchecked::labintugmo_step_tick(settings, longs, words, marks, cycle, events)
}
