// The steps of the calls without their check, for a caller whose tables nobody else can write: each asks for slices that are the encoding of
// sound tables, leaves such slices, and leaves and writes what the checked call does (include/labintugmo_steps.h).
ghost use Rattle.model.specs.Lent.{lent};
ghost use Rattle.model.specs.Inner.{SoundSlices};
ghost use Rattle.model.specs.Calls.{call, access_call, send_call, fill_call, tick_call};
ghost use Rattle.model.specs.History.{step_by, SmallCall};
ghost use Rattle.model.specs.declared.Access.TheVariants.{Read, Write};
ghost use Rattle.cache.specs.Made.{model_call};
ghost use Rattle.lending.specs.Lending.{settings_from};
ghost use Rattle.exported.specs.Exported.{Stepped};

use cache::Call;
use layout::Geometry;
use lending::settings_from;
use model::Access;
use records::EVENT_ROOM;

// Makes a step, where there is room for its events, and writes them. Each caller names its call, of which only that arm is left of it.
#[inline(always)]
fn stepped(
    settings: &[u32],
    longs: &mut [u64],
    words: &mut [u32],
    marks: &mut [u8],
    k: Call,
    events: &mut [u8],
) -> usize
    requires small { SmallCall (model_call k) }
    requires held { SoundSlices (settings_from settings.now) (lent longs.old words.old marks.old) }
    ensures { Stepped (settings_from settings.now) (call (settings_from settings.now) (step_by (settings_from settings.now) (model_call k)) (lent longs.old words.old marks.old)) (lent longs.old words.old marks.old)
        events.old result events.new (lent longs.new words.new marks.new) }
{
    if events.len() < EVENT_ROOM {
        return 0;
    }
    let s = settings_from(settings);
    let g = Geometry::new(s);
    match k {
        Call::Offer(x) => {
            let reply = access::access_step(g, longs, words, marks, x);
            records::put_access(reply, events, 0)
        }
        Call::Send => {
            let reply = steps::send_step(g, longs, words, marks);
            records::put_sent(reply, events, 0)
        }
        Call::Fill(address) => {
            let reply = steps::fill_step(g, longs, words, marks, address);
            records::put_filled(reply, events, 0)
        }
        Call::Tick(cycle) => {
            let reply = steps::tick_step(s, longs, words, marks, cycle);
            records::put_ticked(reply, events, 0)
        }
    }
}

// A read on tables that the caller has kept sound.
pub fn labintugmo_step_read(
    settings: &[u32],
    longs: &mut [u64],
    words: &mut [u32],
    marks: &mut [u8],
    address: u64,
    ticket: u32,
    events: &mut [u8],
) -> usize
    requires { SoundSlices (settings_from settings.now) (lent longs.old words.old marks.old) }
    ensures { Stepped (settings_from settings.now) (access_call (settings_from settings.now) (Read address 0 ticket) (lent longs.old words.old marks.old)) (lent longs.old words.old marks.old)
        events.old result events.new (lent longs.new words.new marks.new) }
{
    let x = Access::Read {
        address,
        mask: 0,
        ticket,
    };
    stepped(settings, longs, words, marks, Call::Offer(x), events)
}

// A write on tables that the caller has kept sound.
pub fn labintugmo_step_write(
    settings: &[u32],
    longs: &mut [u64],
    words: &mut [u32],
    marks: &mut [u8],
    address: u64,
    mask: u32,
    events: &mut [u8],
) -> usize
    requires { SoundSlices (settings_from settings.now) (lent longs.old words.old marks.old) }
    ensures { Stepped (settings_from settings.now) (access_call (settings_from settings.now) (Write address mask 0) (lent longs.old words.old marks.old)) (lent longs.old words.old marks.old)
        events.old result events.new (lent longs.new words.new marks.new) }
{
    let x = Access::Write {
        address,
        mask,
        ticket: 0,
    };
    stepped(settings, longs, words, marks, Call::Offer(x), events)
}

// A send on tables that the caller has kept sound.
pub fn labintugmo_step_send(
    settings: &[u32],
    longs: &mut [u64],
    words: &mut [u32],
    marks: &mut [u8],
    events: &mut [u8],
) -> usize
    requires { SoundSlices (settings_from settings.now) (lent longs.old words.old marks.old) }
    ensures { Stepped (settings_from settings.now) (send_call (settings_from settings.now) (lent longs.old words.old marks.old)) (lent longs.old words.old marks.old)
        events.old result events.new (lent longs.new words.new marks.new) }
{
    stepped(settings, longs, words, marks, Call::Send, events)
}

// A fill on tables that the caller has kept sound.
pub fn labintugmo_step_fill(
    settings: &[u32],
    longs: &mut [u64],
    words: &mut [u32],
    marks: &mut [u8],
    address: u64,
    events: &mut [u8],
) -> usize
    requires { SoundSlices (settings_from settings.now) (lent longs.old words.old marks.old) }
    ensures { Stepped (settings_from settings.now) (fill_call (settings_from settings.now) address (lent longs.old words.old marks.old)) (lent longs.old words.old marks.old)
        events.old result events.new (lent longs.new words.new marks.new) }
{
    stepped(settings, longs, words, marks, Call::Fill(address), events)
}

// A tick on tables that the caller has kept sound.
pub fn labintugmo_step_tick(
    settings: &[u32],
    longs: &mut [u64],
    words: &mut [u32],
    marks: &mut [u8],
    cycle: u32,
    events: &mut [u8],
) -> usize
    requires { SoundSlices (settings_from settings.now) (lent longs.old words.old marks.old) }
    ensures { Stepped (settings_from settings.now) (tick_call (settings_from settings.now) cycle (lent longs.old words.old marks.old)) (lent longs.old words.old marks.old)
        events.old result events.new (lent longs.new words.new marks.new) }
{
    stepped(settings, longs, words, marks, Call::Tick(cycle), events)
}
