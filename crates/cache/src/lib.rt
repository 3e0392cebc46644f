// The calls on lent tables (document 01), for any settings and any slices: making fresh tables, read and write, send, fill, tick, and
// the check of refusals 1, 2 and 3 by itself. Each checks first and then does its step; a refusal leaves every slice as it was.
#![tactic(auto)]

ghost use Rattle.std.specs.Prelude.{◌≡◌};
ghost use Rattle.model.specs.Lent.{lent};
ghost use Rattle.model.specs.Calls.{fresh_call, check_call, verdict_of, call, access_call, send_call, fill_call, tick_call, Leaves};
ghost use Rattle.model.specs.History.{step_by};
ghost use Rattle.model.specs.Inner.{SoundSlices, Does};
ghost use Rattle.model.specs.declared.Access.TheVariants.{Read, Write};
ghost use Rattle.cache.specs.Made.{LeavesVerdict, model_call};

use layout::Geometry;
use model::{Access, Refusal, Reply, Settings};

// One call but the making of tables. A value and not a closure: the scripts of `cache_tests` and the calls for C choose one before they make it, and `model_call` says in a contract which it is.
#[derive(Clone, Copy)]
pub enum Call {
    Offer(Access),
    Send,
    Fill(u64),
    Tick(u32),
}

// ---- fresh tables

// Fresh tables; refusal 3 is not asked.
pub fn fresh(
    s: Settings,
    longs: &mut [u64],
    words: &mut [u32],
    marks: &mut [u8],
) -> Result<(), Refusal>
    ensures { LeavesVerdict (fresh_call s (lent longs.old words.old marks.old))
        (lent longs.old words.old marks.old) result
        (lent longs.new words.new marks.new) }
{
    if !layout::in_range(s) {
        return Err(Refusal::SettingOutOfRange);
    }
    if !layout::lengths_fit(s, longs, words, marks) {
        return Err(Refusal::SliceLength);
    }
    layout::make_fresh(s, longs, words, marks);
    Ok(())
}

// ---- the calls

// The step of a call, behind the check.
fn step(g: Geometry, longs: &mut [u64], words: &mut [u32], marks: &mut [u8], k: Call) -> Reply
    requires { SoundSlices g.settings (lent longs.old words.old marks.old) }
    ensures { Does g.settings (step_by g.settings (model_call k)) (lent longs.old words.old marks.old) result
        (lent longs.new words.new marks.new) }
{
    match k {
        Call::Offer(x) => access::access_step(g, longs, words, marks, x),
        Call::Send => steps::send_step(g, longs, words, marks),
        Call::Fill(address) => steps::fill_step(g, longs, words, marks, address),
        Call::Tick(cycle) => steps::tick_step(g.settings, longs, words, marks, cycle),
    }
}

// Makes a call: the check, then its step.
pub fn perform(
    s: Settings,
    longs: &mut [u64],
    words: &mut [u32],
    marks: &mut [u8],
    k: Call,
) -> Reply
    ensures { Leaves (call s (step_by s (model_call k)) (lent longs.old words.old marks.old))
        (lent longs.old words.old marks.old) result
        (lent longs.new words.new marks.new) }
{
    match soundness::checked_layout(s, longs, words, marks) {
        Err(n) => tables::refused(n),
        Ok(g) => step(g, longs, words, marks, k),
    }
}

// One access; a read wants mask 0, and a write's ticket is not looked at.
pub fn access(
    s: Settings,
    longs: &mut [u64],
    words: &mut [u32],
    marks: &mut [u8],
    x: Access,
) -> Reply
    ensures { Leaves (access_call s x (lent longs.old words.old marks.old))
        (lent longs.old words.old marks.old) result
        (lent longs.new words.new marks.new) }
{
    perform(s, longs, words, marks, Call::Offer(x))
}

// A read: an access with mask 0.
pub fn read(
    s: Settings,
    longs: &mut [u64],
    words: &mut [u32],
    marks: &mut [u8],
    address: u64,
    ticket: u32,
) -> Reply
    ensures { Leaves (access_call s (Read address 0 ticket) (lent longs.old words.old marks.old))
        (lent longs.old words.old marks.old) result
        (lent longs.new words.new marks.new) }
{
    let x = Access::Read {
        address,
        mask: 0,
        ticket,
    };
    access(s, longs, words, marks, x)
}

// A write: an access without a ticket.
pub fn write(
    s: Settings,
    longs: &mut [u64],
    words: &mut [u32],
    marks: &mut [u8],
    address: u64,
    mask: u32,
) -> Reply
    ensures { Leaves (access_call s (Write address mask 0) (lent longs.old words.old marks.old))
        (lent longs.old words.old marks.old) result
        (lent longs.new words.new marks.new) }
{
    let x = Access::Write {
        address,
        mask,
        ticket: 0,
    };
    access(s, longs, words, marks, x)
}

// Takes the queue head.
pub fn send(s: Settings, longs: &mut [u64], words: &mut [u32], marks: &mut [u8]) -> Reply
    ensures { Leaves (send_call s (lent longs.old words.old marks.old))
        (lent longs.old words.old marks.old) result
        (lent longs.new words.new marks.new) }
{
    perform(s, longs, words, marks, Call::Send)
}

// The data of a sector address has come.
pub fn fill(
    s: Settings,
    longs: &mut [u64],
    words: &mut [u32],
    marks: &mut [u8],
    address: u64,
) -> Reply
    ensures { Leaves (fill_call s address (lent longs.old words.old marks.old))
        (lent longs.old words.old marks.old) result
        (lent longs.new words.new marks.new) }
{
    perform(s, longs, words, marks, Call::Fill(address))
}

// Sets the current cycle.
pub fn tick(
    s: Settings,
    longs: &mut [u64],
    words: &mut [u32],
    marks: &mut [u8],
    cycle: u32,
) -> Reply
    ensures { Leaves (tick_call s cycle (lent longs.old words.old marks.old))
        (lent longs.old words.old marks.old) result
        (lent longs.new words.new marks.new) }
{
    perform(s, longs, words, marks, Call::Tick(cycle))
}

// ---- refusals 1, 2 and 3 by themselves

// Whether the tables are sound: refusals 1, 2 and 3.
pub fn check(s: Settings, longs: &[u64], words: &[u32], marks: &[u8]) -> Result<(), Refusal>
    ensures { result ≡ verdict_of (check_call s (lent longs.now words.now marks.now)) }
{
    soundness::check(s, longs, words, marks)
}
