// The rounds of demand 3 (document 01) as calls that ask nothing. `demand3` has the rounds and the struck rounds, made of the calls of
// `cache`: demand 3 is said of them. Here: `wait`, which runs the rounds until an access is accepted, and says where waiting does not help.
#![tactic(auto)]

mod demand3;

ghost use Rattle.std.specs.Prelude.{◌≡◌, true, ◌≤◌, length};
ghost use Rattle.model.specs.Address.{mask_of, well_formed};
ghost use Rattle.model.specs.Sound.{all_ones};
ghost use Rattle.model.specs.Lent.{lent};
ghost use Rattle.model.specs.Records.{wait_room};
ghost use Rattle.model.specs.Inner.{SoundSlices};
ghost use Rattle.turns.specs.Parts.{Enough};
ghost use Rattle.rounds.specs.declared.NotRun.TheVariants.{Refused};
ghost use Rattle.rounds.specs.Waiting.{wait_within, Waits};
ghost use Rattle.rounds.specs.Parts.{TurnsAway, RoundsSettle, WaitsHeld};

pub use demand3::{run_rounds, run_struck};
use layout::{Geometry, Slices};
use model::{Access, Event, Refusal, Settings};

// The round whose offer was accepted, counted from 1, and the answer.
#[derive(Clone, Copy)]
pub struct Accepted {
    pub round: usize,
    pub answer: Event,
}

// Why an access was not accepted. Held: refused as 6 in the last round, and in every round that could follow. Refused: 1 to 4, before the
// first round. NoRoom: fewer bytes of event room than any wait can need.
#[derive(Clone, Copy)]
pub enum NotAccepted {
    Held,
    Refused(Refusal),
    NoRoom,
}

// What waiting comes to. The events of the rounds, without the refusals of their offers but the last, are the first `written` bytes of the
// event room, whatever it comes to.
#[derive(Clone, Copy)]
pub struct Waited {
    pub waiting: Result<Accepted, NotAccepted>,
    pub written: usize,
}

// One offer: whether it was accepted, and the bytes of events up to and with it.
// The bytes mean the same of both.
#[derive(Clone, Copy)]
pub struct Offer {
    pub taken: bool,
    pub written: usize,
}

// How many rounds were run, and the bytes of their events.
#[derive(Clone, Copy)]
pub struct Went {
    pub rounds: usize,
    pub written: usize,
}

// Why no round was run. Refused: 1 to 4. NoRoom: fewer flags than rounds, or fewer than a round's bytes of event room for each.
#[derive(Clone, Copy)]
pub enum NotRun {
    Refused(Refusal),
    NoRoom,
}

impl From<Refusal> for NotRun {
    ghost from_gives = { λ n e. e ≡ Refused n };

    fn from(n: Refusal) -> NotRun {
        NotRun::Refused(n)
    }
}

// Refused before the first round.
fn turned_away(n: Refusal, events: &mut [u8]) -> Waited
    requires { wait_room ≤ length events.old }
    ensures { TurnsAway n events.old result events.new }
{
    let written = records::encode(tables::refused(n), events, 0);
    Waited {
        waiting: Err(NotAccepted::Refused(n)),
        written,
    }
}

// The rounds, on sound tables; `most` of them settle it.
fn wait_rounds(
    g: Geometry,
    longs: &mut [u64],
    words: &mut [u32],
    marks: &mut [u8],
    x: Access,
    events: &mut [u8],
    most: usize,
) -> Waited
    requires held { SoundSlices g.settings (lent longs.old words.old marks.old) }
    requires x_value { (well_formed x ≡ true) × (mask_of x ≤ all_ones) × (wait_room ≤ length events.old) }
    requires enough { Enough g.settings (lent longs.old words.old marks.old) most }
    ensures { RoundsSettle g.settings x most (lent longs.old words.old marks.old) events.old result
        events.new (lent longs.new words.new marks.new) }
{
    let mut out = 0;
    for before in 0..most {
        let made = turns::one_round(g, longs, words, marks, x, events, out);
        out = made.written;
        if turns::accepted(made.reply) {
            let round = before + 1;
            let answer = made.reply.first;
            return Waited {
                waiting: Ok(Accepted { round, answer }),
                written: out,
            };
        }
    }
    let n = records::encode(tables::refused(Refusal::SetHeld), events, out);
    Waited {
        waiting: Err(NotAccepted::Held),
        written: out + n,
    }
}

// Behind the check of refusals 1, 2 and 3.
fn wait_checked(
    g: Geometry,
    longs: &mut [u64],
    words: &mut [u32],
    marks: &mut [u8],
    x: Access,
    events: &mut [u8],
) -> Waited
    requires held { SoundSlices g.settings (lent longs.old words.old marks.old) }
    requires wait_room_in_bounds { wait_room ≤ length events.old }
    ensures { WaitsHeld g.settings x (lent longs.old words.old marks.old) events.old result
        events.new (lent longs.new words.new marks.new) }
{
    if !access::well_formed(x) {
        return turned_away(Refusal::BadAccess, events);
    }
    let t = Slices {
        geometry: g,
        longs: &*longs,
        words: &*words,
        marks: &*marks,
    };
    let most = turns::most_rounds(&t);
    wait_rounds(g, longs, words, marks, x, events, most)
}

// Offers an access, with a send and a fill before each offer, until it is accepted or no wait will help.
pub fn wait(
    s: Settings,
    longs: &mut [u64],
    words: &mut [u32],
    marks: &mut [u8],
    x: Access,
    events: &mut [u8],
) -> Waited
    ensures { Waits (wait_within (length events.old) s x (lent longs.old words.old marks.old))
        events.old result events.new (lent longs.new words.new marks.new) }
{
    if events.len() < records::WAIT_ROOM {
        return Waited {
            waiting: Err(NotAccepted::NoRoom),
            written: 0,
        };
    }
    match soundness::checked_layout(s, longs, words, marks) {
        Err(n) => turned_away(n, events),
        Ok(g) => wait_checked(g, longs, words, marks, x, events),
    }
}
