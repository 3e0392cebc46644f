// What answers are called, and what refusals mean.
#![tactic(auto, unfolding(crate::specs::Names::name_of))]

ghost use Rattle.std.specs.Prelude.{◌≡◌};
ghost use Rattle.text.specs.Digits.{Put};
ghost use Rattle.wording.specs.Names.{answer_name, meaning_of};

use model::{Answer, Refusal};

// An answer's name, as document 01 writes it.
pub(crate) fn answer_name(a: Answer) -> &'static [u8]
    ensures { result.now ≡ answer_name a }
{
    match a {
        Answer::Hit => b"HIT",
        Answer::HitReserved => b"HIT_RESERVED",
        Answer::Miss => b"MISS",
        Answer::SectorMiss => b"SECTOR_MISS",
    }
}

// What a refusal means.
pub(crate) fn meaning_of(n: Refusal) -> &'static [u8]
    ensures { result.now ≡ meaning_of n }
{
    match n {
        Refusal::SettingOutOfRange => b"a setting outside its range",
        Refusal::SliceLength => b"a lent slice of another length",
        Refusal::NotSound => b"tables not sound",
        Refusal::BadAccess => b"an address or a mask that is not allowed",
        Refusal::SetBusy => b"set busy: a way waits for a fill, none may go",
        Refusal::SetHeld => b"set held: every way is dirty and has to stay",
        Refusal::QueueFull => b"too few free queue places",
        Refusal::EntryFull => b"the entry has all its readers",
        Refusal::MissTableFull => b"the miss table is full",
        Refusal::NotSent => b"fill: no sent entry with that address",
        Refusal::BadCycle => b"tick to an earlier cycle or above the last",
        Refusal::QueueEmpty => b"send: queue empty",
    }
}

// Puts an answer's name.
pub fn put_answer(a: Answer, out: &mut [u8], at: usize) -> usize
    ensures { Put out.old at (answer_name a) result out.new }
{
    text::put_text(answer_name(a), out, at)
}

// Puts what a refusal means.
pub fn put_meaning(n: Refusal, out: &mut [u8], at: usize) -> usize
    ensures { Put out.old at (meaning_of n) result out.new }
{
    text::put_text(meaning_of(n), out, at)
}
