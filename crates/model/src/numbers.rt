// The number of each case and the case of a number, as slices and records hold them.
ghost use Rattle.std.specs.Prelude.{◌≡◌, Some};
ghost use Rattle.model.specs.Numbers.{status_number, status_of, queue_kind_number, queue_kind_of, answer_number, refusal_number, stop_number};

use crate::{Answer, QueueKind, Refusal, Status, Stop};

impl From<Status> for u8 {
    ghost from_gives = { λ s n. n ≡ status_number s };

    fn from(s: Status) -> u8 {
        s as u8
    }
}

// Of a number above 3, which sound tables do not have, MODIFIED.
impl From<u8> for Status {
    ghost from_gives = { λ n s. s ≡ status_of n };

    fn from(n: u8) -> Status {
        match n {
            0 => Status::Invalid,
            1 => Status::Reserved,
            2 => Status::Valid,
            _ => Status::Modified,
        }
    }
}

impl From<QueueKind> for u8 {
    ghost from_gives = { λ k n. n ≡ queue_kind_number k };

    fn from(k: QueueKind) -> u8 {
        k as u8
    }
}

// Of a number above 2, which sound tables do not have, a write-back.
impl From<u8> for QueueKind {
    ghost from_gives = { λ n k. k ≡ queue_kind_of n };

    fn from(n: u8) -> QueueKind {
        match n {
            1 => QueueKind::Read,
            _ => QueueKind::WriteBack,
        }
    }
}

impl From<Answer> for u8 {
    ghost from_gives = { λ a n. n ≡ answer_number a };

    fn from(a: Answer) -> u8 {
        a as u8
    }
}

impl From<Refusal> for u8 {
    ghost from_gives = { λ r n. n ≡ refusal_number r };

    fn from(r: Refusal) -> u8 {
        r as u8
    }
}

impl From<Stop> for u8 {
    ghost from_gives = { λ s n. n ≡ stop_number (Some s) };

    fn from(s: Stop) -> u8 {
        s as u8
    }
}
