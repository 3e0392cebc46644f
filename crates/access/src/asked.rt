// What an access asks, how it was answered, and an access whose place is decided.
ghost use Rattle.std.specs.Prelude.{◌≡◌};
ghost use Rattle.model.specs.Address.{is_read, mask_of};
ghost use Rattle.access.specs.Plan.{ticket_of};
ghost use Rattle.model.specs.Steps.{is_hit, is_merge, is_miss, takes_line};

use model::{Access, Answer};
use probe::Decision;

// An access and what it meets, on tables of whose queue and miss table so many places are in use.
// Which of the two an access is stands in the contracts: a type for each would copy the offer.
#[derive(Clone, Copy)]
pub struct Offer {
    pub access: Access,
    pub decision: Decision,
    pub queued: usize,
    pub missed: usize,
}

// Whether the access is a read.
pub(crate) fn is_read(x: Access) -> bool
    ensures { result ≡ is_read x }
{
    matches!(x, Access::Read { .. })
}

// The ticket of an access.
pub(crate) fn ticket_of(x: Access) -> u32
    ensures { result ≡ ticket_of x }
{
    match x {
        Access::Read { ticket, .. } | Access::Write { ticket, .. } => ticket,
    }
}

// The mask of an access.
pub(crate) fn mask_of(x: Access) -> u32
    ensures { result ≡ mask_of x }
{
    match x {
        Access::Read { mask, .. } | Access::Write { mask, .. } => mask,
    }
}

// Whether the answer is HIT.
pub(crate) fn is_hit(a: Answer) -> bool
    ensures { result ≡ is_hit a }
{
    matches!(a, Answer::Hit)
}

// Whether the answer is HIT_RESERVED.
pub(crate) fn is_merge(a: Answer) -> bool
    ensures { result ≡ is_merge a }
{
    matches!(a, Answer::HitReserved)
}

// Whether the answer is MISS: a line is taken over.
pub(crate) fn takes_line(a: Answer) -> bool
    ensures { result ≡ takes_line a }
{
    matches!(a, Answer::Miss)
}

// Whether the answer is MISS or SECTOR_MISS.
pub(crate) fn is_miss(a: Answer) -> bool
    ensures { result ≡ is_miss a }
{
    matches!(a, Answer::Miss | Answer::SectorMiss)
}
