// What an access leaves of its own sector, and the four sectors of a line that it takes over.
ghost use Rattle.std.specs.Prelude.{◌≡◌, set, replicate, true, false};
ghost use Rattle.words.specs.Words.{pick};
ghost use Rattle.model.specs.Address.{address_of, is_read, sector_index};
ghost use Rattle.model.specs.Tables.{is_invalid, empty};
ghost use Rattle.model.specs.declared.Status.TheVariants.{Reserved};
ghost use Rattle.model.specs.Steps.{is_miss, on_sector};

use crate::asked::{is_merge, is_miss, mask_of};
use model::{Access, Answer, Sector, Status};

// Whether the status is INVALID.
pub(crate) fn is_invalid(s: Status) -> bool
    ensures { result ≡ is_invalid s }
{
    matches!(s, Status::Invalid)
}

// The sector that a read leaves: fetched on a miss, else as it was.
pub(crate) fn read_sector(a: Answer, s: Sector) -> Sector
    ensures { result ≡ pick (is_miss a) record { status = Reserved; mask = s.mask; readable = true } s }
{
    if is_miss(a) {
        Sector {
            status: Status::Reserved,
            readable: true,
            ..s
        }
    } else {
        s
    }
}

// The sector that a write leaves: its mask joined; MODIFIED, unless a fetch of it is on its way.
pub(crate) fn written_sector(x: Access, a: Answer, s: Sector) -> Sector
    requires { is_read x ≡ false }
    ensures { result ≡ on_sector x a s }
{
    let mask = s.mask | mask_of(x);
    if is_merge(a) {
        return Sector { mask, ..s };
    }
    Sector {
        status: Status::Modified,
        mask,
        readable: (mask == u32::MAX) | (s.readable & !is_invalid(s.status)),
    }
}

// A sector of a line that was just taken over.
pub(crate) fn empty_sector() -> Sector
    ensures { result ≡ empty }
{
    Sector {
        status: Status::Invalid,
        mask: 0,
        readable: true,
    }
}

// The four sectors of a line that was just taken over, of which the access's own becomes `one`.
pub(crate) fn taken_sectors(x: Access, one: Sector) -> [Sector; 4]
    ensures { result ≡ set (replicate 4 empty) (sector_index (address_of x)) one }
{
    let k = values::sector_number(values::address_of(x));
    layout::with_sector([empty_sector(); 4], k, one)
}
