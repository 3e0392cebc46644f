// What a stream ends in, or why the runner stops there.
ghost use Rattle.std.specs.Prelude.{◌≡◌};
ghost use Rattle.wait.specs.Lasts.{last_command, last_cut, last_of};

use model::{Access, Command, Stop};
use records::Item;

#[derive(Clone, Copy)]
pub(crate) enum Last {
    // The read or the write to wait for.
    Offer(Access),
    // A send, a fill or a tick.
    Other(Command),
    // No record stands behind the settings: the third of three outcomes, each said in words of its own.
    Nothing,
}

// An access is offered as the runner makes it of its record.
fn last_command(c: Command) -> Result<Last, Stop>
    ensures { result ≡ last_command c }
{
    match c {
        Command::Settings(_) => Err(Stop::OutOfPlace),
        Command::Read { address, ticket } => Ok(Last::Offer(Access::Read {
            address,
            mask: 0,
            ticket,
        })),
        Command::Write { address, mask } => Ok(Last::Offer(Access::Write {
            address,
            mask,
            ticket: 0,
        })),
        Command::Send | Command::Fill(_) | Command::Tick(_) => Ok(Last::Other(c)),
    }
}

// "To the runner event kinds are unknown kinds", cut short or not.
fn last_cut(kind: u8) -> Result<Last, Stop>
    ensures { result ≡ last_cut kind }
{
    if records::is_command(kind) {
        Err(Stop::CutShort)
    } else {
        Err(Stop::UnknownKind)
    }
}

// Of the bytes from the last record on.
pub(crate) fn last_of(s: &[u8]) -> Result<Last, Stop>
    ensures { result ≡ last_of s.now }
{
    match records::item_at(s, 0) {
        Item::Command { command, .. } => last_command(command),
        Item::End => Ok(Last::Nothing),
        Item::Cut {
            kind,
            wants: _,
            left: _,
        } => last_cut(kind),
        Item::Event { .. } | Item::Unknown(_) | Item::Strange(_) => { Err(Stop::UnknownKind) }
    }
}
