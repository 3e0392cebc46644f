// The access that a command offers the cache, and the command that offers an access.
ghost use Rattle.std.specs.Prelude.{◌≡◌};
ghost use Rattle.model.specs.Offers.{offered, command_for};

use crate::{Access, Command};

impl Command {
    // As the runner makes it of a record, if it is a read's or a write's.
    pub fn access(self) -> Option<Access>
        ensures { result ≡ offered self }
    {
        match self {
            Command::Read { address, ticket } => Some(Access::Read {
                address,
                mask: 0,
                ticket,
            }),
            Command::Write { address, mask } => Some(Access::Write {
                address,
                mask,
                ticket: 0,
            }),
            Command::Settings(_) | Command::Send | Command::Fill(_) | Command::Tick(_) => None,
        }
    }
}

impl From<Access> for Command {
    ghost from_gives = { λ x c. c ≡ command_for x };

    fn from(x: Access) -> Command {
        match x {
            Access::Read {
                address,
                ticket,
                ..
            } => Command::Read { address, ticket },
            Access::Write { address, mask, .. } => Command::Write { address, mask },
        }
    }
}
