// The current format in numbers, each named once: the lengths of bodies by kind, which kinds are commands, the kinds and the sizes
// of settings records, the longest command, the rooms.
// "Body length is fixed by kind through this table"; 255 and no Option for a number that is no kind, as `length_of` has it.
// A kind is any byte of a stream, and no enum: one in neither list is told of by its number.
pub(crate) const LENGTHS: [u8; 25] = [
    7, 12, 12, 0, 8, 4, 8, 255, 255, 255, 255, 255, 255, 255, 255, 255, 3, 1, 8, 24, 4, 8, 24, 8, 0,
];

// The commands' kinds are those below it.
pub(crate) const COMMAND_KINDS: u8 = 7;

pub(crate) const SETTINGS_KIND: u8 = 0;

// Settings with a rule byte (L1).
pub(crate) const RULED_KIND: u8 = 6;

// The place of the rule byte in a body.
pub(crate) const RULE_PLACE: usize = 7;

// A settings record as it is written: its kind and its body.
pub(crate) const SETTINGS_SIZE: usize = 8;

// One with a rule byte.
pub(crate) const RULED_SIZE: usize = 9;

// A kind and the longest body of a command.
pub const LONGEST: usize = 13;

// "16 fewer than 64 bytes of event room"
pub const EVENT_ROOM: usize = 64;

// 128 rounds of a send and a fill, and the last offer, take 9,510 bytes at the most.
pub const WAIT_ROOM: usize = 9600;

// A round: a send is 25 bytes at the most, a fill 49, an offer 38.
pub const ROUND_ROOM: usize = 112;
