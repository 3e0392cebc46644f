// What the programs that run a command stream share: a stream of any length, read through a buffer and run part by part on
// tables that the program lends. `work` is where a run stands, `first` reads up to the first record, `scope` says how much of
// the bytes that wait is run, `parts` runs them; `rooms` has arrays for the largest tables.
#![tactic(auto)]

pub mod first;
pub mod parts;
pub mod rooms;
pub mod scope;
pub mod work;
