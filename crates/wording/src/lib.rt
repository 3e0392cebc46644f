// What the programs print, in words: events; commands, in the assembler's own language; why a run stopped; names of answers and
// refusals. Each function puts its text into a slice piece by piece, from a place on, and returns the place behind it.
#![tactic(auto)]

pub mod commands;
pub mod events;
pub mod names;
mod rows;
mod settings;
pub mod stops;
