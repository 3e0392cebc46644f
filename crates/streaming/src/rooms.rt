// How long the three slices are at the largest settings: 1,024 lines, 64 miss entries of 8 readers, 64 queue places. What stands in them
// is of no account: the first record of a stream makes the tables fresh.
pub const LONGS: usize = 1152;

pub const WORDS: usize = 7170;

pub const MARKS: usize = 8384;
