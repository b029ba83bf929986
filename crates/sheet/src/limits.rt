// How much a sheet has at most, by documents 01 and 02, and the arrays that have room for it.
use crate::clock::Micros;

// The most bytes of a text.
pub const TEXT_MOST: usize = 16384;

// The most nonterminals of a grammar.
pub const NONTERMINALS_MOST: usize = 16;

// The most rules of a grammar.
pub const RULES_MOST: usize = 64;

// The most that n of a leaf rule is: the kind of a rest.
pub const KIND_MOST: u8 = 4;

// The most parts of a division.
pub const PARTS_MOST: usize = 8;

// The places for the parts of every rule.
pub const CHILD_CELLS: usize = PARTS_MOST * RULES_MOST;

// The nonterminals of the parts: those of rule i from place PARTS_MOST × i on.
pub type Children = [u8; CHILD_CELLS];

// The most bars of a playing.
pub const BARS_MOST: usize = 64;

// The most bar lines of a playing: one begins each bar, and one more closes the last.
pub const BAR_LINES_MOST: usize = BARS_MOST + 1;

// The moments of the bar lines of a playing.
pub type BarLines = [Micros; BAR_LINES_MOST];

// The shortest bar and the longest, in microseconds.
pub const BAR_SHORTEST: u32 = 1000;

pub const BAR_LONGEST: u32 = 60000000;

// The most onsets of a playing.
pub const ONSETS_MOST: usize = 512;

// The most onsets in one bar.
pub const BAR_ONSETS_MOST: usize = 32;

// The pitch of each onset.
pub type Pitches = [u8; ONSETS_MOST];
