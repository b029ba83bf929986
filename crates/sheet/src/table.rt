// A sheet as the code holds it.
ghost use Rattle.std.specs.Prelude.{◌≡◌};
ghost use Rattle.sheet.specs.Held.{weight_in};

use crate::clock::Units;
use crate::limits::{BarLines, Children, ONSETS_MOST, Pitches, RULES_MOST};

// A rule: a division or a leaf, each with its own fields. The nonterminals of a division's parts stand in a flat array beside it.
#[derive(Clone, Copy)]
pub enum Rule {
    Division { head: u8, weight: u16, arity: u8 },
    Leaf { head: u8, weight: u16, n: u8 },
}

impl Rule {
    pub fn weight(self) -> u16
        ensures { result ≡ weight_in self }
    {
        match self {
            Rule::Division { weight, .. } | Rule::Leaf { weight, .. } => weight,
        }
    }
}

// The grammar: `count` rules from the front of `rules`, and the nonterminals of their parts. Places left are zero.
#[derive(Clone, Copy)]
pub struct GrammarTable {
    pub nonterminals: u8,
    pub start: u8,
    pub multiplier: u16,
    pub count: usize,
    pub rules: [Rule; RULES_MOST],
    pub children: Children,
}

// The playing: `count` onsets from the front of both arrays; places left are zero.
#[derive(Clone, Copy)]
pub struct PlayingTable {
    pub bars: u8,
    pub count: usize,
    pub units: [Units; ONSETS_MOST],
    pub pitches: Pitches,
}

// The real time of a playing: the moments of its bar lines from the front, one more than it has bars; places left are zero. It stands
// beside the sheet, which has musical time alone.
#[derive(Clone, Copy)]
pub struct TimingTable {
    pub lines: BarLines,
}

// What reading gives of a text that it accepts: the timing and the sheet.
#[derive(Clone, Copy)]
pub struct Reading {
    pub timing: TimingTable,
    pub grammar: GrammarTable,
    pub playing: PlayingTable,
}
