// A sheet: its meaning in specs/, and here the tables that hold it, the two clocks with the one conversion between them, and the fields of
// a line.
#![tactic(auto)]

mod clock;
mod kind;
mod limits;
mod line;
mod refusal;
mod table;

pub use clock::{BAR_HALF_UNITS, BAR_UNITS, Micros, PIECE_UNITS, Units, unit_of};
pub use kind::Kind;
pub use limits::{
    BAR_LINES_MOST, BAR_LONGEST, BAR_ONSETS_MOST, BAR_SHORTEST, BARS_MOST, BarLines, CHILD_CELLS,
    Children, KIND_MOST, NONTERMINALS_MOST, ONSETS_MOST, PARTS_MOST, Pitches, RULES_MOST,
    TEXT_MOST,
};
pub use line::{byte_at, four_at, two_at};
pub use refusal::{Refusal, Refused, Stop};
pub use table::{GrammarTable, PlayingTable, Reading, Rule, TimingTable};
