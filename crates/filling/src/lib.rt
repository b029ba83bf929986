// Rows of the table filled ahead: of each onset of a bar but the first of the piece, the rows of the intervals in which it is the only
// one, from the shortest length to the longest and for all nonterminals at once. Where many rules share their parts this is faster than
// solving a row when it is asked for. The table is as sound behind it as before, so nothing else is promised.
#![tactic(auto)]

mod fill;
mod order;

pub use fill::fill_bar;
pub use order::{Order, by_arity};
