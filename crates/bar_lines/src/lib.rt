// The bar lines of a sheet, tapped or evenly spaced, and the units of moments by them.
#![tactic(auto)]

mod clock;
mod even;
mod taps;

pub use clock::{Clock, clock_of, unit_at};
pub use even::{even_lines, timing_table};
pub use taps::{Bars, read_bars};
