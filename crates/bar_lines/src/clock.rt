// Units of moments by bar lines.
ghost use Rattle.std.specs.Prelude.{◌≡◌, ℕ, ◌-◌, ◌*◌, ◌/◌, ◌≤◌, ◌<◌};
ghost use Rattle.sheet.specs.Sheet.{end_of, unit_within, unit_in};
ghost use Rattle.sheet.specs.Clock.{first_past_end};
ghost use Rattle.bar_lines.specs.Lines.{lines_in, GoodLines, LinesOf, BarFound, BarSearched, ClockOf, Reached};

use sheet::{BAR_HALF_UNITS, BAR_UNITS, BarLines, Micros, Units, unit_of};

// What moments are held against and converted by, beside the bar lines: the number of bars, the duration of each where all are of one
// duration and 0 where they are tapped, the first bar line, the first moment whose unit is at or past the end, and `even`: the same moment
// where all bars are of one duration, and 0 where they are tapped. So one test tells of a moment both that it is before the end and that
// its unit is that of one duration.
#[derive(Clone, Copy)]
pub struct Clock {
    pub bars: u8,
    pub duration: Micros,
    pub first: Micros,
    pub end: Micros,
    pub even: Micros,
}

// The first moment whose unit is at or past the end: the half unit before the last bar line is rounded up to it.
fn first_past_end(bars: u8, lines: &BarLines) -> Micros
    requires { GoodLines bars lines.now }
    ensures { result.0 ≡ first_past_end bars (lines_in bars lines.now) }
{
    let last = bars as usize;
    let end = lines[last].0;
    let lasts = end - lines[last - 1].0;
    Micros(end - lasts / BAR_HALF_UNITS)
}

// The same moment where all bars are of one duration; 0 where that is 0.
fn even_end(bars: u8, duration: Micros) -> Micros
    requires { (1 ≤ bars) × (bars ≤ 64) × (duration.0 ≤ 60_000_000) }
    ensures { result.0 ≡ bars * duration.0 - duration.0 / 40320 }
{
    let d = duration.0;
    Micros((bars as u32) * d - d / BAR_HALF_UNITS)
}

// The clock of so many bars; `duration` is 0 where they are tapped.
pub fn clock_of(bars: u8, duration: Micros, lines: &BarLines) -> Clock
    requires { LinesOf bars duration.0 lines.now }
    ensures { (result.bars ≡ bars) × (result.duration ≡ duration) × ClockOf lines.now result }
{
    let end = first_past_end(bars, lines);
    let even = even_end(bars, duration);
    Clock {
        bars,
        duration,
        first: lines[0],
        end,
        even,
    }
}

// The bar of a moment, from the bar before on.
fn bar_from(lines: &BarLines, from: usize, moment: Micros) -> usize
    requires { (bars : ℕ) × BarSearched bars lines.now from moment.0 }
    ensures { (bars : ℕ) → BarSearched bars lines.now from moment.0 → BarFound bars lines.now moment.0 result }
{
    let t = moment.0;
    let mut bar = from;
    // No `for`: the search goes on from the bar before and ends at a line known to lie behind, so no bound is tested.
    while lines[bar + 1].0 <= t {
        bar += 1;
    }
    bar
}

// The unit of a moment in a bar: the nearest to its share of the bar's duration.
fn unit_within(lines: &BarLines, bar: usize, moment: Micros) -> Units
    requires { (bars : ℕ) × GoodLines bars lines.now × BarFound bars lines.now moment.0 bar }
    ensures { (bars : ℕ) → GoodLines bars lines.now → BarFound bars lines.now moment.0 bar
        → result.0 ≡ unit_within (lines_in bars lines.now) bar moment.0 }
{
    let line = lines[bar].0;
    let lasts = Micros(lines[bar + 1].0 - line);
    let since = Micros(moment.0 - line);
    let share = unit_of(since, lasts);
    Units((bar as u32) * BAR_UNITS + share.0)
}

// The unit of a moment that is not before the first bar line, and before the end. The search for its bar begins at bar `from`.
pub fn unit_at(clock: Clock, lines: &BarLines, from: usize, moment: Micros) -> Units
    requires { ClockOf lines.now clock × Reached lines.now clock from moment.0
        × (clock.first.0 ≤ moment.0) × (moment.0 < end_of clock.bars (lines_in clock.bars lines.now)) }
    ensures { result.0 ≡ unit_in (lines_in clock.bars lines.now) moment.0 }
{
    let bar = bar_from(lines, from, moment);
    unit_within(lines, bar, moment)
}
