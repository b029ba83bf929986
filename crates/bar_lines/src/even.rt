// Evenly spaced bar lines, and the table of bar lines that reading gives.
ghost use Rattle.std.specs.Prelude.{◌≡◌, ◌≤◌};
ghost use Rattle.sheet.specs.Sheet.{even_lines};
ghost use Rattle.sheet.specs.Held.{timing_table};
ghost use Rattle.bar_lines.specs.Lines.{lines_in, GoodLines};

use sheet::{BAR_LINES_MOST, BarLines, Micros, TimingTable};

// The lines of so many bars that last `duration` each; the first is at 0.
pub fn even_lines(bars: u8, duration: Micros) -> BarLines
    requires { (bars ≤ 64) × (duration.0 ≤ 60_000_000) }
    ensures { lines_in bars result ≡ even_lines bars duration.0 }
{
    let mut lines = [Micros(0); BAR_LINES_MOST];
    let d = duration.0;
    let count = (bars as usize) + 1;
    for i in 0..count {
        lines[i] = Micros((i as u32) * d);
    }
    lines
}

// The lines of so many bars, as reading gives them.
pub fn timing_table(bars: u8, lines: &BarLines) -> TimingTable
    requires { GoodLines bars lines.now }
    ensures { result ≡ timing_table (lines_in bars lines.now) }
{
    let mut table = [Micros(0); BAR_LINES_MOST];
    let count = (bars as usize) + 1;
    table[..count].copy_from_slice(&lines[..count]);
    TimingTable { lines: table }
}
