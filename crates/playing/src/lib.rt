// The playing of a sheet: the `45` line, and the `4E` lines behind it.
#![tactic(auto)]

ghost use Rattle.std.specs.Prelude.{◌≡◌, ℕ, ◌+◌, ◌≤◌, ◌<◌, length, IfSome, Ok};
ghost use Rattle.hextext.specs.Packed.{line_read};
ghost use Rattle.sheet.specs.Sheet.{Grammar, no_playing};
ghost use Rattle.sheet.specs.Held.{playing_table, timing_table, no_sheet};
ghost use Rattle.bar_lines.specs.Lines.{ClockOf};
ghost use Rattle.playing.specs.Clauses.{OnsetsRead, PlayingRead};

mod head;
mod onset;

use bar_lines::{Clock, clock_of, even_lines, read_bars, timing_table};
use head::check_playing;
use hextext::{Digits, Line, line_at, seven_at};
use onset::{Latest, even_step, onset_step};
use sheet::{
    BAR_LINES_MOST, BarLines, Micros, ONSETS_MOST, PlayingTable, Refusal, Stop, TimingTable, Units,
    byte_at, four_at,
};

// What reading the playing gives: the timing and the playing.
#[derive(Clone, Copy)]
pub struct Take {
    pub timing: TimingTable,
    pub playing: PlayingTable,
}

// What the first onset is held against.
const NONE_BEFORE: Latest = Latest {
    time: Micros(0),
    bar: 0,
    run: 0,
};

// The playing of `bars` bars and no onsets.
pub fn no_onsets(bars: u8) -> PlayingTable
    ensures { result ≡ playing_table (no_playing bars) }
{
    let units = [Units(0); ONSETS_MOST];
    let pitches = [0u8; ONSETS_MOST];
    PlayingTable {
        bars,
        count: 0,
        units,
        pitches,
    }
}

// The timing of no sheet.
pub fn no_timing() -> TimingTable
    ensures { result ≡ timing_table no_sheet.timing }
{
    let lines = [Micros(0); BAR_LINES_MOST];
    TimingTable { lines }
}

// The lines behind the bar lines, from place `at` on, where line `line` starts: up to the end of the text.
fn read_onsets(
    digits: &Digits,
    text: &[u8],
    at: usize,
    line: usize,
    clock: Clock,
    lines: &BarLines,
) -> Result<Take, Stop>
    requires { (at ≤ length text.now) × (line ≤ at + 1) × (0 < line) × ClockOf lines.now clock }
    ensures { (g : Grammar) → OnsetsRead text.now at line g clock lines.now result }
{
    let mut playing = no_onsets(clock.bars);
    let mut latest = NONE_BEFORE;
    let mut at = at;
    let mut line = line;
    let mut n: usize = 0;
    // No `for`: a round takes one line, of any length.
    while at < text.len() {
        let Some(l) = line_at(digits, text, at) else {
            return Err(Stop {
                refusal: Refusal::BadLine,
                line,
                at,
            });
        };
        let step = match onset_step(clock, lines, n, latest, l) {
            Ok(step) => step,
            Err(refusal) => return Err(Stop { refusal, line, at }),
        };
        playing.units[n] = step.unit;
        playing.pitches[n] = byte_at(l, 5);
        n += 1;
        playing.count = n;
        latest = step.latest;
        at = l.next;
        line += 1;
    }
    if n == 0 {
        return Err(Stop {
            refusal: Refusal::KindOutOfOrder,
            line,
            at,
        });
    }
    let timing = timing_table(clock.bars, lines);
    Ok(Take { timing, playing })
}

// The lines behind bar lines of one duration, from place `at` on, where each adds an onset; none where one does not.
fn read_even(
    digits: &Digits,
    text: &[u8],
    at: usize,
    clock: Clock,
    lines: &BarLines,
) -> Option<Take>
    requires { (at ≤ length text.now) × ClockOf lines.now clock }
    ensures { IfSome result (λ r. (n : ℕ) → n ≤ at + 1 → 0 < n → (g : Grammar)
        → OnsetsRead text.now at n g clock lines.now (Ok r)) }
{
    let mut playing = no_onsets(clock.bars);
    let mut latest = NONE_BEFORE;
    let mut at = at;
    let mut n: usize = 0;
    // No `for`: a round takes one line, of any length.
    while at < text.len() {
        let l = seven_at(digits, text, at)?;
        let step = even_step(clock, n, latest, l)?;
        playing.units[n] = step.unit;
        playing.pitches[n] = byte_at(l, 5);
        n += 1;
        playing.count = n;
        latest = step.latest;
        at = l.next;
    }
    if n == 0 {
        return None;
    }
    let timing = timing_table(clock.bars, lines);
    Some(Take { timing, playing })
}

// The `45` line l at place `at` and the lines after it, where all bars are of one duration and each line adds an onset: so the loop that
// reads most sheets keeps no number and no line. Where it is not so there is none, and `read_playing` reads them, which can refuse.
pub fn even_playing(digits: &Digits, text: &[u8], at: usize, l: Line) -> Option<Take>
    requires { (at < length text.now) × (l ≡ line_read text.now at) × (0 < l.count) }
    ensures { IfSome result (λ r. (line : ℕ) → line ≤ at + 1 → 0 < line → (g : Grammar)
        → PlayingRead text.now at line l g (Ok r)) }
{
    let Ok(()) = check_playing(l) else {
        return None;
    };
    let bars = byte_at(l, 1);
    let duration = Micros(four_at(l, 2));
    if duration.0 == 0 {
        return None;
    }
    let lines = even_lines(bars, duration);
    let clock = clock_of(bars, duration, &lines);
    read_even(digits, text, l.next, clock, &lines)
}

// The `45` line l, line `line` at place `at`, and the lines after it, up to the end of the text: bar lines, tapped or evenly spaced,
// and the onsets.
pub fn read_playing(
    digits: &Digits,
    text: &[u8],
    at: usize,
    line: usize,
    l: Line,
) -> Result<Take, Stop>
    requires { (at < length text.now) × (line ≤ at + 1) × (0 < line) × (l ≡ line_read text.now at) × (0 < l.count) }
    ensures { (g : Grammar) → PlayingRead text.now at line l g result }
{
    if let Err(refusal) = check_playing(l) {
        return Err(Stop { refusal, line, at });
    }
    let bars = byte_at(l, 1);
    let duration = Micros(four_at(l, 2));
    let read = read_bars(digits, text, l.next, line + 1, bars, duration)?;
    let clock = clock_of(bars, duration, &read.lines);
    read_onsets(digits, text, read.at, read.line, clock, &read.lines)
}
