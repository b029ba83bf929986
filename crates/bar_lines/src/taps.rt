// The bar lines behind a `45` line: the `42` lines of a tapped sheet, or evenly spaced ones.
ghost use Rattle.std.specs.Prelude.{◌≡◌, List, ℕ, ◌+◌, ◌≤◌, ◌<◌, length};
ghost use Rattle.sheet.specs.Reading.{step_refusal};
ghost use Rattle.sheet.specs.Refusal.{test_number};
ghost use Rattle.sheet.specs.Held.{LineHeld};
ghost use Rattle.bar_lines.specs.Lines.{TapRefused, TapsRead, NextRead};

use crate::even::even_lines;
use hextext::{Digits, Line, line_at};
use sheet::{
    BAR_LINES_MOST, BAR_LONGEST, BAR_SHORTEST, BarLines, Kind, Micros, Refusal, Stop, four_at,
};

// What reading bar lines gives: the bar lines, and the line and the place behind them.
#[derive(Clone, Copy)]
pub struct Bars {
    pub line: usize,
    pub at: usize,
    pub lines: BarLines,
}

// Whether a step from one tap to the next is refused. A moment that falls is compared before it is subtracted from.
// A test is one demand of the documents, in their order, so a range is two tests and no `contains`.
#[tactic(auto, using(crate::proofs::StepSteps::step_falls, crate::proofs::StepSteps::step_near, crate::proofs::StepSteps::step_far, crate::proofs::StepSteps::step_within))]
fn check_step(before: Micros, moment: Micros) -> Result<(), Refusal>
    ensures { test_number result ≡ step_refusal before.0 moment.0 }
{
    if moment.0 < before.0 {
        return Err(Refusal::StepOutOfRange);
    }
    let step = moment.0 - before.0;
    if step < BAR_SHORTEST {
        return Err(Refusal::StepOutOfRange);
    }
    if BAR_LONGEST < step {
        return Err(Refusal::StepOutOfRange);
    }
    Ok(())
}

// Whether a line is refused where tap `count`, from 0, is to stand, and the tap before it is at `before`.
fn check_tap(count: usize, before: Micros, l: Line) -> Result<(), Refusal>
    ensures { (b taps : List ℕ) → LineHeld l b → TapRefused count before.0 taps b (test_number result) }
{
    if l.kind != Kind::BarLine as u8 {
        return Err(Refusal::TapMissing);
    }
    if l.count != 5 {
        return Err(Refusal::WrongByteCount);
    }
    if count == 0 {
        return Ok(());
    }
    check_step(before, Micros(four_at(l, 1)))
}

// The lines behind a `45` line with a duration of 0, from place `at` on, where line `line` starts: one tap more than there are bars.
fn read_taps(digits: &Digits, text: &[u8], at: usize, line: usize, bars: u8) -> Result<Bars, Stop>
    requires { (at ≤ length text.now) × (line ≤ at + 1) × (0 < line) × (bars ≤ 64) }
    ensures { TapsRead text.now at line bars result }
{
    let taps = (bars as usize) + 1;
    let mut lines = [Micros(0); BAR_LINES_MOST];
    let mut before = Micros(0);
    let mut at = at;
    let mut line = line;
    for n in 0..taps {
        if text.len() <= at {
            return Err(Stop {
                refusal: Refusal::TapMissing,
                line,
                at,
            });
        }
        let Some(l) = line_at(digits, text, at) else {
            return Err(Stop {
                refusal: Refusal::BadLine,
                line,
                at,
            });
        };
        if let Err(refusal) = check_tap(n, before, l) {
            return Err(Stop { refusal, line, at });
        }
        before = Micros(four_at(l, 1));
        lines[n] = before;
        at = l.next;
        line += 1;
    }
    Ok(Bars { line, at, lines })
}

// The bar lines behind a `45` line, from place `at` on, where line `line` starts: taps where the duration is 0, else evenly spaced
// ones, for which no line is read.
pub fn read_bars(
    digits: &Digits,
    text: &[u8],
    at: usize,
    line: usize,
    bars: u8,
    duration: Micros,
) -> Result<Bars, Stop>
    requires { (at ≤ length text.now) × (line ≤ at + 1) × (0 < line) × (1 ≤ bars) × (bars ≤ 64)
        × ((duration.0 ≡ 0 → ⊥) → (1000 ≤ duration.0) × (duration.0 ≤ 60_000_000)) }
    ensures { NextRead text.now at line bars duration.0 result }
{
    if duration.0 == 0 {
        return read_taps(digits, text, at, line, bars);
    }
    let lines = even_lines(bars, duration);
    Ok(Bars { line, at, lines })
}
