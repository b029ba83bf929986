// One `4E` line: its refusal, or the onset that it adds.
ghost use Rattle.std.specs.Prelude.{◌≡◌, List, ℕ, ◌-◌, ◌≤◌, eqb, IfSome};
ghost use Rattle.sheet.specs.Sheet.{unit_in, bar_of};
ghost use Rattle.sheet.specs.Reading.{byte, onset_form, room_refusal, other_refusal};
ghost use Rattle.sheet.specs.Refusal.{number_of, test_number};
ghost use Rattle.sheet.specs.Held.{LineHeld};
ghost use Rattle.bar_lines.specs.Lines.{ClockOf};
ghost use Rattle.playing.specs.Clauses.{timing_in, tapped_in, run_in, LastIn, LatestIn, MomentOf, OnsetStepOf};
ghost use Rattle.playing.specs.Clauses.{StepPlaced, StepTaken};

use bar_lines::{Clock, unit_at};
use hextext::Line;
use sheet::{
    BAR_ONSETS_MOST, BAR_UNITS, BarLines, Kind, Micros, ONSETS_MOST, Refusal, Units, byte_at,
    four_at, unit_of,
};

// What the next onset is held against: the time of the last one, its bar, and how many onsets are in that bar.
#[derive(Clone, Copy)]
pub struct Latest {
    pub time: Micros,
    pub bar: u32,
    pub run: usize,
}

// What an onset line adds: its unit, and what the next onset is held against.
#[derive(Clone, Copy)]
pub struct OnsetStep {
    pub unit: Units,
    pub latest: Latest,
}

// Whether a `4E` line is refused by its form.
// A test is one demand of the documents, in their order, so a range is two tests and no `contains`.
fn check_form(l: Line) -> Result<(), Refusal>
    ensures { ((b : List ℕ) → LineHeld l b → test_number result ≡ onset_form b) × (test_number result ≡ 0 → l.count ≡ 7) }
{
    if l.count != 7 {
        return Err(Refusal::WrongByteCount);
    }
    let pitch = byte_at(l, 5);
    let velocity = byte_at(l, 6);
    if 127 < pitch {
        return Err(Refusal::FieldOutOfRange); // pitch
    }
    if velocity < 1 {
        return Err(Refusal::FieldOutOfRange);
    }
    if 127 < velocity {
        return Err(Refusal::FieldOutOfRange);
    }
    Ok(())
}

// The bar before `bar`: the unit of a moment may have been rounded up to the next bar line. The first has none before it.
fn bar_before(bar: u32) -> usize
    ensures { result ≡ bar - 1 }
{
    bar.saturating_sub(1) as usize
}

// The unit of a moment that does not fall: from the first bar line on, and before the end. One test tells whether both its time and its
// unit are before the end. The search for its bar goes on from the bar before that of the last one's unit, `bar`.
fn searched_moment(
    clock: Clock,
    lines: &BarLines,
    bar: u32,
    moment: Micros,
) -> Result<Units, Refusal>
    requires { ClockOf lines.now clock × LastIn lines.now clock bar moment.0 }
    ensures { (last : ℕ) → last ≤ moment.0 → MomentOf lines.now clock last moment.0 result }
{
    if moment.0 < clock.first.0 {
        return Err(Refusal::BeforeTheFirstTap);
    }
    if clock.end.0 <= moment.0 {
        return Err(Refusal::PastTheEnd);
    }
    Ok(unit_at(clock, lines, bar_before(bar), moment))
}

// The unit of a moment, behind the last one, whose unit is in `bar`.
fn moment_of(
    clock: Clock,
    lines: &BarLines,
    bar: u32,
    last: Micros,
    moment: Micros,
) -> Result<Units, Refusal>
    requires { ClockOf lines.now clock × (bar ≡ bar_of (unit_in (timing_in lines.now clock) last.0)) }
    ensures { MomentOf lines.now clock last.0 moment.0 result }
{
    let t = moment.0;
    let before = last.0;
    if t < before {
        return Err(Refusal::TimeFalls);
    }
    searched_moment(clock, lines, bar, moment)
}

// Whether one onset more is refused after `count`, of which `here` are in its bar.
fn check_room(count: usize, here: usize) -> Result<(), Refusal>
    ensures { test_number result ≡ room_refusal count here }
{
    if ONSETS_MOST <= count {
        return Err(Refusal::TooMany);
    }
    if BAR_ONSETS_MOST <= here {
        return Err(Refusal::TooMany);
    }
    Ok(())
}

// How many onsets are in bar b, where `run` are in `bar`, the last that has any.
fn run_in(bar: u32, run: usize, b: u32) -> usize
    ensures { result ≡ run_in bar run b }
{
    if b == bar { run } else { 0 }
}

// The refusal of a line that is no onset; `duration` is 0 where the bars are tapped.
fn other_refusal(duration: Micros, kind: u8) -> Refusal
    ensures { (b : List ℕ) → kind ≡ byte b 0 → number_of result ≡ other_refusal (eqb duration.0 0) b }
{
    if duration.0 == 0 {
        if kind == Kind::BarLine as u8 {
            return Refusal::TapMissing;
        }
    }
    Refusal::KindOutOfOrder
}

// An onset at moment t and `unit`, after `count` onsets, where there is room for it.
fn placed_step(count: usize, latest: Latest, t: Micros, unit: Units) -> Result<OnsetStep, Refusal>
    ensures { StepPlaced count latest t.0 unit.0 result }
{
    let bar = unit.0 / BAR_UNITS;
    let here = run_in(latest.bar, latest.run, bar);
    check_room(count, here)?;
    Ok(OnsetStep {
        unit,
        latest: Latest {
            time: t,
            bar,
            run: here + 1,
        },
    })
}

// A line behind the bar lines and `count` onsets.
pub fn onset_step(
    clock: Clock,
    lines: &BarLines,
    count: usize,
    latest: Latest,
    l: Line,
) -> Result<OnsetStep, Refusal>
    requires { ClockOf lines.now clock × LatestIn lines.now clock latest }
    ensures { (b : List ℕ) → LineHeld l b
        → OnsetStepOf clock.bars (tapped_in clock) (timing_in lines.now clock) count latest b result }
{
    if l.kind != Kind::Onset as u8 {
        return Err(other_refusal(clock.duration, l.kind));
    }
    check_form(l)?;
    let t = Micros(four_at(l, 1));
    let unit = moment_of(clock, lines, latest.bar, latest.time, t)?;
    placed_step(count, latest, t, unit)
}

// The same where it adds an onset and all bars are of one duration; none of any other line, which is read again.
pub fn even_step(clock: Clock, count: usize, latest: Latest, l: Line) -> Option<OnsetStep>
    requires { (cells : List Micros) × ClockOf cells clock }
    ensures { IfSome result (λ r. (cells : List Micros) → ClockOf cells clock → StepTaken cells clock count latest l r) }
{
    if l.kind != Kind::Onset as u8 {
        return None;
    }
    let Ok(()) = check_form(l) else {
        return None;
    };
    let t = Micros(four_at(l, 1));
    let before = latest.time;
    if t.0 < before.0 {
        return None;
    }
    let even = clock.even;
    if even.0 <= t.0 {
        return None;
    }
    let unit = unit_of(t, clock.duration);
    placed_step(count, latest, t, unit).ok()
}
