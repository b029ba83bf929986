// How the tempo moves from one bar to the next, from the two bars' durations.
ghost use Rattle.std.specs.Prelude.{◌≡◌};
ghost use Rattle.tempo.specs.Tempo.{in_range, percent_of, tempo_of, percent_in, kind_of, record_of};

use sheet::{BAR_LONGEST, BAR_SHORTEST, Micros};

// The answer for two adjoining bars: the tempo stays, or the next bar is faster or slower by a percentage.
#[derive(Clone, Copy)]
pub enum Tempo {
    Steady,
    Faster(f64),
    Slower(f64),
}

// A bar's tempo record: its own duration and the next bar's in microseconds, and the percentage, 0 when steady.
#[derive(Clone, Copy)]
pub struct TempoRecord {
    pub duration: u32,
    pub next: u32,
    pub percentage: f64,
}

// Whether a percentage is given for bars of this duration.
fn in_range(a: Micros) -> bool
    ensures { result ≡ in_range a.0 }
{
    BAR_SHORTEST <= a.0 && a.0 <= BAR_LONGEST
}

// 100 × (a1 / a2 − 1), rounded after the division, after the subtraction and after the product.
fn percentage(a1: Micros, a2: Micros) -> f64
    ensures { result ≡ percent_of a1.0 a2.0 }
{
    100.0 * ((a1.0 as f64) / (a2.0 as f64) - 1.0)
}

// How the tempo moves from a bar that lasts a1 to one that lasts a2.
pub fn tempo_between(a1: Micros, a2: Micros) -> Tempo
    ensures { result ≡ tempo_of a1.0 a2.0 }
{
    if !in_range(a1) || !in_range(a2) {
        return Tempo::Steady;
    }
    if a2.0 < a1.0 {
        return Tempo::Faster(percentage(a1, a2));
    }
    if a1.0 < a2.0 {
        return Tempo::Slower(percentage(a1, a2));
    }
    Tempo::Steady
}

// Its percentage, 0 when steady.
fn percentage_in(tempo: Tempo) -> f64
    ensures { result ≡ percent_in tempo }
{
    match tempo {
        Tempo::Steady => 0.0,
        Tempo::Faster(p) | Tempo::Slower(p) => p,
    }
}

// Its number: 0 steady, 1 faster, 2 slower.
pub fn tempo_kind(tempo: Tempo) -> u8
    ensures { result ≡ kind_of tempo }
{
    match tempo {
        Tempo::Steady => 0,
        Tempo::Faster(_) => 1,
        Tempo::Slower(_) => 2,
    }
}

// The record of a bar that lasts a1, before one that lasts a2.
pub fn tempo_record(a1: Micros, a2: Micros) -> TempoRecord
    ensures { result ≡ record_of a1.0 a2.0 }
{
    TempoRecord {
        duration: a1.0,
        next: a2.0,
        percentage: percentage_in(tempo_between(a1, a2)),
    }
}
