// The tempo remark behind a bar of a sheet.
ghost use Rattle.std.specs.Prelude.{◌≡◌, ◌+◌, ◌-◌, ◌<◌, ◌≤◌};
ghost use Rattle.sheet.specs.Sheet.{Timing};
ghost use Rattle.tempo.specs.Tempo.{record_of, record_at, remark_with, Remarks};
ghost use Rattle.tempo.specs.Clauses.{moment_in, TimingHeld};

use crate::between::{Tempo, TempoRecord, tempo_between, tempo_record};
use sheet::{Micros, Refused, TimingTable};

// What is given for a bar: how the tempo moves to the next bar, and the bar's record; steady and zeros where no bar follows.
#[derive(Clone, Copy)]
pub struct Remark {
    pub tempo: Tempo,
    pub bar: TempoRecord,
}

// Where no bar follows: the bar is the last, or there is no such bar.
const NO_REMARK: Remark = Remark {
    tempo: Tempo::Steady,
    bar: TempoRecord {
        duration: 0,
        next: 0,
        percentage: 0.0,
    },
};

// The remark behind a bar that lasts a1, before one that lasts a2.
fn remark_between(a1: Micros, a2: Micros) -> Remark
    ensures { result ≡ remark_with (record_of a1.0 a2.0) }
{
    Remark {
        tempo: tempo_between(a1, a2),
        bar: tempo_record(a1, a2),
    }
}

// How long bar b lasts, from 0: from its bar line to the next.
pub fn lasting(timing: TimingTable, b: usize) -> Micros
    requires { (b < 64) × (moment_in timing b ≤ moment_in timing (b + 1)) }
    ensures { result.0 ≡ moment_in timing (b + 1) - moment_in timing b }
{
    let begins = timing.lines[b];
    let ends = timing.lines[b + 1];
    Micros(ends.0 - begins.0)
}

// The remark behind bar i, from 0, of a sheet as it was read.
pub fn remark_sheet(bars: u8, timing: TimingTable, i: usize) -> Remark
    requires { (t : Timing) × TimingHeld bars t timing }
    ensures { (t : Timing) → TimingHeld bars t timing → result ≡ remark_with (record_at bars t i) }
{
    let last = (bars - 1) as usize;
    if last <= i {
        return NO_REMARK;
    }
    let own = lasting(timing, i);
    let next = lasting(timing, i + 1);
    remark_between(own, next)
}

// The remark behind bar i, from 0, of the sheet that a text means, or the text's refusal.
pub fn remark_at(text: &[u8], i: usize) -> Result<Remark, Refused>
    ensures { Remarks text.now i result }
{
    let r = reading::read(text)?;
    Ok(remark_sheet(r.playing.bars, r.timing, i))
}
