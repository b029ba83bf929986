// The two clocks: real time in microseconds, musical time in units of a bar, and the one conversion between them.
ghost use Rattle.std.specs.Prelude.{◌≡◌, ◌*◌, ◌≤◌};
ghost use Rattle.sheet.specs.Sheet.{unit_of};

use crate::limits::BARS_MOST;

// Real time, in microseconds.
#[derive(Clone, Copy)]
pub struct Micros(pub u32);

// The units of a bar.
pub const BAR_UNITS: u32 = 20160;

// The half units of a bar.
pub const BAR_HALF_UNITS: u32 = 2 * BAR_UNITS;

// The units of the longest piece.
pub const PIECE_UNITS: u32 = BAR_UNITS * (BARS_MOST as u32);

// Musical time, in units: BAR_UNITS a bar.
#[derive(Clone, Copy)]
pub struct Units(pub u32);

// The unit nearest to a moment, an exact half upwards, where a bar lasts `duration`; both count from one bar line. Of bars that do not last
// it is 0: so no quotient has to ask for its divisor.
pub fn unit_of(t: Micros, duration: Micros) -> Units
    requires { t.0 ≤ 64 * duration.0 }
    ensures { result.0 ≡ unit_of duration.0 t.0 }
{
    let d = duration.0 as u64;
    if d == 0 {
        return Units(0);
    }
    let n = (t.0 as u64) * (BAR_UNITS as u64);
    let below = n / d;
    let over = n % d;
    if 2 * over < d {
        return Units(below as u32);
    }
    Units((below + 1) as u32)
}
