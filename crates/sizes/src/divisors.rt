// The divisors of 20,160, the units of a bar.
ghost use Rattle.std.specs.Prelude.{◌≡◌, ◌<◌, get_or};
ghost use Rattle.sizes.specs.Sizes.{divisors};

use crate::LENGTHS_MOST;
use sheet::Units;

// The divisors of 20,160, from the largest down.
const DIVISORS: [u32; LENGTHS_MOST] = [
    20160, 10080, 6720, 5040, 4032, 3360, 2880, 2520, 2240, 2016, 1680, 1440, 1344, 1260, 1120,
    1008, 960, 840, 720, 672, 630, 576, 560, 504, 480, 448, 420, 360, 336, 320, 315, 288, 280, 252,
    240, 224, 210, 192, 180, 168, 160, 144, 140, 126, 120, 112, 105, 96, 90, 84, 80, 72, 70, 64,
    63, 60, 56, 48, 45, 42, 40, 36, 35, 32, 30, 28, 24, 21, 20, 18, 16, 15, 14, 12, 10, 9, 8, 7, 6,
    5, 4, 3, 2, 1,
];

// The divisor of 20,160 at a place.
pub fn divisor(j: usize) -> Units
    requires { j < 84 }
    ensures { result.0 ≡ get_or divisors j 0 }
{
    let d = DIVISORS[j];
    Units(d)
}
