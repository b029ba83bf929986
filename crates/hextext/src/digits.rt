// The table of digits. It is made once and lent, so that a digit costs one access.
ghost use Rattle.std.specs.Prelude.{◌≡◌, ◌+◌, ◌<◌};
ghost use Rattle.hextext.specs.Packed.{digit_at, DigitTable};

use crate::digit_of;

// How many values a byte has, and how many a digit.
pub const BYTE_VALUES: usize = 256;

const DIGIT_VALUES: u8 = 16;

// What stands in the table for a byte that is no digit, the largest number of four digits: with it no pair is below BYTE_VALUES, and no two
// pairs are below it.
pub const NO_DIGIT: u16 = 65535;

// The value of each byte as the first digit of a pair, 16 times that of the digit, and behind these as the second.
#[derive(Clone, Copy)]
pub struct Digits {
    pub cells: [u16; 2 * BYTE_VALUES],
    pub ghost table: { DigitTable cells },
}

impl Digits {
    pub fn new() -> Digits {
        let mut cells = [NO_DIGIT; 2 * BYTE_VALUES];
        for n in 0..DIGIT_VALUES {
            let b = digit_of(n) as usize;
            cells[b] = (n as u16) * (DIGIT_VALUES as u16);
            cells[BYTE_VALUES + b] = n as u16;
        }
        Digits { cells }
    }

    // The byte that two digits spell; NO_DIGIT or more where one of the bytes is no digit.
    pub fn pair(&self, high: u8, low: u8) -> u64
        ensures { (result ≡ digit_at 16 high + digit_at 1 low) × (result < 131072) }
    {
        let upper = u64::from(self.cells[high as usize]);
        let lower = u64::from(self.cells[BYTE_VALUES + (low as usize)]);
        upper + lower
    }
}
