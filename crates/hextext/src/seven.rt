// A line of seven bytes, as an onset's is, read without a loop. Most lines of a sheet are such.
ghost use Rattle.std.specs.Prelude.{◌≡◌, ◌+◌, ◌*◌, ◌<◌, ◌≤◌, length};
ghost use Rattle.hextext.specs.Packed.{pair_at, line_read, line_if};

use crate::CLOSE;
use crate::digits::{BYTE_VALUES, Digits, NO_DIGIT};
use crate::line::{Line, line_at};

// How many bytes it has, and how many digits stand before the 0A that closes it.
const BYTES: usize = 7;

const DIGITS: usize = 2 * BYTES;

// Where its digits are looked up: four from its start on, four, four and two.
const SECOND: usize = 4;

const THIRD: usize = 2 * SECOND;

const LAST: usize = 3 * SECOND;

// How many numbers four digits spell.
const FOUR_DIGITS: u64 = 65536;

// The two bytes that the four digits from place i on spell, as one number; NO_DIGIT or more where one of the four is no digit, and for
// FFFF.
fn four_at(digits: &Digits, text: &[u8], i: usize) -> u64
    requires { i + 3 < length text.now }
    ensures { result ≡ pair_at text.now i * 256 + pair_at text.now (i + 2) }
{
    let high = digits.pair(text[i], text[i + 1]);
    let low = digits.pair(text[i + 2], text[i + 3]);
    high * (BYTE_VALUES as u64) + low
}

// The line that starts at place `at` of a text: one of seven bytes four digits at a time, and any other by `line_at`.
pub fn seven_at(digits: &Digits, text: &[u8], at: usize) -> Option<Line>
    requires { at ≤ length text.now }
    ensures { result ≡ line_if (line_read text.now at) }
{
    if text.len() <= at + DIGITS {
        return line_at(digits, text, at);
    }
    if text[at + DIGITS] != CLOSE {
        return line_at(digits, text, at);
    }
    let first = four_at(digits, text, at);
    if (NO_DIGIT as u64) <= first {
        return line_at(digits, text, at);
    }
    let second = four_at(digits, text, at + SECOND);
    if (NO_DIGIT as u64) <= second {
        return line_at(digits, text, at);
    }
    let third = four_at(digits, text, at + THIRD);
    if (NO_DIGIT as u64) <= third {
        return line_at(digits, text, at);
    }
    let last = digits.pair(text[at + LAST], text[at + LAST + 1]);
    if (BYTE_VALUES as u64) <= last {
        return line_at(digits, text, at);
    }
    Some(Line {
        kind: (first / (BYTE_VALUES as u64)) as u8,
        count: BYTES,
        front: 0,
        tail: ((first * FOUR_DIGITS + second) * FOUR_DIGITS + third) * (BYTE_VALUES as u64) + last,
        next: at + DIGITS + 1,
    })
}
