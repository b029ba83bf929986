// Lines of hexadecimal pairs, each closed by byte 0A: reading a line in one pass, finding the first bad line of a text, reading a line's
// bytes into a slice, writing a line, and putting a field into a line. Texts and lines are of any length.
#![tactic(auto)]

ghost use Rattle.std.specs.Prelude.{◌≡◌, ◌<◌};
ghost use Rattle.hextext.specs.Text.{value, pair, NextLine};
ghost use Rattle.hextext.specs.Written.{digit_of, LineWritten};

mod digits;
mod field;
mod line;
mod seven;

pub use digits::Digits;
pub use field::put_field;
pub use line::{Line, NUMBER_BYTES, bad_from, line_at};
pub use seven::seven_at;

// The byte that closes a line.
const CLOSE: u8 = 10;

// The value of a digit 0-9 A-F.
fn digit_value(b: u8) -> u8
    ensures { result ≡ value b }
{
    let low = b % 16;
    if b <= 57 { low } else { (low + 9) % 16 }
}

// The byte that a pair of digits spells.
fn pair_value(high: u8, low: u8) -> u8
    ensures { result ≡ pair high low }
{
    digit_value(high) * 16 + digit_value(low)
}

// How many bytes a line has, and the place in the text behind it.
#[derive(Clone, Copy)]
pub struct Next {
    pub count: usize,
    pub next: usize,
}

// The line that starts at `at`, in one pass: its count, the place behind it, and its bytes from the front of `line`, as many as there is
// room for. Cells behind them are kept. Past the end of the text there is a line of no bytes.
pub fn next_line(text: &[u8], at: usize, line: &mut [u8]) -> Next
    ensures { NextLine text.now at line.old line.new result }
{
    let mut count: usize = 0;
    let mut i = at;
    // No `for`: a round takes one digit or two, and the place behind them is given back.
    while i < text.len() {
        let high = text[i];
        i += 1;
        if high == CLOSE {
            return Next { count, next: i };
        }
        if text.len() <= i {
            return Next { count, next: i };
        }
        let b = pair_value(high, text[i]);
        i += 1;
        let k = count;
        count += 1;
        if k < line.len() {
            line[k] = b;
        }
    }
    Next { count, next: i }
}

// The digit 0-9 A-F of a number below 16.
fn digit_of(n: u8) -> u8
    requires { n < 16 }
    ensures { result ≡ digit_of n }
{
    if n < 10 { n + 48 } else { n + 55 }
}

// Writes bytes as a line, pairs closed by byte 0A, from place `at` of a slice on; gives the place behind it. Where there is no room for all
// of the line nothing is written and `at` is given back.
pub fn write_line(bytes: &[u8], out: &mut [u8], at: usize) -> usize
    ensures { LineWritten bytes.now at out.old out.new result }
{
    if out.len() < at {
        return at;
    }
    let room = out.len() - at;
    if room <= bytes.len() {
        return at;
    }
    if room - bytes.len() <= bytes.len() {
        return at;
    }
    let mut k = at;
    for &b in bytes {
        out[k] = digit_of(b / 16);
        out[k + 1] = digit_of(b % 16);
        k += 2;
    }
    out[k] = CLOSE;
    k + 1
}
