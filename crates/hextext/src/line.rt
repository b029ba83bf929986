// A line read in one pass: the loop that reads it gives its form, its count and its fields.
ghost use Rattle.std.specs.Prelude.{◌≡◌, cond, List, [], ◌∷◌, ◌++◌, ℕ, ◌+◌, ◌<◌, ◌≤◌, drop, eqb, IfSome};
ghost use Rattle.hextext.specs.Text.{first, bad_from};
ghost use Rattle.hextext.specs.Packed.{packed, line_read, closed_line, line_if, number_in};

use crate::CLOSE;
use crate::digits::{BYTE_VALUES, Digits};

// How many bytes a number holds.
pub const NUMBER_BYTES: usize = 8;

// The numbers of seven bytes are those below it.
const SEVEN_BYTES: u64 = 72057594037927936;

// A line that is well formed: its kind, which is its first byte, how many bytes it has, the first eight of them as one number where it has
// more, the last eight, or all where it has fewer, as one number, and the place in the text behind it.
#[derive(Clone, Copy)]
pub struct Line {
    pub kind: u8,
    pub count: usize,
    pub front: u64,
    pub tail: u64,
    pub next: usize,
}

// What no byte has been added to.
const EMPTY: Line = Line {
    kind: 0,
    count: 0,
    front: 0,
    tail: 0,
    next: 0,
};

// The kind of a line with one byte more.
fn kind_with(l: Line, b: u8) -> u8
    ensures { result ≡ cond (eqb l.count 0) b l.kind }
{
    if l.count == 0 { b } else { l.kind }
}

// The first eight bytes of a line with one byte more.
fn front_with(l: Line) -> u64
    ensures { result ≡ cond (eqb l.count 8) l.tail l.front }
{
    if l.count == NUMBER_BYTES {
        l.tail
    } else {
        l.front
    }
}

// A line with one byte more. What the last eight bytes push out of their number is dropped.
fn with_byte(l: Line, b: u8) -> Line
    requires { l.count < 18446744073709551615 }
    ensures { (bs : List ℕ) → l ≡ packed bs 0 → result ≡ packed (bs ++ (b ∷ [])) 0 }
{
    Line {
        kind: kind_with(l, b),
        count: l.count + 1,
        front: front_with(l),
        tail: l.tail % SEVEN_BYTES * 256 + (b as u64),
        next: 0,
    }
}

// A line whose pairs end at place i: it is well formed if it has one, and byte 0A is next.
fn closed(text: &[u8], i: usize, l: Line) -> Option<Line>
    ensures { (bs : List ℕ) → l ≡ packed bs 0 → result ≡ line_if (closed_line bs i (drop i text.now)) }
{
    if l.count == 0 {
        return None;
    }
    if text.len() <= i {
        return None;
    }
    if text[i] != CLOSE {
        return None;
    }
    Some(Line { next: i + 1, ..l })
}

// The line that starts at place `at` of a text, two bytes a round; none where it is not well formed.
pub fn line_at(digits: &Digits, text: &[u8], at: usize) -> Option<Line>
    ensures { result ≡ line_if (line_read text.now at) }
{
    let mut l = EMPTY;
    if text.len() == 0 {
        return None;
    }
    let last = text.len() - 1;
    let mut i = at;
    // No `for`: a round takes two digits, and `closed` needs the place where no pair is next.
    while i < last {
        let b = digits.pair(text[i], text[i + 1]);
        if (BYTE_VALUES as u64) <= b {
            return closed(text, i, l);
        }
        l = with_byte(l, b as u8);
        i += 2;
    }
    closed(text, i, l)
}

// The first bad line of a text from line `line`, which starts at place `at`, on.
pub fn bad_from(digits: &Digits, text: &[u8], at: usize, line: usize) -> Option<usize>
    requires { line ≤ at + 1 }
    ensures number { number_in result ≡ bad_from line first (drop at text.now) }
    ensures some { 0 < line → IfSome result (λ n. 0 < n) }
{
    let mut at = at;
    let mut line = line;
    // No `for`: a round takes one line, of any length.
    while at < text.len() {
        let Some(l) = line_at(digits, text, at) else {
            return Some(line);
        };
        at = l.next;
        line += 1;
    }
    None
}
