// What the programs read and print, and the input of those that run cases: a case starts with a line that begins with # and names it, and
// ends before the next #.
#![tactic(auto)]

ghost use Rattle.std.specs.Prelude.{◌≡◌, ◌+◌, ◌≤◌, ◌<◌, min, length, take, IfOk};
ghost use Rattle.std.specs.Io.KnownBytes.{Consumes, IsAtEnd};

use std::io;
use std::io::Read;

// Reads until the slice is full or the input ends; gives how many bytes were read, which stand at the front of the slice.
pub fn read_full<R: Read>(input: &mut R, s: &mut [u8]) -> io::Result<usize>
    ensures within { IfOk result (λ n. n ≤ length s.new) }
    ensures bytes { IfOk result (λ n. Consumes (R.remaining input.old) (R.remaining input.new) (take n s.new)) }
    ensures all { IfOk result (λ n. n < length s.new → IsAtEnd (R.remaining input.new)) }
    ensures kept { length s.new ≡ length s.old }
{
    let mut done: usize = 0;
    // No `for`: a round takes as many bytes as were there.
    while done < s.len() {
        let n = input.read(&mut s[done..])?;
        if n == 0 {
            break;
        }
        done += n;
    }
    Ok(done)
}

// Writes a label and three numbers.
pub fn print(rt: &impl Print, label: &[u8], a: u64, b: u64, c: u64) -> io::Result<()> {
    rt.write_all(label)?;
    print!(rt; " {a} {b} {c}")
}

// Writes the first n bytes of a slice, or all where it has fewer.
pub fn print_front(rt: &impl Print, s: &[u8], n: usize) -> io::Result<()> {
    rt.write_all(&s[..n.min(s.len())])
}

// The first place from `at` on that holds b, or the end.
pub fn place_of(s: &[u8], at: usize, b: u8) -> usize
    requires { at ≤ length s.now }
    ensures { (at ≤ result) × (result ≤ length s.now) }
{
    match s[at..].iter().position(|&x| x == b) {
        Some(i) => at + i,
        None => s.len(),
    }
}

// The place behind place i, or the end.
pub fn behind(s: &[u8], i: usize) -> usize
    requires { i ≤ length s.now }
    ensures { result ≡ min (i + 1) (length s.now) }
{
    (i + 1).min(s.len())
}
