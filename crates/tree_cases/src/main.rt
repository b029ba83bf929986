// Prices and writes lists against sheets that are read from standard input. A case is a line that names it, a line of pairs with the bytes
// of the list, a line of pairs that says how it is run, and the sheet. How it is run: one byte that fills the score slice beforehand, two
// bytes for the slice's length and four for the list's; where that is more than the list has, zeros follow.
#![tactic(auto)]

ghost use Rattle.std.specs.Prelude.{◌≡◌, ◌≤◌, length, IfOk};

use case_text::{behind, place_of, print, read_full};
use pricing::Priced;
use sheet::Refused;
use std::io;

// The bytes of the longest list and of the score slice.
const LIST_BYTES: usize = 100000;

const SCORE_BYTES: usize = 4096;

// What is printed of a list that is refused.
const NO_PRICE: Priced = Priced {
    nodes: 0,
    weight: 0,
    distance: 0,
    total: 0,
};

// The list of a case, zeros behind its bytes, and what its score is written to.
#[derive(Drop)]
struct Slices {
    list: [u8; LIST_BYTES],
    score: [u8; SCORE_BYTES],
}

// How a case is run.
#[derive(Clone, Copy)]
struct Setting {
    fill: u8,
    room: usize,
    length: usize,
}

fn setting_of(bytes: [u8; 7]) -> Setting {
    let room = u16::from_be_bytes([bytes[1], bytes[2]]);
    let length = u32::from_be_bytes([bytes[3], bytes[4], bytes[5], bytes[6]]);
    Setting {
        fill: bytes[0],
        room: usize::from(room),
        length: length as usize,
    }
}

// The sum of the bytes of a slice.
fn sum_of(s: &[u8]) -> usize {
    let mut sum = 0;
    for &b in s {
        sum = sum % 4294967296 + usize::from(b);
    }
    sum
}

// Prints a label, the number and the line of a refusal, 0 and 0 where there is none, and a count.
fn print_outcome(
    rt: &impl Print,
    label: &[u8],
    refused: Option<Refused>,
    count: usize,
) -> io::Result<()> {
    let number = refused.map_or(0, |e| e.refusal.number());
    let line = refused.map_or(0, |e| e.line);
    print(rt, label, u64::from(number), line as u64, count as u64)
}

fn print_price(rt: &impl Print, text: &[u8], list: &[u8]) -> io::Result<()> {
    let answer = pricing::price(text, list);
    let p = answer.unwrap_or(NO_PRICE);
    print_outcome(rt, b"\n  price: number, line, nodes", answer.err(), p.nodes)?;
    print(rt, b"; R, D, total", p.weight, p.distance, p.total)
}

// Prints a text of `bytes` bytes in the front of a score, and the sums of the bytes behind it in the first `room` and behind these.
fn print_text(rt: &impl Print, score: &[u8], bytes: usize, room: usize) -> io::Result<()>
    requires { room ≤ length score.now }
{
    let end = bytes.min(room);
    let behind_text = sum_of(&score[end..room]);
    let behind_slice = sum_of(&score[room..]);
    println!(rt; "; sums behind the text and behind the slice {behind_text} {behind_slice}")?;
    rt.write_all(&score[..end])
}

// Prices a list and writes its score into the front of a slice that holds one byte throughout, and prints both answers and the slice.
fn print_case(rt: &impl Print, text: &[u8], slices: &mut Slices, how: Setting) -> io::Result<()> {
    let list = &slices.list[..how.length.min(LIST_BYTES)];
    let score = &mut slices.score[..];
    let room = how.room.min(SCORE_BYTES);
    print_price(rt, text, list)?;
    score.fill(how.fill);
    let answer = score::write(text, list, &mut score[..room]);
    let bytes = answer.unwrap_or(0);
    print_outcome(rt, b"\n  score: number, line, bytes", answer.err(), bytes)?;
    print_text(rt, score, bytes, room)
}

// Runs the case whose lines start at place `from` of the input; gives the place behind it.
fn run_case(rt: &impl Print, s: &[u8], from: usize, slices: &mut Slices) -> io::Result<usize>
    requires { from ≤ length s.now }
    ensures { IfOk result (λ stop. (from ≤ stop) × (stop ≤ length s.now)) }
{
    let bytes = hextext::next_line(s, from, &mut slices.list);
    let mut line = [0u8; 7];
    let next = hextext::next_line(s, bytes.next, &mut line).next;
    slices.list[bytes.count.min(LIST_BYTES)..].fill(0);
    let start = next.min(s.len());
    let stop = place_of(s, start, b'#');
    print_case(rt, &s[start..stop], slices, setting_of(line))?;
    Ok(stop)
}

// Each case of the input.
fn run(rt: &impl Print, s: &[u8], slices: &mut Slices) -> io::Result<()> {
    let mut at = place_of(s, 0, b'#');
    // No `for`: a round takes one case, of any length.
    while at < s.len() {
        let end = place_of(s, at, b'\n');
        rt.write_all(&s[at..end])?;
        at = run_case(rt, s, behind(s, end), slices)?;
    }
    Ok(())
}

fn main(rt: HostRuntime) -> io::Result<()> {
    let mut input = [0u8; 65536];
    let mut slices = Slices {
        list: [0; LIST_BYTES],
        score: [0; SCORE_BYTES],
    };
    let n = read_full(&mut rt.stdin(), &mut input)?;
    run(&rt, &input[..n], &mut slices)
}
