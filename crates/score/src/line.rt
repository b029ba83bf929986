// The bytes of score lines.
ghost use Rattle.std.specs.Prelude.{◌≡◌, ◌+◌, ◌≤◌, length, take, drop, replicate};
ghost use Rattle.slices.specs.Pad.{pad};
ghost use Rattle.score.specs.Score.{head_line, leaf_front, leaf_line};
ghost use Rattle.score.specs.Clauses.{leaf_over, LineHeld};

use expansions::Interval;
use hextext::put_field;
use sheet::{Kind, Pitches};

// The head's line: its kind, the bars, and three numbers of eight bytes.
pub const HEAD_LINE_BYTES: usize = 26;

// A leaf's line has nine bytes and the pitches placed there, 35 at most.
pub const LEAF_LINE_MOST: usize = 44;

// The bytes of the head.
pub fn head_line(bars: u8, total: u64, weight: u64, distance: u64) -> [u8; HEAD_LINE_BYTES]
    ensures { result ≡ head_line bars total weight distance }
{
    let mut line = [0u8; HEAD_LINE_BYTES];
    line[0] = Kind::ScoreHead as u8;
    line[1] = bars;
    put_field(&mut line, 2, 8, total);
    put_field(&mut line, 10, 8, weight);
    put_field(&mut line, 18, 8, distance);
    line
}

// Puts the bytes of a leaf's line before the pitches into a line of zeros.
fn leaf_front(line: &mut [u8], over: Interval, n: u8, placed: usize)
    requires { (placed ≤ 35) × (line.old ≡ replicate 44 0) }
    ensures { line.new ≡ pad 44 0 (leaf_front over.left.0 over.len.0 n placed) }
{
    line[0] = Kind::ScoreLeaf as u8;
    put_field(line, 1, 4, over.left.0 as u64);
    put_field(line, 5, 2, over.len.0 as u64);
    line[7] = n;
    line[8] = placed as u8;
}

// Puts the bytes of a leaf's line into a line of zeros and gives their number; the onsets placed at the leaf are `placed` in a row from
// `first` on, at most 35. The line is lent, since copying it costs as much as a part of writing its text.
pub fn leaf_line(
    line: &mut [u8],
    pitches: &Pitches,
    over: Interval,
    n: u8,
    first: usize,
    placed: usize,
) -> usize
    requires { (placed ≤ 35) × (length pitches.now ≡ 512) × (first + placed ≤ 512) × (line.old ≡ replicate 44 0) }
    ensures { LineHeld (leaf_line (leaf_over over n (take placed (drop first pitches.now)))) result line.new }
{
    leaf_front(line, over, n, placed);
    line[9..9 + placed].copy_from_slice(&pitches[first..first + placed]);
    9 + placed
}
