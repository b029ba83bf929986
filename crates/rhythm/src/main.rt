// Reads a sheet from standard input and prints the score lines of the first least tree, or one line with the refusal. One byte more than a
// sheet may have is read, so that a longer input is seen to be too long.
#![tactic(auto)]

use case_text::read_full;
use reporting::{REFUSAL_LINE_BYTES, SCORE_BYTES, Shown, TREE_BYTES_MOST, WORK_CELLS};
use sheet::TEXT_MOST;
use std::io;

// One byte more than a sheet may have.
const TEXT_BYTES: usize = TEXT_MOST + 1;

fn main(rt: HostRuntime) -> io::Result<()> {
    let mut text = [0u8; TEXT_BYTES];
    let mut work = [0u64; WORK_CELLS];
    let mut tree = [0u8; TREE_BYTES_MOST];
    let mut score = [0u8; SCORE_BYTES];
    let mut line = [0u8; REFUSAL_LINE_BYTES];
    let n = read_full(&mut rt.stdin(), &mut text)?;
    let shown = reporting::report(&text[..n], &mut work, &mut tree, &mut score, &mut line);
    match shown {
        Shown::Score { bytes } => rt.write_all(&score[..bytes]),
        Shown::Line => rt.write_all(&line),
    }
}
