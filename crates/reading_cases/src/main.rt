// Reads texts from standard input and prints the outcome of reading each as a sheet. A text starts behind a line that begins with # and
// names it, and ends before the next #.
#![tactic(auto)]

use case_text::{behind, place_of, print, read_full};
use sheet::{BAR_LINES_MOST, ONSETS_MOST, PlayingTable, Reading, Refused, TimingTable};
use std::io;

// The moment at place i of a timing; 0 past its places.
fn moment_at(timing: TimingTable, i: usize) -> u64 {
    timing.lines.get(i).map_or(0, |moment| u64::from(moment.0))
}

// The first four bar lines and the last, each with the length of its bar. The last has none: the place behind it holds 0.
fn print_bar_lines(rt: &impl Print, bars: u8, timing: TimingTable) -> io::Result<()> {
    let last = usize::from(bars);
    for i in 0..(last + 1).min(BAR_LINES_MOST) {
        if i < 4 || i == last {
            let moment = moment_at(timing, i);
            let next = moment_at(timing, i + 1);
            print(
                rt,
                b"\n  bar line: place, moment, length",
                i as u64,
                moment,
                next.saturating_sub(moment),
            )?;
        }
    }
    Ok(())
}

// The first four onsets and the last.
fn print_onsets(rt: &impl Print, p: PlayingTable) -> io::Result<()> {
    for i in 0..p.count.min(ONSETS_MOST) {
        if i < 4 || i + 1 == p.count {
            print(
                rt,
                b"\n  onset: place, unit, pitch",
                i as u64,
                u64::from(p.units[i].0),
                u64::from(p.pitches[i]),
            )?;
        }
    }
    Ok(())
}

// A refused text, with zeros where an accepted one has its figures.
fn print_refused(rt: &impl Print, e: Refused) -> io::Result<()> {
    print(
        rt,
        b"\n  number, line, last bar line",
        u64::from(e.refusal.number()),
        e.line as u64,
        0,
    )?;
    rt.write_all(b"; nonterminals, start, multiplier 0 0 0; rules, bars, onsets 0 0 0\n")
}

fn print_accepted(rt: &impl Print, r: Reading) -> io::Result<()> {
    let grammar = r.grammar;
    let playing = r.playing;
    print(
        rt,
        b"\n  number, line, last bar line",
        0,
        0,
        moment_at(r.timing, usize::from(playing.bars)),
    )?;
    print(
        rt,
        b"; nonterminals, start, multiplier",
        u64::from(grammar.nonterminals),
        u64::from(grammar.start),
        u64::from(grammar.multiplier),
    )?;
    print(
        rt,
        b"; rules, bars, onsets",
        grammar.count as u64,
        u64::from(playing.bars),
        playing.count as u64,
    )?;
    print_bar_lines(rt, playing.bars, r.timing)?;
    print_onsets(rt, playing)?;
    rt.write_all(b"\n")
}

fn print_outcome(rt: &impl Print, r: Result<Reading, Refused>) -> io::Result<()> {
    match r {
        Ok(reading) => print_accepted(rt, reading),
        Err(e) => print_refused(rt, e),
    }
}

// Each text of the input.
fn run(rt: &impl Print, s: &[u8]) -> io::Result<()> {
    let mut at = place_of(s, 0, b'#');
    // No `for`: a round takes one case, of any length.
    while at < s.len() {
        let end = place_of(s, at, b'\n');
        let start = behind(s, end);
        let stop = place_of(s, start, b'#');
        rt.write_all(&s[at..end])?;
        print_outcome(rt, reading::read(&s[start..stop]))?;
        at = stop;
    }
    Ok(())
}

fn main(rt: HostRuntime) -> io::Result<()> {
    let mut input = [0u8; 65536];
    let n = read_full(&mut rt.stdin(), &mut input)?;
    run(&rt, &input[..n])
}
