// Finds the first least trees of sheets that are read from standard input. A case is a line that names it, a line of pairs that says how it
// is run, and the sheet. Byte 46 runs `find`; behind it stand the byte that fills the tree slice beforehand, the byte that fills each byte
// of the work cells, and the lengths of the tree and the work slice that are lent, two bytes each. Byte 52 prints what the program would
// print.
#![tactic(auto)]

ghost use Rattle.std.specs.Prelude.{◌≤◌, length, IfOk};

use case_text::{behind, place_of, print, print_front, read_full};
use pricing::Priced;
use reporting::{REFUSAL_LINE_BYTES, SCORE_BYTES, Shown, TREE_BYTES_MOST, WORK_CELLS};
use sheet::Refused;
use std::io;

// What is printed of a text that is refused.
const NO_PRICE: Priced = Priced {
    nodes: 0,
    weight: 0,
    distance: 0,
    total: 0,
};

// What `find` and `report` are lent. The page is the score slice of `report`, and takes the line of a tree that `find` gave.
#[derive(Drop)]
struct Slices {
    tree: [u8; TREE_BYTES_MOST],
    work: [u64; WORK_CELLS],
    page: [u8; SCORE_BYTES],
}

// How `find` is run: what fills the slices, and how many bytes and cells are lent.
#[derive(Clone, Copy)]
struct Setting {
    byte: u8,
    cell: u64,
    bytes: usize,
    cells: usize,
}

// What a case calls.
#[derive(Clone, Copy)]
enum Call {
    Report,
    Find(Setting),
}

// The number that two bytes are.
fn number(high: u8, low: u8) -> usize {
    usize::from(u16::from_be_bytes([high, low]))
}

// What a case's second line says; any first byte but 52 runs `find`.
fn call_of(line: [u8; 7]) -> Call {
    if line[0] == 0x52 {
        return Call::Report;
    }
    Call::Find(Setting {
        byte: line[1],
        cell: u64::from_be_bytes([line[2]; 8]),
        bytes: number(line[3], line[4]),
        cells: number(line[5], line[6]),
    })
}

// How many elements of a slice are x.
fn count_of<T: Copy + PartialEq>(s: &[T], x: T) -> usize {
    let mut count: usize = 0;
    for &held in s {
        if held == x {
            count += 1;
        }
    }
    count
}

// Prints the number and the line of a refusal, 0 and 0 where there is none, and a price.
fn print_answer(rt: &impl Print, refused: Option<Refused>, p: Priced) -> io::Result<()> {
    let number = refused.map_or(0, |e| e.refusal.number());
    let line = refused.map_or(0, |e| e.line);
    print(
        rt,
        b"\n  number, line, nodes",
        u64::from(number),
        line as u64,
        p.nodes as u64,
    )?;
    print(rt, b"; R, D, total", p.weight, p.distance, p.total)
}

// Prints a tree of so many bytes, and how many bytes behind it hold the fill, in the lent slice and behind that.
fn print_tree(
    rt: &impl Print,
    tree: &[u8],
    nodes: usize,
    room: usize,
    fill: u8,
    page: &mut [u8],
) -> io::Result<()>
    requires { room ≤ length tree.now }
{
    let end = nodes.min(room);
    print(
        rt,
        b"\n  tree: bytes, kept behind them, behind the slice",
        end as u64,
        count_of(&tree[end..room], fill) as u64,
        count_of(&tree[room..], fill) as u64,
    )?;
    rt.write_all(b"\n  ")?;
    let stop = hextext::write_line(&tree[..end], page, 0);
    print_front(rt, page, stop)
}

// Prints how many cells are 0 at the front of the lent slice, and how many hold the fill behind these and behind the slice.
fn print_work(rt: &impl Print, work: &[u64], room: usize, fill: u64) -> io::Result<()>
    requires { room ≤ length work.now }
{
    let zeros = work[..room].iter().position(|&x| x != 0).unwrap_or(room);
    print(
        rt,
        b"  work: zeros, kept behind them, behind the slice",
        zeros as u64,
        count_of(&work[zeros..room], fill) as u64,
        count_of(&work[room..], fill) as u64,
    )?;
    rt.write_all(b"\n")
}

// Finds a tree with parts of two slices that are filled beforehand, and prints the answer and the slices.
fn print_found(rt: &impl Print, text: &[u8], slices: &mut Slices, how: Setting) -> io::Result<()> {
    let bytes = how.bytes.min(TREE_BYTES_MOST);
    let cells = how.cells.min(WORK_CELLS);
    let tree = &mut slices.tree[..];
    let work = &mut slices.work[..];
    tree.fill(how.byte);
    work.fill(how.cell);
    let answer = finding::find(text, &mut tree[..bytes], &mut work[..cells]);
    let p = answer.unwrap_or(NO_PRICE);
    print_answer(rt, answer.err(), p)?;
    print_tree(rt, tree, p.nodes, bytes, how.byte, &mut slices.page)?;
    print_work(rt, work, cells, how.cell)
}

// Prints what the program would print: the entry behind it is called with slices of zeros.
fn print_report(rt: &impl Print, text: &[u8], slices: &mut Slices) -> io::Result<()> {
    slices.tree.fill(0);
    slices.work.fill(0);
    slices.page.fill(0);
    let mut line = [0u8; REFUSAL_LINE_BYTES];
    let shown = reporting::report(
        text,
        &mut slices.work,
        &mut slices.tree,
        &mut slices.page,
        &mut line,
    );
    rt.write_all(b"\n")?;
    match shown {
        Shown::Line => rt.write_all(&line),
        Shown::Score { bytes } => print_front(rt, &slices.page, bytes),
    }
}

// Runs the case whose lines start at place `from` of the input; gives the place behind it.
fn run_case(rt: &impl Print, s: &[u8], from: usize, slices: &mut Slices) -> io::Result<usize>
    requires { from ≤ length s.now }
    ensures { IfOk result (λ stop. (from ≤ stop) × (stop ≤ length s.now)) }
{
    let mut line = [0u8; 7];
    let next = hextext::next_line(s, from, &mut line).next;
    let start = next.min(s.len());
    let stop = place_of(s, start, b'#');
    let text = &s[start..stop];
    match call_of(line) {
        Call::Report => print_report(rt, text, slices)?,
        Call::Find(how) => print_found(rt, text, slices, how)?,
    }
    Ok(stop)
}

// Each case of the input.
fn run(rt: &impl Print, s: &[u8], slices: &mut Slices) -> io::Result<()> {
    let mut at = place_of(s, 0, b'#');
    // No `for`: a round takes one case, of any length.
    while at < s.len() {
        let end = place_of(s, at, b'\n');
        rt.write_all(&s[at..end])?;
        at = run_case(rt, s, behind(s, end), slices)?;
    }
    Ok(())
}

fn main(rt: HostRuntime) -> io::Result<()> {
    let mut input = [0u8; 131072];
    let mut slices = Slices {
        tree: [0; TREE_BYTES_MOST],
        work: [0; WORK_CELLS],
        page: [0; SCORE_BYTES],
    };
    let n = read_full(&mut rt.stdin(), &mut input)?;
    run(&rt, &input[..n], &mut slices)
}
