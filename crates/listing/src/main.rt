// Compares finding with a search by listing all trees, on small sheets that are read from standard input. Every valid tree of a sheet is
// made by expanding every item with every rule, in the words of documents 01 and 02 and with nothing taken from the search; each is priced.
// Printed: the number of trees, the least total and how many trees have it, whether finding gives the first of these, or 11 where there is
// none, and the bytes that it gives. Lists are made in dictionary order, since at each item the rules are tried from 0 up.
#![tactic(auto)]

ghost use Rattle.std.specs.Prelude.{◌≡◌, length};

use case_text::{behind, place_of, print_front, read_full};
use expansions::{PackedUnits, pack_units};
use items::{ITEMS_MOST, Pending, Place, move_at};
use sheet::{BAR_UNITS, GrammarTable, ONSETS_MOST, RULES_MOST, Reading, Units};
use sizes::TREE_BYTES_MOST;
use std::io;
use tally::Tally;

mod items;
mod tally;

// The cells of the work slice.
const WORK_CELLS: usize = 8192;

// What finding is lent, and the list that trees are made in, which also holds a line to print.
#[derive(Drop)]
struct Slices {
    tree: [u8; TREE_BYTES_MOST],
    work: [u64; WORK_CELLS],
    list: [u8; TREE_BYTES_MOST],
}

// A sheet: its text, its grammar, and its onsets' units; and the tree that finding gave.
#[derive(Clone, Copy)]
struct Given<'a> {
    text: &'a [u8],
    grammar: GrammarTable,
    units: PackedUnits,
    found: &'a [u8],
}

// Adds every tree that begins with the first `nodes` bytes of the list, which leave p to be derived.
fn explore(given: &Given, list: &mut [u8], nodes: usize, p: &Place, tally: &mut Tally)
    ensures { length list.new ≡ length list.old }
{
    if list.len() < nodes {
        tally.goes_wrong();
        return;
    }
    let Some(item) = p.next_item() else {
        tally.add(given.text, given.found, &list[..nodes], p.carried);
        return;
    };
    if list.len() == nodes {
        tally.goes_wrong();
        return;
    }
    // Places behind the rules hold none.
    let rules = &given.grammar.rules[..given.grammar.count.min(RULES_MOST)];
    for (i, &rule) in rules.iter().enumerate() {
        if let Some(m) = move_at(&given.units, rule, item, p.carried) {
            list[nodes] = i as u8;
            let behind = p.behind(&given.grammar.children, i, m, item);
            explore(given, list, nodes + 1, &behind, tally);
        }
    }
}

// Every tree of a sheet as it was read.
fn list_all<'a>(text: &'a [u8], sheet: Reading, found: &'a [u8], list: &mut [u8]) -> Tally {
    let mut tally = Tally::new();
    let grammar = sheet.grammar;
    let playing = sheet.playing;
    if ONSETS_MOST < playing.count {
        return tally; // no accepted sheet has so many onsets
    }
    let units = pack_units(playing);
    let given = Given {
        text,
        grammar,
        units,
        found,
    };
    let bar = Pending {
        name: grammar.start,
        len: Units(BAR_UNITS),
    };
    let bars = Place {
        items: [bar; ITEMS_MOST],
        count: usize::from(playing.bars),
        left: Units(0),
        carried: 0,
    };
    explore(&given, list, 0, &bars, &mut tally);
    tally
}

// Prints the bytes of a tree, if there are any, and closes the line.
fn print_tree(rt: &impl Print, tree: &[u8], page: &mut [u8]) -> io::Result<()> {
    if !tree.is_empty() {
        rt.write_all(b" ")?;
    }
    let stop = hextext::write_line(tree, page, 0);
    print_front(rt, page, stop)
}

// Finds the first least tree of a sheet, lists all its trees and prints the comparison.
fn compare(rt: &impl Print, text: &[u8], slices: &mut Slices) -> io::Result<()> {
    let answer = finding::find(text, &mut slices.tree, &mut slices.work);
    let nodes = answer.map_or(0, |p| p.nodes);
    let tree = &slices.tree[..nodes.min(TREE_BYTES_MOST)];
    let tally = match reading::read(text) {
        Ok(sheet) => list_all(text, sheet, tree, &mut slices.list),
        Err(_) => Tally::new(),
    };
    tally.print(rt, answer)?;
    print_tree(rt, tree, &mut slices.list)
}

// Each sheet of the input: it starts behind a line that begins with # and names it, and ends before the next #.
fn run(rt: &impl Print, s: &[u8], slices: &mut Slices) -> io::Result<()> {
    let mut at = place_of(s, 0, b'#');
    // No `for`: a round takes one sheet, of any length.
    while at < s.len() {
        let end = place_of(s, at, b'\n');
        let start = behind(s, end);
        let stop = place_of(s, start, b'#');
        rt.write_all(&s[at..end])?;
        compare(rt, &s[start..stop], slices)?;
        at = stop;
    }
    Ok(())
}

fn main(rt: HostRuntime) -> io::Result<()> {
    let mut input = [0u8; 65536];
    let mut slices = Slices {
        tree: [0; TREE_BYTES_MOST],
        work: [0; WORK_CELLS],
        list: [0; TREE_BYTES_MOST],
    };
    let n = read_full(&mut rt.stdin(), &mut input)?;
    run(&rt, &input[..n], &mut slices)
}
