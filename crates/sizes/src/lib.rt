// The lengths of intervals that a grammar's divisions reach, and the required lengths of finding's slices.
#![tactic(auto)]

ghost use Rattle.std.specs.Prelude.{◌≡◌, ◌*◌, ◌<◌, ◌≤◌};
ghost use Rattle.sheet.specs.Sheet.{Grammar, Playing, Sheet};
ghost use Rattle.sheet.specs.Held.{grammar_table, playing_table};
ghost use Rattle.sheet.specs.Good.{GoodRules, GoodOnsets, Good};
ghost use Rattle.sizes.specs.Sizes.{lengths_of, length_count, most_in_bar, tree_bytes, work_cells};
ghost use Rattle.sizes.specs.Held.{arity_flags, length_table, FirstAtMost, Cursors, AmongOf, ReachedOf};

mod divisors;

use divisors::divisor;
use sheet::{
    BAR_UNITS, BARS_MOST, GrammarTable, ONSETS_MOST, PARTS_MOST, PlayingTable, Rule, Units,
};

// The most lengths of intervals: the number of 20,160's divisors.
pub const LENGTHS_MOST: usize = 84;

// The lengths of intervals, from the largest down; places left are zero.
pub type LengthCells = [u32; LENGTHS_MOST];

// The cells of a table by number of parts, from 0 on.
const ARITY_CELLS: usize = PARTS_MOST + 1;

// For each number of parts a place among the lengths.
type Cursors = [usize; ARITY_CELLS];

// The bytes of the tree slice for each onset.
pub const ONSET_TREE_BYTES: usize = 80;

// The most bytes that a tree has.
pub const TREE_BYTES_MOST: usize = BARS_MOST + ONSET_TREE_BYTES * ONSETS_MOST;

// The work cells of an item: a row of four from each of four carry states.
pub const ITEM_CELLS: usize = 16;

// The lengths of intervals: `count` from the front of `cells`, from the largest down, the whole bar first. Places left are zero.
#[derive(Clone, Copy)]
pub struct LengthTable {
    pub count: usize,
    pub cells: LengthCells,
}

// For each k up to 8 whether some division has k parts.
fn arities(g: GrammarTable) -> [bool; ARITY_CELLS]
    requires { g.count ≤ 64 }
    ensures { (h : Grammar) → GoodRules h → g ≡ grammar_table h → result ≡ arity_flags h.rules }
{
    let mut flags = [false; ARITY_CELLS];
    for i in 0..g.count {
        if let Rule::Division { arity, .. } = g.rules[i]
            && arity < 9
        {
            flags[arity as usize] = true;
        }
    }
    flags
}

// The first place from `from` on of the first `count` cells whose cell is at most x; `count` where there is none.
pub fn first_at_most(cells: &LengthCells, count: usize, from: usize, x: Units) -> usize
    requires { (count ≤ 84) × (from ≤ count) }
    ensures { FirstAtMost cells.now count from x.0 result }
{
    for i in from..count {
        if cells[i] <= x.0 {
            return i;
        }
    }
    count
}

// Whether k times d is among the first `count` cells, which fall. Every cell before at[k] is above k times d, so the search starts there;
// at[k] moves on to the first cell that is not.
fn is_among(cells: &LengthCells, at: &mut Cursors, count: usize, k: usize, d: Units) -> bool
    requires { (count ≤ 84) × (k < 9) × (d.0 ≤ 20160) × Cursors cells.now count d.0 at.old }
    ensures { Cursors cells.now count d.0 at.new × AmongOf cells.now count (k * d.0) result }
{
    let x = (k as u32) * d.0;
    let i = first_at_most(cells, count, at[k], Units(x));
    at[k] = i;
    i < count && cells[i] == x
}

// Whether d is the whole bar, or some arity times d is among the first `count` cells. For each arity k that is looked at, at[k] moves on.
fn is_reached(
    flags: [bool; ARITY_CELLS],
    cells: &LengthCells,
    at: &mut Cursors,
    count: usize,
    d: Units,
) -> bool
    requires { (count ≤ 84) × (d.0 ≤ 20160) × Cursors cells.now count d.0 at.old }
    ensures { Cursors cells.now count d.0 at.new × ReachedOf flags cells.now count d.0 result }
{
    if d.0 == BAR_UNITS {
        return true;
    }
    for k in 2..ARITY_CELLS {
        if flags[k] && is_among(cells, at, count, k, d) {
            return true;
        }
    }
    false
}

// The lengths that the divisions of a grammar reach. Lengths and divisors fall, so that for each arity one pass over the lengths is enough.
pub fn lengths(g: GrammarTable) -> LengthTable
    requires { g.count ≤ 64 }
    ensures { (result.count ≤ 84) × ((h : Grammar) → GoodRules h → g ≡ grammar_table h → result ≡ length_table (lengths_of h.rules)) }
{
    let flags = arities(g);
    let mut at = [0usize; ARITY_CELLS];
    let mut cells = [0u32; LENGTHS_MOST];
    let mut count: usize = 0;
    for j in 0..LENGTHS_MOST {
        let d = divisor(j);
        if is_reached(flags, &cells, &mut at, count, d) {
            cells[count] = d.0;
            count += 1;
        }
    }
    LengthTable { count, cells }
}

// The largest number of onsets in a bar: units never fall, so a bar's onsets stand together.
pub fn most_in_bar(p: PlayingTable) -> usize
    requires { p.count ≤ 512 }
    ensures { (result ≤ 512) × ((q : Playing) → GoodOnsets q → p ≡ playing_table q → result ≡ most_in_bar q) }
{
    let mut most: usize = 0;
    let mut run: usize = 0;
    let mut bar: u32 = 0;
    for i in 0..p.count {
        let b = p.units[i].0 / BAR_UNITS;
        if b != bar {
            run = 0;
            bar = b;
        }
        run += 1;
        most = most.max(run);
    }
    most
}

// The required length of finding's tree slice, in bytes.
pub fn tree_bytes(p: PlayingTable) -> usize
    requires { p.count ≤ 512 }
    ensures { (s : Sheet) → p ≡ playing_table s.playing → result ≡ tree_bytes s }
{
    (p.bars as usize) + ONSET_TREE_BYTES * p.count
}

// The required length of finding's work slice, in cells, where the grammar has `count` lengths.
pub fn work_cells_by(g: GrammarTable, p: PlayingTable, count: usize) -> usize
    requires { (count ≤ 84) × (p.count ≤ 512) }
    ensures { (s : Sheet) → Good s → g ≡ grammar_table s.grammar → p ≡ playing_table s.playing
        → count ≡ length_count s.grammar.rules → result ≡ work_cells s }
{
    let most = most_in_bar(p);
    let rows = (g.nonterminals as usize) * count;
    ITEM_CELLS * (rows * most + (p.bars as usize))
}

// The required length of finding's work slice, in cells.
pub fn work_cells(g: GrammarTable, p: PlayingTable) -> usize
    requires { (g.count ≤ 64) × (p.count ≤ 512) }
    ensures { (s : Sheet) → Good s → g ≡ grammar_table s.grammar → p ≡ playing_table s.playing → result ≡ work_cells s }
{
    let reached = lengths(g);
    work_cells_by(g, p, reached.count)
}
