// The search for the first least tree of a sheet, bar after bar: the rows of bars up to a bar line that nothing is carried over, then the
// suffix costs behind them from the last of these bars to the first, and then their trees from the first to the last.
#![tactic(auto)]

ghost use Rattle.std.specs.Prelude.{◌≡◌};
ghost use Rattle.sheet.specs.Sheet.{Sheet};
ghost use Rattle.sizes.specs.Sizes.{lengths_of};
ghost use Rattle.sizes.specs.Held.{length_table};
ghost use Rattle.search.specs.Clauses.{ForwardPre, FoundIn, ParsePre, FoundAs, SearchPre, Searched};

mod bars;
mod commit;

use bars::{enter, pass, row_cells};
use commit::{commit, is_cut_point};
use expansions::{PackedUnits, pack_units};
use filling::{Order, by_arity, fill_bar};
use plan::{PLAN_CELLS, Plan, prepare};
use rows::vector::{NONE, only_at};
use sheet::{BARS_MOST, GrammarTable, PlayingTable};
use sizes::{ITEM_CELLS, LengthTable, TREE_BYTES_MOST, most_in_bar};

// The cells of the rows of all bars.
const ROOT_CELLS: usize = ITEM_CELLS * BARS_MOST;

// The cells of the suffix costs, four before each bar and four behind the last.
const VECTOR_CELLS: usize = 4 * (BARS_MOST + 1);

// A tree that is found: how many bytes it has and what it totals.
#[derive(Clone, Copy)]
pub struct Found {
    pub nodes: usize,
    pub total: u64,
}

// Finds the first least tree, bar after bar. Where nothing is carried over a bar line, the bars before it are built at once, while the
// table has their rows.
fn forward(
    plan: &Plan,
    units: &PackedUnits,
    order: &Option<Order>,
    rows: &mut [u64],
    tree: &mut [u8],
    roots: &mut [u64],
    vectors: &mut [u64],
    start: usize,
    count: usize,
) -> Option<Found>
    requires { (s : Sheet) × ForwardPre s plan.now units.now order.now rows.old tree.old roots.old vectors.old start count }
    ensures { (s : Sheet)
        → ForwardPre s plan.now units.now order.now rows.old tree.old
        roots.old vectors.old start count → FoundIn s tree.new result }
{
    let slots = rows.len() / 4;
    let mut v = only_at(0);
    let mut done: usize = 0;
    let mut next: usize = 0;
    for b in 0..count {
        let bar = enter(units, b, slots);
        fill_bar(plan, units, order, rows, bar);
        let w = pass(plan, units, rows, roots, bar, start, v);
        v = w;
        if is_cut_point(plan, v) {
            next = commit(
                plan,
                units,
                rows,
                tree,
                vectors,
                &roots[..],
                start,
                done,
                b + 1,
                next,
            );
            done = b + 1;
        }
    }
    let total = v[0];
    if total >= NONE {
        return None;
    }
    let nodes = commit(
        plan,
        units,
        rows,
        tree,
        vectors,
        &roots[..],
        start,
        done,
        count,
        next,
    );
    Some(Found { nodes, total })
}

// Finds the first least tree, with so many rows as the sheet needs. It is made aside and copied, since a tree that is not found leaves the
// tree slice as it is.
fn parse(
    plan: &Plan,
    units: &PackedUnits,
    rows: &mut [u64],
    tree: &mut [u8],
    start: usize,
    count: usize,
) -> Option<Found>
    requires { (s : Sheet) × ParsePre s plan.now units.now rows.old tree.old start count }
    ensures { (s : Sheet) → ParsePre s plan.now units.now rows.old tree.old start count
        → FoundAs s tree.old tree.new result }
{
    rows.fill(0);
    let mut roots = [0u64; ROOT_CELLS];
    let mut vectors = [0u64; VECTOR_CELLS];
    let mut bytes = [0u8; TREE_BYTES_MOST];
    let order = by_arity(plan);
    let found = forward(
        plan,
        units,
        &order,
        rows,
        &mut bytes,
        &mut roots,
        &mut vectors,
        start,
        count,
    )?;
    tree[..found.nodes].copy_from_slice(&bytes[..found.nodes]);
    Some(found)
}

// Finds the first least tree of a sheet, whose lengths are known, and writes it to the front of the tree slice. The required cells of the
// work slice are 0 at the end; what they hold at the start does not matter.
pub fn least_tree(
    grammar: GrammarTable,
    playing: PlayingTable,
    reached: LengthTable,
    tree: &mut [u8],
    work: &mut [u64],
) -> Option<Found>
    requires { (s : Sheet) × SearchPre s grammar playing tree.old work.old × (reached ≡ length_table (lengths_of s.grammar.rules)) }
    ensures { (s : Sheet) → SearchPre s grammar playing tree.old work.old
        → reached ≡ length_table (lengths_of s.grammar.rules)
        → Searched s tree.old tree.new work.old work.new result }
{
    let mut plan = [0u64; PLAN_CELLS];
    prepare(&mut plan, grammar, reached);
    let units = pack_units(playing);
    let start = grammar.start as usize;
    let count = playing.bars as usize;
    let cells = row_cells(&plan, most_in_bar(playing));
    let found = parse(&plan, &units, &mut work[..cells], tree, start, count);
    work[..cells + ITEM_CELLS * count].fill(0);
    found
}
