// The rows of bars: a bar entered, its rows from each carry state, and how many cells the rows of the table take.
ghost use Rattle.std.specs.Prelude.{◌≡◌, ◌<◌};
ghost use Rattle.sheet.specs.Sheet.{Sheet};
ghost use Rattle.trees.specs.LeastTotal.{carries};
ghost use Rattle.search.specs.Clauses.{bar_of, EnterPre, PassPre, Rooted, RootsTo, PassedBar, row_cells, RowCellsPre};

use expansions::PackedUnits;
use plan::{Plan, length_count, nonterminals};
use rows::carry::idle;
use rows::slots::{Bar, first_behind, store};
use rows::table::cells;
use rows::vector::{NO_CELL, NONE, relax, totals};
use sheet::{BAR_UNITS, Units};
use sizes::ITEM_CELLS;

// Bar b, of whose rows the table has so many slots.
pub fn enter(units: &PackedUnits, b: usize, slots: usize) -> Bar
    requires { (s : Sheet) × EnterPre s units.now b slots }
    ensures { (s : Sheet) → EnterPre s units.now b slots → result ≡ bar_of s b }
{
    let lo = BAR_UNITS * (b as u32);
    let first = first_behind(units, 0, Units(lo));
    Bar {
        number: b,
        first,
        shift: b * (slots / 4 + 1) % slots,
        slots,
    }
}

// The row of a bar from carry state c, where v is the prefix costs; no tree where c is idle.
fn root_row(
    plan: &Plan,
    units: &PackedUnits,
    rows: &mut [u64],
    bar: Bar,
    start: usize,
    v: [u64; 4],
    c: usize,
) -> [u64; 4]
    requires { (c < carries) × ((s : Sheet) × PassPre s plan.now units.now rows.old bar start v) }
    ensures { (s : Sheet) → PassPre s plan.now units.now rows.old bar start v
        → Rooted s rows.new bar.number c result }
{
    if idle(plan, v, c, bar.first) {
        return [NO_CELL; 4];
    }
    let lo = BAR_UNITS * (bar.number as u32);
    cells(plan, units, rows, bar, start, 0, Units(lo), bar.first, c)
}

// Stores the rows of a bar from each carry state; gives the prefix costs behind it.
pub fn pass(
    plan: &Plan,
    units: &PackedUnits,
    rows: &mut [u64],
    roots: &mut [u64],
    bar: Bar,
    start: usize,
    v: [u64; 4],
) -> [u64; 4]
    requires { (s : Sheet) × PassPre s plan.now units.now rows.old bar start v × RootsTo s roots.old bar.number 0 }
    ensures { (s : Sheet) → PassPre s plan.now units.now rows.old bar start v
        → RootsTo s roots.old bar.number 0 → PassedBar s rows.new roots.new bar.number result }
{
    let at = ITEM_CELLS * bar.number;
    let mut o = [NONE; 4];
    for c in 0..4 {
        let y = root_row(plan, units, rows, bar, start, v, c);
        store(roots, at + 4 * c, y, 0);
        let w = relax(o, v[c], totals(y));
        o = w;
    }
    o
}

// How many cells the rows take, four a slot, where `most` is the largest number of onsets in a bar.
pub fn row_cells(plan: &Plan, most: usize) -> usize
    requires { (s : Sheet) × RowCellsPre s plan.now most }
    ensures { (s : Sheet) → RowCellsPre s plan.now most → result ≡ row_cells s }
{
    ITEM_CELLS * (nonterminals(plan) * length_count(plan) * most)
}
