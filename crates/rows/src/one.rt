// Rows of items with one onset inside and one before that nothing is carried into: cells 0 and 1, since cells 2 and 3 have no tree. Of a
// division's parts only the one with the onset is looked up; the plan has what the others add, none of them a rest.
ghost use Rattle.std.specs.Prelude.{◌≡◌, true, ◌+◌, ◌≤◌, ◌<◌};
ghost use Rattle.sheet.specs.Sheet.{Sheet};
ghost use Rattle.trees.specs.Instance.{onsets_in};
ghost use Rattle.expansions.specs.Tables.{last_unit};
ghost use Rattle.plan.specs.Plan.{Prepared, length_at};
ghost use Rattle.rows.specs.Slots.{item_at};
ghost use Rattle.rows.specs.Rows.{Row};
ghost use Rattle.rows.specs.TurnLaws.{Ruled};
ghost use Rattle.rows.specs.One.{pair_row, by_way, AloneEntry, OnePart, OneEntry, LeafOne, WayEntry, OneRule};

use crate::slots::{Bar, held, load, place_of, store};
use crate::vector::NO_CELL;
use expansions::{PackedUnits, token_of};
use plan::{
    Plan, child, first_division, last_division, leaf_cell, length, rule_at_place, split_at_place,
    way,
};
use sheet::Units;

// Cells 0 and 1 of a row.
#[derive(Clone, Copy)]
pub struct Pair {
    pub zero: u64,
    pub one: u64,
}

// Whether nothing is carried in, the onset at place `from` is the only one inside, and it is not the first of the piece.
pub fn alone(plan: &Plan, units: &PackedUnits, l: usize, left: Units, from: usize, c: usize) -> bool
    requires { (s : Sheet) × AloneEntry s plan.now units.now l left from }
    ensures { (s : Sheet) → AloneEntry s plan.now units.now l left from → result ≡ true
        → (c ≡ 0) × (0 < from) × (onsets_in s left.0 (length_at s l) ≡ 1) }
{
    if c != 0 || from == 0 {
        return false;
    }
    let len = length(plan, l);
    left.0 + len.0 <= units[from + 1]
}

// A leaf of nonterminal q, with an onset before it, whose only onset is d behind its left bound.
pub fn leaf_one(plan: &Plan, q: usize, len: Units, d: Units) -> Pair
    requires { (q < 16) × (d.0 ≤ len.0) × (len.0 ≤ last_unit) × ((s : Sheet) × Prepared s plan.now) }
    ensures { LeafOne plan.now q len.0 d.0 result }
{
    let n = len.0;
    if 2 * d.0 < n {
        let kind = token_of(1, 1);
        let w = leaf_cell(plan, q, kind as usize);
        let x = NO_CELL.min(w + 64 * u64::from(d.0));
        return Pair {
            zero: x,
            one: NO_CELL,
        };
    }
    let kind = token_of(0, 1);
    let w = leaf_cell(plan, q, kind as usize);
    let x = NO_CELL.min(w + 64 * u64::from(n - d.0));
    Pair {
        zero: NO_CELL,
        one: x,
    }
}

// What rule r comes to where only its part j has an onset, of which y are cells 0 and 1.
pub fn by_way(plan: &Plan, r: usize, j: usize, y: Pair) -> Pair
    requires { (s : Sheet) × WayEntry s plan.now r j y }
    ensures { result ≡ by_way plan.now r j y }
{
    let zero = y.zero / 64 * 64;
    let one = y.one / 64 * 64;
    let a = (zero + way(plan, r, j, 0)).min(one + way(plan, r, j, 1));
    let b = one + way(plan, r, j, 2);
    Pair { zero: a, one: b }
}

// Solves the row of an item with one onset inside and one before it, from carry state 0, and stores it at its place.
#[cycle(part_one_rule_one_solve_one)]
pub fn solve_one(
    plan: &Plan,
    units: &PackedUnits,
    rows: &mut [u64],
    bar: Bar,
    q: usize,
    l: usize,
    left: Units,
    from: usize,
    at: usize,
) -> Pair
    requires { (s : Sheet) × OneEntry s plan.now units.now rows.old bar q l left from at }
    ensures { (s : Sheet) → OneEntry s plan.now units.now rows.old bar q l left from at
        → Row s rows.new (item_at s q l left) 0 (pair_row result) }
{
    let len = length(plan, l);
    let d = units[from] - left.0;
    let leaf = leaf_one(plan, q, len, Units(d));
    let mut zero = leaf.zero;
    let mut one = leaf.one;
    for n in first_division(plan, q)..last_division(plan, q) {
        let rule = rule_at_place(plan, n);
        if let Some(split) = split_at_place(plan, l, n) {
            let best = Pair { zero, one };
            let h = split.part;
            let y = rule_one(plan, units, rows, bar, rule, h, left, from, Units(d), best);
            zero = y.zero;
            one = y.one;
        }
    }
    store(
        rows,
        at,
        [zero, one, NO_CELL, NO_CELL],
        (bar.number as u64) + 1,
    );
    Pair { zero, one }
}

// One rule more of an item whose only onset is d behind its left bound: rule r, with parts of the length with index l.
#[cycle(part_one_rule_one_solve_one)]
fn rule_one(
    plan: &Plan,
    units: &PackedUnits,
    rows: &mut [u64],
    bar: Bar,
    r: usize,
    l: usize,
    left: Units,
    from: usize,
    d: Units,
    best: Pair,
) -> Pair
    requires { (s : Sheet) × OneRule s plan.now units.now rows.old bar r l left from d.0 best }
    ensures { (s : Sheet) (e : OneRule s plan.now units.now rows.old bar r l left from d.0 best)
        → Ruled s rows.new (item_at s e.q e.whole left) 0 (r + 1) (pair_row result) }
{
    let len = length(plan, l);
    let i = d.0 / len.0;
    let part = i as usize;
    let q = child(plan, r, part);
    let lo = left.0 + i * len.0;
    let y = part_one(plan, units, rows, bar, q, l, Units(lo), from);
    let x = by_way(plan, r, part, y);
    Pair {
        zero: best.zero.min(x.zero),
        one: best.one.min(x.one),
    }
}

// Cells 0 and 1 of the row of a part with one onset inside and one before it, from carry state 0.
#[cycle(part_one_rule_one_solve_one)]
fn part_one(
    plan: &Plan,
    units: &PackedUnits,
    rows: &mut [u64],
    bar: Bar,
    q: usize,
    l: usize,
    left: Units,
    from: usize,
) -> Pair
    requires { (s : Sheet) × OnePart s plan.now units.now rows.old bar q l left from }
    ensures { (s : Sheet) → OnePart s plan.now units.now rows.old bar q l left from
        → Row s rows.new (item_at s q l left) 0 (pair_row result) }
{
    let at = place_of(plan, bar, q, l, from, 0);
    if held(&rows[..], at, bar.number) {
        let y = load(&rows[..], at);
        return Pair {
            zero: y[0],
            one: y[1],
        };
    }
    solve_one(plan, units, rows, bar, q, l, left, from, at)
}
