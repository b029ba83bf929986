// Writing the first least list of an item: the rule is told by the item's row and the suffix costs behind it, and then its parts are
// written from left to right, each with the suffix costs of those behind it.
#![tactic(auto)]

ghost use Rattle.std.specs.Prelude.{◌≡◌, [], ◌∷◌, ◌<◌, drop};
ghost use Rattle.sheet.specs.Sheet.{Sheet};
ghost use Rattle.trees.specs.LeastTotal.{NONE};
ghost use Rattle.rows.specs.Vectors.{Low, LowCells};
ghost use Rattle.rows.specs.Slots.{item_at};
ghost use Rattle.rows.specs.Rows.{parts_at};
ghost use Rattle.building.specs.Clauses.{at, SuffixPre, PassedAs, SuffixCosts, BuildPre, PartsBuildPre, BuiltAs};
ghost use Rattle.building.specs.ChoosingLaws.{least_cell};

use expansions::{Interval, PackedUnits, place};
use plan::{Plan, child, length, split_at};
use rows::carry::idle;
use rows::slots::{Bar, first_behind};
use rows::table::{cells, parts};
use rows::vector::{NO_CELL, NONE, dot, totals};
use sheet::Units;

// How far a tree is built: the place of its next byte, and the carry state behind it.
#[derive(Clone, Copy)]
pub struct Built {
    pub to: usize,
    pub carry: usize,
}

// The least sum of a row and 64 times a vector. The remainder by 64 is the first rule that comes to the least total.
fn least_cell(y: [u64; 4], v: [u64; 4]) -> u64
    requires { LowCells y × Low v }
    ensures { result ≡ least_cell y v }
{
    NO_CELL
        .min(y[0] + 64 * v[0])
        .min(y[1] + 64 * v[1])
        .min(y[2] + 64 * v[2])
        .min(y[3] + 64 * v[3])
}

// What the parts of rule r from part i on total from carry state c with the suffix costs v behind them; NONE where c is idle by the totals
// y of the item before them, since no least list passes it.
fn passed(
    plan: &Plan,
    units: &PackedUnits,
    rows: &mut [u64],
    bar: Bar,
    r: usize,
    i: usize,
    k: usize,
    l: usize,
    left: Units,
    from: usize,
    c: usize,
    y: [u64; 4],
    v: [u64; 4],
) -> u64
    requires { (i < k) × ((s : Sheet) × SuffixPre s plan.now units.now rows.old bar r i k l left from c y v) }
    ensures { (s : Sheet) (e : SuffixPre s plan.now units.now rows.old bar r i k l left from c y v)
        → PassedAs s rows.new (parts_at s l left (drop i e.parts.divides.parts)) y v c result }
{
    if idle(plan, y, c, from) {
        return NONE;
    }
    let x = parts(plan, units, rows, bar, r, i, k, l, left, from, c);
    dot(x, v)
}

// The suffix costs before the parts of rule r from part i on, with v behind them and the totals y of the item before them.
fn suffix_costs(
    plan: &Plan,
    units: &PackedUnits,
    rows: &mut [u64],
    bar: Bar,
    r: usize,
    i: usize,
    k: usize,
    l: usize,
    left: Units,
    from: usize,
    y: [u64; 4],
    v: [u64; 4],
) -> [u64; 4]
    requires { (s : Sheet) × SuffixPre s plan.now units.now rows.old bar r i k l left from 0 y v }
    ensures { (s : Sheet) (e : SuffixPre s plan.now units.now rows.old bar r i k l left from 0 y v)
        → SuffixCosts s rows.new (parts_at s l left (drop i e.parts.divides.parts)) y v result }
{
    if k <= i {
        return v;
    }
    let a = passed(plan, units, rows, bar, r, i, k, l, left, from, 0, y, v);
    let b = passed(plan, units, rows, bar, r, i, k, l, left, from, 1, y, v);
    let c = passed(plan, units, rows, bar, r, i, k, l, left, from, 2, y, v);
    let d = passed(plan, units, rows, bar, r, i, k, l, left, from, 3, y, v);
    [a, b, c, d]
}

// Writes the first least list of an item from byte `to` on: y is its row from carry state c, and v the suffix costs behind it.
#[cycle(build_build_parts)]
pub fn build(
    plan: &Plan,
    units: &PackedUnits,
    rows: &mut [u64],
    tree: &mut [u8],
    bar: Bar,
    q: usize,
    l: usize,
    left: Units,
    from: usize,
    c: usize,
    y: [u64; 4],
    v: [u64; 4],
    to: usize,
) -> Built
    requires { (s : Sheet) × BuildPre s plan.now units.now rows.old tree.old bar q l left from c y v to }
    ensures { (s : Sheet)
        → BuildPre s plan.now units.now rows.old tree.old bar q l left from c y v to
        → BuiltAs s rows.new tree.old tree.new (item_at s q l left ∷ []) (at v) c to result }
{
    let r = (least_cell(y, v) % 64) as usize;
    tree[to] = r as u8;
    let Some(split) = split_at(plan, q, l, r) else {
        let over = Interval {
            left,
            len: length(plan, l),
        };
        let placed = place(units, over, from);
        return Built {
            to: to + 1,
            carry: placed.late,
        };
    };
    build_parts(
        plan,
        units,
        rows,
        tree,
        bar,
        r,
        split.arity,
        split.part,
        left,
        from,
        c,
        v,
        to + 1,
    )
}

// Writes the first least lists of the parts of rule r, one behind the other, with the suffix costs v behind them.
#[cycle(build_build_parts)]
fn build_parts(
    plan: &Plan,
    units: &PackedUnits,
    rows: &mut [u64],
    tree: &mut [u8],
    bar: Bar,
    r: usize,
    k: usize,
    l: usize,
    left: Units,
    from: usize,
    c: usize,
    v: [u64; 4],
    to: usize,
) -> Built
    requires { (s : Sheet) × PartsBuildPre s plan.now units.now rows.old tree.old bar r k l left from c v to }
    ensures { (s : Sheet)
        (e : PartsBuildPre s plan.now units.now rows.old tree.old bar r k l left from c v to)
        → BuiltAs s rows.new tree.old tree.new (parts_at s l left e.parts.divides.parts) (at v) c to result }
{
    let len = length(plan, l).0;
    let mut lo = left.0;
    let mut at = from;
    let mut next = to;
    let mut carry = c;
    for j in 0..k {
        let q = child(plan, r, j);
        let end = lo + len;
        let then = first_behind(units, at, Units(end));
        let y = cells(plan, units, rows, bar, q, l, Units(lo), at, carry);
        let x = totals(y);
        let i = j + 1;
        let w = suffix_costs(plan, units, rows, bar, r, i, k, l, Units(end), then, x, v);
        let b = build(
            plan,
            units,
            rows,
            tree,
            bar,
            q,
            l,
            Units(lo),
            at,
            carry,
            y,
            w,
            next,
        );
        next = b.to;
        carry = b.carry;
        lo = end;
        at = then;
    }
    Built { to: next, carry }
}
