// The rows of items: looked up where the table has them, and solved where it has not.
ghost use Rattle.std.specs.Prelude.{List, ℕ, ◌+◌};
ghost use Rattle.sheet.specs.Sheet.{Sheet};
ghost use Rattle.rows.specs.Slots.{item_at};
ghost use Rattle.rows.specs.Rows.{Entry, Row, SolveEntry, PartsEntry, Parted, PartEntry, LiftEntry, Taken};

use crate::carry::{idle_at, reached};
use crate::leaf::{leaf_row, least_placed};
use crate::one::{alone, solve_one};
use crate::slots::{Bar, first_behind, held, load, place_of, store};
use crate::vector::{NO_CELL, NONE, dot, only_at, relax, relax_rule, totals};
use expansions::{Interval, PackedUnits, token_of};
use plan::{
    Plan, Split, child, cost, first_division, last_division, leaf_cell, length, rule_at_place,
    split_at_place,
};
use sheet::Units;

// The row of an item from carry state c. Without an onset inside it is a leaf of what is carried in, and nothing is carried on.
pub fn cells(
    plan: &Plan,
    units: &PackedUnits,
    rows: &mut [u64],
    bar: Bar,
    q: usize,
    l: usize,
    left: Units,
    from: usize,
    c: usize,
) -> [u64; 4]
    requires { (s : Sheet) × Entry s plan.now units.now rows.old bar q l left from c }
    ensures { (s : Sheet) → Entry s plan.now units.now rows.old bar q l left from c
        → Row s rows.new (item_at s q l left) c result }
{
    let len = length(plan, l);
    if left.0 + len.0 <= units[from] {
        let kind = token_of(c, from);
        return [leaf_cell(plan, q, kind as usize), NO_CELL, NO_CELL, NO_CELL];
    }
    let at = place_of(plan, bar, q, l, from, c);
    if held(&rows[..], at, bar.number) {
        return load(&rows[..], at);
    }
    fresh(plan, units, rows, bar, q, l, left, from, c, at)
}

// Solves the row of an item with an onset inside: the short way where it is the only one, not the first of the piece, and nothing is
// carried in.
#[cycle(fresh_lift_part_parts_solve)]
fn fresh(
    plan: &Plan,
    units: &PackedUnits,
    rows: &mut [u64],
    bar: Bar,
    q: usize,
    l: usize,
    left: Units,
    from: usize,
    c: usize,
    at: usize,
) -> [u64; 4]
    requires { (s : Sheet) × SolveEntry s plan.now units.now rows.old bar q l left from c at }
    ensures { (s : Sheet) → SolveEntry s plan.now units.now rows.old bar q l left from c at
        → Row s rows.new (item_at s q l left) c result }
{
    if alone(plan, units, l, left, from, c) {
        let y = solve_one(plan, units, rows, bar, q, l, left, from, at);
        return [y.zero, y.one, NO_CELL, NO_CELL];
    }
    solve(plan, units, rows, bar, q, l, left, from, c, at)
}

// Solves the row of an item with an onset inside, and stores it at its place. Only the divisions of its nonterminal are met.
#[cycle(fresh_lift_part_parts_solve)]
fn solve(
    plan: &Plan,
    units: &PackedUnits,
    rows: &mut [u64],
    bar: Bar,
    q: usize,
    l: usize,
    left: Units,
    from: usize,
    c: usize,
    at: usize,
) -> [u64; 4]
    requires { (s : Sheet) × SolveEntry s plan.now units.now rows.old bar q l left from c at }
    ensures { (s : Sheet) → SolveEntry s plan.now units.now rows.old bar q l left from c at
        → Row s rows.new (item_at s q l left) c result }
{
    let over = Interval {
        left,
        len: length(plan, l),
    };
    let mut best = leaf_row(plan, units, q, over, from, c);
    for n in first_division(plan, q)..last_division(plan, q) {
        let rule = rule_at_place(plan, n);
        if let Some(Split { arity, part }) = split_at_place(plan, l, n) {
            let v = parts(plan, units, rows, bar, rule, 0, arity, part, left, from, c);
            let y = relax_rule(best, cost(plan, rule), rule as u64, v);
            best = y;
        }
    }
    store(rows, at, best, (bar.number as u64) + 1);
    best
}

// What the parts of rule r total from part i on, which begins at `left`, from carry state c to each: k parts of the length with index l.
#[cycle(fresh_lift_part_parts_solve)]
pub fn parts(
    plan: &Plan,
    units: &PackedUnits,
    rows: &mut [u64],
    bar: Bar,
    r: usize,
    i: usize,
    k: usize,
    l: usize,
    left: Units,
    from: usize,
    c: usize,
) -> [u64; 4]
    requires { (s : Sheet) × PartsEntry s plan.now units.now rows.old bar r i k l left from c }
    ensures { (s : Sheet) → PartsEntry s plan.now units.now rows.old bar r i k l left from c
        → Parted s rows.new r i l left c result }
{
    let len = length(plan, l);
    let mut v = only_at(c);
    let mut at = from;
    let mut lo = left.0;
    for j in i..k {
        let q = child(plan, r, j);
        let end = lo + len.0;
        let to = first_behind(units, at, Units(end));
        let w = part(plan, units, rows, bar, q, l, Units(lo), at, to, v);
        v = w;
        at = to;
        lo = end;
    }
    v
}

// The vector v, taken over one part; `to` is the place of the first onset behind it. The totals to the carry states move up one by one, so
// that none is looked up by its index.
#[cycle(fresh_lift_part_parts_solve)]
fn part(
    plan: &Plan,
    units: &PackedUnits,
    rows: &mut [u64],
    bar: Bar,
    q: usize,
    l: usize,
    left: Units,
    from: usize,
    to: usize,
    v: [u64; 4],
) -> [u64; 4]
    requires { (s : Sheet) × PartEntry s plan.now units.now rows.old bar q l left from to v }
    ensures { (s : Sheet) → PartEntry s plan.now units.now rows.old bar q l left from to v
        → Taken s rows.new (item_at s q l left) v 4 result }
{
    if from >= to {
        let leaves = [
            least_placed(plan, q, 0, from),
            least_placed(plan, q, 1, from),
            least_placed(plan, q, 2, from),
            least_placed(plan, q, 3, from),
        ];
        return [dot(leaves, v), NONE, NONE, NONE];
    }
    let zero = v[0];
    let n = reached(v);
    let mut o = [NONE; 4];
    let mut a = v[0];
    let mut b = v[1];
    let mut d = v[2];
    let e = v[3];
    for c in 0..n {
        let w = lift(plan, units, rows, bar, q, l, left, from, zero, a, c, o);
        o = w;
        a = b;
        b = d;
        d = e;
    }
    o
}

// One carry state more of a part with an onset inside, where `zero` and `a` are the totals to 0 and to c; an idle one is left out.
#[cycle(fresh_lift_part_parts_solve)]
fn lift(
    plan: &Plan,
    units: &PackedUnits,
    rows: &mut [u64],
    bar: Bar,
    q: usize,
    l: usize,
    left: Units,
    from: usize,
    zero: u64,
    a: u64,
    c: usize,
    o: [u64; 4],
) -> [u64; 4]
    requires { (s : Sheet) × (v : List ℕ) × LiftEntry s plan.now units.now rows.old bar q l left from v zero a c o }
    ensures { (s : Sheet) (v : List ℕ)
        → LiftEntry s plan.now units.now rows.old bar q l left from v zero a c o
        → Taken s rows.new (item_at s q l left) v (c + 1) result }
{
    if idle_at(plan, zero, a, c, from) {
        return o;
    }
    let at = place_of(plan, bar, q, l, from, c);
    if held(&rows[..], at, bar.number) {
        let y = load(&rows[..], at);
        return relax(o, a, totals(y));
    }
    let y = fresh(plan, units, rows, bar, q, l, left, from, c, at);
    relax(o, a, totals(y))
}
