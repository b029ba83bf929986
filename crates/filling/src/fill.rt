// Filling the rows of a bar's intervals with one onset: cells 0 and 1 of each, from carry state 0.
ghost use Rattle.std.specs.Prelude.{◌≡◌, ◌+◌, ◌<◌, ◌≤◌, length};
ghost use Rattle.sheet.specs.Sheet.{Sheet};
ghost use Rattle.expansions.specs.Tables.{last_unit};
ghost use Rattle.plan.specs.Plan.{Prepared};
ghost use Rattle.rows.specs.Slots.{Sound};
ghost use Rattle.rows.specs.One.{Comes};
ghost use Rattle.filling.specs.Order.{used_in};
ghost use Rattle.filling.specs.Pairs.{pair_at, put_pair, lesser_pair};
ghost use Rattle.filling.specs.Filling.{FillEntry, LoneBy, LeavesTo, RuleEntry, ArityEntry, Best, LengthEntry, Solved};
ghost use Rattle.filling.specs.Filling.{KeepEntry, KeptTo, AtEntry, FilledAt, OnsetEntry, OnsetFilled};

use crate::order::{Order, first_of, named_at, used_in};
use expansions::PackedUnits;
use plan::{Plan, child, length_count, split_by};
use rows::one::{Pair, by_way, leaf_one};
use rows::slots::{Bar, first_behind, place_of, store};
use rows::vector::NO_CELL;
use sheet::{BAR_UNITS, NONTERMINALS_MOST, PARTS_MOST, Units};
use sizes::LENGTHS_MOST;

// The cells of a length's pairs: two for each nonterminal.
const BEST_CELLS: usize = 2 * NONTERMINALS_MOST;

// The cells of the pairs of all lengths.
const PAIRS_CELLS: usize = BEST_CELLS * LENGTHS_MOST;

// Whether no onset beside that at place `from` lies between `left` and `right`; `first` is the place of the bar's first.
fn lone(units: &PackedUnits, first: usize, from: usize, left: Units, right: Units) -> bool
    requires { (first ≤ from) × (from < 512) }
    ensures { LoneBy units.now first from left.0 right.0 result }
{
    right.0 <= units[from + 1] && (from == first || units[from - 1] < left.0)
}

// The pair of cells at a place.
fn pair_at(cells: &[u64], at: usize) -> Pair
    requires { at + 1 < length cells.now }
    ensures { result ≡ pair_at cells.now at }
{
    Pair {
        zero: cells[at],
        one: cells[at + 1],
    }
}

// Stores a pair of cells at a place.
fn put_pair(cells: &mut [u64], at: usize, x: Pair)
    requires { at + 1 < length cells.old }
    ensures { cells.new ≡ put_pair cells.old at x }
{
    cells[at] = x.zero;
    cells[at + 1] = x.one;
}

// Lowers the pair of cells at a place where x is less.
fn lower(cells: &mut [u64], at: usize, x: Pair)
    requires { at + 1 < length cells.old }
    ensures { cells.new ≡ put_pair cells.old at (lesser_pair (pair_at cells.old at) x) }
{
    let y = pair_at(&cells[..], at);
    let zero = y.zero.min(x.zero);
    let one = y.one.min(x.one);
    put_pair(cells, at, Pair { zero, one });
}

// Cells 0 and 1 of the leaves of the first `used` nonterminals, where the only onset is d behind the left bound.
fn fill_leaves(plan: &Plan, best: &mut [u64], used: usize, len: Units, d: Units)
    requires { (used ≤ 16) × (length best.old ≡ 32) × (d.0 ≤ len.0) × (len.0 ≤ last_unit) × ((s : Sheet) × Prepared s plan.now) }
    ensures { LeavesTo plan.now best.new len.0 d.0 used }
{
    for q in 0..used {
        let y = leaf_one(plan, q, len, d);
        put_pair(best, 2 * q, y);
    }
}

// What rule r comes to, where its part j, of the length with index h, has the onset.
fn rule_pair(plan: &Plan, pairs: &[u64], r: usize, h: usize, j: usize) -> Pair
    requires { (s : Sheet) × RuleEntry s plan.now pairs.now r h j }
    ensures { (s : Sheet) (e : RuleEntry s plan.now pairs.now r h j)
        → Comes s e.rule.head e.known.l e.known.left r result }
{
    let q = child(plan, r, j);
    let y = pair_at(pairs, BEST_CELLS * h + 2 * q);
    by_way(plan, r, j, y)
}

// Lowers the cells by the rules of k parts, where part j, of the length with index h, has the onset.
fn fill_arity(
    plan: &Plan,
    order: &Order,
    pairs: &[u64],
    best: &mut [u64],
    k: usize,
    h: usize,
    j: usize,
)
    requires { (s : Sheet) × ArityEntry s plan.now order.now pairs.now best.old k h j }
    ensures { (s : Sheet) (e : ArityEntry s plan.now order.now pairs.now best.old k h j)
        → Best s order.now best.new e.known.l e.known.left (k + 1) }
{
    for n in first_of(order, k)..first_of(order, k + 1) {
        let x = named_at(order, n);
        let y = rule_pair(plan, pairs, x.rule, h, j);
        lower(best, 2 * x.head, y);
    }
}

// Lowers the cells of the leaves of an interval, of the length with index l, by all rules; the only onset is d behind its left bound.
fn fill_length(plan: &Plan, order: &Order, pairs: &[u64], best: &mut [u64], l: usize, d: Units)
    requires { (s : Sheet) × LengthEntry s plan.now order.now pairs.now best.old l d.0 }
    ensures { (s : Sheet) (e : LengthEntry s plan.now order.now pairs.now best.old l d.0)
        → Solved s order.now best.new l e.left }
{
    for k in 2..PARTS_MOST + 1 {
        if let Some(split) = split_by(plan, l, k) {
            let len = plan::length(plan, split.part);
            let j = (d.0 / len.0) as usize;
            fill_arity(plan, order, pairs, best, k, split.part, j);
        }
    }
}

// Stores the cells of an interval: beside those of shorter ones, and in the table.
fn keep(
    plan: &Plan,
    order: &Order,
    rows: &mut [u64],
    pairs: &mut [u64],
    best: &[u64],
    bar: Bar,
    l: usize,
    from: usize,
)
    requires { (s : Sheet) × KeepEntry s plan.now order.now rows.old pairs.old best.now bar l from }
    ensures { (s : Sheet)
        → KeepEntry s plan.now order.now rows.old pairs.old best.now bar l from
        → KeptTo s rows.new pairs.old pairs.new best.now l (used_in order.now) }
{
    for q in 0..used_in(order) {
        let y = pair_at(best, 2 * q);
        let at = place_of(plan, bar, q, l, from, 0);
        put_pair(pairs, BEST_CELLS * l + 2 * q, y);
        store(
            rows,
            at,
            [y.zero, y.one, NO_CELL, NO_CELL],
            (bar.number as u64) + 1,
        );
    }
}

// Stores the rows of the interval of the length with index l around the onset at place `from`, where it is the only one inside.
fn fill_at(
    plan: &Plan,
    units: &PackedUnits,
    order: &Order,
    rows: &mut [u64],
    pairs: &mut [u64],
    best: &mut [u64],
    bar: Bar,
    from: usize,
    l: usize,
)
    requires { (s : Sheet) × AtEntry s plan.now units.now order.now rows.old pairs.old best.old bar from l }
    ensures { (s : Sheet)
        → AtEntry s plan.now units.now order.now rows.old pairs.old
        best.old bar from l
        → FilledAt s order.now rows.new pairs.new best.new bar from l }
{
    let len = plan::length(plan, l);
    let unit = units[from];
    let d = (unit - BAR_UNITS * (bar.number as u32)) % len.0;
    let left = unit - d;
    let right = left + len.0;
    if lone(units, bar.first, from, Units(left), Units(right)) {
        fill_leaves(plan, best, used_in(order), len, Units(d));
        fill_length(plan, order, &pairs[..], best, l, Units(d));
        keep(plan, order, rows, pairs, &best[..], bar, l, from);
    }
}

// Stores the rows of the intervals in which the onset at place `from` is the only one; none for the first of the piece, since a part before
// it is a rest.
fn fill_onset(
    plan: &Plan,
    units: &PackedUnits,
    order: &Order,
    rows: &mut [u64],
    pairs: &mut [u64],
    bar: Bar,
    from: usize,
)
    requires { (s : Sheet) × OnsetEntry s plan.now units.now order.now rows.old pairs.old bar from }
    ensures { (s : Sheet)
        → OnsetEntry s plan.now units.now order.now rows.old pairs.old bar from
        → OnsetFilled s rows.new pairs.new }
{
    if from == 0 {
        return;
    }
    let mut best = [0; BEST_CELLS];
    for l in (0..length_count(plan)).rev() {
        fill_at(plan, units, order, rows, pairs, &mut best, bar, from, l);
    }
}

// Stores the rows of all intervals of a bar that have one onset, not the first of the piece, from carry state 0, where that is worth it.
pub fn fill_bar(plan: &Plan, units: &PackedUnits, order: &Option<Order>, rows: &mut [u64], bar: Bar)
    requires { (s : Sheet) × FillEntry s plan.now units.now order.now rows.old bar }
    ensures { (s : Sheet) → FillEntry s plan.now units.now order.now rows.old bar
        → Sound s rows.new }
{
    let Some(order) = order else {
        return;
    };
    let end = BAR_UNITS * (bar.number as u32) + BAR_UNITS;
    let mut pairs = [0; PAIRS_CELLS];
    for i in bar.first..first_behind(units, bar.first, Units(end)) {
        fill_onset(plan, units, order, rows, &mut pairs, bar, i);
    }
}
