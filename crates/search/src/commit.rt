// The bars up to a bar line that nothing is carried over: the suffix costs behind them from the last to the first, and then their trees
// from the first to the last.
ghost use Rattle.std.specs.Prelude.{◌≡◌, true, ℕ};
ghost use Rattle.sheet.specs.Sheet.{Sheet};
ghost use Rattle.plan.specs.Plan.{Prepared};
ghost use Rattle.rows.specs.Vectors.{Low};
ghost use Rattle.search.specs.Clauses.{CutVector};
ghost use Rattle.search.specs.Clauses.{SuffixStepPre, SuffixStep, BackwardPre, VectorsFrom, BarsBuildPre, CommittedAs, CommitPre};

use crate::bars::enter;
use building::build;
use expansions::PackedUnits;
use plan::Plan;
use rows::carry::idle;
use rows::slots::{load, store};
use rows::vector::{NONE, dot, only_at, totals};
use sheet::{BAR_UNITS, Units};
use sizes::ITEM_CELLS;

// Whether every least tree carries nothing over the bar line, where v is the prefix costs there. Before the first onset no carry state but
// 0 is reached, so an onset is taken to lie before.
pub fn is_cut_point(plan: &Plan, v: [u64; 4]) -> bool
    requires { Low v × ((s : Sheet) × Prepared s plan.now) }
    ensures { (s : Sheet) → Prepared s plan.now → result ≡ true → CutVector s v }
{
    v[0] < NONE && idle(plan, v, 1, 1) && idle(plan, v, 2, 1) && idle(plan, v, 3, 1)
}

// The suffix costs from bar b on, of its rows and the suffix costs v behind it.
fn suffix_step(roots: &[u64], b: usize, v: [u64; 4]) -> [u64; 4]
    requires { (s : Sheet) × (e : ℕ) × SuffixStepPre s roots.now e b v }
    ensures { (s : Sheet) (e : ℕ) → SuffixStepPre s roots.now e b v → SuffixStep roots.now b v result }
{
    let at = ITEM_CELLS * b;
    [
        dot(totals(load(roots, at)), v),
        dot(totals(load(roots, at + 4)), v),
        dot(totals(load(roots, at + 8)), v),
        dot(totals(load(roots, at + 12)), v),
    ]
}

// Fills a table with the suffix costs of the bars from bar `from` on that are before bar `end`, and the one behind them: nothing is carried
// on.
fn backward(roots: &[u64], vectors: &mut [u64], from: usize, end: usize)
    requires { (s : Sheet) × BackwardPre s roots.now vectors.old from end }
    ensures { (s : Sheet) → BackwardPre s roots.now vectors.old from end → VectorsFrom s vectors.new end from }
{
    let mut v = only_at(0);
    store(vectors, 4 * end, v, 0);
    for b in (from..end).rev() {
        let w = suffix_step(roots, b, v);
        store(vectors, 4 * b, w, 0);
        v = w;
    }
}

// Writes the first least lists of these bars, one behind the other, from byte `n` on; gives the number of bytes with those before.
fn build_bars(
    plan: &Plan,
    units: &PackedUnits,
    rows: &mut [u64],
    tree: &mut [u8],
    vectors: &[u64],
    roots: &[u64],
    start: usize,
    from: usize,
    end: usize,
    n: usize,
) -> usize
    requires { (s : Sheet) × BarsBuildPre s plan.now units.now rows.old tree.old vectors.now roots.now start from end n }
    ensures { (s : Sheet)
        → BarsBuildPre s plan.now units.now rows.old tree.old vectors.now
        roots.now start from end n → CommittedAs s rows.new tree.new end result }
{
    let slots = rows.len() / 4;
    let mut next = n;
    let mut carry: usize = 0;
    for b in from..end {
        let bar = enter(units, b, slots);
        let y = load(roots, ITEM_CELLS * b + 4 * carry);
        let lo = BAR_UNITS * (b as u32);
        let v = load(vectors, 4 * (b + 1));
        let built = build(
            plan,
            units,
            rows,
            tree,
            bar,
            start,
            0,
            Units(lo),
            bar.first,
            carry,
            y,
            v,
            next,
        );
        next = built.to;
        carry = built.carry;
    }
    next
}

// Builds the bars from bar `from` on that are before bar `end`, where no least tree carries anything into the first of them or on from the
// last: with n bytes before them; gives the number of bytes.
pub fn commit(
    plan: &Plan,
    units: &PackedUnits,
    rows: &mut [u64],
    tree: &mut [u8],
    vectors: &mut [u64],
    roots: &[u64],
    start: usize,
    from: usize,
    end: usize,
    n: usize,
) -> usize
    requires { (s : Sheet) × CommitPre s plan.now units.now rows.old tree.old roots.now vectors.old start from end n }
    ensures { (s : Sheet)
        → CommitPre s plan.now units.now rows.old tree.old roots.now
        vectors.old start from end n → CommittedAs s rows.new tree.new end result }
{
    backward(roots, vectors, from, end);
    build_bars(
        plan,
        units,
        rows,
        tree,
        &vectors[..],
        roots,
        start,
        from,
        end,
        n,
    )
}
