// The ways of a division: what the rule and the parts beside one part cost, where only that part has an onset. All parts are summed up once
// as leaves of nothing, and each way is that sum but for a part or two.
ghost use Rattle.std.specs.Prelude.{◌≡◌, ◌+◌, ◌*◌, ◌<◌, ◌≤◌, min, length};
ghost use Rattle.groups.specs.Sums.{sum_to};
ghost use Rattle.trees.specs.LeastTotal.{NONE};
ghost use Rattle.plan.specs.Layout.{plan_cells};
ghost use Rattle.plan.specs.Sections.{Small, Wide, placed_in, rest_in, WaysPut, PartWays, DivisionWays, WaysLaid};

use crate::layout::{KINDS, LEAF_CELLS, WAYS, WAYS_AT};
use expansions::{PackedRules, rule_at, token_of};
use sheet::{Children, NONTERMINALS_MOST, PARTS_MOST, Rule};

// What stands for "no tree", above every total.
pub const NONE: u64 = 1125899906842624;

// The packed cell that no rule comes to: 64 × it.
pub const NO_CELL: u64 = 72057594037927936;

// The packed cell of the leaf rules of nonterminal q with each n, at KINDS × q + n.
pub type Leaves = [u64; LEAF_CELLS];

// The least cost of a leaf of nonterminal q with an onset before it, n placed in it, or the cap; 0 where q is no nonterminal.
fn placed_cost(leaves: &Leaves, q: usize, n: usize) -> u64
    requires { (n < 4) × Wide leaves.now }
    ensures { (result < 288230376151711744) × (result ≡ placed_in leaves.now q n) }
{
    if NONTERMINALS_MOST <= q {
        return 0;
    }
    let kind = token_of(n, 1) as usize;
    leaves[KINDS * q + kind] / 64
}

// What the k parts of rule r cost as leaves of nothing.
fn rest_sum(children: &Children, leaves: &Leaves, r: usize, k: usize) -> u64
    requires { (r < 64) × (k ≤ 8) × Small children.now × Wide leaves.now }
    ensures { (result ≤ 2305843009213693952) × (result ≡ sum_to (rest_in children.now leaves.now r) k) }
{
    let mut sum: u64 = 0;
    for i in 0..k {
        let q = children[PARTS_MOST * r + i] as usize;
        sum += placed_cost(leaves, q, 0);
    }
    sum
}

// A cost of rule r, or the cap, with the rule.
fn packed_cost(x: u64, r: usize) -> u64
    requires { r < 64 }
    ensures { result ≡ 64 * min NONE x + r }
{
    64 * x.min(NONE) + (r as u64)
}

// Stores the three ways of part j of rule r.
fn put_ways(plan: &mut [u64], r: usize, j: usize, straight: u64, crossed: u64, onward: u64)
    requires { (length plan.old ≡ plan_cells) × (r < 64) × (j < 8) }
    ensures { WaysPut plan.old plan.new r j straight crossed onward }
{
    let at = WAYS_AT + WAYS * (PARTS_MOST * r + j);
    plan[at] = straight;
    plan[at + 1] = crossed;
    plan[at + 2] = onward;
}

// Lays the ways of part j of rule r, of k parts, where the rule and the other parts cost x. Only the last part's onset can be carried out
// of the whole; another's is carried into the part behind it.
fn lay_part(
    plan: &mut [u64],
    children: &Children,
    leaves: &Leaves,
    x: u64,
    r: usize,
    k: usize,
    j: usize,
)
    requires { (length plan.old ≡ plan_cells) × (r < 64) × (k ≤ 8) × (j < k) × (x ≤ 4611686018427387904) × Small children.now
        × Wide leaves.now × (j + 1 < k → rest_in children.now leaves.now r (j + 1) ≤ x) }
    ensures { PartWays children.now leaves.now x r k j plan.old plan.new }
{
    let straight = packed_cost(x, r);
    if j + 1 < k {
        let q = children[PARTS_MOST * r + (j + 1)] as usize;
        let none = placed_cost(leaves, q, 0);
        let one = placed_cost(leaves, q, 1);
        let crossed = packed_cost(x - none + one, r);
        put_ways(plan, r, j, straight, crossed, NO_CELL);
        return;
    }
    put_ways(plan, r, j, straight, NO_CELL, straight);
}

// Lays the ways of rule r, a division into k parts.
fn lay_division(
    plan: &mut [u64],
    children: &Children,
    leaves: &Leaves,
    cost: u64,
    r: usize,
    k: usize,
)
    requires { (length plan.old ≡ plan_cells) × (cost ≤ 4294836225) × (r < 64) × (k ≤ 8) × Small children.now × Wide leaves.now }
    ensures { DivisionWays children.now leaves.now cost r k plan.old plan.new k }
{
    let all = cost + rest_sum(children, leaves, r, k);
    for j in 0..k {
        let q = children[PARTS_MOST * r + j] as usize;
        let own = placed_cost(leaves, q, 0);
        lay_part(plan, children, leaves, all - own, r, k, j);
    }
}

// Lays the ways of the first n rules: those of the divisions among them.
pub fn lay_ways(
    plan: &mut [u64],
    rules: &PackedRules,
    children: &Children,
    leaves: &Leaves,
    a: u16,
    n: usize,
)
    requires { (length plan.old ≡ plan_cells) × (n ≤ 64) × Small children.now × Wide leaves.now }
    ensures { WaysLaid rules.now children.now leaves.now a plan.old plan.new n }
{
    for r in 0..n {
        if let Rule::Division { weight, arity, .. } = rule_at(rules, r)
            && arity as usize <= PARTS_MOST
        {
            let cost = (a as u64) * (weight as u64);
            lay_division(plan, children, leaves, cost, r, arity as usize);
        }
    }
}
