// Laying tables into the plan: each section from its place on, those before it kept.
ghost use Rattle.std.specs.Prelude.{◌+◌, ◌≤◌, ◌≡◌, length, get_or};
ghost use Rattle.plan.specs.Layout.{children_at, lengths_at, plan_cells};
ghost use Rattle.plan.specs.Sections.{Small, Laid, TablesLaid, GroupsLaid, NumbersLaid};

use crate::layout::{
    CARRIES, CHILDREN_AT, FIRST_AT, LEAVES_AT, LENGTH_COUNT_AT, LENGTHS_AT, MULTIPLIER_AT,
    NONTERMINALS_AT, ORDER_AT, SAVINGS_AT,
};
use crate::leaves::saved_by;
use crate::ways::Leaves;
use expansions::PackedRules;
use groups::{Firsts, Numbers};
use sheet::{CHILD_CELLS, Children};
use sizes::{LENGTHS_MOST, LengthCells};

// Lays a table from place `at` on.
pub fn lay_cells(plan: &mut [u64], at: usize, table: &[u64])
    requires { at + length table.now ≤ length plan.old }
    ensures { Laid (λ i. get_or table.now i 0) plan.old plan.new at (length table.now) }
{
    plan[at..at + table.len()].copy_from_slice(table);
}

// Lays the nonterminals of the rules' parts.
fn lay_children(plan: &mut [u64], children: &Children)
    requires { (length plan.old ≡ plan_cells) × Small children.now }
    ensures { Laid (λ i. get_or children.now i 0) plan.old plan.new children_at 512 }
{
    for i in 0..CHILD_CELLS {
        plan[CHILDREN_AT + i] = children[i] as u64;
    }
}

// Lays the lengths.
fn lay_lengths(plan: &mut [u64], lens: &LengthCells)
    requires { (length plan.old ≡ plan_cells) × Small lens.now }
    ensures { Laid (λ i. get_or lens.now i 0) plan.old plan.new lengths_at 84 }
{
    for i in 0..LENGTHS_MOST {
        plan[LENGTHS_AT + i] = lens[i] as u64;
    }
}

// Lays the rules, the nonterminals of their parts, the leaves and the lengths.
pub fn lay_tables(
    plan: &mut [u64],
    rules: &PackedRules,
    children: &Children,
    leaves: &Leaves,
    lens: &LengthCells,
)
    requires { (length plan.old ≡ plan_cells) × Small children.now × Small lens.now }
    ensures { TablesLaid rules.now children.now leaves.now lens.now plan.new }
{
    lay_cells(plan, 0, rules);
    lay_children(plan, children);
    lay_cells(plan, LEAVES_AT, leaves);
    lay_lengths(plan, lens);
}

// Lays the rules by head and the first place of each group.
pub fn lay_groups(plan: &mut [u64], order: &Numbers, first: &Firsts)
    requires { length plan.old ≡ plan_cells }
    ensures { GroupsLaid order.now first.now plan.old plan.new }
{
    lay_cells(plan, ORDER_AT, order);
    lay_cells(plan, FIRST_AT, first);
}

// Lays what each carry state saves, the multiplier, the number of nonterminals and the number of lengths.
pub fn lay_numbers(plan: &mut [u64], leaves: &Leaves, a: u16, heads: usize, count: usize)
    requires { (length plan.old ≡ plan_cells) × (heads ≤ 16) }
    ensures { NumbersLaid leaves.now a heads count plan.old plan.new }
{
    for c in 0..CARRIES {
        plan[SAVINGS_AT + c] = saved_by(leaves, heads, c);
    }
    plan[MULTIPLIER_AT] = a as u64;
    plan[NONTERMINALS_AT] = heads as u64;
    plan[LENGTH_COUNT_AT] = count as u64;
}
