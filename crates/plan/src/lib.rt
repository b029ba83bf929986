// What the search looks up of a grammar, prepared once for a sheet in one flat array that is lent. The array is read through the functions
// below alone.
#![tactic(auto)]

ghost use Rattle.std.specs.Prelude.{◌≡◌, ℕ, ◌*◌, ◌/◌, ◌<◌, ◌≤◌};
ghost use Rattle.sheet.specs.Sheet.{Sheet};
ghost use Rattle.trees.specs.ValidTrees.{weight_at};
ghost use Rattle.plan.specs.Layout.{kinds};
ghost use Rattle.plan.specs.Plan.{child_cell, leaf_cell, length_cell, rule_in, first_cell, last_cell, saved_cell, way_cell};
ghost use Rattle.plan.specs.Plan.{nonterminals_cell, lengths_cell};
ghost use Rattle.plan.specs.Plan.{lengths, Prepared, DivisionAt, ShapeAt, PartsOf, SplitAt, InArities};

mod fill;
mod heads;
mod lay;
mod layout;
mod leaves;
mod parts;
mod ways;

use expansions::unpacked;
pub use fill::prepare;
pub use heads::by_parts;
pub use lay::lay_cells;
pub use layout::PLAN_CELLS;
use layout::{
    CHILDREN_AT, FIRST_AT, KINDS, LEAVES_AT, LENGTH_COUNT_AT, LENGTHS_AT, MULTIPLIER_AT,
    NONTERMINALS_AT, ORDER_AT, PART_CELLS, PART_LENGTHS_AT, SAVINGS_AT, WAYS, WAYS_AT,
};
use sheet::{PARTS_MOST, Rule, Units};
pub use ways::{NO_CELL, NONE};

// What the functions below read.
pub type Plan = [u64; PLAN_CELLS];

// How a rule divides an interval: into `arity` parts of the length with index `part`.
#[derive(Clone, Copy)]
pub struct Split {
    pub arity: usize,
    pub part: usize,
}

// A rule as a division: its head, and the number of its parts.
#[derive(Clone, Copy)]
pub struct Shape {
    pub head: usize,
    pub arity: usize,
}

// The nonterminal of part j of rule r.
pub fn child(plan: &Plan, r: usize, j: usize) -> usize
    requires { (r < 64) × (j < 8) }
    ensures { result ≡ child_cell plan.now r j }
{
    plan[CHILDREN_AT + PARTS_MOST * r + j] as usize
}

// The packed cell of the leaf rules of nonterminal q with this n: 64 × the least cost, or the cap, and the first rule that has it.
pub fn leaf_cell(plan: &Plan, q: usize, n: usize) -> u64
    requires { (q < 16) × (n < kinds) }
    ensures { result ≡ leaf_cell plan.now q n }
{
    plan[LEAVES_AT + KINDS * q + n]
}

// The least cost of a leaf rule of nonterminal q with this n, or the cap.
pub fn least_leaf(plan: &Plan, q: usize, n: usize) -> u64
    requires { (q < 16) × (n < kinds) }
    ensures { result ≡ leaf_cell plan.now q n / 64 }
{
    plan[LEAVES_AT + KINDS * q + n] / 64
}

// Where only part j of rule r has an onset, what the other parts and the rule add, packed: to cell 0 of the part to come to cell 0 of the
// whole (i = 0), to its cell 1 to come to cell 0 (i = 1), and to its cell 1 to come to cell 1 (i = 2).
pub fn way(plan: &Plan, r: usize, j: usize, i: usize) -> u64
    requires { (r < 64) × (j < 8) × (i < 3) }
    ensures { result ≡ way_cell plan.now r j i }
{
    plan[WAYS_AT + WAYS * (PARTS_MOST * r + j) + i]
}

// The first place of the divisions of nonterminal q.
pub fn first_division(plan: &Plan, q: usize) -> usize
    requires { q < 16 }
    ensures { result ≡ first_cell plan.now q }
{
    plan[FIRST_AT + 2 * q] as usize
}

// The place behind the last of them, where the leaves of nonterminal q begin.
pub fn last_division(plan: &Plan, q: usize) -> usize
    requires { q < 16 }
    ensures { result ≡ last_cell plan.now q }
{
    plan[FIRST_AT + (2 * q + 1)] as usize
}

// The rule at a place.
pub fn rule_at_place(plan: &Plan, i: usize) -> usize
    requires { i < 64 }
    ensures { result ≡ rule_in plan.now i }
{
    (plan[ORDER_AT + i] % 64) as usize
}

// The most that a leaf is cheaper with c onsets carried in than with none.
pub fn saved(plan: &Plan, c: usize) -> u64
    requires { c < 4 }
    ensures { result ≡ saved_cell plan.now c }
{
    plan[SAVINGS_AT + c]
}

// The number of nonterminals.
pub fn nonterminals(plan: &Plan) -> usize
    ensures { result ≡ nonterminals_cell plan.now }
{
    plan[NONTERMINALS_AT] as usize
}

// The number of lengths.
pub fn length_count(plan: &Plan) -> usize
    ensures { result ≡ lengths_cell plan.now }
{
    plan[LENGTH_COUNT_AT] as usize
}

// The length with index l.
pub fn length(plan: &Plan, l: usize) -> Units
    requires { (l < 84) × ((s : Sheet) × Prepared s plan.now) }
    ensures { result.0 ≡ length_cell plan.now l }
{
    Units(plan[LENGTHS_AT + l] as u32)
}

// The multiplier times the weight of rule r; 0 where there is no rule.
pub fn cost(plan: &Plan, r: usize) -> u64
    requires { (r < 64) × ((s : Sheet) × Prepared s plan.now) }
    ensures { (result ≤ 4294836225) × ((s : Sheet) → Prepared s plan.now → result ≡ s.grammar.multiplier * weight_at s r) }
{
    plan[MULTIPLIER_AT] * u64::from(unpacked(plan[r]).weight())
}

// What rule r is as a division: its head and its number of parts. None where it is no division; a cell past the rules is one of no parts.
pub fn shape_at(plan: &Plan, r: usize) -> Option<Shape>
    requires { r < 64 }
    ensures { (s : Sheet) → Prepared s plan.now → ShapeAt s r result }
{
    match unpacked(plan[r]) {
        Rule::Division { head, arity, .. } => {
            if arity == 0 {
                return None;
            }
            Some(Shape {
                head: head as usize,
                arity: arity as usize,
            })
        }
        Rule::Leaf { .. } => None,
    }
}

// The length with index l in k parts. None where k is no arity or there is no such length.
pub fn split_by(plan: &Plan, l: usize, k: usize) -> Option<Split>
    requires { l < 84 }
    ensures { InArities result × ((s : Sheet) → Prepared s plan.now → l < lengths s → PartsOf s l k result) }
{
    if k < 2 || PARTS_MOST < k {
        return None;
    }
    let part = plan[PART_LENGTHS_AT + PART_CELLS * l + k];
    if plan[LENGTH_COUNT_AT] <= part {
        return None;
    }
    Some(Split {
        arity: k,
        part: part as usize,
    })
}

// How rule r divides an interval of nonterminal q and the length with index l. None where it does not.
pub fn split_at(plan: &Plan, q: usize, l: usize, r: usize) -> Option<Split>
    requires { (r < 64) × (l < 84) }
    ensures { InArities result
        × ((s : Sheet) → Prepared s plan.now → l < lengths s → SplitAt s q l r result) }
{
    match unpacked(plan[r]) {
        Rule::Division { head, arity, .. } => {
            if head as usize != q {
                return None;
            }
            split_by(plan, l, arity as usize)
        }
        Rule::Leaf { .. } => None,
    }
}

// How the rule at place i, a division, divides an interval of the length with index l. None where it does not.
pub fn split_at_place(plan: &Plan, l: usize, i: usize) -> Option<Split>
    requires { (i < 64) × (l < 84) }
    ensures { InArities result
        × ((s : Sheet) (q : ℕ) → Prepared s plan.now → DivisionAt plan.now q i → l < lengths s
        → SplitAt s q l (rule_in plan.now i) result) }
{
    split_by(plan, l, (plan[ORDER_AT + i] / 64) as usize)
}
