// The least leaves of a grammar, and what carried onsets save at them.
ghost use Rattle.std.specs.Prelude.{◌≡◌, ◌-◌, ◌<◌, ◌≤◌, max};
ghost use Rattle.sheet.specs.Sheet.{Sheet};
ghost use Rattle.sheet.specs.Good.{GoodRules};
ghost use Rattle.sizes.specs.Sizes.{largest};
ghost use Rattle.expansions.specs.Tables.{RulesHeld};
ghost use Rattle.plan.specs.Plan.{rule_count, saved_at};
ghost use Rattle.plan.specs.Sections.{PackedLeaves, MostSaved};

use crate::layout::{KINDS, LEAF_CELLS, PLACED_COUNTS};
use crate::ways::{Leaves, NO_CELL};
use expansions::{PackedRules, rule_at, token_of};
use sheet::Rule;

// The packed cell of the leaf rules of nonterminal q with each n, at KINDS × q + n: 64 × the least cost, or the cap, and the first rule
// that has it.
pub fn least_leaves(rules: &PackedRules, a: u16, count: usize) -> Leaves
    requires { count ≤ 64 }
    ensures { (s : Sheet) → RulesHeld s rules.now → a ≡ s.grammar.multiplier → count ≡ rule_count s → PackedLeaves s result }
{
    let mut leaves = [NO_CELL; LEAF_CELLS];
    for r in 0..count {
        if let Rule::Leaf { head, weight, n } = rule_at(rules, r) {
            let at = KINDS * (head as usize) + (n as usize);
            let cell = 64 * ((a as u64) * (weight as u64)) + (r as u64);
            if at < LEAF_CELLS && cell < leaves[at] {
                leaves[at] = cell;
            }
        }
    }
    leaves
}

// The most that a leaf of nonterminal q with an onset before it is cheaper with c onsets carried in than with none.
fn saved_at(leaves: &Leaves, q: usize, c: usize) -> u64
    requires { (q < 16) × (c < 4) }
    ensures { (s : Sheet) → GoodRules s.grammar → PackedLeaves s leaves.now → result ≡ largest (saved_at s q c) 4 }
{
    let mut most: u64 = 0;
    for e in 0..PLACED_COUNTS {
        let none = token_of(e, 1) as usize;
        let some = token_of(c + e, 1) as usize;
        let saved = (leaves[KINDS * q + none] / 64).saturating_sub(leaves[KINDS * q + some] / 64);
        most = most.max(saved);
    }
    most
}

// The most of it, over the nonterminals below `heads`.
pub fn saved_by(leaves: &Leaves, heads: usize, c: usize) -> u64
    requires { (heads ≤ 16) × (c < 4) }
    ensures { MostSaved leaves.now heads c result }
{
    let mut most: u64 = 0;
    for q in 0..heads {
        most = most.max(saved_at(leaves, q, c));
    }
    most
}
