// Preparing the plan, once a sheet: first the tables, then section after section from them.
ghost use Rattle.std.specs.Prelude.{◌≡◌, ◌≤◌, length};
ghost use Rattle.sheet.specs.Sheet.{Grammar, Sheet};
ghost use Rattle.sheet.specs.Good.{GoodRules};
ghost use Rattle.sheet.specs.Held.{grammar_table};
ghost use Rattle.sizes.specs.Sizes.{lengths_of};
ghost use Rattle.sizes.specs.Held.{length_table};
ghost use Rattle.plan.specs.Layout.{plan_cells};
ghost use Rattle.plan.specs.Plan.{Prepared};
ghost use Rattle.plan.specs.Sections.{Small, Wide, Falling, Sections};

use crate::Plan;
use crate::heads::by_head;
use crate::lay::{lay_groups, lay_numbers, lay_tables};
use crate::leaves::least_leaves;
use crate::parts::lay_parts;
use crate::ways::{Leaves, lay_ways};
use expansions::{PackedRules, pack_rules};
use groups::{Firsts, Numbers};
use sheet::{Children, GrammarTable};
use sizes::{LengthCells, LengthTable};

// Lays all sections, one behind the other.
fn lay_sections(
    plan: &mut [u64],
    rules: &PackedRules,
    children: &Children,
    leaves: &Leaves,
    lens: &LengthCells,
    order: &Numbers,
    first: &Firsts,
    a: u16,
    heads: usize,
    count: usize,
    n: usize,
)
    requires { (length plan.old ≡ plan_cells) × Small children.now × Wide leaves.now × Small lens.now × Falling lens.now count
        × (heads ≤ 16) × (count ≤ 84) × (n ≤ 64) }
    ensures { Sections rules.now children.now leaves.now lens.now order.now
        first.now a heads count n plan.new }
{
    lay_tables(plan, rules, children, leaves, lens);
    lay_parts(plan, lens, count);
    lay_groups(plan, order, first);
    lay_numbers(plan, leaves, a, heads, count);
    lay_ways(plan, rules, children, leaves, a, n);
}

// Lays the plan of a grammar, whose lengths are known, into the array that is lent, whatever it holds: given back by value, it would be
// copied.
pub fn prepare(plan: &mut Plan, grammar: GrammarTable, reached: LengthTable)
    requires { (h : Grammar) × GoodRules h × (grammar ≡ grammar_table h) × (reached ≡ length_table (lengths_of h.rules)) }
    ensures { (s : Sheet) → GoodRules s.grammar → grammar ≡ grammar_table s.grammar
        → reached ≡ length_table (lengths_of s.grammar.rules) → Prepared s plan.new }
{
    let rules = pack_rules(grammar);
    let leaves = least_leaves(&rules, grammar.multiplier, grammar.count);
    let groups = by_head(&rules, grammar.count);
    lay_sections(
        plan,
        &rules,
        &grammar.children,
        &leaves,
        &reached.cells,
        &groups.order,
        &groups.first,
        grammar.multiplier,
        grammar.nonterminals as usize,
        reached.count,
        grammar.count,
    );
}
