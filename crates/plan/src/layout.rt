// Where each section of the plan begins, one behind the other. `specs/Layout` has the same names for the sections.
use groups::FIRST_CELLS;
use sheet::{CHILD_CELLS, KIND_MOST, NONTERMINALS_MOST, PARTS_MOST, RULES_MOST};
use sizes::LENGTHS_MOST;

// The placed counts that token kinds tell apart: the last stands for more as well.
pub const PLACED_COUNTS: usize = KIND_MOST as usize;

// The token kinds that a nonterminal's leaf rules may have: one of each placed count, and the rest.
pub const KINDS: usize = PLACED_COUNTS + 1;

// The cells of the least leaves: one of each nonterminal and kind.
pub const LEAF_CELLS: usize = KINDS * NONTERMINALS_MOST;

// The cells of a length's parts, by arity.
pub const PART_CELLS: usize = PARTS_MOST + 1;

// The carry states.
pub const CARRIES: usize = 4;

// The ways of a part, and of a rule's parts.
pub const WAYS: usize = 3;

pub const RULE_WAYS: usize = WAYS * PARTS_MOST;

// The packed rules stand at the front. Behind them the nonterminals of their parts.
pub const CHILDREN_AT: usize = RULES_MOST;

// The packed cells of the leaf rules.
pub const LEAVES_AT: usize = CHILDREN_AT + CHILD_CELLS;

// The lengths.
pub const LENGTHS_AT: usize = LEAVES_AT + LEAF_CELLS;

// The index of each length's part, by arity.
pub const PART_LENGTHS_AT: usize = LENGTHS_AT + LENGTHS_MOST;

// The rules by head, and the first place of each group.
pub const ORDER_AT: usize = PART_LENGTHS_AT + PART_CELLS * LENGTHS_MOST;

pub const FIRST_AT: usize = ORDER_AT + RULES_MOST;

// What each carry state saves.
pub const SAVINGS_AT: usize = FIRST_AT + FIRST_CELLS;

// The multiplier, the number of nonterminals and the number of lengths.
pub const MULTIPLIER_AT: usize = SAVINGS_AT + CARRIES;

pub const NONTERMINALS_AT: usize = MULTIPLIER_AT + 1;

pub const LENGTH_COUNT_AT: usize = NONTERMINALS_AT + 1;

// The ways of each part of each rule.
pub const WAYS_AT: usize = LENGTH_COUNT_AT + 1;

// The cells of the plan.
pub const PLAN_CELLS: usize = WAYS_AT + RULE_WAYS * RULES_MOST;
