// One rule at one item of a sheet, computed: what a leaf places and carries on, whether a division is allowed.
#![tactic(auto)]

ghost use Rattle.std.specs.Prelude.{◌≡◌};
ghost use Rattle.sheet.specs.Sheet.{Sheet};
ghost use Rattle.trees.specs.ValidTrees.{token};
ghost use Rattle.expansions.specs.Items.{Here, Entered, PlacedAt, At, item_of, AsLeaf, AsDivision, Expands};

mod packed;

pub use packed::{PackedRules, PackedUnits, UNIT_CELLS, pack_rules, pack_units, rule_at, unpacked};
use sheet::{KIND_MOST, RULES_MOST, Rule, Units};

// An interval, by its left bound, counted from the first bar, and its length.
#[derive(Clone, Copy)]
pub struct Interval {
    pub left: Units,
    pub len: Units,
}

// What a leaf does with the onsets inside its interval: how many are early and how many late, and how far they are from their places.
#[derive(Clone, Copy)]
pub struct Placed {
    pub early: usize,
    pub late: usize,
    pub distance: u64,
}

// What a rule makes of an item that it is allowed at: a leaf, or a division into so many parts.
#[derive(Clone, Copy)]
pub enum Expansion {
    Leaf {
        weight: u64,
        early: usize,
        late: usize,
        distance: u64,
    },
    Division {
        weight: u64,
        arity: u32,
    },
}

// The kind of a leaf with nothing placed and no onset before it.
const REST: u8 = KIND_MOST;

// The token kind of a leaf by its placed count and the number of onsets before its left bound.
pub fn token_of(placed: usize, before: usize) -> u8
    ensures { result ≡ token placed before }
{
    if 3 <= placed {
        return 3;
    }
    if placed != 0 {
        return placed as u8;
    }
    if before == 0 { REST } else { 0 }
}

// What a leaf over an interval does with the onsets inside; `from` is the place of the first onset at or behind its left bound.
pub fn place(units: &PackedUnits, over: Interval, from: usize) -> Placed
    requires { (s : Sheet) × Here s units.now over from }
    ensures { (s : Sheet) → Here s units.now over from → PlacedAt s over result }
{
    let left = over.left.0;
    let len = over.len.0;
    let right = left + len;
    let mut early: usize = 0;
    let mut late: usize = 0;
    let mut distance: u64 = 0;
    let mut i = from;
    // No `for`: the place behind the last onset holds the end of the piece, so no bound is tested; as a `for` it took 3 to 10 % longer.
    while units[i] < right {
        let unit = units[i];
        i += 1;
        if 2 * (unit - left) < len {
            early += 1;
            distance += (unit - left) as u64;
        } else {
            late += 1;
            distance += (right - unit) as u64;
        }
    }
    Placed {
        early,
        late,
        distance,
    }
}

// A leaf of a weight and n over an interval that `carried` onsets are carried into; none where it is not allowed.
fn leaf_at(
    units: &PackedUnits,
    over: Interval,
    from: usize,
    carried: usize,
    weight: u16,
    n: u8,
) -> Option<Expansion>
    requires { (s : Sheet) × Entered s units.now over from carried }
    ensures { (s : Sheet) → Entered s units.now over from carried → AsLeaf s over carried weight n result }
{
    let placed = place(units, over, from);
    if 3 < placed.late || n != token_of(carried + placed.early, from) {
        return None;
    }
    Some(Expansion::Leaf {
        weight: weight as u64,
        early: placed.early,
        late: placed.late,
        distance: placed.distance,
    })
}

// A division of a weight into `arity` parts; none where it is not allowed.
fn division_at(
    units: &PackedUnits,
    over: Interval,
    from: usize,
    weight: u16,
    arity: u8,
) -> Option<Expansion>
    requires { (s : Sheet) × Here s units.now over from }
    ensures { (s : Sheet) → Here s units.now over from → AsDivision s over weight arity result }
{
    let k = arity as u32;
    if k == 0 || over.len.0 % k != 0 || over.left.0 + over.len.0 <= units[from] {
        return None;
    }
    Some(Expansion::Division {
        weight: weight as u64,
        arity: k,
    })
}

// Rule r at the item of a nonterminal over an interval that `carried` onsets are carried into; none where it is not allowed.
pub fn expand(
    rules: &PackedRules,
    units: &PackedUnits,
    r: u8,
    nonterminal: u8,
    over: Interval,
    from: usize,
    carried: usize,
) -> Option<Expansion>
    requires { (s : Sheet) × At s rules.now units.now over from carried }
    ensures { (s : Sheet) → At s rules.now units.now over from carried
        → Expands s (item_of nonterminal over) carried r result }
{
    let i = r as usize;
    if RULES_MOST <= i {
        return None;
    }
    match rule_at(rules, i) {
        Rule::Leaf { head, weight, n } => {
            if head != nonterminal {
                return None;
            }
            leaf_at(units, over, from, carried, weight, n)
        }
        Rule::Division {
            head,
            weight,
            arity,
        } => {
            if head != nonterminal {
                return None;
            }
            division_at(units, over, from, weight, arity)
        }
    }
}
