// Writing the lines of a tree's leaves: the rules of the tree stand in a list, each before its parts.
ghost use Rattle.std.specs.Prelude.{◌≡◌, List, ℕ};
ghost use Rattle.sheet.specs.Sheet.{Sheet};
ghost use Rattle.derivations.specs.Derivation.{Item};
ghost use Rattle.score.specs.Clauses.{LeafPre, LeafWritten, TreePre, TreeWritten, BarsPre, BarsWritten};

use crate::line::{LEAF_LINE_MOST, leaf_line};
use expansions::{Interval, PackedRules, PackedUnits, place, rule_at};
use sheet::{BAR_UNITS, Pitches, Rule, Units};

// Where writing stands: the place of the next rule in the list, the first onset at or behind the left bound, how many onsets before it are
// carried in, and the place in the score.
#[derive(Clone, Copy)]
pub struct Place {
    pub at: usize,
    pub from: usize,
    pub carried: usize,
    pub to: usize,
}

// Writes the line of a leaf whose rule stands before place p.
fn write_leaf(
    units: &PackedUnits,
    pitches: &Pitches,
    over: Interval,
    n: u8,
    p: Place,
    score: &mut [u8],
) -> Place
    requires { (s : Sheet) × LeafPre s units.now pitches.now over n p score.old }
    ensures { (s : Sheet) → LeafPre s units.now pitches.now over n p score.old
        → LeafWritten s over n p result score.old score.new }
{
    let placed = place(units, over, p.from);
    let early = placed.early;
    let late = placed.late;
    let mut line = [0u8; LEAF_LINE_MOST];
    let count = leaf_line(
        &mut line,
        pitches,
        over,
        n,
        p.from - p.carried,
        p.carried + early,
    );
    let to = hextext::write_line(&line[..count], score, p.to);
    Place {
        at: p.at,
        from: p.from + early + late,
        carried: late,
        to,
    }
}

// Writes the lines of the leaves of the tree over an interval; its rules stand in the list from place p on.
fn write_tree(
    rules: &PackedRules,
    units: &PackedUnits,
    pitches: &Pitches,
    list: &[u8],
    over: Interval,
    p: Place,
    score: &mut [u8],
) -> Place
    requires { (s : Sheet) × (q : ℕ) × (rest : List Item)
        × TreePre s q rest rules.now units.now pitches.now list.now over p score.old }
    ensures { (s : Sheet) (q : ℕ) (rest : List Item)
        → TreePre s q rest rules.now units.now pitches.now list.now over p
        score.old
        → TreeWritten s q rest list.now over p result score.old score.new }
{
    let at = p.at;
    let rule = rule_at(rules, list[at] as usize);
    let mut next = Place {
        at: at + 1,
        from: p.from,
        carried: p.carried,
        to: p.to,
    };
    match rule {
        Rule::Leaf { n, .. } => write_leaf(units, pitches, over, n, next, score),
        Rule::Division { arity, .. } => {
            let k = arity as u32;
            let len = over.len.0 / k;
            for j in 0..k {
                let part = Interval {
                    left: Units(over.left.0 + j * len),
                    len: Units(len),
                };
                next = write_tree(rules, units, pitches, list, part, next, score);
            }
            next
        }
    }
}

// Writes the lines of the leaves of all bars, from place `to` of the score on; gives the place behind them.
pub fn write_bars(
    rules: &PackedRules,
    units: &PackedUnits,
    pitches: &Pitches,
    list: &[u8],
    bars: u8,
    to: usize,
    score: &mut [u8],
) -> usize
    requires { (s : Sheet) × BarsPre s rules.now units.now pitches.now list.now bars to score.old }
    ensures { (s : Sheet)
        → BarsPre s rules.now units.now pitches.now list.now bars to score.old
        → BarsWritten s list.now to result score.old score.new }
{
    let mut next = Place {
        at: 0,
        from: 0,
        carried: 0,
        to,
    };
    for b in 0..bars as u32 {
        let bar = Interval {
            left: Units(BAR_UNITS * b),
            len: Units(BAR_UNITS),
        };
        next = write_tree(rules, units, pitches, list, bar, next, score);
    }
    next.to
}
