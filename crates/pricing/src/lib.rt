// Pricing an offered list: whether it is a valid tree of a sheet, and its node count, R, D and total.
#![tactic(auto)]

ghost use Rattle.std.specs.Prelude.{◌≡◌, List, ℕ, length};
ghost use Rattle.sheet.specs.Sheet.{Sheet};
ghost use Rattle.sheet.specs.Accepted.{SheetHeld};
ghost use Rattle.sheet.specs.Refusal.{outcome_of};
ghost use Rattle.pricing.specs.Pricing.{price_sheet, priced_of, Prices};
ghost use Rattle.pricing.specs.Clauses.{Room, progress_behind, ItemPre, ItemWalked, ForestPre, ForestWalked, BarsWalked};

use expansions::{Expansion, Interval, PackedRules, PackedUnits, expand, pack_rules, pack_units};
use sheet::{
    BAR_UNITS, BARS_MOST, GrammarTable, PARTS_MOST, PlayingTable, Refusal, Refused, Units,
};
use sizes::ONSET_TREE_BYTES;

// What pricing gives of a valid tree: its node count, R, D and total.
#[derive(Clone, Copy)]
pub struct Priced {
    pub nodes: usize,
    pub weight: u64,
    pub distance: u64,
    pub total: u64,
}

// How far a list is read: the place of its next rule, the first onset at or behind the interval's left bound, how many onsets are carried
// in, and the sums so far.
#[derive(Clone, Copy)]
pub struct Progress {
    pub at: usize,
    pub from: usize,
    pub carried: usize,
    pub weight: u64,
    pub distance: u64,
}

// The progress behind a rule and the onsets that it passes.
fn behind(p: Progress, passed: usize, carried: usize, weight: u64, distance: u64) -> Progress
    requires { Room p passed weight distance }
    ensures { result ≡ progress_behind p passed carried weight distance }
{
    Progress {
        at: p.at + 1,
        from: p.from + passed,
        carried,
        weight: p.weight + weight,
        distance: p.distance + distance,
    }
}

// Reads the tree of a nonterminal over an interval off the list: how far the list is read behind it; none where no tree is there.
#[cycle(read_forest_read_tree)]
fn read_tree(
    rules: &PackedRules,
    children: &[u8],
    units: &PackedUnits,
    list: &[u8],
    nonterminal: u8,
    over: Interval,
    p: Progress,
) -> Option<Progress>
    requires { (s : Sheet) × ItemPre s rules.now children.now units.now list.now over p }
    ensures { (s : Sheet) → ItemPre s rules.now children.now units.now list.now over p
        → ItemWalked s list.now nonterminal over p result }
{
    let at = p.at;
    if list.len() <= at {
        return None;
    }
    let r = list[at];
    let x = expand(rules, units, r, nonterminal, over, p.from, p.carried)?;
    match x {
        Expansion::Leaf {
            weight,
            early,
            late,
            distance,
        } => Some(behind(p, early + late, late, weight, distance)),
        Expansion::Division { weight, arity } => {
            let first = Interval {
                left: Units(over.left.0),
                len: Units(over.len.0 / arity),
            };
            let from = PARTS_MOST * (r as usize);
            let kids = &children[from..from + (arity as usize)];
            let next = behind(p, 0, p.carried, weight, 0);
            read_forest(rules, children, units, list, kids, first, next)
        }
    }
}

// Reads the trees of intervals in a row, each under its own nonterminal, off the list; `first` is the first of the intervals.
#[cycle(read_forest_read_tree)]
fn read_forest(
    rules: &PackedRules,
    children: &[u8],
    units: &PackedUnits,
    list: &[u8],
    kids: &[u8],
    first: Interval,
    p: Progress,
) -> Option<Progress>
    requires { (s : Sheet) × ForestPre s rules.now children.now units.now list.now kids.now first p }
    ensures { (s : Sheet)
        → ForestPre s rules.now children.now units.now list.now kids.now first p
        → ForestWalked s list.now kids.now first p result }
{
    let len = first.len.0;
    let mut left = first.left.0;
    let mut next = p;
    for &kid in kids {
        let part = Interval {
            left: Units(left),
            len: Units(len),
        };
        next = read_tree(rules, children, units, list, kid, part, next)?;
        left += len;
    }
    Some(next)
}

// The price of a list of so many nodes by how far it was read: it is a tree where it was read to its end and nothing is carried out.
fn price_of(read: Option<Progress>, nodes: usize, multiplier: u16) -> Result<Priced, Refused>
    requires { (s : Sheet) × (list : List ℕ) × (BarsWalked s list read × (length list ≡ nodes)) }
    ensures { (s : Sheet) (list : List ℕ) → BarsWalked s list read → length list ≡ nodes → s.grammar.multiplier ≡ multiplier
        → outcome_of result ≡ priced_of (price_sheet s list) }
{
    let Some(p) = read else {
        return Err(Refusal::NotATree.at(0));
    };
    if p.at != nodes || p.carried != 0 {
        return Err(Refusal::NotATree.at(0));
    }
    Ok(Priced {
        nodes,
        weight: p.weight,
        distance: p.distance,
        total: (multiplier as u64) * p.weight + p.distance,
    })
}

// Prices a list against a sheet as it was read. A list longer than any tree of the sheet is not read.
pub fn price_sheet(
    grammar: GrammarTable,
    playing: PlayingTable,
    list: &[u8],
) -> Result<Priced, Refused>
    requires { (s : Sheet) × SheetHeld s grammar playing }
    ensures { (s : Sheet) → SheetHeld s grammar playing → outcome_of result ≡ priced_of (price_sheet s list.now) }
{
    let nodes = list.len();
    let count = playing.bars as usize;
    if count + ONSET_TREE_BYTES * playing.count < nodes {
        return Err(Refusal::NotATree.at(0));
    }
    let rules = pack_rules(grammar);
    let units = pack_units(playing);
    let starts = [grammar.start; BARS_MOST];
    let bar = Interval {
        left: Units(0),
        len: Units(BAR_UNITS),
    };
    let none = Progress {
        at: 0,
        from: 0,
        carried: 0,
        weight: 0,
        distance: 0,
    };
    let read = read_forest(
        &rules,
        &grammar.children,
        &units,
        list,
        &starts[..count],
        bar,
        none,
    );
    price_of(read, nodes, grammar.multiplier)
}

// Prices a list against the sheet that a text means.
pub fn price(text: &[u8], list: &[u8]) -> Result<Priced, Refused>
    ensures { Prices text.now list.now result }
{
    let r = reading::read(text)?;
    price_sheet(r.grammar, r.playing, list)
}
