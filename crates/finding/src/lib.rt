// Finding the first least tree of the sheet that a text means.
#![tactic(auto)]

ghost use Rattle.std.specs.Prelude.{◌≡◌, ℕ, length};
ghost use Rattle.sheet.specs.Sheet.{Sheet};
ghost use Rattle.sheet.specs.Outcome.{accepted};
ghost use Rattle.sheet.specs.Accepted.{SheetHeld};
ghost use Rattle.sizes.specs.Sizes.{lengths_of};
ghost use Rattle.sizes.specs.Held.{length_table};
ghost use Rattle.trees.specs.ValidTrees.{rule_weight, total_of};
ghost use Rattle.pricing.specs.Pricing.{priced, priced_of};
ghost use Rattle.search.specs.Clauses.{SearchPre};
ghost use Rattle.finding.specs.Finding.{find_sheet, Gives, Finds};
ghost use Rattle.finding.specs.Clauses.{WeightPre, FiguresPre};

use expansions::{PackedRules, pack_rules, rule_at};
use pricing::Priced;
use search::{Found, least_tree};
use sheet::{GrammarTable, PlayingTable, Refusal, Refused};
use sizes::LengthTable;

// R of a list: the sum of the weights of its rules.
fn weight_sum(rules: &PackedRules, list: &[u8]) -> u64
    requires { (s : Sheet) × WeightPre s rules.now list.now }
    ensures { (s : Sheet) → WeightPre s rules.now list.now → result ≡ rule_weight s list.now }
{
    let mut sum: u64 = 0;
    for &r in list {
        sum += u64::from(rule_at(rules, r as usize).weight());
    }
    sum
}

// What pricing a valid tree gives, where its total is known: the list need not be read against the onsets.
fn figures(grammar: GrammarTable, list: &[u8], total: u64) -> Priced
    requires { (s : Sheet) × (R : ℕ) × (D : ℕ) × FiguresPre s grammar list.now R D total }
    ensures { (s : Sheet) (R D : ℕ) → FiguresPre s grammar list.now R D total
        → accepted result ≡ priced_of (priced (length list.now) R D (total_of s R D)) }
{
    let rules = pack_rules(grammar);
    let weight = weight_sum(&rules, list);
    Priced {
        nodes: list.len(),
        weight,
        distance: total - (grammar.multiplier as u64) * weight,
        total,
    }
}

// Finds the first least tree with slices of the required lengths: 11 where there is no tree, and else what pricing the tree gives.
fn find_least(
    grammar: GrammarTable,
    playing: PlayingTable,
    reached: LengthTable,
    tree: &mut [u8],
    work: &mut [u64],
) -> Result<Priced, Refused>
    requires { (s : Sheet) × SearchPre s grammar playing tree.old work.old × (reached ≡ length_table (lengths_of s.grammar.rules)) }
    ensures { (s : Sheet) → SearchPre s grammar playing tree.old work.old
        → reached ≡ length_table (lengths_of s.grammar.rules)
        → Gives (find_sheet s (length tree.old) (length work.old)) tree.old tree.new
        work.old work.new result }
{
    match least_tree(grammar, playing, reached, tree, work) {
        None => Err(Refusal::NoTree.at(0)),
        Some(Found { nodes, total }) => Ok(figures(grammar, &tree[..nodes], total)),
    }
}

// Finds the first least tree of a sheet as it was read: 9 where the work slice is short, 10 where the tree slice is, 11 where there is no
// tree.
pub fn find_sheet(
    grammar: GrammarTable,
    playing: PlayingTable,
    tree: &mut [u8],
    work: &mut [u64],
) -> Result<Priced, Refused>
    requires { (s : Sheet) × SheetHeld s grammar playing }
    ensures { (s : Sheet) → SheetHeld s grammar playing
        → Gives (find_sheet s (length tree.old) (length work.old)) tree.old tree.new
        work.old work.new result }
{
    let reached = sizes::lengths(grammar);
    if work.len() < sizes::work_cells_by(grammar, playing, reached.count) {
        return Err(Refusal::WorkShort.at(0));
    }
    if tree.len() < sizes::tree_bytes(playing) {
        return Err(Refusal::TreeShort.at(0));
    }
    find_least(grammar, playing, reached, tree, work)
}

// Finds the first least tree of the sheet that a text means: its bytes go to the front of the tree slice; its node count, R, D and total
// are given. Reading's refusal comes first. The required work cells are 0 after a tree and after 11; every other cell and byte is kept.
pub fn find(text: &[u8], tree: &mut [u8], work: &mut [u64]) -> Result<Priced, Refused>
    ensures { Finds text.now tree.old tree.new work.old work.new result }
{
    let r = reading::read(text)?;
    find_sheet(r.grammar, r.playing, tree, work)
}
