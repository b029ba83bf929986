// Score lines: the head and a line for each leaf of a valid tree, written as text into a slice.
#![tactic(auto)]

ghost use Rattle.std.specs.Prelude.{◌≡◌, ◌≤◌, length};
ghost use Rattle.sheet.specs.Sheet.{Sheet};
ghost use Rattle.sheet.specs.Accepted.{SheetHeld};
ghost use Rattle.trees.specs.Room.{tree_most};
ghost use Rattle.score.specs.ScoreLaws.{text_size};
ghost use Rattle.score.specs.LeafRules.{leaf_one, leaf_rules};
ghost use Rattle.sheet.specs.Refusal.{outcome_of};
ghost use Rattle.score.specs.Writing.{write_sheet, written_of, score_after, Writes};
ghost use Rattle.expansions.specs.Tables.{RulesHeld};
ghost use Rattle.score.specs.Clauses.{TextPre, TextWritten, PricedPre};

mod line;
mod tree;

use expansions::{PackedRules, pack_rules, pack_units, rule_at};
use line::head_line;
use pricing::Priced;
use sheet::{GrammarTable, PlayingTable, RULES_MOST, Refusal, Refused, Rule};
use tree::write_bars;

// 1 for a leaf rule, 0 for any other number.
fn leaf_one(rules: &PackedRules, r: u8) -> usize
    ensures { (result ≤ 1) × ((s : Sheet) → RulesHeld s rules.now → result ≡ leaf_one s r) }
{
    let i = r as usize;
    if RULES_MOST <= i {
        return 0;
    }
    match rule_at(rules, i) {
        Rule::Leaf { .. } => 1,
        Rule::Division { .. } => 0,
    }
}

// How many numbers of a list are leaf rules.
fn count_leaves(rules: &PackedRules, list: &[u8]) -> usize
    ensures { (s : Sheet) → RulesHeld s rules.now → result ≡ leaf_rules s list.now }
{
    let mut leaves: usize = 0;
    for &r in list {
        leaves += leaf_one(rules, r);
    }
    leaves
}

// Writes the score lines of a valid tree with its R, D and total; gives the number of bytes.
fn write_text(
    rules: &PackedRules,
    playing: PlayingTable,
    list: &[u8],
    weight: u64,
    distance: u64,
    total: u64,
    score: &mut [u8],
) -> usize
    requires { (s : Sheet) × TextPre s rules.now playing list.now weight distance total score.old }
    ensures { (s : Sheet)
        → TextPre s rules.now playing list.now weight distance total score.old
        → TextWritten s list.now weight distance total result score.old score.new }
{
    let units = pack_units(playing);
    let bars = playing.bars;
    let head = head_line(bars, total, weight, distance);
    let to = hextext::write_line(&head, score, 0);
    write_bars(rules, &units, &playing.pitches, list, bars, to, score)
}

// The length of a tree's score lines, by the numbers of its leaves and of the sheet's onsets.
fn text_size(leaves: usize, onsets: usize) -> usize
    requires { (leaves ≤ tree_most) × (onsets ≤ 512) }
    ensures { result ≡ text_size leaves onsets }
{
    53 + 19 * leaves + 2 * onsets
}

// Writes the score lines of a list against a sheet as it was read, where the list's price is at hand, and gives the number of bytes: the
// refusal that the price tells, 13 where the slice is short.
pub fn write_priced(
    grammar: GrammarTable,
    playing: PlayingTable,
    list: &[u8],
    price: Result<Priced, Refused>,
    score: &mut [u8],
) -> Result<usize, Refused>
    requires { (s : Sheet) × PricedPre s grammar playing list.now price }
    ensures { (s : Sheet) → PricedPre s grammar playing list.now price
        → (outcome_of result ≡ written_of (write_sheet s list.now (length score.old)))
        × (score.new ≡ score_after (write_sheet s list.now (length score.old)) score.old) }
{
    let figures = price?;
    let rules = pack_rules(grammar);
    let leaves = count_leaves(&rules, list);
    if score.len() < text_size(leaves, playing.count) {
        return Err(Refusal::ScoreShort.at(0));
    }
    let weight = figures.weight;
    let distance = figures.distance;
    let bytes = write_text(
        &rules,
        playing,
        list,
        weight,
        distance,
        figures.total,
        score,
    );
    Ok(bytes)
}

// Writes the score lines of a list against a sheet as it was read: 12 where the list is no valid tree, 13 where the slice is short.
pub fn write_sheet(
    grammar: GrammarTable,
    playing: PlayingTable,
    list: &[u8],
    score: &mut [u8],
) -> Result<usize, Refused>
    requires { (s : Sheet) × SheetHeld s grammar playing }
    ensures { (s : Sheet) → SheetHeld s grammar playing
        → (outcome_of result ≡ written_of (write_sheet s list.now (length score.old)))
        × (score.new ≡ score_after (write_sheet s list.now (length score.old)) score.old) }
{
    let price = pricing::price_sheet(grammar, playing, list);
    write_priced(grammar, playing, list, price, score)
}

// Writes the score lines of a list against the sheet that a text means, and gives the number of bytes.
pub fn write(text: &[u8], list: &[u8], score: &mut [u8]) -> Result<usize, Refused>
    ensures { Writes text.now list.now score.old score.new result }
{
    let r = reading::read(text)?;
    write_sheet(r.grammar, r.playing, list, score)
}
