// The tables that an expansion reads, lent as arrays of numbers: rules packed one a cell, and units as plain numbers.
ghost use Rattle.std.specs.Prelude.{◌≡◌, ◌<◌, ◌≤◌, get_or};
ghost use Rattle.sheet.specs.Sheet.{Grammar, Playing};
ghost use Rattle.sheet.specs.Good.{GoodOnsets};
ghost use Rattle.sheet.specs.Held.{grammar_table, playing_table};
ghost use Rattle.expansions.specs.Tables.{unpacked_of, PackedRules, unit_cells};

use sheet::{GrammarTable, ONSETS_MOST, PIECE_UNITS, PlayingTable, RULES_MOST, Rule};

// A grammar's rules, one a cell.
pub type PackedRules = [u64; RULES_MOST];

// The cells of the units: one an onset, and one more, so that there is always one behind them.
pub const UNIT_CELLS: usize = ONSETS_MOST + 1;

// The units of a playing's onsets as plain numbers.
pub type PackedUnits = [u32; UNIT_CELLS];

// A rule as one number: 1 for a leaf or 0 for a division, then head, weight, and n or the arity.
fn packed(rule: Rule) -> u64
    ensures { unpacked_of result ≡ rule }
{
    match rule {
        Rule::Division {
            head,
            weight,
            arity,
        } => 2 * (head as u64) + 512 * (weight as u64) + 33554432 * (arity as u64),
        Rule::Leaf { head, weight, n } => {
            1 + 2 * (head as u64) + 512 * (weight as u64) + 33554432 * (n as u64)
        }
    }
}

// The rule that a number stands for.
pub fn unpacked(cell: u64) -> Rule
    ensures { result ≡ unpacked_of cell }
{
    let head = (cell / 2 % 256) as u8;
    let weight = (cell / 512 % 65536) as u16;
    let n = (cell / 33554432 % 256) as u8;
    if cell % 2 == 1 {
        return Rule::Leaf { head, weight, n };
    }
    Rule::Division {
        head,
        weight,
        arity: n,
    }
}

// The rule at a place of the packed rules.
pub fn rule_at(rules: &PackedRules, r: usize) -> Rule
    requires { r < 64 }
    ensures { result ≡ unpacked_of (get_or rules.now r 0) }
{
    unpacked(rules[r])
}

// The rules of a grammar, packed.
pub fn pack_rules(g: GrammarTable) -> PackedRules
    ensures { (h : Grammar) → g ≡ grammar_table h → PackedRules h result }
{
    let mut out = [0u64; RULES_MOST];
    for i in 0..RULES_MOST {
        out[i] = packed(g.rules[i]);
    }
    out
}

// The units of a playing's onsets; in every place behind them the end of the longest piece, so that a search for the first onset behind
// an interval needs no count.
pub fn pack_units(p: PlayingTable) -> PackedUnits
    requires { p.count ≤ 512 }
    ensures { (q : Playing) → GoodOnsets q → p ≡ playing_table q → result ≡ unit_cells q }
{
    let mut out = [PIECE_UNITS; UNIT_CELLS];
    for i in 0..p.count {
        out[i] = p.units[i].0;
    }
    out
}
