// The grammar of a sheet: the `47` line, and the rules behind it, up to the `45` line, which the playing begins with.
#![tactic(auto)]

ghost use Rattle.std.specs.Prelude.{◌≡◌, List, ℕ, ◌+◌, ◌≤◌, ◌<◌, length};
ghost use Rattle.sheet.specs.Sheet.{Grammar};
ghost use Rattle.sheet.specs.Reading.{head_of, bytes_from};
ghost use Rattle.sheet.specs.Held.{LineHeld, grammar_table, no_grammar};
ghost use Rattle.sheet.specs.Good.{GoodRules};
ghost use Rattle.grammar.specs.Clauses.{cell_of, arity_of, PartsPut, RulesRead};

mod refusal;

use hextext::{Digits, Line, line_at};
pub use refusal::check_head;
use refusal::{check_end, check_rule};
use sheet::{
    CHILD_CELLS, Children, GrammarTable, Kind, PARTS_MOST, RULES_MOST, Refusal, Rule, Stop,
    byte_at, two_at,
};

// What reading the rules gives: the grammar, and the number, the place and the fields of the `45` line behind them.
#[derive(Clone, Copy)]
pub struct Rules {
    pub line: usize,
    pub at: usize,
    pub end: Line,
    pub grammar: GrammarTable,
}

// The grammar of zeros.
pub fn no_grammar() -> GrammarTable
    ensures { result ≡ grammar_table no_grammar }
{
    let rule = Rule::Division {
        head: 0,
        weight: 0,
        arity: 0,
    };
    let rules = [rule; RULES_MOST];
    let children = [0u8; CHILD_CELLS];
    GrammarTable {
        nonterminals: 0,
        start: 0,
        multiplier: 0,
        count: 0,
        rules,
        children,
    }
}

// The grammar that a `47` line begins.
pub fn head_of(l: Line) -> GrammarTable
    ensures { (b : List ℕ) → LineHeld l b → result ≡ grammar_table (head_of b) }
{
    let mut g = no_grammar();
    g.nonterminals = byte_at(l, 1);
    g.start = byte_at(l, 2);
    g.multiplier = two_at(l, 3);
    g
}

// The rule of a `44` or `4C` line.
fn rule_of(l: Line) -> Rule
    ensures { (b : List ℕ) → LineHeld l b → result ≡ cell_of b }
{
    let head = byte_at(l, 1);
    let weight = two_at(l, 2);
    let last = byte_at(l, 4);
    if l.kind == Kind::Division as u8 {
        return Rule::Division {
            head,
            weight,
            arity: last,
        };
    }
    Rule::Leaf {
        head,
        weight,
        n: last,
    }
}

// How many parts the rule of a line has.
fn arity_of(l: Line) -> usize
    ensures { (b : List ℕ) → LineHeld l b → result ≡ arity_of b }
{
    if l.kind == Kind::Division as u8 {
        byte_at(l, 4) as usize
    } else {
        0
    }
}

// Puts k nonterminals of a line, from byte 5 on, at the eight places of rule n.
fn put_parts(children: &mut Children, n: usize, k: usize, l: Line)
    requires { (n < 64) × (k ≤ 8) × (l.count ≤ 13) }
    ensures { (b : List ℕ) → LineHeld l b → PartsPut n (bytes_from k 5 b) children.old children.new }
{
    for j in 0..k {
        children[n * PARTS_MOST + j] = byte_at(l, j + 5);
    }
}

// The lines after the `47` line, whose grammar is g, from place `at` on, where line `line` starts: up to the `45` line.
pub fn read_rules(
    digits: &Digits,
    text: &[u8],
    at: usize,
    line: usize,
    g: GrammarTable,
) -> Result<Rules, Stop>
    requires { (at ≤ length text.now) × (line ≤ at + 1) × (0 < line) }
    ensures { (h : Grammar) → GoodRules h → g ≡ grammar_table h → RulesRead text.now at line h result }
{
    let mut grammar = g;
    let mut at = at;
    let mut line = line;
    // No `for`: a round takes one line, of any length.
    while at < text.len() {
        let Some(l) = line_at(digits, text, at) else {
            return Err(Stop {
                refusal: Refusal::BadLine,
                line,
                at,
            });
        };
        let n = grammar.count;
        if l.kind == Kind::Playing as u8 {
            if let Err(refusal) = check_end(n) {
                return Err(Stop { refusal, line, at });
            }
            return Ok(Rules {
                line,
                at,
                end: l,
                grammar,
            });
        }
        if let Err(refusal) = check_rule(grammar.nonterminals, n, l) {
            return Err(Stop { refusal, line, at });
        }
        at = l.next;
        line += 1;
        grammar.rules[n] = rule_of(l);
        put_parts(&mut grammar.children, n, arity_of(l), l);
        grammar.count = n + 1;
    }
    Err(Stop {
        refusal: Refusal::KindOutOfOrder,
        line,
        at,
    })
}
