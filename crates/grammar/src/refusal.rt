// The refusals of the lines of a grammar. Each test is one demand of the documents, in their order, so a range is two tests and no
// `contains`.
ghost use Rattle.std.specs.Prelude.{◌≡◌, List, ℕ, ◌≤◌, ltb};
ghost use Rattle.sheet.specs.Reading.{demand, head_refusal, division_refusal, leaf_refusal, rule_refusal, all_below, bytes_from};
ghost use Rattle.sheet.specs.Refusal.{test_number};
ghost use Rattle.sheet.specs.Held.{LineHeld};

use hextext::Line;
use sheet::{KIND_MOST, Kind, PARTS_MOST, RULES_MOST, Refusal, byte_at};

// Whether a `47` line is refused.
pub fn check_head(l: Line) -> Result<(), Refusal>
    ensures { (b : List ℕ) → LineHeld l b → test_number result ≡ head_refusal b }
{
    if l.count != 5 {
        return Err(Refusal::WrongByteCount);
    }
    let nonterminals = byte_at(l, 1);
    let start = byte_at(l, 2);
    if nonterminals < 1 {
        return Err(Refusal::FieldOutOfRange);
    }
    if 16 < nonterminals {
        return Err(Refusal::FieldOutOfRange);
    }
    if nonterminals <= start {
        return Err(Refusal::FieldOutOfRange);
    }
    Ok(())
}

// Whether k nonterminals of a line, from byte 5 on, are all below q.
fn all_below(q: u8, k: usize, l: Line) -> bool
    requires { (k ≤ 8) × (l.count ≤ 13) }
    ensures { (b : List ℕ) → LineHeld l b → result ≡ all_below q (bytes_from k 5 b) }
{
    for j in 0..k {
        if q <= byte_at(l, j + 5) {
            return false;
        }
    }
    true
}

// Whether a `44` line is refused in a grammar of q nonterminals, after `count` rules.
fn check_division(q: u8, count: usize, l: Line) -> Result<(), Refusal>
    ensures { (b : List ℕ) → LineHeld l b → test_number result ≡ division_refusal q count b }
{
    if l.count < 5 {
        return Err(Refusal::WrongByteCount);
    }
    let head = byte_at(l, 1);
    let k = byte_at(l, 4) as usize;
    if k < 2 {
        return Err(Refusal::FieldOutOfRange);
    }
    if PARTS_MOST < k {
        return Err(Refusal::FieldOutOfRange);
    }
    if l.count != 5 + k {
        return Err(Refusal::WrongByteCount);
    }
    if q <= head {
        return Err(Refusal::FieldOutOfRange);
    }
    if !all_below(q, k, l) {
        return Err(Refusal::FieldOutOfRange);
    }
    if RULES_MOST <= count {
        return Err(Refusal::TooMany);
    }
    Ok(())
}

// Whether a `4C` line is refused in a grammar of q nonterminals, after `count` rules.
fn check_leaf(q: u8, count: usize, l: Line) -> Result<(), Refusal>
    ensures { (b : List ℕ) → LineHeld l b → test_number result ≡ leaf_refusal q count b }
{
    if l.count != 5 {
        return Err(Refusal::WrongByteCount);
    }
    let head = byte_at(l, 1);
    let n = byte_at(l, 4);
    if q <= head {
        return Err(Refusal::FieldOutOfRange);
    }
    if KIND_MOST < n {
        return Err(Refusal::FieldOutOfRange);
    }
    if RULES_MOST <= count {
        return Err(Refusal::TooMany);
    }
    Ok(())
}

// Whether a line that is to add a rule is refused, after `count` rules.
pub fn check_rule(q: u8, count: usize, l: Line) -> Result<(), Refusal>
    ensures { (b : List ℕ) → LineHeld l b → test_number result ≡ rule_refusal q count b }
{
    if l.kind == Kind::Division as u8 {
        return check_division(q, count, l);
    }
    if l.kind == Kind::Leaf as u8 {
        return check_leaf(q, count, l);
    }
    Err(Refusal::KindOutOfOrder)
}

// Whether a `45` line is refused by the number of rules before it. Its own demands are the playing's.
pub fn check_end(count: usize) -> Result<(), Refusal>
    ensures { test_number result ≡ demand (ltb 0 count) 3 0 }
{
    if count < 1 {
        return Err(Refusal::KindOutOfOrder);
    }
    Ok(())
}
