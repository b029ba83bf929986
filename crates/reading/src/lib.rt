// Reading a sheet: a text is refused, by numbers 1 to 8 and 17 to 19, or means a grammar, bar lines, and a playing in units.
#![tactic(auto)]

ghost use Rattle.std.specs.Prelude.{◌≡◌, List, ℕ, ◌+◌, ◌<◌, ◌≤◌, length, drop};
ghost use Rattle.sheet.specs.Outcome.{refused};
ghost use Rattle.sheet.specs.Reading.{nothing, refusal};
ghost use Rattle.sheet.specs.Refusal.{number_of, test_number};
ghost use Rattle.sheet.specs.Rest.{stopped};
ghost use Rattle.sheet.specs.Held.{LineHeld, Reads};
ghost use Rattle.reading.specs.Clauses.{LinesRead};

use grammar::{check_head, head_of, read_rules};
use hextext::{Digits, Line, bad_from, line_at};
use playing::{even_playing, read_playing};
use sheet::{Kind, Reading, Refusal, Refused, Stop, TEXT_MOST};

// The refusal of a text that reading stops at: a bad line there or behind it goes before.
// Few texts are refused, so it is cold: in line at each of its calls it took 1 ns a line of a plain sheet.
#[cold]
fn refused_at(digits: &Digits, text: &[u8], stop: Stop) -> Refused
    requires { (stop.line ≤ stop.at + 1) × (0 < stop.line) }
    ensures { refused (number_of result.refusal) result.line ≡ stopped (number_of stop.refusal) stop.line (drop stop.at text.now) }
{
    match bad_from(digits, text, stop.at, stop.line) {
        Some(line) => Refusal::BadLine.at(line),
        None => stop.refusal.at(stop.line),
    }
}

// Whether a text's first line, which is no bad one, is refused.
fn check_first(l: Line) -> Result<(), Refusal>
    ensures { (b : List ℕ) → LineHeld l b → test_number result ≡ refusal nothing b }
{
    if l.kind != Kind::Grammar as u8 {
        return Err(Refusal::KindOutOfOrder);
    }
    check_head(l)
}

// The lines of a text, one after another. Most sheets are read by `even_playing`.
// The result is made apart for each: where the two ways join, or where it is taken out of another `Result`, the tables are copied once
// more.
fn read_lines(digits: &Digits, text: &[u8]) -> Result<Reading, Refused>
    requires { 0 < length text.now }
    ensures { LinesRead text.now result }
{
    let Some(head) = line_at(digits, text, 0) else {
        let stop = Stop {
            refusal: Refusal::BadLine,
            line: 1,
            at: 0,
        };
        return Err(refused_at(digits, text, stop));
    };
    if let Err(refusal) = check_first(head) {
        let stop = Stop {
            refusal,
            line: 1,
            at: 0,
        };
        return Err(refused_at(digits, text, stop));
    }
    let rules = match read_rules(digits, text, head.next, 2, head_of(head)) {
        Ok(rules) => rules,
        Err(stop) => return Err(refused_at(digits, text, stop)),
    };
    if let Some(take) = even_playing(digits, text, rules.at, rules.end) {
        return Ok(Reading {
            timing: take.timing,
            grammar: rules.grammar,
            playing: take.playing,
        });
    }
    match read_playing(digits, text, rules.at, rules.line, rules.end) {
        Ok(take) => Ok(Reading {
            timing: take.timing,
            grammar: rules.grammar,
            playing: take.playing,
        }),
        Err(stop) => Err(refused_at(digits, text, stop)),
    }
}

// The meaning of a text as a sheet, or its refusal.
pub fn read(text: &[u8]) -> Result<Reading, Refused>
    ensures { Reads text.now result }
{
    if TEXT_MOST < text.len() {
        return Err(Refusal::TextTooLong.at(0));
    }
    if text.len() == 0 {
        return Err(Refusal::BadLine.at(1));
    }
    let digits = Digits::new();
    read_lines(&digits, text)
}
