// The entries for C and Rust. A text is a pointer to its bytes and their number. Each entry takes every text and checks it itself.
#![tactic(auto)]

ghost use Rattle.std.specs.Prelude.{◌≡◌, length, [], ◌∷◌};
ghost use Rattle.sheet.specs.Reading.{read_sheet};
ghost use Rattle.sheet.specs.Refusal.{number_of, outcome_of};
ghost use Rattle.pricing.specs.Pricing.{price_text, priced_of};
ghost use Rattle.score.specs.Writing.{write_text, score_after};
ghost use Rattle.tempo.specs.Tempo.{record_text, remark_of};
ghost use Rattle.cabi.specs.Entries.{check_of, work_of, tree_of, unit_at, bar_line_of, tempo_cells, answer_cells, write_cells, FindCells};

use pricing::Priced;
use sheet::{BAR_LINES_MOST, ONSETS_MOST, Reading, Refused};
use tempo::{remark_at, tempo_kind};

// The number of a text's refusal times 65,536, plus its line; 0: the text is accepted.
#[unsafe(no_mangle)]
pub extern "C" fn rhythm_check(text: &[u8]) -> u32
    ensures { result ≡ check_of (read_sheet text.now) }
{
    match reading::read(text) {
        Ok(_) => 0,
        Err(e) => (e.refusal.number() as u32) * 65536 + (e.line as u32),
    }
}

// The required length of finding's work slice, in cells; 0: the text is refused.
#[unsafe(no_mangle)]
pub extern "C" fn rhythm_work_cells(text: &[u8]) -> u64
    ensures { result ≡ work_of (read_sheet text.now) }
{
    match reading::read(text) {
        Ok(r) => sizes::work_cells(r.grammar, r.playing) as u64,
        Err(_) => 0,
    }
}

// The required length of finding's tree slice, in bytes; 0: the text is refused.
#[unsafe(no_mangle)]
pub extern "C" fn rhythm_tree_bytes(text: &[u8]) -> u64
    ensures { result ≡ tree_of (read_sheet text.now) }
{
    match reading::read(text) {
        Ok(r) => sizes::tree_bytes(r.playing) as u64,
        Err(_) => 0,
    }
}

// The unit of onset i, from 0; 0 past the last, and where the text is refused.
#[unsafe(no_mangle)]
pub extern "C" fn rhythm_onset_unit(text: &[u8], i: usize) -> u32
    ensures { result ≡ unit_at (read_sheet text.now) i }
{
    let Ok(Reading { playing, .. }) = reading::read(text) else {
        return 0;
    };
    if ONSETS_MOST <= i {
        return 0;
    }
    playing.units[i].0
}

// The moment of bar line i, from 0, in microseconds; 0 past the last, and where the text is refused.
#[unsafe(no_mangle)]
pub extern "C" fn rhythm_bar_line(text: &[u8], i: usize) -> u32
    ensures { result ≡ bar_line_of (read_sheet text.now) i }
{
    let Ok(Reading { timing, .. }) = reading::read(text) else {
        return 0;
    };
    if BAR_LINES_MOST <= i {
        return 0;
    }
    timing.lines[i].0
}

// A refusal as the numbers of an answer.
fn refused_cells(e: Refused) -> [u64; 6]
    ensures { result ≡ number_of e.refusal ∷ e.line ∷ 0 ∷ 0 ∷ 0 ∷ 0 ∷ [] }
{
    [e.refusal.number() as u64, e.line as u64, 0, 0, 0, 0]
}

// How the tempo moves from bar i, from 0, to the next: refusal number, line, kind (0 steady, 1 faster, 2 slower), the bar's duration and
// the next bar's, and the percentage's bits. All 0 where no bar follows.
#[unsafe(no_mangle)]
pub extern "C" fn rhythm_tempo(text: &[u8], i: usize, answer: &mut [u64; 6])
    ensures { answer.new ≡ tempo_cells (remark_of (record_text text.now i)) }
{
    let cells = match remark_at(text, i) {
        Ok(r) => [
            0,
            0,
            tempo_kind(r.tempo) as u64,
            r.bar.duration as u64,
            r.bar.next as u64,
            f64::to_bits(r.bar.percentage),
        ],
        Err(refused) => refused_cells(refused),
    };
    *answer = cells;
}

// An answer as numbers: refusal number, line, node count, R, D and total.
fn numbers(r: Result<Priced, Refused>) -> [u64; 6]
    ensures { result ≡ answer_cells (outcome_of r) }
{
    match r {
        Ok(p) => [0, 0, p.nodes as u64, p.weight, p.distance, p.total],
        Err(e) => refused_cells(e),
    }
}

// Prices a list against the sheet that a text means.
#[unsafe(no_mangle)]
pub extern "C" fn rhythm_price(text: &[u8], list: &[u8], answer: &mut [u64; 6])
    ensures { answer.new ≡ answer_cells (priced_of (price_text text.now list.now)) }
{
    let cells = numbers(pricing::price(text, list));
    *answer = cells;
}

// Writes the score lines of a list against the sheet that a text means: refusal number, line and byte count. Bytes of the score slice
// behind the text are kept, and all of them in a refusal.
#[unsafe(no_mangle)]
pub extern "C" fn rhythm_write(text: &[u8], list: &[u8], score: &mut [u8], answer: &mut [u64; 3])
    ensures { (answer.new ≡ write_cells (write_text text.now list.now (length score.old)))
        × (score.new
        ≡ score_after (write_text text.now list.now (length score.old)) score.old) }
{
    let cells = match score::write(text, list, score) {
        Ok(bytes) => [0, 0, bytes as u64],
        Err(e) => [e.refusal.number() as u64, e.line as u64, 0],
    };
    *answer = cells;
}

// Finds the first least tree of the sheet that a text means. The tree's bytes go to the front of the tree slice; the required work cells
// are 0 after a tree and after 11; every other byte and cell is kept.
#[unsafe(no_mangle)]
pub extern "C" fn rhythm_find(text: &[u8], tree: &mut [u8], work: &mut [u64], answer: &mut [u64; 6])
    ensures { FindCells text.now tree.old tree.new work.old work.new answer.new }
{
    let cells = numbers(finding::find(text, tree, work));
    *answer = cells;
}
