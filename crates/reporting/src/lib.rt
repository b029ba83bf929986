// The entry behind the program: the score lines of the first least tree of the sheet that a text means, or the line of a refusal.
#![tactic(auto)]

ghost use Rattle.std.specs.Prelude.{◌≡◌, ◌≤◌, ◌<◌, length, take};
ghost use Rattle.sheet.specs.Sheet.{Sheet};
ghost use Rattle.sheet.specs.Accepted.{SheetHeld};
ghost use Rattle.trees.specs.Room.{tree_most};
ghost use Rattle.finding.specs.Finding.{find_sheet};
ghost use Rattle.reporting.specs.declared.Shown.TheVariants.{Line};
ghost use Rattle.reporting.specs.Reporting.{refusal_line, Printed, Reports};
ghost use Rattle.reporting.specs.Restoring.{restored};

use finding::find_sheet;
use hextext::put_field;
use score::write_priced;
use sheet::{GrammarTable, Kind, PlayingTable};
pub use sizes::TREE_BYTES_MOST;

// The bytes of a refusal's line: four as pairs, and 0A.
pub const REFUSAL_LINE_BYTES: usize = 9;

pub type RefusalLine = [u8; REFUSAL_LINE_BYTES];

// The length of the program's work slice.
pub const WORK_CELLS: usize = 8192;

// The length of the program's score slice.
pub const SCORE_BYTES: usize = 65536;

// Where the text to print stands: so many bytes at the front of the score slice, or the whole line slice.
#[derive(Clone, Copy)]
pub enum Shown {
    Score { bytes: usize },
    Line,
}

// The line of a refusal: `52`, its number, its line.
fn refusal_line(number: u8, line: usize) -> RefusalLine
    ensures { result ≡ refusal_line number line }
{
    let mut bytes = [Kind::Refused as u8, number, 0, 0];
    put_field(&mut bytes, 2, 2, line as u64);
    let mut cells = [0u8; REFUSAL_LINE_BYTES];
    hextext::write_line(&bytes, &mut cells, 0);
    cells
}

// Composes the line of a refusal in the line slice.
fn refuse(number: u8, at: usize, line: &mut RefusalLine) -> Shown
    ensures { (result ≡ Line) × (line.new ≡ refusal_line number at) }
{
    let cells = refusal_line(number, at);
    *line = cells;
    Shown::Line
}

// As `compose`, of a sheet as it was read. Finding tells the price of its tree, so that the tree is not priced again.
fn compose_sheet(
    grammar: GrammarTable,
    playing: PlayingTable,
    work: &mut [u64],
    tree: &mut [u8],
    score: &mut [u8],
    line: &mut RefusalLine,
) -> Shown
    requires { (s : Sheet) × SheetHeld s grammar playing }
    ensures { (s : Sheet) → SheetHeld s grammar playing
        → Printed (find_sheet s (length tree.old) (length work.old))
        tree.old (restored result (take tree_most tree.old) tree.new)
        work.old work.new score.old score.new line.old line.new result }
{
    let found = match find_sheet(grammar, playing, tree, work) {
        Ok(found) => found,
        Err(e) => return refuse(e.refusal.number(), e.line, line),
    };
    match write_priced(grammar, playing, &tree[..found.nodes], Ok(found), score) {
        Ok(bytes) => Shown::Score { bytes },
        Err(short) => refuse(short.refusal.number(), short.line, line),
    }
}

// As `report`, but that the tree found stands in the tree slice also where the score slice is short.
fn compose(
    text: &[u8],
    work: &mut [u64],
    tree: &mut [u8],
    score: &mut [u8],
    line: &mut RefusalLine,
) -> Shown
    ensures { Reports text.now tree.old (restored result (take tree_most tree.old) tree.new)
        work.old work.new score.old score.new line.old line.new result }
{
    match reading::read(text) {
        Ok(r) => compose_sheet(r.grammar, r.playing, work, tree, score, line),
        Err(e) => refuse(e.refusal.number(), e.line, line),
    }
}

// Puts the first n bytes back that were kept of the tree slice, where a refusal is shown.
fn restore(shown: Shown, kept: &[u8; TREE_BYTES_MOST], tree: &mut [u8], n: usize)
    requires { (n ≤ tree_most) × (n ≤ length tree.old) }
    ensures { tree.new ≡ restored shown (take n kept.now) tree.old }
{
    if let Shown::Line = shown {
        tree[..n].copy_from_slice(&kept[..n]);
    }
}

// Finds the first least tree of the sheet that a text means and writes its score lines; or composes the line of a refusal, 13 where the
// score slice is short. The answer says where the text to print stands. A refusal leaves the tree slice as it was. The required work cells
// are 0 after 13 too, not after 11 alone, since a tree was found first; the program's are 0 before, so that for it this is the same.
pub fn report(
    text: &[u8],
    work: &mut [u64],
    tree: &mut [u8],
    score: &mut [u8],
    line: &mut RefusalLine,
) -> Shown
    ensures { Reports text.now tree.old tree.new work.old work.new
        score.old score.new line.old line.new result }
{
    let mut kept = [0u8; TREE_BYTES_MOST];
    let n = tree.len().min(TREE_BYTES_MOST);
    kept[..n].copy_from_slice(&tree[..n]);
    let shown = compose(text, work, tree, score, line);
    restore(shown, &kept, tree, n);
    shown
}
