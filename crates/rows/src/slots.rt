// The table of rows. A row is named by a length, the place in its bar of the first onset inside, a nonterminal and a carry state; its first
// number bears the bar's stamp, so that nothing is cleared between bars. The slots of a bar are turned, so that few rows of other bars are
// overwritten.
ghost use Rattle.std.specs.Prelude.{◌≡◌, true, ℕ, ◌+◌, ◌-◌, ◌*◌, ◌/◌, ◌≤◌, ◌<◌, length, get_or};
ghost use Rattle.sheet.specs.Sheet.{Sheet};
ghost use Rattle.expansions.specs.Tables.{UnitsHeld, last_unit};
ghost use Rattle.expansions.specs.Items.{first_at};
ghost use Rattle.rows.specs.Vectors.{LowCells};
ghost use Rattle.rows.specs.Memo.{MARK, row_at, stored};
ghost use Rattle.rows.specs.Slots.{slot_in, SlotEntry};

use expansions::PackedUnits;
use plan::{Plan, length_count, nonterminals};
use sheet::Units;

// Above every packed cell: a stamp is a multiple of it.
const MARK: u64 = 144115188075855872;

// A bar: the place of the first onset at or behind its start, the number of slots, its own number from 0, and by how many places its slots
// are turned. It is copied at every call; with the fields in this order the processor waits least for what was just stored.
#[derive(Clone, Copy)]
pub struct Bar {
    pub first: usize,
    pub slots: usize,
    pub number: usize,
    pub shift: usize,
}

// The row at a place.
pub fn load(rows: &[u64], at: usize) -> [u64; 4]
    requires { at + 4 ≤ length rows.now }
    ensures { result ≡ row_at rows.now at }
{
    [rows[at] % MARK, rows[at + 1], rows[at + 2], rows[at + 3]]
}

// Whether the row at a place bears the stamp of bar b.
pub fn held(rows: &[u64], at: usize, b: usize) -> bool
    requires { (at + 4 ≤ length rows.now) × (b < 64) }
    ensures { (result ≡ true → get_or rows.now at 0 / MARK ≡ b + 1) × (get_or rows.now at 0 / MARK ≡ b + 1 → result ≡ true) }
{
    rows[at] / MARK == (b as u64) + 1
}

// Stores a row at a place, with a stamp.
pub fn store(rows: &mut [u64], at: usize, v: [u64; 4], stamp: u64)
    requires { (at + 4 ≤ length rows.old) × (stamp ≤ 64) × LowCells v }
    ensures { rows.new ≡ stored rows.old at v stamp }
{
    rows[at] = v[0] + stamp * MARK;
    rows[at + 1] = v[1];
    rows[at + 2] = v[2];
    rows[at + 3] = v[3];
}

// The place of the first onset at or behind `right`, where `from` is that of one before it.
pub fn first_behind(units: &PackedUnits, from: usize, right: Units) -> usize
    requires { (s : Sheet) × (left : ℕ) × UnitsHeld s units.now × (from ≡ first_at s left) × (left ≤ right.0)
        × (right.0 ≤ last_unit) }
    ensures { (s : Sheet) (left : ℕ) → UnitsHeld s units.now → from ≡ first_at s left → left ≤ right.0
        → right.0 ≤ last_unit
        → result ≡ first_at s right.0 }
{
    let end = right.0;
    let mut i = from;
    // No `for`: the place behind the last onset holds the end of the piece, so no bound is tested.
    while units[i] < end {
        i += 1;
    }
    i
}

// The place of the row of an item in the table.
pub fn place_of(plan: &Plan, bar: Bar, q: usize, l: usize, from: usize, c: usize) -> usize
    requires { (s : Sheet) × SlotEntry s plan.now bar q l from c }
    ensures { (s : Sheet) → SlotEntry s plan.now bar q l from c → result ≡ 4 * slot_in s bar.number q l (from - bar.first) c }
{
    let i = from - bar.first;
    let x = ((i * length_count(plan) + l) * nonterminals(plan) + q) * 4 + c + bar.shift;
    if x < bar.slots {
        return 4 * x;
    }
    4 * (x - bar.slots)
}
