// The items that are still to be derived, and what a rule makes of the next one, as document 01's section "Valid trees" and document 02
// have it.
ghost use Rattle.std.specs.Prelude.{◌≤◌, ◌<◌};

use expansions::{Interval, PackedUnits};
use sheet::{BARS_MOST, Children, PARTS_MOST, PIECE_UNITS, Rule, Units};

// The most items that are left: the bars, and at each of ten divisions that nest, all parts but the first.
pub const ITEMS_MOST: usize = BARS_MOST + 10 * (PARTS_MOST - 1);

// An item that is still to be derived: a nonterminal over a length.
#[derive(Clone, Copy)]
pub struct Pending {
    pub name: u8,
    pub len: Units,
}

// What is still to be derived: `count` items, the next one last; the left bound of the next one; how many onsets are carried in.
#[derive(Clone, Copy)]
pub struct Place {
    pub items: [Pending; ITEMS_MOST],
    pub count: usize,
    pub left: Units,
    pub carried: u8,
}

// A nonterminal over an interval.
#[derive(Clone, Copy)]
pub struct Item {
    pub name: u8,
    pub over: Interval,
}

// What a rule makes of the next item: a leaf that carries on so many onsets, or a division into so many parts of a length.
#[derive(Clone, Copy)]
pub enum Move {
    Leaf { late: u8 },
    Division { arity: u8, len: Units },
}

// How many onsets inside an interval are early, and how many late.
#[derive(Clone, Copy)]
struct Counts {
    early: usize,
    late: usize,
}

// n of the leaf rule at a left bound where so many onsets are placed: the number itself up to 2, and 3 for three or more. With none it is 4
// where the first onset of the piece is not before the bound.
fn kind_of(units: &PackedUnits, left: Units, placed: usize) -> u8 {
    if placed == 0 && left.0 <= units[0] {
        return 4;
    }
    placed.min(3) as u8
}

// The onsets inside an interval. Units never fall, so the first behind it ends the count. Out of line, its loop has the registers alone.
#[inline(never)]
fn inside(units: &PackedUnits, over: Interval) -> Counts
    ensures { (result.early ≤ 513) × (result.late ≤ 513) }
{
    let left = 2 * u64::from(over.left.0);
    let middle = left + u64::from(over.len.0);
    let right = middle + u64::from(over.len.0);
    let mut early = 0;
    let mut late = 0;
    for &unit in units {
        let twice = 2 * u64::from(unit);
        // A unit before the interval is passed by one test.
        if left <= twice {
            if twice < middle {
                early += 1;
            } else if twice < right {
                late += 1;
            } else {
                break;
            }
        }
    }
    Counts { early, late }
}

// A leaf of kind n over an interval that `carried` onsets are carried into.
fn leaf_move(units: &PackedUnits, over: Interval, n: u8, carried: u8) -> Option<Move> {
    let Counts { early, late } = inside(units, over);
    if 3 < late || n != kind_of(units, over.left, usize::from(carried) + early) {
        return None;
    }
    Some(Move::Leaf { late: late as u8 })
}

// A division of an interval into k parts.
fn division_move(units: &PackedUnits, over: Interval, k: u8) -> Option<Move> {
    let parts = u32::from(k);
    if parts == 0 || over.len.0 % parts != 0 {
        return None;
    }
    let Counts { early, late } = inside(units, over);
    if early + late == 0 {
        return None;
    }
    let len = Units(over.len.0 / parts);
    Some(Move::Division { arity: k, len })
}

// A rule at an item that `carried` onsets are carried into: nothing where it does not go.
pub fn move_at(units: &PackedUnits, rule: Rule, item: Item, carried: u8) -> Option<Move> {
    match rule {
        Rule::Leaf { head, n, .. } if head == item.name => leaf_move(units, item.over, n, carried),
        Rule::Division { head, arity, .. } if head == item.name => {
            division_move(units, item.over, arity)
        }
        _ => None,
    }
}

// The right bound of an interval. None lies behind 64 bars, so the test is only for safety.
fn right_bound(over: Interval) -> Units {
    let right = u64::from(over.left.0) + u64::from(over.len.0);
    if u64::from(PIECE_UNITS) < right {
        return Units(0);
    }
    Units(right as u32)
}

impl Place {
    // The next item, where one is left.
    pub fn next_item(&self) -> Option<Item> {
        let top = self.count.checked_sub(1)?;
        let next = self.items.get(top)?;
        let over = Interval {
            left: self.left,
            len: next.len,
        };
        Some(Item {
            name: next.name,
            over,
        })
    }

    // Puts k parts of rule r, items of a length, before the others.
    fn put_parts(&mut self, children: &Children, r: usize, k: u8, len: Units)
        requires { r < 64 }
    {
        let parts = usize::from(k).min(PARTS_MOST);
        for j in (0..parts).rev() {
            let top = self.count;
            if top < ITEMS_MOST {
                let name = children[PARTS_MOST * r + j];
                self.items[top] = Pending { name, len };
                self.count = top + 1;
            }
        }
    }

    // What rule r leaves to be derived where it makes m of the next item.
    pub fn behind(&self, children: &Children, r: usize, m: Move, item: Item) -> Place
        requires { r < 64 }
    {
        let mut q = *self;
        q.count = q.count.saturating_sub(1);
        match m {
            Move::Leaf { late } => {
                q.left = right_bound(item.over);
                q.carried = late;
            }
            Move::Division { arity, len } => q.put_parts(children, r, arity, len),
        }
        q
    }
}
