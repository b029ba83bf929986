// Leaves: the row of one over an interval, and its least cost where no onset is inside.
ghost use Rattle.std.specs.Prelude.{◌≡◌, ◌/◌, ◌<◌};
ghost use Rattle.sheet.specs.Sheet.{Sheet};
ghost use Rattle.trees.specs.ValidTrees.{token};
ghost use Rattle.expansions.specs.Items.{item_of};
ghost use Rattle.plan.specs.Plan.{leaf_cell};
ghost use Rattle.rows.specs.Vectors.{vec};
ghost use Rattle.rows.specs.PackedLaws.{packed_leaf_total};
ghost use Rattle.rows.specs.Rows.{LeafEntry};

use crate::vector::NO_CELL;
use expansions::{Interval, PackedUnits, place, token_of};
use plan::{Plan, leaf_cell, least_leaf};

// The packed cells of a leaf over an interval, by carry state behind it. More than three late onsets are no carry state.
pub fn leaf_row(
    plan: &Plan,
    units: &PackedUnits,
    q: usize,
    over: Interval,
    from: usize,
    c: usize,
) -> [u64; 4]
    requires { (s : Sheet) × LeafEntry s plan.now units.now q over from c }
    ensures { (s : Sheet) → LeafEntry s plan.now units.now q over from c
        → result ≡ vec (packed_leaf_total s (item_of q over) c) }
{
    let placed = place(units, over, from);
    let late = placed.late;
    let kind = token_of(c + placed.early, from);
    let w = leaf_cell(plan, q, kind as usize);
    let x = NO_CELL.min(w + 64 * placed.distance);
    let mut o = [NO_CELL; 4];
    if late < 4 {
        o[late] = x;
    }
    o
}

// The least cost of a leaf rule of nonterminal q for c onsets placed, where `before` lie before the leaf, or the cap.
pub fn least_placed(plan: &Plan, q: usize, c: usize, before: usize) -> u64
    requires { q < 16 }
    ensures { result ≡ leaf_cell plan.now q (token c before) / 64 }
{
    let kind = token_of(c, before);
    least_leaf(plan, q, kind as usize)
}
