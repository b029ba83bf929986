// The index of each length's part, by arity. Lengths fall, and a length's parts fall as their number grows, so each search goes on from the
// place of the one before.
ghost use Rattle.std.specs.Prelude.{◌<◌, ◌≤◌, ◌≡◌, length};
ghost use Rattle.plan.specs.Layout.{plan_cells};
ghost use Rattle.plan.specs.Sections.{Small, Falling, PartAmong, Beyond, PartsOfLaid, PartsLaid};

use crate::layout::{PART_CELLS, PART_LENGTHS_AT};
use sheet::Units;
use sizes::{LengthCells, first_at_most};

// h, the first place whose length is at most a k-th of the length with index l, where it is a k-th; else `count`.
fn part_at(lens: &LengthCells, count: usize, l: usize, k: usize, h: usize) -> u64
    requires { (count ≤ 84) × (l < count) × (2 ≤ k) × (k < 9) × Small lens.now × Falling lens.now count
        × Beyond lens.now count l k h }
    ensures { PartAmong lens.now count l k result }
{
    if h < count {
        let whole = lens[l] as u64;
        let part = lens[h] as u64;
        if whole == (k as u64) * part {
            return h as u64;
        }
    }
    count as u64
}

// Lays the parts of the length with index l.
fn lay_parts_of(plan: &mut [u64], lens: &LengthCells, count: usize, l: usize)
    requires { (length plan.old ≡ plan_cells) × (count ≤ 84) × (l < count) × Small lens.now × Falling lens.now count }
    ensures { PartsOfLaid lens.now count l plan.old plan.new 9 }
{
    let len = lens[l];
    let mut h = l;
    for k in 2..PART_CELLS {
        h = first_at_most(lens, count, h, Units(len / (k as u32)));
        plan[PART_LENGTHS_AT + PART_CELLS * l + k] = part_at(lens, count, l, k, h);
    }
}

// Lays the parts of the first `count` lengths.
pub fn lay_parts(plan: &mut [u64], lens: &LengthCells, count: usize)
    requires { (length plan.old ≡ plan_cells) × (count ≤ 84) × Small lens.now × Falling lens.now count }
    ensures { PartsLaid lens.now count plan.old plan.new count }
{
    for l in 0..count {
        lay_parts_of(plan, lens, count, l);
    }
}
