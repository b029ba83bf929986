// Carry states that need not be met: those that lower nothing, and those behind the last that is reached.
ghost use Rattle.std.specs.Prelude.{◌≡◌, true, List, ℕ, ◌<◌, ◌≤◌, get_or};
ghost use Rattle.sheet.specs.Sheet.{Sheet};
ghost use Rattle.trees.specs.LeastTotal.{NONE};
ghost use Rattle.plan.specs.Plan.{Prepared};
ghost use Rattle.rows.specs.Vectors.{Low};
ghost use Rattle.rows.specs.Rows.{ReachedTo};
ghost use Rattle.rows.specs.IdleLaws.{Idle};

use crate::vector::NONE;
use plan::{Plan, saved};

// Whether carry state c lowers nothing, where `zero` and `a` are the totals to 0 and to c and so many onsets lie before: it is not reached,
// or one does, and carrying nothing is cheaper by more than all that c can save. (By as much would do for totals, but could lose the first
// tree.)
pub fn idle_at(plan: &Plan, zero: u64, a: u64, c: usize, before: usize) -> bool
    requires { (c < 4) × (zero ≤ NONE) × ((s : Sheet) × Prepared s plan.now) }
    ensures { (s : Sheet) (v : List ℕ) → Prepared s plan.now → zero ≡ get_or v 0 0 → a ≡ get_or v c 0 → result ≡ true
        → Idle s before (λ i. get_or v i 0) c }
{
    if a >= NONE {
        return true;
    }
    if c == 0 {
        return false;
    }
    zero + saved(plan, c) < a && before != 0
}

// The same of a vector.
pub fn idle(plan: &Plan, v: [u64; 4], c: usize, before: usize) -> bool
    requires { (c < 4) × Low v × ((s : Sheet) × Prepared s plan.now) }
    ensures { (s : Sheet) → Prepared s plan.now → result ≡ true → Idle s before (λ i. get_or v i 0) c }
{
    idle_at(plan, v[0], v[c], c, before)
}

// One past the last carry state that a vector reaches, and at least 1.
pub fn reached(v: [u64; 4]) -> usize
    ensures { ReachedTo v result }
{
    if v[3] < NONE {
        return 4;
    }
    if v[2] < NONE {
        return 3;
    }
    if v[1] < NONE {
        return 2;
    }
    1
}
