// Vectors of four numbers, by carry state: totals, or packed cells, which are 64 × a total + the first rule that comes to it. NONE stands
// for "no tree": it is above every total, and two of them fit, packed too.
ghost use Rattle.std.specs.Prelude.{◌≡◌, ◌+◌, ◌≤◌, ◌<◌, get_or};
ghost use Rattle.derivations.specs.Minima.{lowest, only};
ghost use Rattle.trees.specs.LeastTotal.{NONE};
ghost use Rattle.rows.specs.Vectors.{vec, Low, lowered, totals_of, lowered_by};

pub use plan::{NO_CELL, NONE};

// 0 at carry state c, and NONE at every other.
pub fn only_at(c: usize) -> [u64; 4]
    ensures { result ≡ vec (only NONE c) }
{
    let mut v = [NONE; 4];
    if c < 4 {
        v[c] = 0;
    }
    v
}

// The vector o, lowered where a more than y is less.
pub fn relax(o: [u64; 4], a: u64, y: [u64; 4]) -> [u64; 4]
    requires { (a ≤ NONE) × Low y }
    ensures { result ≡ lowered o a y }
{
    [
        o[0].min(a + y[0]),
        o[1].min(a + y[1]),
        o[2].min(a + y[2]),
        o[3].min(a + y[3]),
    ]
}

// The packed row o, lowered where 64 times a more than y, and r, is less.
pub fn relax_rule(o: [u64; 4], a: u64, r: u64, y: [u64; 4]) -> [u64; 4]
    requires { (a ≤ NONE) × (r < 64) × Low y }
    ensures { result ≡ lowered_by o a r y }
{
    [
        o[0].min(64 * (a + y[0]) + r),
        o[1].min(64 * (a + y[1]) + r),
        o[2].min(64 * (a + y[2]) + r),
        o[3].min(64 * (a + y[3]) + r),
    ]
}

// The totals of a packed row.
pub fn totals(y: [u64; 4]) -> [u64; 4]
    ensures { result ≡ totals_of y }
{
    y.map(|x| x / 64)
}

// The least of the sums of two vectors, or NONE.
pub fn dot(y: [u64; 4], v: [u64; 4]) -> u64
    requires { Low y × Low v }
    ensures { result ≡ lowest NONE (λ m. get_or y m 0 + get_or v m 0) 4 }
{
    let a = NONE.min(y[0] + v[0]);
    let b = a.min(y[1] + v[1]);
    let c = b.min(y[2] + v[2]);
    c.min(y[3] + v[3])
}
