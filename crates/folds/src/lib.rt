// Sums over two sparse vectors: dot, L2, and three sums of one walk. Each call tests both vectors.

#![tactic(auto)]

ghost use Rattle.std.specs.Prelude.{◌≡◌};
ghost use Rattle.sparse.specs.Cells.{fold_below};
ghost use Rattle.sparse.specs.Vectors.{seen, at};
ghost use Rattle.sums.specs.Loops.{Ready};
ghost use Rattle.folds.specs.Calls.{Dots, L2s, SumsThree};

use refusal::Refusal;
use sparse::SVectBorrowed;
pub use sums::Three;
use sums::{Differences, Products, Sum};
use walks::{Walk, Way};

// The sum over two vectors of equal dims, in rising order. What the last run passed of either side says which way is the best one
// next.
fn sum_of<S: Sum>(start: S, a: SVectBorrowed<'_>, b: SVectBorrowed<'_>) -> S
    requires { Ready (seen a) (seen b) }
    ensures { result ≡ fold_below S.step start (at (seen a.entry)) (at (seen b.entry)) a.entry.dims }
{
    let mut w = Walk::start(a, b);
    let mut acc = start;
    let mut way = Way::Quick;
    while w.has_both() {
        let k = walks::run_length(way, w.a.indexes.len() - w.p, w.b.indexes.len() - w.q);
        let part = sum_runs::run(way, k, acc, w);
        way = walks::way_on(k, part.p - w.p, part.q - w.q);
        acc = part.acc;
        w.p = part.p;
        w.q = part.q;
    }
    while w.has_any() {
        let part = sums::plain_turn(acc, w);
        acc = part.acc;
        w.p = part.p;
        w.q = part.q;
    }
    acc
}

// The negated sum of the products of common entries. Refuses as `sparse::check_pair` does, and so do
// the next two.
pub fn dot(a: SVectBorrowed<'_>, b: SVectBorrowed<'_>) -> Result<f32, Refusal>
    ensures { Dots (seen a.entry) (seen b.entry) result }
{
    sparse::check_pair(a, b)?;
    Ok(-sum_of(Products(0.0), a, b).0)
}

// The sum of the squared differences.
pub fn l2(a: SVectBorrowed<'_>, b: SVectBorrowed<'_>) -> Result<f32, Refusal>
    ensures { L2s (seen a.entry) (seen b.entry) result }
{
    sparse::check_pair(a, b)?;
    Ok(sum_of(Differences(0.0), a, b).0)
}

// In one walk: the sum of the products of common entries, and the sums of the squares of either side.
pub fn three_sums(a: SVectBorrowed<'_>, b: SVectBorrowed<'_>) -> Result<Three, Refusal>
    ensures { SumsThree (seen a.entry) (seen b.entry) result }
{
    sparse::check_pair(a, b)?;
    let none = Three {
        xy: 0.0,
        x2: 0.0,
        y2: 0.0,
    };
    Ok(sum_of(none, a, b))
}
