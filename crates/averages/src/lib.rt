// The average of a vector: each value divided by a count. A part of the aggregate, not a call that a user
// makes.

#![tactic(auto)]

ghost use Rattle.sparse.specs.Vectors.{seen};
ghost use Rattle.averages.specs.Averages.{shared};
ghost use Rattle.averages.specs.Loops.{NoneZero, Divides, Divided};

use sparse::SVectBorrowed;

// Whether none of four values is zero. The compiler can look at all four at once.
fn none_zero(a: f32, b: f32, c: f32, d: f32) -> bool
    ensures { NoneZero a b c d result }
{
    if a == 0.0 || b == 0.0 || c == 0.0 || d == 0.0 {
        return false;
    }
    true
}

// Writes each value of a vector divided by the count, unless that is zero, and returns how many. The
// vector passed its tests, and there is room for the entries. Four are divided at once, up to where one of
// the four is zero; the others one by one. One at a time takes longer (docs/landings/109), so the first loop counts by
// fours.
pub fn divide(v: SVectBorrowed<'_>, count: u64, oi: &mut [u32], ov: &mut [f32]) -> usize
    requires { Divides (seen v) oi.old ov.old }
    ensures { Divided (shared count (seen v.entry)) oi.old ov.old result oi.new ov.new }
{
    let SVectBorrowed {
        indexes,
        values,
        ..
    } = v;
    let by = rounding::of_u64(count);
    let mut n: usize = 0;
    let mut p: usize = 0;
    while 4 <= indexes.len() - p {
        let a = values[p] / by;
        let b = values[p + 1] / by;
        let c = values[p + 2] / by;
        let d = values[p + 3] / by;
        if !none_zero(a, b, c, d) {
            break;
        }
        oi[n..n + 4].copy_from_slice(&indexes[p..p + 4]);
        ov[n..n + 4].copy_from_slice(&[a, b, c, d]);
        n += 4;
        p += 4;
    }
    for i in p..indexes.len() {
        let z = walks::kept(values[i] / by);
        n = walks::put(oi, ov, n, indexes[i], z);
    }
    n
}
