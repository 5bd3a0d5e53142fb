// Slices of sparse vectors: the places between two bounds, written to lent lists.

#![tactic(auto)]

ghost use Rattle.std.specs.Prelude.{◌≡◌, ◌++◌, ◌-◌, ◌≤◌, length, drop, slice_index};
ghost use Rattle.places.specs.Below.{list_below};
ghost use Rattle.sparse.specs.Vectors.{seen};
ghost use Rattle.sparse_slices.specs.Calls.{Cuts};
ghost use Rattle.sparse_slices.specs.Loops.{Above};

use refusal::{Refusal, Written};
use sparse::SVectBorrowed;
use std::ops::Bound;

// Writes the indexes, less `start`, to the front of `oi`.
fn move_indexes(indexes: &[u32], start: u32, oi: &mut [u32])
    requires room { length indexes.now ≤ length oi.old }
    requires above { Above indexes.now start }
    ensures { oi.new ≡ list_below (λ j. slice_index indexes.now j - start) (length indexes.now) ++ drop (length indexes.now) oi.old }
{
    for (j, index) in indexes.iter().enumerate() {
        oi[j] = *index - start;
    }
}

// Writes the places that the bounds name to the front of `oi` and `ov`, and answers their dims and entries. Refuses as
// `SVectBorrowed::check` does, and then with Bounds, Room. The output stays two parameters, as C lends it: a struct of two
// lent lists would be taken apart again by the two lines that write.
pub fn subvector(
    v: SVectBorrowed<'_>,
    from: Bound<u32>,
    to: Bound<u32>,
    oi: &mut [u32],
    ov: &mut [f32],
) -> Result<Written, Refusal>
    ensures { Cuts (seen v.entry) from to oi.old ov.old result oi.new ov.new }
{
    v.check()?;
    let span = refusal::span_of(from, to, v.dims).ok_or(Refusal::Bounds)?;
    let s = walks::partition_point(v.indexes, span.start);
    let e = walks::partition_point(v.indexes, span.end);
    let n = e - s;
    if oi.len() < n || ov.len() < n {
        return Err(Refusal::Room(n));
    }
    move_indexes(&v.indexes[s..e], span.start, oi);
    walks::copy(&v.values[s..e], &mut ov[..n]);
    Ok(Written {
        dims: span.end - span.start,
        len: n,
    })
}
