// Sparse f32 vectors under the Rust's names. Every call tests the vectors it is given, the left one first; a refusal
// leaves the lent lists as they were. Most are passed on from the crates below.

#![tactic(auto)]

ghost use Rattle.refusal.specs.Answers.{Checks};
ghost use Rattle.sparse.specs.Vectors.{seen};
ghost use Rattle.sparse.specs.Calls.{checked_of};
ghost use Rattle.svect.specs.Calls.{Zeroes};

pub use folds::{dot as operator_dot, l2 as operator_l2, three_sums};
pub use merges::{add as operator_add, mul as operator_mul, sub as operator_sub};
use refusal::{Refusal, Written};
use sparse::SVectBorrowed;
pub use sparse_orders::{eq, partial_cmp};
pub use sparse_slices::subvector;

// Whether this is a sparse vector. Refuses with Dims, Length, Order, Index, Zero.
pub fn new_checked(v: SVectBorrowed<'_>) -> Result<(), Refusal>
    ensures { Checks (checked_of (seen v.entry)) result }
{
    v.check()
}

// The vector of `dims` places without entries, which needs no lists. Refuses with Dims.
pub fn zero(dims: u32) -> Result<Written, Refusal>
    ensures { Zeroes dims result }
{
    if dims == 0 || 1048575 < dims {
        return Err(Refusal::Dims);
    }
    Ok(Written { dims, len: 0 })
}
