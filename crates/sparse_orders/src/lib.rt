// Equality and order of sparse vectors.

#![tactic(auto)]

mod entries;

ghost use Rattle.std.specs.Prelude.{◌≡◌, ◌≤◌, min};
ghost use Rattle.sparse.specs.Vectors.{seen, size};
ghost use Rattle.sparse.specs.Sound.{Sound};
ghost use Rattle.sparse_orders.specs.Orders.{decided};
ghost use Rattle.sparse_orders.specs.Calls.{Equals, Compares};
ghost use Rattle.sparse_orders.specs.Loops.{first_other};

use refusal::Refusal;
use sparse::SVectBorrowed;
use std::cmp::Ordering;

// Whether two vectors have the same dims and entries; NaN equals nothing. Refuses as `SVectBorrowed::check` does, for the
// left and then for the right. A derive would compare all indexes before the first value.
pub fn eq(a: SVectBorrowed<'_>, b: SVectBorrowed<'_>) -> Result<bool, Refusal>
    ensures { Equals (seen a.entry) (seen b.entry) result }
{
    sparse::check_each(a, b)?;
    if a.dims != b.dims || a.indexes.len() != b.indexes.len() {
        return Ok(false);
    }
    Ok(first_other(a, b) == a.indexes.len())
}

// How many entries from the first on two vectors have alike.
fn first_other(a: SVectBorrowed<'_>, b: SVectBorrowed<'_>) -> usize
    requires { Sound (seen a) × Sound (seen b) }
    ensures { result ≡ first_other (seen a.entry) (seen b.entry) (min (size (seen a.entry)) (size (seen b.entry))) }
{
    let n = a.indexes.len().min(b.indexes.len());
    for i in 0..n {
        if a.indexes[i] != b.indexes[i] || a.values[i] != b.values[i] {
            return i;
        }
    }
    n
}

// How two vectors compare of which the first i entries are alike.
fn compare_at(a: SVectBorrowed<'_>, b: SVectBorrowed<'_>, i: usize) -> Option<Ordering>
    requires { Sound (seen a) × Sound (seen b) }
    ensures { result ≡ decided (seen a.entry) (seen b.entry) i }
{
    if i < a.indexes.len() {
        if i < b.indexes.len() {
            return entries::compare_entries(a.indexes[i], a.values[i], b.indexes[i], b.values[i]);
        }
        return entries::compare(a.values[i], 0.0);
    }
    if i < b.indexes.len() {
        return entries::compare(0.0, b.values[i]);
    }
    Some(Ordering::Equal)
}

// How two vectors compare: the first entries that are not alike decide. There is no order where the dims differ, or where
// a NaN decides. Refuses as `eq` does. A derive would compare all indexes before the first value: `order_by` does not.
pub fn partial_cmp(a: SVectBorrowed<'_>, b: SVectBorrowed<'_>) -> Result<Option<Ordering>, Refusal>
    ensures { Compares (seen a.entry) (seen b.entry) result }
{
    sparse::check_each(a, b)?;
    if a.dims != b.dims {
        return Ok(None);
    }
    Ok(compare_at(a, b, first_other(a, b)))
}
