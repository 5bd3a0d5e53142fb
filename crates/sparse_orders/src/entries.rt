// How values and entries of sparse vectors compare.

ghost use Rattle.std.specs.Prelude.{◌≡◌, false};
ghost use Rattle.sparse.specs.Cells.{is_zero};
ghost use Rattle.sparse_orders.specs.Orders.{compared, entries_decide};

use std::cmp::Ordering;

// How two values compare. A NaN has no order.
pub fn compare(x: f32, y: f32) -> Option<Ordering>
    ensures { result ≡ compared x y }
{
    x.partial_cmp(&y)
}

// How two entries compare whose values are no zeros. Where one side has nothing it counts as zero.
pub fn compare_entries(i: u32, x: f32, j: u32, y: f32) -> Option<Ordering>
    requires { (is_zero x ≡ false) × (is_zero y ≡ false) }
    ensures { result ≡ entries_decide i x j y }
{
    match i.cmp(&j) {
        Ordering::Less => compare(x, 0.0),
        Ordering::Equal => compare(x, y),
        Ordering::Greater => compare(0.0, y),
    }
}
