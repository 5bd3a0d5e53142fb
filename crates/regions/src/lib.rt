// Regions of a lent pair of lists, in which the states of an aggregate live: how large one has to be,
// whether it lies inside its lists, and how entries are copied from one to another.

#![tactic(auto)]

ghost use Rattle.std.specs.Prelude.{◌≡◌, ◌+◌, ◌≤◌, leb, length};
ghost use Rattle.sparse.specs.Vectors.{vector, seen};
ghost use Rattle.regions.specs.Capacity.{capacity_for};
ghost use Rattle.regions.specs.Regions.{Pair, pair, both, part, within};
ghost use Rattle.regions.specs.Loops.{Fitting, Copied};

use sparse::SVectBorrowed;

// A pair of lists that is lent to be read. Of their lengths nothing is known.
#[derive(Clone, Copy)]
pub struct Lists<'a> {
    pub indexes: &'a [u32],
    pub values: &'a [f32],
}

// The capacity for n entries in a vector of `dims` places. From n = dims on it is dims.
pub fn capacity(dims: u32, n: usize) -> usize
    ensures { result ≡ capacity_for dims n }
{
    let most = dims as usize;
    if most <= n {
        return most;
    }
    let power = n.max(16).next_power_of_two();
    power.min(most)
}

// Whether n places from `start` on lie inside a list. Start and n together may pass the largest usize.
fn reaches(start: usize, n: usize, len: usize) -> bool
    ensures { result ≡ leb (start + n) len }
{
    if len < start {
        return false;
    }
    n <= len - start
}

// Whether they lie inside both of two lists of so many indexes and values.
pub fn lies_inside(start: usize, n: usize, indexes: usize, values: usize) -> bool
    ensures { result ≡ within start n indexes values }
{
    reaches(start, n, indexes) && reaches(start, n, values)
}

impl<'a> Lists<'a> {
    // The n entries from `start` on, as a vector of `dims` places.
    pub fn vector(self, dims: u32, start: usize, n: usize) -> SVectBorrowed<'a>
        requires indexes { start + n ≤ length self.indexes.now }
        requires values { start + n ≤ length self.values.now }
        ensures { seen result ≡ vector dims (part start n (both self.entry).indexes) (part start n (both self.entry).values) }
    {
        let end = start + n;
        SVectBorrowed {
            dims,
            indexes: &self.indexes[start..end],
            values: &self.values[start..end],
        }
    }
}

// Copies the n entries from `from` on of a pair of lists to the places from `to` on of another. Each list is copied on its
// own, which is faster than one walk over both. For the crates above, not for users.
pub fn copy(lists: Lists<'_>, from: usize, n: usize, ci: &mut [u32], cv: &mut [f32], to: usize)
    requires { Fitting from n (both lists) to (pair ci.old cv.old) }
    ensures { Copied from n (both lists.entry) to (pair ci.old cv.old) (pair ci.new cv.new) }
{
    walks::copy(&lists.indexes[from..from + n], &mut ci[to..to + n]);
    walks::copy(&lists.values[from..from + n], &mut cv[to..to + n]);
}
