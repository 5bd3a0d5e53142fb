// What a sparse vector is: its dims, its indexes and its values; a place that no index names is empty.
// Here are its checks.

#![tactic(auto)]

ghost use Rattle.std.specs.Prelude.{◌≡◌, true, false, length, position};
ghost use Rattle.places.specs.Below.{any_below};
ghost use Rattle.places.specs.Search.{first_where};
ghost use Rattle.refusal.specs.Answers.{Checks};
ghost use Rattle.sparse.specs.Cells.{is_zero};
ghost use Rattle.sparse.specs.Vectors.{seen};
ghost use Rattle.sparse.specs.Calls.{falls, too_high, zero_at, checked_of, each_of, pair_of};

use refusal::Refusal;

// What stands at a place. It has the shape of an Option, and stays an enum of its own: the definitions of specs/Cells.antt
// and the theorems over them speak of Empty and Full.
#[derive(Clone, Copy)]
pub enum Cell {
    Empty,
    Full(f32),
}

// A sparse vector as a call is handed it: any dims and any two lists, of which nothing is known until they are checked.
#[derive(Clone, Copy, PartialEq)]
pub struct SVectBorrowed<'a> {
    pub dims: u32,
    pub indexes: &'a [u32],
    pub values: &'a [f32],
}

// Whether all indexes are below 2^31 and each is surely above the one before: of two such numbers the first less
// the second, modulo 2^32, has its highest bit set where the first is smaller. All are looked at, and by steps of
// which the compiler can take several at once; so in `some_zero`.
fn all_rise(indexes: &[u32]) -> bool
    ensures { result ≡ true → any_below (falls indexes.now) (length indexes.now) ≡ false }
{
    if indexes.len() == 0 {
        return true;
    }
    let mut all: u32 = 2147483648;
    let mut any: u32 = indexes[0];
    for i in 1..indexes.len() {
        let before = indexes[i - 1];
        let here = indexes[i];
        all &= before.wrapping_sub(here);
        any |= here;
    }
    if all < 2147483648 {
        return false;
    }
    any < 2147483648
}

// The first entry whose index is not above the one before. They are looked at one by one only where `all_rise` is
// not sure.
fn first_fall(indexes: &[u32]) -> Option<usize>
    ensures { result ≡ first_where (falls indexes.now) (length indexes.now) }
{
    if all_rise(indexes) {
        return None;
    }
    for i in 1..indexes.len() {
        let low = indexes[i - 1];
        let high = indexes[i];
        if high <= low {
            return Some(i);
        }
    }
    None
}

// Whether the last index is at or above `dims`.
fn too_high(dims: u32, indexes: &[u32]) -> bool
    ensures { result ≡ too_high dims indexes.now }
{
    match indexes {
        [.., last] => dims <= *last,
        [] => false,
    }
}

// Whether some value is zero. No `any`: that stops early, and takes one value at a time.
fn some_zero(values: &[f32]) -> bool
    ensures { result ≡ any_below (zero_at values.now) (length values.now) }
{
    let mut found = false;
    for value in values {
        if *value == 0.0 {
            found = true;
        }
    }
    found
}

// The first entry whose value is zero. It is looked for only where there is one.
fn first_zero(values: &[f32]) -> Option<usize>
    ensures { result ≡ position is_zero values.now }
{
    if !some_zero(values) {
        return None;
    }
    values.iter().position(|value| *value == 0.0)
}

impl SVectBorrowed<'_> {
    // Whether this is a sparse vector. Refuses with Dims, Length, Order, Index, Zero.
    pub fn check(self) -> Result<(), Refusal>
        ensures { Checks (checked_of (seen self.entry)) result }
    {
        if self.dims == 0 {
            return Err(Refusal::Dims);
        }
        if 1048575 < self.dims {
            return Err(Refusal::Dims);
        }
        if self.indexes.len() != self.values.len() {
            return Err(Refusal::Length);
        }
        if let Some(at) = first_fall(self.indexes) {
            return Err(Refusal::Order(at));
        }
        if too_high(self.dims, self.indexes) {
            return Err(Refusal::Index(self.indexes.len() - 1));
        }
        if let Some(at) = first_zero(self.values) {
            return Err(Refusal::Zero(at));
        }
        Ok(())
    }
}

// The first refusal of two vectors: left, right.
pub fn check_each(a: SVectBorrowed<'_>, b: SVectBorrowed<'_>) -> Result<(), Refusal>
    ensures { Checks (each_of (seen a.entry) (seen b.entry)) result }
{
    a.check()?;
    b.check()
}

// The first refusal of two vectors that have to have equal dims: left, right, Differ.
pub fn check_pair(a: SVectBorrowed<'_>, b: SVectBorrowed<'_>) -> Result<(), Refusal>
    ensures { Checks (pair_of (seen a.entry) (seen b.entry)) result }
{
    check_each(a, b)?;
    if a.dims != b.dims {
        return Err(Refusal::Differ);
    }
    Ok(())
}
