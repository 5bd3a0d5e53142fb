// Bit vectors: a bit vector is its dims and its words. Every call tests the vectors it is given, the
// left one first; a refusal leaves a lent output as it was. The distances are passed on.

#![tactic(auto)]

ghost use Rattle.refusal.specs.Answers.{Checks};
ghost use Rattle.bits.specs.Vectors.{seen};
ghost use Rattle.bits.specs.Calls.{checked_of};
ghost use Rattle.bit_words.specs.declared.Op.TheVariants.{And, Or, Xor};
ghost use Rattle.bit.specs.Calls.{Combines};
ghost use Rattle.bvect.specs.Calls.{Zeroes, Gets, Cuts, Equals, Compares};

pub use bit::BVectBorrowed;
pub use bit_distances::{
    operator_dot, operator_hamming, operator_jaccard, operator_jaccard_or_nan,
};
use refusal::{Refusal, Written};
use std::cmp::Ordering;
use std::ops::Bound;

// Whether this is a bit vector. Refuses with Dims, Length, Padding.
pub fn new_checked(v: BVectBorrowed<'_>) -> Result<(), Refusal>
    ensures { Checks (checked_of (seen v.entry)) result }
{
    v.check()
}

// Writes the vector of `dims` clear bits to the front of `out`. Refuses with Dims, Room.
pub fn zero(dims: u32, out: &mut [u64]) -> Result<Written, Refusal>
    ensures { Zeroes dims out.old result out.new }
{
    if dims == 0 {
        return Err(Refusal::Dims);
    }
    if 65535 < dims {
        return Err(Refusal::Dims);
    }
    let len = bit::words_for(dims);
    if out.len() < len {
        return Err(Refusal::Room(len));
    }
    bit_slices::clear(len, out);
    Ok(Written { dims, len })
}

// Whether the bit at `index` is set. Refuses as `new_checked` does, and then with Index.
pub fn get(v: BVectBorrowed<'_>, index: u32) -> Result<bool, Refusal>
    ensures { Gets (seen v.entry) index result }
{
    v.check()?;
    if v.dims <= index {
        return Err(Refusal::Index(index as usize));
    }
    Ok(bit_slices::bit_at(v.data, index as usize))
}

// Writes a AND b to the front of `out`, and answers its dims and words. Refuses as `bit::check_pair`
// does, and then with Room. So do the next two.
pub fn operator_and(
    a: BVectBorrowed<'_>,
    b: BVectBorrowed<'_>,
    out: &mut [u64],
) -> Result<Written, Refusal>
    ensures { Combines And (seen a.entry) (seen b.entry) out.old result out.new }
{
    bit::vector_and(a, b, out)
}

pub fn operator_or(
    a: BVectBorrowed<'_>,
    b: BVectBorrowed<'_>,
    out: &mut [u64],
) -> Result<Written, Refusal>
    ensures { Combines Or (seen a.entry) (seen b.entry) out.old result out.new }
{
    bit::vector_or(a, b, out)
}

pub fn operator_xor(
    a: BVectBorrowed<'_>,
    b: BVectBorrowed<'_>,
    out: &mut [u64],
) -> Result<Written, Refusal>
    ensures { Combines Xor (seen a.entry) (seen b.entry) out.old result out.new }
{
    bit::vector_xor(a, b, out)
}

// Writes the bits that the bounds name to the front of `out`, and answers their dims and words. Refuses
// as `new_checked` does, and then with Bounds, Room.
pub fn subvector(
    v: BVectBorrowed<'_>,
    from: Bound<u32>,
    to: Bound<u32>,
    out: &mut [u64],
) -> Result<Written, Refusal>
    ensures { Cuts (seen v.entry) from to out.old result out.new }
{
    v.check()?;
    let Some(span) = refusal::span_of(from, to, v.dims) else {
        return Err(Refusal::Bounds);
    };
    let size = span.end - span.start;
    let len = bit::words_for(size);
    if out.len() < len {
        return Err(Refusal::Room(len));
    }
    bit_slices::gather_all(v.data, span.start as usize, span.end as usize, len, out);
    Ok(Written { dims: size, len })
}

// Whether two vectors have the same dims and the same words. Refuses as `new_checked` does, for the
// left and then for the right. A call and no `PartialEq`, since it may refuse; so `partial_cmp`. Words are compared by
// `bit_orders`, where the wrong program for it is.
pub fn eq(a: BVectBorrowed<'_>, b: BVectBorrowed<'_>) -> Result<bool, Refusal>
    ensures { Equals (seen a.entry) (seen b.entry) result }
{
    bit::check_each(a, b)?;
    Ok(a.dims == b.dims && bit_orders::same_words(a.data, b.data))
}

// How two vectors compare: the lowest place at which they differ decides, and the side with the one is
// Greater; vectors of different dims have no order. Refuses as `eq` does.
pub fn partial_cmp(a: BVectBorrowed<'_>, b: BVectBorrowed<'_>) -> Result<Option<Ordering>, Refusal>
    ensures { Compares (seen a.entry) (seen b.entry) result }
{
    bit::check_each(a, b)?;
    if a.dims != b.dims {
        return Ok(None);
    }
    Ok(Some(bit_orders::compare_all(a.data, b.data)))
}
