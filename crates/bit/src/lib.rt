// Counts of the ones of bit vectors, and word-wise combinations. Each public call tests the vectors it
// is given, the left one first. What a bit vector is stands in `bits`, whose names are passed on here.

#![tactic(auto)]

ghost use Rattle.bits.specs.Vectors.{seen};
ghost use Rattle.bit_words.specs.declared.Op.TheVariants.{And, Or, Xor};
ghost use Rattle.bit.specs.Calls.{SumsOne, Sums, SumsBoth, Combines};

pub use bit_words::{Op, Two};
pub use bits::{BVectBorrowed, check_each, check_pair, words_for};
use refusal::{Refusal, Written};

// The number of ones of a and b put together: what the three calls share that are named after the operation, as users know them.
fn sum_of(op: Op, a: BVectBorrowed<'_>, b: BVectBorrowed<'_>) -> Result<u32, Refusal>
    ensures { Sums op (seen a.entry) (seen b.entry) result }
{
    check_pair(a, b)?;
    Ok(bit_words::ones_of(op, a.data, b.data))
}

// Writes a and b put together to the front of `out`: what the last three calls share.
fn vector_of(
    op: Op,
    a: BVectBorrowed<'_>,
    b: BVectBorrowed<'_>,
    out: &mut [u64],
) -> Result<Written, Refusal>
    ensures { Combines op (seen a.entry) (seen b.entry) out.old result out.new }
{
    check_pair(a, b)?;
    let len = a.data.len();
    if out.len() < len {
        return Err(Refusal::Room(len));
    }
    bit_words::combine(op, a.data, b.data, out);
    Ok(Written { dims: a.dims, len })
}

// The number of ones of a. Refuses as its `check` does.
pub fn sum_of_x(a: BVectBorrowed<'_>) -> Result<u32, Refusal>
    ensures { SumsOne (seen a.entry) result }
{
    a.check()?;
    Ok(bit_words::ones_of(Op::And, a.data, a.data))
}

// The number of ones of a AND b. Refuses as `check_pair` does, and so do the next three.
pub fn sum_of_and(a: BVectBorrowed<'_>, b: BVectBorrowed<'_>) -> Result<u32, Refusal>
    ensures { Sums And (seen a.entry) (seen b.entry) result }
{
    sum_of(Op::And, a, b)
}

pub fn sum_of_or(a: BVectBorrowed<'_>, b: BVectBorrowed<'_>) -> Result<u32, Refusal>
    ensures { Sums Or (seen a.entry) (seen b.entry) result }
{
    sum_of(Op::Or, a, b)
}

pub fn sum_of_xor(a: BVectBorrowed<'_>, b: BVectBorrowed<'_>) -> Result<u32, Refusal>
    ensures { Sums Xor (seen a.entry) (seen b.entry) result }
{
    sum_of(Op::Xor, a, b)
}

// The numbers of ones of a AND b and of a OR b, in one walk.
pub fn sum_of_and_or(a: BVectBorrowed<'_>, b: BVectBorrowed<'_>) -> Result<Two, Refusal>
    ensures { SumsBoth (seen a.entry) (seen b.entry) result }
{
    check_pair(a, b)?;
    Ok(bit_words::ones_of_both(a.data, b.data))
}

// Writes a AND b to the front of `out`, and answers its dims and words. Refuses as `check_pair` does,
// and then with Room; a refusal leaves `out` as it was. So do the next two.
pub fn vector_and(
    a: BVectBorrowed<'_>,
    b: BVectBorrowed<'_>,
    out: &mut [u64],
) -> Result<Written, Refusal>
    ensures { Combines And (seen a.entry) (seen b.entry) out.old result out.new }
{
    vector_of(Op::And, a, b, out)
}

pub fn vector_or(
    a: BVectBorrowed<'_>,
    b: BVectBorrowed<'_>,
    out: &mut [u64],
) -> Result<Written, Refusal>
    ensures { Combines Or (seen a.entry) (seen b.entry) out.old result out.new }
{
    vector_of(Op::Or, a, b, out)
}

pub fn vector_xor(
    a: BVectBorrowed<'_>,
    b: BVectBorrowed<'_>,
    out: &mut [u64],
) -> Result<Written, Refusal>
    ensures { Combines Xor (seen a.entry) (seen b.entry) out.old result out.new }
{
    vector_of(Op::Xor, a, b, out)
}
