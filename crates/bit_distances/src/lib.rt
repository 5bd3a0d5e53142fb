// Distances of bit vectors. Every call tests the vectors it is given, the left one first.

#![tactic(auto)]

ghost use Rattle.bits.specs.Vectors.{seen};
ghost use Rattle.bit_distances.specs.Calls.{Dots, Hammings, Jaccards, JaccardsOrNan, JaccardsIf};

use bit::{BVectBorrowed, Two};
use refusal::Refusal;

// The negated number of common ones. Refuses as `bit::check_pair` does, and so do all others here.
pub fn operator_dot(a: BVectBorrowed<'_>, b: BVectBorrowed<'_>) -> Result<f32, Refusal>
    ensures { Dots (seen a.entry) (seen b.entry) result }
{
    let n = bit::sum_of_and(a, b)?;
    Ok(-(n as f32))
}

// The number of differing bits.
pub fn operator_hamming(a: BVectBorrowed<'_>, b: BVectBorrowed<'_>) -> Result<f32, Refusal>
    ensures { Hammings (seen a.entry) (seen b.entry) result }
{
    let n = bit::sum_of_xor(a, b)?;
    Ok(n as f32)
}

// 1.0 - (and / or), each step rounded once. Two vectors without ones give +0.0 if such are `alike`, and NaN if not.
fn jaccard(alike: bool, a: BVectBorrowed<'_>, b: BVectBorrowed<'_>) -> Result<f32, Refusal>
    ensures { JaccardsIf alike (seen a.entry) (seen b.entry) result }
{
    let Two { and, or } = bit::sum_of_and_or(a, b)?;
    if alike && or == 0 {
        return Ok(0.0);
    }
    let common = and as f32;
    let all = or as f32;
    Ok(1.0 - common / all)
}

// Jaccard: 1 less the share of common ones among the ones of either. Two vectors without ones are alike: +0.0. Never NaN.
pub fn operator_jaccard(a: BVectBorrowed<'_>, b: BVectBorrowed<'_>) -> Result<f32, Refusal>
    ensures { Jaccards (seen a.entry) (seen b.entry) result }
{
    jaccard(true, a, b)
}

// The same, but NaN for two vectors without ones, and for no others: the Rust's rule.
pub fn operator_jaccard_or_nan(a: BVectBorrowed<'_>, b: BVectBorrowed<'_>) -> Result<f32, Refusal>
    ensures { JaccardsOrNan (seen a.entry) (seen b.entry) result }
{
    jaccard(false, a, b)
}
