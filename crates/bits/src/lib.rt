// Bit vectors as words, and their checks. Bit i of a vector is bit i % 64 of word i / 64.

#![tactic(auto)]

ghost use Rattle.std.specs.Prelude.{◌≡◌};
ghost use Rattle.refusal.specs.Answers.{Checks};
ghost use Rattle.bits.specs.Bits.{words_for};
ghost use Rattle.bits.specs.Vectors.{seen};
ghost use Rattle.bits.specs.Calls.{checked_of, each_of, pair_of};

use refusal::Refusal;

// A bit vector as a call is handed it: any dims and any words, of which nothing is known until they are checked.
#[derive(Clone, Copy)]
pub struct BVectBorrowed<'a> {
    pub dims: u32,
    pub data: &'a [u64],
}

// How many words hold `dims` bits.
pub fn words_for(dims: u32) -> usize
    ensures { result ≡ words_for dims }
{
    (dims as usize + 63) / 64
}

impl BVectBorrowed<'_> {
    // Whether this is a bit vector. Refuses with Dims, Length, Padding.
    pub fn check(self) -> Result<(), Refusal>
        ensures { Checks (checked_of (seen self.entry)) result }
    {
        if self.dims == 0 {
            return Err(Refusal::Dims);
        }
        if 65535 < self.dims {
            return Err(Refusal::Dims);
        }
        if self.data.len() != words_for(self.dims) {
            return Err(Refusal::Length);
        }
        let last = self.data.len() - 1;
        let used = self.dims % 64;
        if used != 0 {
            let word = self.data[last];
            if (word >> used) != 0 {
                return Err(Refusal::Padding(last));
            }
        }
        Ok(())
    }
}

// The first refusal of two vectors: left, right.
pub fn check_each(a: BVectBorrowed<'_>, b: BVectBorrowed<'_>) -> Result<(), Refusal>
    ensures { Checks (each_of (seen a.entry) (seen b.entry)) result }
{
    a.check()?;
    b.check()
}

// The first refusal of two vectors that have to have equal dims: left, right, Differ.
pub fn check_pair(a: BVectBorrowed<'_>, b: BVectBorrowed<'_>) -> Result<(), Refusal>
    ensures { Checks (pair_of (seen a.entry) (seen b.entry)) result }
{
    check_each(a, b)?;
    if a.dims != b.dims {
        return Err(Refusal::Differ);
    }
    Ok(())
}
