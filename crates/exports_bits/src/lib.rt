// The calls of `bvect` under C names, for C and Rust. A list is passed as a pointer and a length. The number of an
// answer is returned, 0 if nothing was refused; the rest goes to lent slots. `Tells` in a contract says that what
// the caller is given is what an answer of the call below says.
// That a vector is two parameters here, a bound two numbers and an answer slots is the C interface.

#![tactic(auto)]

ghost use Rattle.std.specs.Prelude.{[], ◌∷◌};
ghost use Rattle.refusal.specs.Answers.{gives, says, checked_says, distance_says, written_says, asked_says, order_says, Checks};
ghost use Rattle.bits.specs.Vectors.{bits};
ghost use Rattle.bits.specs.Calls.{checked_of};
ghost use Rattle.bit_words.specs.declared.Op.TheVariants.{And, Or, Xor};
ghost use Rattle.bit.specs.Calls.{Combines};
ghost use Rattle.bvect.specs.Calls.{Zeroes, Gets, Dots, Hammings, Jaccards, JaccardsOrNan, Cuts, Equals, Compares};
ghost use Rattle.exports_answers.specs.Answers.{Tells, heard};
ghost use Rattle.exports_answers.specs.Bounds.{start_bound, end_bound};

use bvect::BVectBorrowed;

// The numbers of `bvect::new_checked`.
#[unsafe(no_mangle)]
pub extern "C" fn oxl_bvect_new_checked(dims: u32, words: &[u64], place: &mut usize) -> u32
    ensures { Tells checked_says (Checks (checked_of (bits dims words.now))) (says result place.new []) }
{
    let v = BVectBorrowed { dims, data: words };
    exports_answers::tell_checked(bvect::new_checked(v), place)
}

// The numbers of `bvect::zero`.
#[unsafe(no_mangle)]
pub extern "C" fn oxl_bvect_zero(
    dims: u32,
    out: &mut [u64],
    dims_out: &mut u32,
    len: &mut usize,
    place: &mut usize,
) -> u32
    ensures { Tells written_says
        (λ w. Zeroes dims out.old w out.new)
        (says result place.new (dims_out.new ∷ len.new ∷ [])) }
{
    exports_answers::tell_written(bvect::zero(dims, out), dims_out, len, place)
}

// The numbers of `bvect::get`: `yes` is 1 if the bit is set.
#[unsafe(no_mangle)]
pub extern "C" fn oxl_bvect_get(
    dims: u32,
    words: &[u64],
    index: u32,
    yes: &mut u32,
    place: &mut usize,
) -> u32
    ensures { Tells asked_says (Gets (bits dims words.now) index) (says result place.new (yes.new ∷ [])) }
{
    let v = BVectBorrowed { dims, data: words };
    exports_answers::tell_asked(bvect::get(v, index), yes, place)
}

// The numbers of `bvect::operator_dot`, with the distance in `value`.
#[unsafe(no_mangle)]
pub extern "C" fn oxl_bvect_operator_dot(
    dims_a: u32,
    a: &[u64],
    dims_b: u32,
    b: &[u64],
    value: &mut f32,
    place: &mut usize,
) -> u32
    ensures { Tells (λ d. heard (value.old ∷ []) (distance_says d))
        (Dots (bits dims_a a.now) (bits dims_b b.now))
        (gives result place.new [] (value.new ∷ [])) }
{
    let a = BVectBorrowed {
        dims: dims_a,
        data: a,
    };
    let b = BVectBorrowed {
        dims: dims_b,
        data: b,
    };
    exports_answers::tell_distance(bvect::operator_dot(a, b), value, place)
}

// The numbers of `bvect::operator_hamming`.
#[unsafe(no_mangle)]
pub extern "C" fn oxl_bvect_operator_hamming(
    dims_a: u32,
    a: &[u64],
    dims_b: u32,
    b: &[u64],
    value: &mut f32,
    place: &mut usize,
) -> u32
    ensures { Tells (λ d. heard (value.old ∷ []) (distance_says d))
        (Hammings (bits dims_a a.now) (bits dims_b b.now))
        (gives result place.new [] (value.new ∷ [])) }
{
    let a = BVectBorrowed {
        dims: dims_a,
        data: a,
    };
    let b = BVectBorrowed {
        dims: dims_b,
        data: b,
    };
    exports_answers::tell_distance(bvect::operator_hamming(a, b), value, place)
}

// The numbers of `bvect::operator_jaccard`.
#[unsafe(no_mangle)]
pub extern "C" fn oxl_bvect_operator_jaccard(
    dims_a: u32,
    a: &[u64],
    dims_b: u32,
    b: &[u64],
    value: &mut f32,
    place: &mut usize,
) -> u32
    ensures { Tells (λ d. heard (value.old ∷ []) (distance_says d))
        (Jaccards (bits dims_a a.now) (bits dims_b b.now))
        (gives result place.new [] (value.new ∷ [])) }
{
    let a = BVectBorrowed {
        dims: dims_a,
        data: a,
    };
    let b = BVectBorrowed {
        dims: dims_b,
        data: b,
    };
    exports_answers::tell_distance(bvect::operator_jaccard(a, b), value, place)
}

// The numbers of `bvect::operator_jaccard_or_nan`.
#[unsafe(no_mangle)]
pub extern "C" fn oxl_bvect_operator_jaccard_or_nan(
    dims_a: u32,
    a: &[u64],
    dims_b: u32,
    b: &[u64],
    value: &mut f32,
    place: &mut usize,
) -> u32
    ensures { Tells (λ d. heard (value.old ∷ []) (distance_says d))
        (JaccardsOrNan (bits dims_a a.now) (bits dims_b b.now))
        (gives result place.new [] (value.new ∷ [])) }
{
    let a = BVectBorrowed {
        dims: dims_a,
        data: a,
    };
    let b = BVectBorrowed {
        dims: dims_b,
        data: b,
    };
    exports_answers::tell_distance(bvect::operator_jaccard_or_nan(a, b), value, place)
}

// The numbers of `bvect::operator_and`, with the dims and the words of what was written.
#[unsafe(no_mangle)]
pub extern "C" fn oxl_bvect_operator_and(
    dims_a: u32,
    a: &[u64],
    dims_b: u32,
    b: &[u64],
    out: &mut [u64],
    dims: &mut u32,
    len: &mut usize,
    place: &mut usize,
) -> u32
    ensures { Tells written_says
        (λ w. Combines And (bits dims_a a.now) (bits dims_b b.now) out.old w out.new)
        (says result place.new (dims.new ∷ len.new ∷ [])) }
{
    let a = BVectBorrowed {
        dims: dims_a,
        data: a,
    };
    let b = BVectBorrowed {
        dims: dims_b,
        data: b,
    };
    exports_answers::tell_written(bvect::operator_and(a, b, out), dims, len, place)
}

// The numbers of `bvect::operator_or`.
#[unsafe(no_mangle)]
pub extern "C" fn oxl_bvect_operator_or(
    dims_a: u32,
    a: &[u64],
    dims_b: u32,
    b: &[u64],
    out: &mut [u64],
    dims: &mut u32,
    len: &mut usize,
    place: &mut usize,
) -> u32
    ensures { Tells written_says
        (λ w. Combines Or (bits dims_a a.now) (bits dims_b b.now) out.old w out.new)
        (says result place.new (dims.new ∷ len.new ∷ [])) }
{
    let a = BVectBorrowed {
        dims: dims_a,
        data: a,
    };
    let b = BVectBorrowed {
        dims: dims_b,
        data: b,
    };
    exports_answers::tell_written(bvect::operator_or(a, b, out), dims, len, place)
}

// The numbers of `bvect::operator_xor`.
#[unsafe(no_mangle)]
pub extern "C" fn oxl_bvect_operator_xor(
    dims_a: u32,
    a: &[u64],
    dims_b: u32,
    b: &[u64],
    out: &mut [u64],
    dims: &mut u32,
    len: &mut usize,
    place: &mut usize,
) -> u32
    ensures { Tells written_says
        (λ w. Combines Xor (bits dims_a a.now) (bits dims_b b.now) out.old w out.new)
        (says result place.new (dims.new ∷ len.new ∷ [])) }
{
    let a = BVectBorrowed {
        dims: dims_a,
        data: a,
    };
    let b = BVectBorrowed {
        dims: dims_b,
        data: b,
    };
    exports_answers::tell_written(bvect::operator_xor(a, b, out), dims, len, place)
}

// The numbers of `bvect::subvector`. A bound is its kind, 0 included, 1 excluded or 2 unbounded, and its
// number; with another kind it is refused.
#[unsafe(no_mangle)]
pub extern "C" fn oxl_bvect_subvector(
    dims: u32,
    words: &[u64],
    from_kind: u32,
    from: u32,
    to_kind: u32,
    to: u32,
    out: &mut [u64],
    dims_out: &mut u32,
    len: &mut usize,
    place: &mut usize,
) -> u32
    ensures { Tells written_says
        (λ w. Cuts (bits dims words.now) (start_bound from_kind from) (end_bound to_kind to) out.old w
        out.new)
        (says result place.new (dims_out.new ∷ len.new ∷ [])) }
{
    let v = BVectBorrowed { dims, data: words };
    let start = exports_answers::start_bound(from_kind, from);
    let end = exports_answers::end_bound(to_kind, to);
    exports_answers::tell_written(bvect::subvector(v, start, end, out), dims_out, len, place)
}

// The numbers of `bvect::eq`: `yes` is 1 if they are equal.
#[unsafe(no_mangle)]
pub extern "C" fn oxl_bvect_eq(
    dims_a: u32,
    a: &[u64],
    dims_b: u32,
    b: &[u64],
    yes: &mut u32,
    place: &mut usize,
) -> u32
    ensures { Tells asked_says
        (Equals (bits dims_a a.now) (bits dims_b b.now))
        (says result place.new (yes.new ∷ [])) }
{
    let a = BVectBorrowed {
        dims: dims_a,
        data: a,
    };
    let b = BVectBorrowed {
        dims: dims_b,
        data: b,
    };
    exports_answers::tell_asked(bvect::eq(a, b), yes, place)
}

// The numbers of `bvect::partial_cmp`: `order` is 1 less, 2 equal, 3 greater, 4 unordered.
#[unsafe(no_mangle)]
pub extern "C" fn oxl_bvect_partial_cmp(
    dims_a: u32,
    a: &[u64],
    dims_b: u32,
    b: &[u64],
    order: &mut u32,
    place: &mut usize,
) -> u32
    ensures { Tells order_says
        (Compares (bits dims_a a.now) (bits dims_b b.now))
        (says result place.new (order.new ∷ [])) }
{
    let a = BVectBorrowed {
        dims: dims_a,
        data: a,
    };
    let b = BVectBorrowed {
        dims: dims_b,
        data: b,
    };
    exports_answers::tell_order(bvect::partial_cmp(a, b), order, place)
}
