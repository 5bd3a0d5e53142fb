// The calls of `svect` under C names, as `exports_bits` has those of `bvect`.
// That a vector is three parameters here, a bound two numbers and an answer slots is the C interface.

#![tactic(auto)]

ghost use Rattle.std.specs.Prelude.{[], ◌∷◌};
ghost use Rattle.refusal.specs.Answers.{gives, says, checked_says, distance_says, written_says, merged_says, asked_says, order_says, Checks};
ghost use Rattle.sparse.specs.Vectors.{vector};
ghost use Rattle.sparse.specs.Calls.{checked_of};
ghost use Rattle.merges.specs.Calls.{Joins};
ghost use Rattle.merges.specs.declared.Op.TheVariants.{Add, Sub, Mul};
ghost use Rattle.folds.specs.Calls.{summed_says, Dots, L2s, SumsThree};
ghost use Rattle.sparse_slices.specs.Calls.{Cuts};
ghost use Rattle.sparse_orders.specs.Calls.{Equals, Compares};
ghost use Rattle.svect.specs.Calls.{Zeroes};
ghost use Rattle.exports_answers.specs.Answers.{Tells, heard};
ghost use Rattle.exports_answers.specs.Bounds.{start_bound, end_bound};

use sparse::SVectBorrowed;

// The numbers of `svect::new_checked`.
#[unsafe(no_mangle)]
pub extern "C" fn oxl_svect_new_checked(
    dims: u32,
    indexes: &[u32],
    values: &[f32],
    place: &mut usize,
) -> u32
    ensures { Tells checked_says
        (Checks (checked_of (vector dims indexes.now values.now)))
        (says result place.new []) }
{
    let v = SVectBorrowed {
        dims,
        indexes,
        values,
    };
    exports_answers::tell_checked(svect::new_checked(v), place)
}

// The numbers of `svect::zero`.
#[unsafe(no_mangle)]
pub extern "C" fn oxl_svect_zero(
    dims: u32,
    dims_out: &mut u32,
    len: &mut usize,
    place: &mut usize,
) -> u32
    ensures { Tells written_says (Zeroes dims) (says result place.new (dims_out.new ∷ len.new ∷ [])) }
{
    exports_answers::tell_written(svect::zero(dims), dims_out, len, place)
}

// The numbers of `svect::operator_dot`, with the distance in `value`.
#[unsafe(no_mangle)]
pub extern "C" fn oxl_svect_operator_dot(
    dims_a: u32,
    ia: &[u32],
    va: &[f32],
    dims_b: u32,
    ib: &[u32],
    vb: &[f32],
    value: &mut f32,
    place: &mut usize,
) -> u32
    ensures { Tells (λ d. heard (value.old ∷ []) (distance_says d))
        (Dots (vector dims_a ia.now va.now) (vector dims_b ib.now vb.now))
        (gives result place.new [] (value.new ∷ [])) }
{
    let a = SVectBorrowed {
        dims: dims_a,
        indexes: ia,
        values: va,
    };
    let b = SVectBorrowed {
        dims: dims_b,
        indexes: ib,
        values: vb,
    };
    exports_answers::tell_distance(svect::operator_dot(a, b), value, place)
}

// The numbers of `svect::operator_l2`.
#[unsafe(no_mangle)]
pub extern "C" fn oxl_svect_operator_l2(
    dims_a: u32,
    ia: &[u32],
    va: &[f32],
    dims_b: u32,
    ib: &[u32],
    vb: &[f32],
    value: &mut f32,
    place: &mut usize,
) -> u32
    ensures { Tells (λ d. heard (value.old ∷ []) (distance_says d))
        (L2s (vector dims_a ia.now va.now) (vector dims_b ib.now vb.now))
        (gives result place.new [] (value.new ∷ [])) }
{
    let a = SVectBorrowed {
        dims: dims_a,
        indexes: ia,
        values: va,
    };
    let b = SVectBorrowed {
        dims: dims_b,
        indexes: ib,
        values: vb,
    };
    exports_answers::tell_distance(svect::operator_l2(a, b), value, place)
}

// The numbers of `svect::three_sums`, with the products and the squares of either side in `xy`, `x2`, `y2`.
#[unsafe(no_mangle)]
pub extern "C" fn oxl_svect_three_sums(
    dims_a: u32,
    ia: &[u32],
    va: &[f32],
    dims_b: u32,
    ib: &[u32],
    vb: &[f32],
    xy: &mut f32,
    x2: &mut f32,
    y2: &mut f32,
    place: &mut usize,
) -> u32
    ensures { Tells
        (λ t. heard (xy.old ∷ x2.old ∷ y2.old ∷ []) (summed_says t))
        (SumsThree (vector dims_a ia.now va.now) (vector dims_b ib.now vb.now))
        (gives result place.new [] (xy.new ∷ x2.new ∷ y2.new ∷ [])) }
{
    let a = SVectBorrowed {
        dims: dims_a,
        indexes: ia,
        values: va,
    };
    let b = SVectBorrowed {
        dims: dims_b,
        indexes: ib,
        values: vb,
    };
    exports_answers::tell_summed(svect::three_sums(a, b), xy, x2, y2, place)
}

// The numbers of `svect::operator_add`, with the dims and the entries of what was written, and the turns.
#[unsafe(no_mangle)]
pub extern "C" fn oxl_svect_operator_add(
    dims_a: u32,
    ia: &[u32],
    va: &[f32],
    dims_b: u32,
    ib: &[u32],
    vb: &[f32],
    oi: &mut [u32],
    ov: &mut [f32],
    dims: &mut u32,
    len: &mut usize,
    turns: &mut usize,
    place: &mut usize,
) -> u32
    ensures { Tells merged_says
        (λ w. Joins Add (vector dims_a ia.now va.now) (vector dims_b ib.now vb.now)
        oi.old ov.old w oi.new ov.new)
        (says result place.new (dims.new ∷ len.new ∷ turns.new ∷ [])) }
{
    let a = SVectBorrowed {
        dims: dims_a,
        indexes: ia,
        values: va,
    };
    let b = SVectBorrowed {
        dims: dims_b,
        indexes: ib,
        values: vb,
    };
    exports_answers::tell_merged(svect::operator_add(a, b, oi, ov), dims, len, turns, place)
}

// The numbers of `svect::operator_sub`.
#[unsafe(no_mangle)]
pub extern "C" fn oxl_svect_operator_sub(
    dims_a: u32,
    ia: &[u32],
    va: &[f32],
    dims_b: u32,
    ib: &[u32],
    vb: &[f32],
    oi: &mut [u32],
    ov: &mut [f32],
    dims: &mut u32,
    len: &mut usize,
    turns: &mut usize,
    place: &mut usize,
) -> u32
    ensures { Tells merged_says
        (λ w. Joins Sub (vector dims_a ia.now va.now) (vector dims_b ib.now vb.now)
        oi.old ov.old w oi.new ov.new)
        (says result place.new (dims.new ∷ len.new ∷ turns.new ∷ [])) }
{
    let a = SVectBorrowed {
        dims: dims_a,
        indexes: ia,
        values: va,
    };
    let b = SVectBorrowed {
        dims: dims_b,
        indexes: ib,
        values: vb,
    };
    exports_answers::tell_merged(svect::operator_sub(a, b, oi, ov), dims, len, turns, place)
}

// The numbers of `svect::operator_mul`.
#[unsafe(no_mangle)]
pub extern "C" fn oxl_svect_operator_mul(
    dims_a: u32,
    ia: &[u32],
    va: &[f32],
    dims_b: u32,
    ib: &[u32],
    vb: &[f32],
    oi: &mut [u32],
    ov: &mut [f32],
    dims: &mut u32,
    len: &mut usize,
    turns: &mut usize,
    place: &mut usize,
) -> u32
    ensures { Tells merged_says
        (λ w. Joins Mul (vector dims_a ia.now va.now) (vector dims_b ib.now vb.now)
        oi.old ov.old w oi.new ov.new)
        (says result place.new (dims.new ∷ len.new ∷ turns.new ∷ [])) }
{
    let a = SVectBorrowed {
        dims: dims_a,
        indexes: ia,
        values: va,
    };
    let b = SVectBorrowed {
        dims: dims_b,
        indexes: ib,
        values: vb,
    };
    exports_answers::tell_merged(svect::operator_mul(a, b, oi, ov), dims, len, turns, place)
}

// The numbers of `svect::subvector`. A bound is as for `oxl_bvect_subvector`.
#[unsafe(no_mangle)]
pub extern "C" fn oxl_svect_subvector(
    dims: u32,
    indexes: &[u32],
    values: &[f32],
    from_kind: u32,
    from: u32,
    to_kind: u32,
    to: u32,
    oi: &mut [u32],
    ov: &mut [f32],
    dims_out: &mut u32,
    len: &mut usize,
    place: &mut usize,
) -> u32
    ensures { Tells written_says
        (λ w. Cuts (vector dims indexes.now values.now) (start_bound from_kind from)
        (end_bound to_kind to) oi.old ov.old w oi.new ov.new)
        (says result place.new (dims_out.new ∷ len.new ∷ [])) }
{
    let v = SVectBorrowed {
        dims,
        indexes,
        values,
    };
    let start = exports_answers::start_bound(from_kind, from);
    let end = exports_answers::end_bound(to_kind, to);
    exports_answers::tell_written(
        svect::subvector(v, start, end, oi, ov),
        dims_out,
        len,
        place,
    )
}

// The numbers of `svect::eq`: `yes` is 1 if they are equal.
#[unsafe(no_mangle)]
pub extern "C" fn oxl_svect_eq(
    dims_a: u32,
    ia: &[u32],
    va: &[f32],
    dims_b: u32,
    ib: &[u32],
    vb: &[f32],
    yes: &mut u32,
    place: &mut usize,
) -> u32
    ensures { Tells asked_says
        (Equals (vector dims_a ia.now va.now) (vector dims_b ib.now vb.now))
        (says result place.new (yes.new ∷ [])) }
{
    let a = SVectBorrowed {
        dims: dims_a,
        indexes: ia,
        values: va,
    };
    let b = SVectBorrowed {
        dims: dims_b,
        indexes: ib,
        values: vb,
    };
    exports_answers::tell_asked(svect::eq(a, b), yes, place)
}

// The numbers of `svect::partial_cmp`: `order` is 1 less, 2 equal, 3 greater, 4 unordered.
#[unsafe(no_mangle)]
pub extern "C" fn oxl_svect_partial_cmp(
    dims_a: u32,
    ia: &[u32],
    va: &[f32],
    dims_b: u32,
    ib: &[u32],
    vb: &[f32],
    order: &mut u32,
    place: &mut usize,
) -> u32
    ensures { Tells order_says
        (Compares (vector dims_a ia.now va.now) (vector dims_b ib.now vb.now))
        (says result place.new (order.new ∷ [])) }
{
    let a = SVectBorrowed {
        dims: dims_a,
        indexes: ia,
        values: va,
    };
    let b = SVectBorrowed {
        dims: dims_b,
        indexes: ib,
        values: vb,
    };
    exports_answers::tell_order(svect::partial_cmp(a, b), order, place)
}
