// What the exported calls share: answers as numbers. The number is returned, and the rest goes to lent
// slots. Each slot for a number is set on every call: 0 beside a refusal, but for its place. A float is left
// as it was by a refusal. These are parts of the crates above and no calls of their own.
// Kinds, numbers and slots are the C interface. Each function below `tell` is for one kind of answer, which has slots of its own.

#![tactic(auto)]

ghost use Rattle.std.specs.Prelude.{[], ◌∷◌, ◌≡◌};
ghost use Rattle.refusal.specs.Answers.{gives, says, checked_says, distance_says, written_says, merged_says, asked_says, order_says};
ghost use Rattle.folds.specs.Calls.{summed_says};
ghost use Rattle.exports_answers.specs.Answers.{heard, number_told, place_told};
ghost use Rattle.exports_answers.specs.Bounds.{start_bound, end_bound, bound_of};

use folds::Three;
use refusal::{Merged, Refusal, Written};
use std::cmp::Ordering;
use std::ops::Bound;

// The number of an answer, and its place: 0 and 0 where it is no refusal.
pub fn tell<T: Copy>(r: Result<T, Refusal>, place: &mut usize) -> u32
    ensures number { result ≡ number_told r }
    ensures place { place.new ≡ place_told r }
{
    match r {
        Ok(_) => {
            *place = 0;
            0
        }
        Err(refusal) => {
            *place = refusal.place();
            refusal.number()
        }
    }
}

// No other number.
pub fn tell_checked(r: Result<(), Refusal>, place: &mut usize) -> u32
    ensures { checked_says r ≡ says result place.new [] }
{
    tell(r, place)
}

// A float. A refusal does not touch its slot, nor the three of the next.
pub fn tell_distance(r: Result<f32, Refusal>, value: &mut f32, place: &mut usize) -> u32
    ensures { heard (value.old ∷ []) (distance_says r) ≡ gives result place.new [] (value.new ∷ []) }
{
    if let Ok(x) = r {
        *value = x;
    }
    tell(r, place)
}

// Three floats.
pub fn tell_summed(
    r: Result<Three, Refusal>,
    xy: &mut f32,
    x2: &mut f32,
    y2: &mut f32,
    place: &mut usize,
) -> u32
    ensures { heard (xy.old ∷ x2.old ∷ y2.old ∷ []) (summed_says r)
        ≡ gives result place.new [] (xy.new ∷ x2.new ∷ y2.new ∷ []) }
{
    if let Ok(t) = r {
        *xy = t.xy;
        *x2 = t.x2;
        *y2 = t.y2;
    }
    tell(r, place)
}

// The dims and the entries or words of what was written.
pub fn tell_written(
    r: Result<Written, Refusal>,
    dims: &mut u32,
    len: &mut usize,
    place: &mut usize,
) -> u32
    ensures { written_says r ≡ says result place.new (dims.new ∷ len.new ∷ []) }
{
    let w = r.unwrap_or(Written { dims: 0, len: 0 });
    *dims = w.dims;
    *len = w.len;
    tell(r, place)
}

// These, and the turns.
pub fn tell_merged(
    r: Result<Merged, Refusal>,
    dims: &mut u32,
    len: &mut usize,
    turns: &mut usize,
    place: &mut usize,
) -> u32
    ensures { merged_says r ≡ says result place.new (dims.new ∷ len.new ∷ turns.new ∷ []) }
{
    let m = r.unwrap_or(Merged {
        dims: 0,
        len: 0,
        turns: 0,
    });
    *dims = m.dims;
    *len = m.len;
    *turns = m.turns;
    tell(r, place)
}

// 1 for yes.
pub fn tell_asked(r: Result<bool, Refusal>, yes: &mut u32, place: &mut usize) -> u32
    ensures { asked_says r ≡ says result place.new (yes.new ∷ []) }
{
    *yes = r.unwrap_or(false) as u32;
    tell(r, place)
}

// 1 less, 2 equal, 3 greater, 4 for no order.
pub fn tell_order(r: Result<Option<Ordering>, Refusal>, order: &mut u32, place: &mut usize) -> u32
    ensures { order_says r ≡ says result place.new (order.new ∷ []) }
{
    *order = match r {
        Ok(Some(Ordering::Less)) => 1,
        Ok(Some(Ordering::Equal)) => 2,
        Ok(Some(Ordering::Greater)) => 3,
        Ok(None) => 4,
        Err(_) => 0,
    };
    tell(r, place)
}

// A bound from its kind and its number; `other` where there is no such kind.
fn bound_of(other: Bound<u32>, kind: u32, n: u32) -> Bound<u32>
    ensures { result ≡ bound_of other kind n }
{
    match kind {
        0 => Bound::Included(n),
        1 => Bound::Excluded(n),
        2 => Bound::Unbounded,
        _ => other,
    }
}

// Where a slice starts and where it ends. A bound of an unknown kind is one that is refused.
pub fn start_bound(kind: u32, n: u32) -> Bound<u32>
    ensures { result ≡ start_bound kind n }
{
    bound_of(Bound::Excluded(4294967295), kind, n)
}

pub fn end_bound(kind: u32, n: u32) -> Bound<u32>
    ensures { result ≡ end_bound kind n }
{
    bound_of(Bound::Included(4294967295), kind, n)
}
