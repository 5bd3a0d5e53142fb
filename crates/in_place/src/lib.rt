// A merge of a row into the entries of a state, in place, in the room that the state has. The state's
// entries from the row's first index on are moved to the far end of the room, and a walk over them and
// the row, as in an addition, writes what they give to the front. So no entry is written over before it
// is read; and the entries below the row's first index are not touched.

#![tactic(auto)]

ghost use Rattle.std.specs.Prelude.{◌≡◌, ◌≤◌, take};
ghost use Rattle.sparse.specs.Vectors.{vector, seen};
ghost use Rattle.merges.specs.Algebra.{joins};
ghost use Rattle.merges.specs.declared.Op.TheVariants.{Add};
ghost use Rattle.in_place.specs.Turns.{first_index, row_turns};
ghost use Rattle.in_place.specs.Loops.{Roomy, around, Raised, Grown};

use copies::{Share, Step};
use merges::Both;
use sparse::SVectBorrowed;

// The first index of a row, or its dims if it has none.
fn first_index(row: SVectBorrowed<'_>) -> u32
    ensures { result ≡ first_index (seen row.entry) }
{
    match row.indexes {
        [first, ..] => *first,
        [] => row.dims,
    }
}

// Merges a row with the entries of a state: the first `low` lie below the row and stand in front, the
// others stand from `gap + low` up to `cap`. The answer stands in front. After each turn comes a stride.
fn merge_up(
    si: &mut [u32],
    sv: &mut [f32],
    low: usize,
    gap: usize,
    cap: usize,
    row: SVectBorrowed<'_>,
) -> Both
    requires { Raised (vector row.dims (around low gap cap si.old) (around low gap cap sv.old)) (seen row) low gap cap si.old sv.old }
    ensures { let a = vector row.entry.dims (around low gap cap si.old) (around low gap cap sv.old) in Grown (joins Add a (seen row.entry)) (row_turns a (seen row.entry)) cap si.old sv.old result si.new sv.new }
{
    let at = gap + low;
    let room = cap - at;
    let share = if row.indexes.len() < room / 32 {
        Share::Far
    } else if row.indexes.len() < room / 4 {
        Share::Long
    } else {
        Share::Even
    };
    let mut step = Step { at, q: 0, n: low };
    let mut turns: usize = 0;
    while step.at + step.q < cap + row.indexes.len() {
        let s = strides::any_step(si, sv, step, cap, row);
        let r = strides::any_stride(share, si, sv, s, cap, row);
        step = r.step;
        turns += 1 + r.turns;
    }
    Both { len: step.n, turns }
}

// Merges a row into the first `len` entries of two lists that have room for `cap`. The answer stands in
// front; from `cap` on nothing changes. Each list is moved on its own, which is faster than one walk over both.
// For the crates above, not for users.
pub fn merge_in_place(
    si: &mut [u32],
    sv: &mut [f32],
    len: usize,
    cap: usize,
    row: SVectBorrowed<'_>,
) -> Both
    requires fits { len ≤ cap }
    requires roomy { Roomy (vector row.dims (take len si.old) (take len sv.old)) (seen row) cap si.old sv.old }
    ensures { let a = vector row.entry.dims (take len si.old) (take len sv.old) in Grown (joins Add a (seen row.entry)) (row_turns a (seen row.entry)) cap si.old sv.old result si.new sv.new }
{
    let low = walks::partition_point(&si[..len], first_index(row));
    let gap = cap - len;
    si.copy_within(low..len, gap + low);
    sv.copy_within(low..len, gap + low);
    merge_up(si, sv, low, gap, cap, row)
}
