// The turns of a merge of a row into the entries of a state, which stand at the far end of the room: one turn, and
// many at once. All promise the same, a chain of turns (crates/strides/specs), so the merge may choose between them.
// For the crates above, not for users.

#![tactic(auto)]

ghost use Rattle.std.specs.Prelude.{false, ◌≡◌, ◌≤◌, length, get_or};
ghost use Rattle.std.specs.Float.{nan, binary32};
ghost use Rattle.std.specs.Float.Ieee.{add};
ghost use Rattle.sparse.specs.Cells.{is_zero};
ghost use Rattle.copies.specs.Copies.{Clear};
ghost use Rattle.strides.specs.Strides.{Steady, Meeting, Stepped, Ample, Strode};

use copies::{Share, Step};
use sparse::SVectBorrowed;
use steps::Sign;
use walks::Walk;

// A turn of a merge of the state's entries up to `cap` and the row's, from where `s` stands.
fn plain_step(si: &mut [u32], sv: &mut [f32], s: Step, cap: usize, row: SVectBorrowed<'_>) -> Step
    requires { Steady si.old sv.old s.at cap s.n row.indexes.now row.values.now s.q }
    ensures { Stepped si.old sv.old s.at cap s.n row.entry.indexes.now row.entry.values.now s.q result si.new sv.new }
{
    let state = SVectBorrowed {
        dims: row.dims,
        indexes: &si[s.at..cap],
        values: &sv[s.at..cap],
    };
    let w = Walk {
        a: state,
        p: 0,
        b: row,
        q: s.q,
    };
    let t = w.turn();
    let z = Sign::Plus.cell(t.x, t.y);
    let n = walks::put(si, sv, s.n, t.place, z);
    Step {
        at: s.at + t.p,
        q: t.q,
        n,
    }
}

// A turn where both sides have an entry left and their values do not cancel out: one entry is stored, without a branch
// on which side is next.
fn store_step(si: &mut [u32], sv: &mut [f32], s: Step, cap: usize, row: SVectBorrowed<'_>) -> Step
    requires meeting { Meeting si.old sv.old s.at cap s.n row.indexes.now row.values.now s.q }
    requires stores { is_zero (add binary32 (get_or sv.old s.at nan) (get_or row.values.now s.q nan)) ≡ false }
    ensures { Stepped si.old sv.old s.at cap s.n row.entry.indexes.now row.entry.values.now s.q result si.new sv.new }
{
    let Step { at, q, n } = s;
    let i = si[at];
    let j = row.indexes[q];
    let x = sv[at];
    let y = row.values[q];
    let v = walks::value_at(i, j, x, y, x + y);
    si[n] = j.min(i);
    sv[n] = v;
    Step {
        at: at + (i <= j) as usize,
        q: q + (j <= i) as usize,
        n: n + 1,
    }
}

// A turn. That two values cancel out is rare, and is left to the plain step.
pub fn any_step(si: &mut [u32], sv: &mut [f32], s: Step, cap: usize, row: SVectBorrowed<'_>) -> Step
    requires { Steady si.old sv.old s.at cap s.n row.indexes.now row.values.now s.q }
    ensures { Stepped si.old sv.old s.at cap s.n row.entry.indexes.now row.entry.values.now s.q result si.new sv.new }
{
    if s.at < cap && s.q < row.indexes.len() {
        let sum = sv[s.at] + row.values[s.q];
        if !(sum == 0.0) {
            return store_step(si, sv, s, cap, row);
        }
    }
    plain_step(si, sv, s, cap, row)
}

// What many turns of a merge came to, and how many they were.
#[derive(Clone, Copy)]
pub struct Stride {
    pub step: Step,
    pub turns: usize,
}

// Up to k turns where both sides have k entries left, so that no end is looked for. It stops where two values cancel
// out.
fn run(
    si: &mut [u32],
    sv: &mut [f32],
    s: Step,
    cap: usize,
    row: SVectBorrowed<'_>,
    k: usize,
) -> Stride
    requires { Ample si.old sv.old s.at cap s.n row.indexes.now row.values.now s.q k }
    ensures { Strode si.old sv.old s cap row.entry.indexes.now row.entry.values.now result si.new sv.new }
{
    let mut step = s;
    for turns in 0..k {
        let sum = sv[step.at] + row.values[step.q];
        if sum == 0.0 {
            return Stride { step, turns };
        }
        step = store_step(si, sv, step, cap, row);
    }
    Stride { step, turns: k }
}

// Some turns of a merge, or none. Where the state is longer than the row, or the row has ended, all of its entries before
// the row's next one are copied. Else up to 63 turns are taken, since which side is next cannot be foreseen.
pub fn any_stride(
    share: Share,
    si: &mut [u32],
    sv: &mut [f32],
    s: Step,
    cap: usize,
    row: SVectBorrowed<'_>,
) -> Stride
    requires clear { Clear si.old sv.old s.at cap s.n }
    requires within { (s.q ≤ length row.indexes.now) × (length row.indexes.now ≡ length row.values.now) }
    ensures { Strode si.old sv.old s cap row.entry.indexes.now row.entry.values.now result si.new sv.new }
{
    let left = row.indexes.len() - s.q;
    if left == 0 || !matches!(share, Share::Even) {
        let k = copies::copy_before(share, si, sv, s, cap, row.indexes);
        let step = Step {
            at: s.at + k,
            q: s.q,
            n: s.n + k,
        };
        return Stride { step, turns: k };
    }
    let k = left.min(cap - s.at).min(63);
    run(si, sv, s, cap, row, k)
}
