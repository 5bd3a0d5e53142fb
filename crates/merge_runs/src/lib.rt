// Runs of turns of a sum or a difference of two sparse vectors, written to a lent pair of lists. A loop of
// its own for each way to take a turn, without an end of a side tested inside, is fast. For the crates
// above, not for users.

#![tactic(auto)]

ghost use Rattle.std.specs.Prelude.{◌+◌, ◌≤◌, ◌<◌, length};
ghost use Rattle.walks.specs.Walk.{Both};
ghost use Rattle.steps.specs.Turns.{sum_of, Steady};
ghost use Rattle.merge_runs.specs.Runs.{Tried, Running, Ran, longer, both_rests};

use steps::{Sign, Step};
use walks::{Walk, Way};

// Where a run came to: the next entries of both sides, the next to write, and the turns taken.
#[derive(Clone, Copy)]
pub struct Block {
    pub p: usize,
    pub q: usize,
    pub n: usize,
    pub turns: usize,
}

// A way to take a turn where both sides have an entry left. It may take none, and then writes nothing. A run has the way
// as a type, so that its loop has no test of it.
trait Turning {
    fn step(sign: Sign, w: Walk<'_>, oi: &mut [u32], ov: &mut [f32], n: usize) -> Option<Step>
        requires steady { Steady w n oi.old ov.old }
        requires both { Both w }
        ensures { Tried (sum_of sign) w.entry n oi.old ov.old result oi.new ov.new };
}

// Without a branch on which side is next. It takes no turn where two values come to zero together, which is rare.
struct Quick;

impl Turning for Quick {
    fn step(sign: Sign, w: Walk<'_>, oi: &mut [u32], ov: &mut [f32], n: usize) -> Option<Step> {
        let sum = sign.met(w.a.values[w.p], w.b.values[w.q]);
        if sum == 0.0 {
            return None;
        }
        Some(steps::store_step(sign, w, oi, ov, n))
    }
}

// For sides that have most places in common.
struct Meeting;

impl Turning for Meeting {
    fn step(sign: Sign, w: Walk<'_>, oi: &mut [u32], ov: &mut [f32], n: usize) -> Option<Step> {
        Some(steps::met_step(sign, w, oi, ov, n))
    }
}

// With branches on which side is next, for sides of which one has nearly all entries.
struct Plain;

impl Turning for Plain {
    fn step(sign: Sign, w: Walk<'_>, oi: &mut [u32], ov: &mut [f32], n: usize) -> Option<Step> {
        Some(steps::plain_step(sign, w, oi, ov, n))
    }
}

// Up to k turns, where both sides have as many entries left. It ends before where no turn is taken.
fn run_by<T: Turning>(
    sign: Sign,
    k: usize,
    mut w: Walk<'_>,
    oi: &mut [u32],
    ov: &mut [f32],
    mut n: usize,
) -> Block
    requires { Running k k w n oi.old ov.old }
    ensures { Ran (sum_of sign) w.entry n oi.old ov.old result oi.new ov.new }
{
    for taken in 0..k {
        let Some(s) = T::step(sign, w, oi, ov, n) else {
            return Block {
                p: w.p,
                q: w.q,
                n,
                turns: taken,
            };
        };
        w.p = s.p;
        w.q = s.q;
        n = s.n;
    }
    Block {
        p: w.p,
        q: w.q,
        n,
        turns: k,
    }
}

// The same by one way or another.
fn run(
    sign: Sign,
    way: Way,
    k: usize,
    w: Walk<'_>,
    oi: &mut [u32],
    ov: &mut [f32],
    n: usize,
) -> Block
    requires { Running k k w n oi.old ov.old }
    ensures { Ran (sum_of sign) w.entry n oi.old ov.old result oi.new ov.new }
{
    match way {
        Way::Quick => run_by::<Quick>(sign, k, w, oi, ov, n),
        Way::Meeting => run_by::<Meeting>(sign, k, w, oi, ov, n),
        Way::Plain => run_by::<Plain>(sign, k, w, oi, ov, n),
    }
}

// A turn, and a run: no more turns than the longer side has entries left.
pub fn any_run(sign: Sign, way: Way, w: Walk<'_>, oi: &mut [u32], ov: &mut [f32], n: usize) -> Block
    requires { Running 1 (longer w) w n oi.old ov.old }
    ensures ran { Ran (sum_of sign) w.entry n oi.old ov.old result oi.new ov.new }
    ensures further { w.entry.p + w.entry.q < result.p + result.q }
{
    let s = steps::met_step(sign, w, oi, ov, n);
    let k = walks::run_length(way, w.a.indexes.len() - s.p, w.b.indexes.len() - s.q);
    let r = run(
        sign,
        way,
        k,
        Walk {
            p: s.p,
            q: s.q,
            ..w
        },
        oi,
        ov,
        s.n,
    );
    Block {
        turns: r.turns + 1,
        ..r
    }
}

// The turns to the end of both sides, of which one may have ended.
pub fn finish(sign: Sign, mut w: Walk<'_>, oi: &mut [u32], ov: &mut [f32], mut n: usize) -> Block
    requires { Running 0 (both_rests w) w n oi.old ov.old }
    ensures ran { Ran (sum_of sign) w.entry n oi.old ov.old result oi.new ov.new }
    ensures ended { length w.entry.a.indexes.now + length w.entry.b.indexes.now ≤ result.p + result.q }
{
    let mut turns: usize = 0;
    while w.has_any() {
        let s = steps::plain_step(sign, w, oi, ov, n);
        w.p = s.p;
        w.q = s.q;
        n = s.n;
        turns += 1;
    }
    Block {
        p: w.p,
        q: w.q,
        n,
        turns,
    }
}
