// Runs of a sum over two sparse vectors: so many turns with one kind of turn, where both sides have as many entries left. For the crate
// above, not for users.

#![tactic(auto)]

ghost use Rattle.sums.specs.Loops.{Added, Running, Ran};

use sparse::Cell;
use sums::{Part, Sum};
use walks::{Walk, Way};

// A way to take a turn where both sides have an entry left. A run has the way as a type, so that its loop has no test of
// it.
trait Turning {
    fn turn<S: Sum>(acc: S, w: Walk<'_>) -> Part<S>
        requires { Running w 1 }
        ensures { Added S.step acc w.entry result.acc result.p result.q };
}

// Without a branch on which side is next, for sides with few places in common.
struct Quick;

impl Turning for Quick {
    fn turn<S: Sum>(acc: S, w: Walk<'_>) -> Part<S> {
        let Walk { a, p, b, q } = w;
        let i = a.indexes[p];
        let j = b.indexes[q];
        Part {
            acc: acc.quick(i, j, a.values[p], b.values[q]),
            p: p + (i <= j) as usize,
            q: q + (j <= i) as usize,
        }
    }
}

// With a branch on whether both sides meet, for sides with most places in common.
struct Meeting;

impl Turning for Meeting {
    fn turn<S: Sum>(acc: S, w: Walk<'_>) -> Part<S> {
        let Walk { a, p, b, q } = w;
        if a.indexes[p] != b.indexes[q] {
            return acc.lone(w);
        }
        Part {
            acc: acc.add(Cell::Full(a.values[p]), Cell::Full(b.values[q])),
            p: p + 1,
            q: q + 1,
        }
    }
}

// With branches on which side is next, for sides of which one has nearly all entries.
struct Plain;

impl Turning for Plain {
    fn turn<S: Sum>(acc: S, w: Walk<'_>) -> Part<S> {
        sums::plain_turn(acc, w)
    }
}

// So many turns of one kind.
fn run_by<T: Turning, S: Sum>(k: usize, acc: S, w: Walk<'_>) -> Part<S>
    requires { Running w k }
    ensures { Ran S.step k acc w.entry result.acc result.p result.q }
{
    let Walk { a, p, b, q } = w;
    let mut part = Part { acc, p, q };
    for _ in 0..k {
        let Part { acc, p, q } = part;
        part = T::turn(acc, Walk { a, p, b, q });
    }
    part
}

// So many turns, in one of three ways.
pub fn run<S: Sum>(way: Way, k: usize, acc: S, w: Walk<'_>) -> Part<S>
    requires { Running w k }
    ensures { Ran S.step k acc w.entry result.acc result.p result.q }
{
    match way {
        Way::Plain => run_by::<Plain, S>(k, acc, w),
        Way::Quick => run_by::<Quick, S>(k, acc, w),
        Way::Meeting => run_by::<Meeting, S>(k, acc, w),
    }
}
