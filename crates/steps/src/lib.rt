// One turn of a sum, a difference or a product of two sparse vectors, written to a lent pair of lists. A
// turn can be taken in several ways, with a branch on which side is next or without; all promise the same.
// For the loops of the crates above, not for users.

#![tactic(auto)]

ghost use Rattle.std.specs.Prelude.{◌≡◌};
ghost use Rattle.steps.specs.Places.{multiplied};
ghost use Rattle.walks.specs.Walk.{Both};
ghost use Rattle.steps.specs.Turns.{sum_of, alone_of, met_of, Steady, Stores, Stepped};

use sparse::Cell;
use walks::Walk;

// Which of two is made: a sum or a difference. A value, and not a type parameter: with one, LLVM makes a choice of the
// branches on which side is next in a sum, which took 1.4 times as long where one side has nearly all entries.
#[derive(Clone, Copy)]
pub enum Sign {
    Plus,
    Minus,
}

impl Sign {
    // What a value of the right side comes to where it is alone, and what it comes to with one of the left.
    fn alone(self, y: f32) -> f32
        ensures { result ≡ alone_of self y }
    {
        match self {
            Sign::Plus => y,
            Sign::Minus => -y,
        }
    }

    pub fn met(self, x: f32, y: f32) -> f32
        ensures { result ≡ met_of self x y }
    {
        match self {
            Sign::Plus => x + y,
            Sign::Minus => x - y,
        }
    }

    // One place. For the merge in place too.
    pub fn cell(self, x: Cell, y: Cell) -> Cell
        ensures { result ≡ sum_of self x y }
    {
        match (x, y) {
            (Cell::Full(a), Cell::Full(b)) => walks::kept(self.met(a, b)),
            (Cell::Empty, Cell::Full(b)) => Cell::Full(self.alone(b)),
            (_, Cell::Empty) => x,
        }
    }
}

// What a turn came to: the next entries of both sides, and the next to write.
#[derive(Clone, Copy)]
pub struct Step {
    pub p: usize,
    pub q: usize,
    pub n: usize,
}

// A turn of a sum or a difference, written as the entry n.
pub fn plain_step(sign: Sign, w: Walk<'_>, oi: &mut [u32], ov: &mut [f32], n: usize) -> Step
    requires { Steady w n oi.old ov.old }
    ensures { Stepped (sum_of sign) w.entry n oi.old ov.old result oi.new ov.new }
{
    let t = w.turn();
    let z = sign.cell(t.x, t.y);
    let next = walks::put(oi, ov, n, t.place, z);
    Step {
        p: t.p,
        q: t.q,
        n: next,
    }
}

// A turn without a branch on which side is next, where both have an entry left and something is stored.
pub fn store_step(sign: Sign, w: Walk<'_>, oi: &mut [u32], ov: &mut [f32], n: usize) -> Step
    requires steady { Steady w n oi.old ov.old }
    requires stores { Stores sign w }
    ensures { Stepped (sum_of sign) w.entry n oi.old ov.old result oi.new ov.new }
{
    let Walk { a, p, b, q } = w;
    let i = a.indexes[p];
    let j = b.indexes[q];
    let x = a.values[p];
    let y = b.values[q];
    let s = sign.met(x, y);
    oi[n] = i.min(j);
    ov[n] = walks::value_at(i, j, x, sign.alone(y), s);
    Step {
        p: p + (i <= j) as usize,
        q: q + (j <= i) as usize,
        n: n + 1,
    }
}

// A turn where both sides have an entry left, with a branch on whether they are of one place.
pub fn met_step(sign: Sign, w: Walk<'_>, oi: &mut [u32], ov: &mut [f32], n: usize) -> Step
    requires steady { Steady w n oi.old ov.old }
    requires both { Both w }
    ensures { Stepped (sum_of sign) w.entry n oi.old ov.old result oi.new ov.new }
{
    let Walk { a, p, b, q } = w;
    let i = a.indexes[p];
    if i != b.indexes[q] {
        return store_step(sign, w, oi, ov, n);
    }
    let s = sign.met(a.values[p], b.values[q]);
    let z = walks::kept(s);
    let next = walks::put(oi, ov, n, i, z);
    Step {
        p: p + 1,
        q: q + 1,
        n: next,
    }
}

// A turn of a product where both sides have an entry left: nothing is written but where they are of one place.
pub fn mul_step(w: Walk<'_>, oi: &mut [u32], ov: &mut [f32], n: usize) -> Step
    requires steady { Steady w n oi.old ov.old }
    requires both { Both w }
    ensures { Stepped multiplied w.entry n oi.old ov.old result oi.new ov.new }
{
    let Walk { a, p, b, q } = w;
    let i = a.indexes[p];
    let j = b.indexes[q];
    if i != j {
        return Step {
            p: p + (i < j) as usize,
            q: q + (j < i) as usize,
            n,
        };
    }
    let z = walks::kept(a.values[p] * b.values[q]);
    let next = walks::put(oi, ov, n, i, z);
    Step {
        p: p + 1,
        q: q + 1,
        n: next,
    }
}
