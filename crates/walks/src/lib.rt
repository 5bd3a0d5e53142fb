// What the loops over sparse vectors share: one turn of a walk over two, one store, and a search by halving.

#![tactic(auto)]

ghost use Rattle.std.specs.Prelude.{◌≡◌, ◌+◌, ◌≤◌, ◌<◌, ◌↔◌, IsTrue, min, cond, ltb, eqb, length, get_or};
ghost use Rattle.std.specs.Float.{nan};
ghost use Rattle.sparse.specs.Cells.{keep};
ghost use Rattle.sparse.specs.Sound.{Rising, Split};
ghost use Rattle.sparse.specs.declared.Cell.TheVariants.{Empty, Full};
ghost use Rattle.walks.specs.Walk.{walk, left_turn, right_turn, Both, Any, Stands, Turns, Put};

use sparse::{Cell, SVectBorrowed};

// One turn of a walk over two vectors: the next place, what each holds there, and their next entries.
#[derive(Clone, Copy)]
pub struct Turn {
    pub place: u32,
    pub x: Cell,
    pub y: Cell,
    pub p: usize,
    pub q: usize,
}

// A walk over two sparse vectors that has come to the entry p of the left one and to the entry q of the right one. For
// the loops of the crates above, not for users.
#[derive(Clone, Copy)]
pub struct Walk<'a> {
    pub a: SVectBorrowed<'a>,
    pub p: usize,
    pub b: SVectBorrowed<'a>,
    pub q: usize,
}

impl<'a> Walk<'a> {
    // A walk that has passed no entry.
    pub fn start(a: SVectBorrowed<'a>, b: SVectBorrowed<'a>) -> Walk<'a>
        ensures { result ≡ walk a.entry 0 b.entry 0 }
    {
        Walk { a, p: 0, b, q: 0 }
    }

    // Whether both sides have an entry left, or one of them at least.
    pub fn has_both(self) -> bool
        ensures { IsTrue result ↔ Both self.entry }
    {
        self.p < self.a.indexes.len() && self.q < self.b.indexes.len()
    }

    pub fn has_any(self) -> bool
        ensures { IsTrue result ↔ Any self.entry }
    {
        self.p < self.a.indexes.len() || self.q < self.b.indexes.len()
    }

    // The turns to a place that only the left vector has, or only the right one. One function for both would have to be told
    // which side it is, and would be no plainer.
    fn left_turn(self) -> Turn
        requires { (self.p < length self.a.indexes.now) × (self.p < length self.a.values.now) }
        ensures { result ≡ left_turn self.entry }
    {
        let Walk { a, p, q, .. } = self;
        let x = Cell::Full(a.values[p]);
        Turn {
            place: a.indexes[p],
            x,
            y: Cell::Empty,
            p: p + 1,
            q,
        }
    }

    fn right_turn(self) -> Turn
        requires { (self.q < length self.b.indexes.now) × (self.q < length self.b.values.now) }
        ensures { result ≡ right_turn self.entry }
    {
        let Walk { p, b, q, .. } = self;
        let y = Cell::Full(b.values[q]);
        Turn {
            place: b.indexes[q],
            x: Cell::Empty,
            y,
            p,
            q: q + 1,
        }
    }

    // The next turn of a walk that has an entry left.
    pub fn turn(self) -> Turn
        requires { Stands self }
        ensures { Turns self.entry result }
    {
        let Walk { a, p, b, q } = self;
        if a.indexes.len() <= p {
            return self.right_turn();
        }
        if b.indexes.len() <= q {
            return self.left_turn();
        }
        let i = a.indexes[p];
        let j = b.indexes[q];
        if i < j {
            return self.left_turn();
        }
        if j < i {
            return self.right_turn();
        }
        Turn {
            place: i,
            x: Cell::Full(a.values[p]),
            y: Cell::Full(b.values[q]),
            p: p + 1,
            q: q + 1,
        }
    }
}

// Nothing for a zero of either sign, and else the value.
pub fn kept(v: f32) -> Cell
    ensures { result ≡ keep v }
{
    if v == 0.0 { Cell::Empty } else { Cell::Full(v) }
}

// Stores what stands at a place as the entry n, if it is full, and returns the next entry. For the
// loops of the crates above, not for users. The lists and n stay three parameters: of a struct that holds them, each
// contract and each invariant would have to say that it still holds the same two references.
pub fn put(oi: &mut [u32], ov: &mut [f32], n: usize, place: u32, z: Cell) -> usize
    requires { (n < length oi.old) × (n < length ov.old) }
    ensures { Put z place n oi.old ov.old result oi.new ov.new }
{
    if let Cell::Full(v) = z {
        oi[n] = place;
        ov[n] = v;
        return n + 1;
    }
    n
}

// Writes a list over another of the same length. The library's `copy_from_slice` promises the same, but calls the C library's
// `memmove`, which the archive for C would then need from outside.
pub fn copy<T: Copy>(from: &[T], to: &mut [T])
    requires { length from.now ≡ length to.old }
    ensures { to.new ≡ from.now }
{
    for i in 0..from.len() {
        to[i] = from[i];
    }
}

// How many of the rising indexes are below `place`, found by halving. For the crates above, not for users.
pub fn partition_point(indexes: &[u32], place: u32) -> usize
    requires { Rising indexes.now }
    ensures { Split indexes.now result place }
{
    indexes.partition_point(|i| *i < place)
}

// The same, found in doubling steps first and then by halving, so that a near place is found soon. The library has no
// such search. For the crates above, not for users.
pub fn near_point(indexes: &[u32], place: u32) -> usize
    requires { Rising indexes.now }
    ensures { Split indexes.now result place }
{
    let mut low: usize = 0;
    let mut step: usize = 1;
    while low + step <= indexes.len() {
        let end = low + step - 1;
        if place <= indexes[end] {
            return low + partition_point(&indexes[low..end], place);
        }
        low += step;
        step += step;
    }
    low + partition_point(&indexes[low..], place)
}

// The value at the smaller of two indexes: x or y, or s where both are the same. It is read at one of four places: a
// choice between floats would be a branch on x86-64.
pub fn value_at(i: u32, j: u32, x: f32, y: f32, s: f32) -> f32
    ensures { result ≡ cond (eqb i j) s (cond (ltb i j) x y) }
{
    let w = [s, x, y, s];
    let k = (i <= j) as usize + 2 * (j <= i) as usize;
    w[k]
}

// The entry p of x, or the entry q of y: one address is chosen, and read.
pub fn pick(left: bool, x: &[f32], p: usize, y: &[f32], q: usize) -> f32
    requires { (p < length x.now) × (q < length y.now) }
    ensures { result ≡ cond left (get_or x.now p nan) (get_or y.now q nan) }
{
    let v = if left { &x[p] } else { &y[q] };
    *v
}

// How the next turns of a walk over two vectors are best taken. With branches on which side is next, if that can be
// foreseen, since one side has nearly all entries; without, if it cannot; or with one branch on whether the sides meet.
#[derive(Clone, Copy)]
pub enum Way {
    Plain,
    Quick,
    Meeting,
}

// The way to go on after so many turns that passed so many entries of either side. Turns that meet pass two. Any answer
// is right, and one is fast.
pub fn way_on(turns: usize, left: usize, right: usize) -> Way
    requires { (turns ≤ 2097150) × (left ≤ 1048575) × (right ≤ 1048575) }
{
    let few = turns / 5;
    if left < few || right < few {
        return Way::Plain;
    }
    if left + right < turns + turns / 8 * 5 {
        return Way::Quick;
    }
    Way::Meeting
}

// The smaller of two lengths.
pub fn smaller(a: usize, b: usize) -> usize
    ensures { result ≡ min a b }
{
    a.min(b)
}

// How many turns are taken by one way before it is looked how to go on, where the sides have so many entries left.
pub fn run_length(way: Way, left: usize, right: usize) -> usize
    ensures { (result ≤ left) × (result ≤ right) × (0 < left → 0 < right → 0 < result) }
{
    let most = match way {
        Way::Plain => 256,
        Way::Quick | Way::Meeting => 64,
    };
    smaller(smaller(left, right), most)
}
