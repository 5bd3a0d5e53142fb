// The sum, the difference and the product of two sparse vectors, written to a lent pair of lists. Each
// call tests both vectors and the room, and a refusal leaves the lists as they were.

#![tactic(auto)]

ghost use Rattle.std.specs.Prelude.{◌≡◌, ◌+◌, ◌≤◌, length};
ghost use Rattle.sparse.specs.Vectors.{seen};
ghost use Rattle.sparse.specs.Sound.{Rising};
ghost use Rattle.merges.specs.Algebra.{room_for};
ghost use Rattle.merges.specs.Calls.{Joins};
ghost use Rattle.merges.specs.Loops.{ReadyFor, FillsBy, op_of, Below, Passed};
ghost use Rattle.merges.specs.declared.Op.TheVariants.{Add, Sub, Mul};

use refusal::{Merged, Refusal};
use sparse::SVectBorrowed;
use steps::Sign;
use walks::{Walk, Way};

// How two places are put together.
#[derive(Clone, Copy)]
pub enum Op {
    Add,
    Sub,
    Mul,
}

// The entries written, and the turns taken.
#[derive(Clone, Copy)]
pub struct Both {
    pub len: usize,
    pub turns: usize,
}

// Writes the sum or the difference of two vectors of equal dims, walking over both to the end of both. How many
// entries of either side the last turns passed says by which way to go on.
fn merge(
    sign: Sign,
    a: SVectBorrowed<'_>,
    b: SVectBorrowed<'_>,
    oi: &mut [u32],
    ov: &mut [f32],
) -> Both
    requires { ReadyFor Add (seen a) (seen b) oi.old ov.old }
    ensures { FillsBy (op_of sign) (seen a.entry) (seen b.entry) oi.old ov.old result oi.new ov.new }
{
    let mut w = Walk::start(a, b);
    let mut n: usize = 0;
    let mut turns: usize = 0;
    let mut way = Way::Quick;
    while w.has_both() {
        let r = merge_runs::any_run(sign, way, w, oi, ov, n);
        way = walks::way_on(r.turns, r.p - w.p, r.q - w.q);
        w.p = r.p;
        w.q = r.q;
        n = r.n;
        turns += r.turns;
    }
    let r = merge_runs::finish(sign, w, oi, ov, n);
    Both {
        len: r.n,
        turns: turns + r.turns,
    }
}

// How a product finds the entries of a side, of which these are left, that come before a place of the other side. It may
// find fewer. A product has the way as a type, so that its loop has no test of it.
trait Passing {
    fn count_below(rest: &[u32], place: u32) -> usize
        requires { Rising rest.now }
        ensures { Below rest.now place result };
}

// For sides that are as long: none are passed but by turns.
struct Never;

impl Passing for Never {
    fn count_below(_rest: &[u32], _place: u32) -> usize {
        0
    }
}

// For sides of which one has most entries: they are looked at one by one.
struct Scan;

impl Passing for Scan {
    fn count_below(rest: &[u32], place: u32) -> usize {
        for (k, i) in rest.iter().enumerate() {
            if place <= *i {
                return k;
            }
        }
        rest.len()
    }
}

// For sides of which one has nearly all entries: they are searched.
struct Search;

impl Passing for Search {
    fn count_below(rest: &[u32], place: u32) -> usize {
        walks::near_point(rest, place)
    }
}

// How many indexes from p on are passed that are below the other side's index q. None are where that side has ended.
fn pass<P: Passing>(is: &[u32], p: usize, js: &[u32], q: usize) -> usize
    requires { Rising is.now × (p ≤ length is.now) }
    ensures { Passed is.now p js.now q result }
{
    match js.get(q) {
        Some(place) => P::count_below(&is[p..], *place),
        None => 0,
    }
}

// Writes the product of two vectors of equal dims, walking over both to the end of one. After each turn those entries that
// are found to come before the other side's next are passed at once.
fn multiply_by<P: Passing>(
    a: SVectBorrowed<'_>,
    b: SVectBorrowed<'_>,
    oi: &mut [u32],
    ov: &mut [f32],
) -> Both
    requires { ReadyFor Mul (seen a) (seen b) oi.old ov.old }
    ensures { FillsBy Mul (seen a.entry) (seen b.entry) oi.old ov.old result oi.new ov.new }
{
    let mut w = Walk::start(a, b);
    let mut len: usize = 0;
    let mut turns: usize = 0;
    while w.has_both() {
        let s = steps::mul_step(w, oi, ov, len);
        let left = pass::<P>(a.indexes, s.p, b.indexes, s.q);
        w.p = s.p + left;
        let right = pass::<P>(b.indexes, s.q, a.indexes, w.p);
        w.q = s.q + right;
        len = s.n;
        turns += 1 + left + right;
    }
    Both { len, turns }
}

// Writes the same by one way or another.
fn multiply(a: SVectBorrowed<'_>, b: SVectBorrowed<'_>, oi: &mut [u32], ov: &mut [f32]) -> Both
    requires { ReadyFor Mul (seen a) (seen b) oi.old ov.old }
    ensures { FillsBy Mul (seen a.entry) (seen b.entry) oi.old ov.old result oi.new ov.new }
{
    let all = a.indexes.len() + b.indexes.len();
    let fewer = a.indexes.len().min(b.indexes.len());
    if all / 5 <= fewer {
        return multiply_by::<Never>(a, b, oi, ov);
    }
    if all / 32 <= fewer {
        return multiply_by::<Scan>(a, b, oi, ov);
    }
    multiply_by::<Search>(a, b, oi, ov)
}

// Writes what two vectors of equal dims give.
fn write(op: Op, a: SVectBorrowed<'_>, b: SVectBorrowed<'_>, oi: &mut [u32], ov: &mut [f32]) -> Both
    requires { ReadyFor op (seen a) (seen b) oi.old ov.old }
    ensures { FillsBy op (seen a.entry) (seen b.entry) oi.old ov.old result oi.new ov.new }
{
    match op {
        Op::Add => merge(Sign::Plus, a, b, oi, ov),
        Op::Sub => merge(Sign::Minus, a, b, oi, ov),
        Op::Mul => multiply(a, b, oi, ov),
    }
}

// The room that an answer needs, for two vectors of `dims` dims that have `a` and `b` entries. A sum has no more entries
// than both, and no more than there are places.
fn room_for(op: Op, dims: u32, a: usize, b: usize) -> usize
    requires { a + b ≤ 2097150 }
    ensures { result ≡ room_for op dims a b }
{
    match op {
        Op::Add | Op::Sub => walks::smaller(a + b, dims as usize),
        Op::Mul => walks::smaller(a, b),
    }
}

// Tests two vectors and the room, and writes what they give. Refuses as `sparse::check_pair` does, and then with
// Room, which carries the entries needed.
pub fn join(
    op: Op,
    a: SVectBorrowed<'_>,
    b: SVectBorrowed<'_>,
    oi: &mut [u32],
    ov: &mut [f32],
) -> Result<Merged, Refusal>
    ensures { Joins op (seen a.entry) (seen b.entry) oi.old ov.old result oi.new ov.new }
{
    sparse::check_pair(a, b)?;
    let room = room_for(op, a.dims, a.indexes.len(), b.indexes.len());
    if oi.len() < room || ov.len() < room {
        return Err(Refusal::Room(room));
    }
    let Both { len, turns } = write(op, a, b, oi, ov);
    Ok(Merged {
        dims: a.dims,
        len,
        turns,
    })
}

// Writes a + b to the front of `oi` and `ov`, and answers its dims, entries and turns. Refuses as
// `sparse::check_pair` does, and then with Room. So do the next two.
pub fn add(
    a: SVectBorrowed<'_>,
    b: SVectBorrowed<'_>,
    oi: &mut [u32],
    ov: &mut [f32],
) -> Result<Merged, Refusal>
    ensures { Joins Add (seen a.entry) (seen b.entry) oi.old ov.old result oi.new ov.new }
{
    join(Op::Add, a, b, oi, ov)
}

// Writes a - b.
pub fn sub(
    a: SVectBorrowed<'_>,
    b: SVectBorrowed<'_>,
    oi: &mut [u32],
    ov: &mut [f32],
) -> Result<Merged, Refusal>
    ensures { Joins Sub (seen a.entry) (seen b.entry) oi.old ov.old result oi.new ov.new }
{
    join(Op::Sub, a, b, oi, ov)
}

// Writes a * b.
pub fn mul(
    a: SVectBorrowed<'_>,
    b: SVectBorrowed<'_>,
    oi: &mut [u32],
    ov: &mut [f32],
) -> Result<Merged, Refusal>
    ensures { Joins Mul (seen a.entry) (seen b.entry) oi.old ov.old result oi.new ov.new }
{
    join(Op::Mul, a, b, oi, ov)
}
