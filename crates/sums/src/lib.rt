// What a place adds to a sum over two sparse vectors: a product, a squared difference, or what three sums take of it. For the loops of
// the crates above, not for users.

#![tactic(auto)]

ghost use Rattle.std.specs.Prelude.{◌≡◌, refl};
ghost use Rattle.sparse.specs.declared.Cell.{Cell};
ghost use Rattle.sparse.specs.declared.Cell.TheVariants.{Empty, Full};
ghost use Rattle.walks.specs.Walk.{Stands};
ghost use Rattle.sums.specs.Sums.{square_step, three_step};
ghost use Rattle.sums.specs.Loops.{next_of, products_step, differences_step, Added, Apart};

use sparse::Cell;
use walks::Walk;

// What so many turns came to: the sum, and the next entries of both sides.
#[derive(Clone, Copy)]
pub struct Part<S> {
    pub acc: S,
    pub p: usize,
    pub q: usize,
}

// What is added up over the places of two vectors, in rising order.
pub trait Sum: Copy {
    // the sum with what stands at one more place
    ghost step: { Self → Cell → Cell → Self };

    fn add(self, x: Cell, y: Cell) -> Self
        ensures { result ≡ step self x y };

    // The sum with the place of the smaller of two indexes, whose values are x and y, without a branch.
    fn quick(self, i: u32, j: u32, x: f32, y: f32) -> Self
        ensures { result ≡ next_of step self i j x y };

    // The turn of a walk to a place that one side has alone, with a branch on which side it is or without, whichever is fast.
    fn lone(self, w: Walk<'_>) -> Part<Self>
        requires { Apart w }
        ensures { Added step self w.entry result.acc result.p result.q };

    // where nothing stands nothing is added
    ghost still: { (sum : Self) → step sum Empty Empty ≡ sum };
}

// The sum of the products of common entries.
#[derive(Clone, Copy)]
pub struct Products(pub f32);

impl Sum for Products {
    ghost step = { products_step };

    ghost still = { λ sum. refl };

    fn add(self, x: Cell, y: Cell) -> Products {
        match (x, y) {
            (Cell::Full(a), Cell::Full(b)) => Products(self.0 + a * b),
            _ => self,
        }
    }

    // -0 added leaves a sum as it is.
    fn quick(self, i: u32, j: u32, x: f32, y: f32) -> Products {
        Products(self.0 + walks::value_at(i, j, -0.0, -0.0, x * y))
    }

    fn lone(self, w: Walk<'_>) -> Part<Products> {
        let Walk { a, p, b, q } = w;
        let i = a.indexes[p];
        let j = b.indexes[q];
        Part {
            acc: self,
            p: p + (i < j) as usize,
            q: q + (j < i) as usize,
        }
    }
}

// The sum of the squared differences.
#[derive(Clone, Copy)]
pub struct Differences(pub f32);

impl Differences {
    // The sum with a place that either side has alone: the square of the difference to zero is that of the value.
    fn add_alone(self, v: f32) -> Differences
        ensures left { result ≡ differences_step self (Full v) Empty }
        ensures right { result ≡ differences_step self Empty (Full v) }
    {
        Differences(self.0 + v * v)
    }
}

impl Sum for Differences {
    ghost step = { differences_step };

    ghost still = { λ sum. refl };

    fn add(self, x: Cell, y: Cell) -> Differences {
        let d = match (x, y) {
            (Cell::Full(a), Cell::Full(b)) => a - b,
            (Cell::Full(a), Cell::Empty) => a - 0.0,
            (Cell::Empty, Cell::Full(b)) => 0.0 - b,
            (Cell::Empty, Cell::Empty) => return self,
        };
        Differences(self.0 + d * d)
    }

    fn quick(self, i: u32, j: u32, x: f32, y: f32) -> Differences {
        let d = walks::value_at(i, j, x - 0.0, 0.0 - y, x - y);
        Differences(self.0 + d * d)
    }

    // One value is chosen, and read: two steps on x86-64 without a branch.
    fn lone(self, w: Walk<'_>) -> Part<Differences> {
        let Walk { a, p, b, q } = w;
        let i = a.indexes[p];
        let j = b.indexes[q];
        let v = walks::pick(i < j, a.values, p, b.values, q);
        Part {
            acc: self.add_alone(v),
            p: p + (i < j) as usize,
            q: q + (j < i) as usize,
        }
    }
}

// The three sums of one walk: of the products of common entries, and of the squares of either side.
#[derive(Clone, Copy)]
pub struct Three {
    pub xy: f32,
    pub x2: f32,
    pub y2: f32,
}

// A sum with the square of one more place.
fn add_square(acc: f32, x: Cell) -> f32
    ensures { result ≡ square_step acc x }
{
    match x {
        Cell::Full(a) => acc + a * a,
        Cell::Empty => acc,
    }
}

impl Sum for Three {
    ghost step = { three_step };

    ghost still = { λ sum. refl };

    fn add(self, x: Cell, y: Cell) -> Three {
        Three {
            xy: Products(self.xy).add(x, y).0,
            x2: add_square(self.x2, x),
            y2: add_square(self.y2, y),
        }
    }

    fn quick(self, i: u32, j: u32, x: f32, y: f32) -> Three {
        Three {
            xy: Products(self.xy).quick(i, j, x, y).0,
            x2: self.x2 + walks::value_at(i, j, x * x, -0.0, x * x),
            y2: self.y2 + walks::value_at(i, j, -0.0, y * y, y * y),
        }
    }

    // A choice between the two sums of squares would be a branch too.
    fn lone(self, w: Walk<'_>) -> Part<Three> {
        let Walk { a, p, b, q } = w;
        if a.indexes[p] < b.indexes[q] {
            return Part {
                acc: self.add(Cell::Full(a.values[p]), Cell::Empty),
                p: p + 1,
                q,
            };
        }
        Part {
            acc: self.add(Cell::Empty, Cell::Full(b.values[q])),
            p,
            q: q + 1,
        }
    }
}

// One turn of a walk that has an entry left, with branches, where one side may have ended.
pub fn plain_turn<S: Sum>(acc: S, w: Walk<'_>) -> Part<S>
    requires { Stands w }
    ensures { Added S.step acc w.entry result.acc result.p result.q }
{
    let t = w.turn();
    Part {
        acc: acc.add(t.x, t.y),
        p: t.p,
        q: t.q,
    }
}
