// The rows: each is computed from its number alone, so that they can be walked in any order. A row has 0 to
// 12 entries, whole numbers between -50,000 and 50,000. The magnitudes at an index add up to less than 16,777,216,
// and at some to nearly as much: the program prints their sums.

ghost use Rattle.std.specs.Prelude.{◌≤◌, length};

use sparse::SVectBorrowed;

pub const ROWS: usize = 2000;

pub const DIMS: u32 = 48;

// The kinds of values: as they are, their magnitudes, or thirds of them.
#[derive(Clone, Copy)]
pub enum Kind {
    Whole,
    Magnitudes,
    Thirds,
}

impl TryFrom<u64> for Kind {
    type Error = ();

    fn try_from(n: u64) -> Result<Kind, ()> {
        match n {
            0 => Ok(Kind::Whole),
            1 => Ok(Kind::Magnitudes),
            2 => Ok(Kind::Thirds),
            _ => Err(()),
        }
    }
}

// Rows r and HALF + r have the same indexes.
const HALF: usize = 1000;

// A number below 65,519 that looks random, made of two numbers.
pub fn mixed(a: usize, b: usize) -> usize {
    let x = a % 10007 * 6199 + b % 10007 * 2897 + 13;
    let y = (x ^ (x >> 7)) % 65521 * 48271;
    (y ^ (y >> 11)) % 65519
}

fn signed(minus: bool, n: usize) -> f32 {
    let x = (n % 65536) as u16 as f32;
    if minus { -x } else { x }
}

// What row r has at index i. At some indexes all are positive, at some all negative, and at some there are
// both. At 5, 13, 21, .. rows r and HALF + r cancel out, so that the total is 0; at 7, 15, 23, .. they nearly do.
fn whole(r: usize, i: usize) -> f32 {
    let n = mixed(r, 100 + i % 48);
    let m = 1 + mixed(r % HALF, 100 + i % 48) % 49999;
    match i % 8 {
        0 | 1 => signed(false, 25000 + n % 25000),
        2 => signed(true, 25000 + n % 25000),
        5 => signed(r >= HALF, m),
        7 => {
            if r < HALF {
                signed(false, m)
            } else {
                signed(true, m + 1)
            }
        }
        _ => signed(n % 2 == 1, 1 + n % 49999),
    }
}

// What a row of this kind has where the row has x.
fn of_kind(kind: Kind, x: f32) -> f32 {
    match kind {
        Kind::Whole => x,
        Kind::Magnitudes => x.abs(),
        Kind::Thirds => x / 3.0,
    }
}

// The index that follows i.
fn next(r: usize, i: usize) -> usize {
    i % 48 + 1 + mixed(r % HALF, 10 + i % 48) % 7
}

// Row r, which is written to the front of two lists. They are arrays, as no memory is asked for.
pub fn row<'a>(
    r: usize,
    kind: Kind,
    indexes: &'a mut [u32; 12],
    values: &'a mut [f32; 12],
) -> SVectBorrowed<'a>
    ensures { (length result.indexes.now ≤ 12) × (length result.values.now ≤ 12) }
{
    let mut i = mixed(r % HALF, 2) % 6;
    let mut len = mixed(r % HALF, 1) % 13;
    for at in 0..len {
        if DIMS as usize <= i {
            len = at;
            break;
        }
        indexes[at] = i as u32;
        values[at] = of_kind(kind, whole(r, i));
        i = next(r, i);
    }
    SVectBorrowed {
        dims: DIMS,
        indexes: &indexes[..len],
        values: &values[..len],
    }
}
