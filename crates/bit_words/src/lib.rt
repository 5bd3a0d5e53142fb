// Lists of words put together by AND, OR or XOR: their ones, and the words themselves. Parts of the
// calls of the crates above, not for users.

#![tactic(auto)]

ghost use Rattle.std.specs.Prelude.{◌≡◌, ◌++◌, ◌≤◌, length, drop};
ghost use Rattle.std.specs.Int.Count.{ones};
ghost use Rattle.bits.specs.Words.{Alike};
ghost use Rattle.bit_words.specs.Ops.{join};
ghost use Rattle.bit_words.specs.Words.{ones_of, joins};

// Two bits, or two words bit by bit, put together. It is an enum and no closure, since what the calls promise is said of it
// (specs/Ops.antt).
#[derive(Clone, Copy)]
pub enum Op {
    And,
    Or,
    Xor,
}

// Two words put together bit by bit.
fn joined(op: Op, x: u64, y: u64) -> u64
    ensures { result ≡ join op x y }
{
    match op {
        Op::And => x & y,
        Op::Or => x | y,
        Op::Xor => x ^ y,
    }
}

// The number of ones of a word, as wide as the word: a sum of such numbers is not narrowed at each step, which
// would cost a loop over vectors of words two steps a turn.
fn ones_in(x: u64) -> u64
    ensures { result ≡ ones x }
{
    x.count_ones() as u64
}

// The ones of a combination of two lists of as many words. Here and below b is read by its index: a loop over a zip tests two
// ends, and the compiler then counts a word at a time where it takes several in this form.
pub fn ones_of(op: Op, a: &[u64], b: &[u64]) -> u32
    requires { Alike a.now b.now }
    ensures { result ≡ ones_of op a.now b.now }
{
    let mut n: u64 = 0;
    for (i, x) in a.iter().enumerate() {
        n += ones_in(joined(op, *x, b[i]));
    }
    n as u32
}

// Two counts of one walk: the ones of a AND b, and those of a OR b.
#[derive(Clone, Copy)]
pub struct Two {
    pub and: u32,
    pub or: u32,
}

// The ones of a AND b and of a OR b, in one walk over two lists of as many words.
pub fn ones_of_both(a: &[u64], b: &[u64]) -> Two
    requires { Alike a.now b.now }
    ensures { (result.and ≡ ones_of Op.And a.now b.now) × (result.or ≡ ones_of Op.Or a.now b.now) }
{
    let mut and: u64 = 0;
    let mut or: u64 = 0;
    for (i, x) in a.iter().enumerate() {
        let y = b[i];
        and += ones_in(joined(Op::And, *x, y));
        or += ones_in(joined(Op::Or, *x, y));
    }
    Two {
        and: and as u32,
        or: or as u32,
    }
}

// Writes a combination of two lists of as many words to the front of `out`.
pub fn combine(op: Op, a: &[u64], b: &[u64], out: &mut [u64])
    requires alike { Alike a.now b.now }
    requires room { length a.now ≤ length out.old }
    ensures { out.new ≡ joins op a.now b.now ++ drop (length a.now) out.old }
{
    for (i, x) in a.iter().enumerate() {
        out[i] = joined(op, *x, b[i]);
    }
}
