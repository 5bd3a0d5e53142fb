// A whole session of the program `oxlanyard`: bytes in, one line out. Any bytes get an answer.

#![tactic(auto)]

mod operating;

ghost use Rattle.std.specs.Prelude.{◌≤◌, length, take};
ghost use Rattle.texts.specs.Puts.{Puts};
ghost use Rattle.session.specs.Answers.{answer_of, Front};

use entry_bits::OperandBorrowed;
use lines::{MOST, Room};
use reading::Input;

// Room for the entries of a vector. The lists have a fixed size, since the program has no heap.
fn room() -> Room {
    Room {
        indexes: [0; MOST],
        bits: [0; MOST],
    }
}

// Writes what is printed for the bytes s to the front of `out`, and answers how many bytes that is.
pub fn answer(s: &[u8], out: &mut [u8; 8192]) -> usize
    ensures { Puts (answer_of s.now) 0 out.old result out.new }
{
    let mut input = Input { rest: s };
    let mut left = room();
    let Some(a) = input.vector_line(&mut left) else {
        return texts::bad_line(out, 1);
    };
    let mut right = room();
    let Some(b) = input.vector_line(&mut right) else {
        return texts::bad_line(out, 2);
    };
    let Some(op) = input.operation_line() else {
        return texts::bad_line(out, 3);
    };
    if input.goes_on() {
        return texts::bad_line(out, 4);
    }
    let a = OperandBorrowed {
        dims: a.dims,
        indexes: &left.indexes[..a.len],
        bits: &left.bits[..a.len],
    };
    let b = OperandBorrowed {
        dims: b.dims,
        indexes: &right.indexes[..b.len],
        bits: &right.bits[..b.len],
    };
    operating::operate(op, a, b, out)
}

// The same for the first n bytes of a list that has room for all bytes that matter.
fn front(s: &[u8], n: usize, out: &mut [u8; 8192]) -> usize
    requires { 12289 ≤ length s.now }
    ensures puts { Puts (answer_of (take n s.now)) 0 out.old result out.new }
    ensures front { Front s.now n out.old result out.new }
{
    if n < s.len() {
        return answer(&s[..n], out);
    }
    answer(s, out)
}

// Writes what is printed for an input of which the first n bytes of `space` were read, all of it or as many as there
// is room for. What follows the first 12,289 bytes of an input does not matter.
pub fn answer_front(space: &[u8; 12289], n: usize, out: &mut [u8; 8192]) -> usize
    ensures puts { Puts (answer_of (take n space.now)) 0 out.old result out.new }
    ensures front { Front space.now n out.old result out.new }
{
    front(space, n, out)
}
