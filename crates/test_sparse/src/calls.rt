// Runs the call that a line names by its first letter: check, zero, dot, l2, three, eq, order; add, sub, mul
// and part write to lent lists.

use crate::{read, show};
use cases::{Line, Shape};
use refusal::{Merged, Refusal};

// How many indexes and values a vector has at most, and how long a lent list is at most.
const ROOM: usize = 48;

// Lends two lists of so many places, and shows what is left there. Answers whether there are as many.
fn lend<F: FnOnce(&mut [u32], &mut [f32]) + Drop>(room: Shape, to: F) -> bool
    requires { F.IsAlwaysCallable to }
{
    let mut all_indexes = [cases::DOT_INDEX; ROOM];
    let mut all_values = [cases::DOT_VALUE; ROOM];
    let Some(indexes) = all_indexes.get_mut(..room.indexes) else {
        return false;
    };
    let Some(values) = all_values.get_mut(..room.values) else {
        return false;
    };
    to(indexes, values);
    show::left(indexes, values);
    true
}

// Lends two lists to a call that puts two vectors together, and shows what it answered and what it left there.
fn merge<F: FnOnce(&mut [u32], &mut [f32]) -> Result<Merged, Refusal> + Drop>(
    room: Shape,
    call: F,
) -> bool
    requires { F.IsAlwaysCallable call }
{
    lend(room, |oi, ov| shown::merged(call(oi, ov)))
}

// Reads what follows a label, and runs the call on it. Answers whether it is a case.
fn case(call: u8, mut line: Line<'_>) -> bool {
    // Entries stand in arrays, as no memory is asked for.
    let mut indexes_a = [0; ROOM];
    let mut values_a = [0.0; ROOM];
    let mut indexes_b = [0; ROOM];
    let mut values_b = [0.0; ROOM];
    let a = read::vector(&mut line, &mut indexes_a, &mut values_a);
    let b = read::vector(&mut line, &mut indexes_b, &mut values_b);
    let (from, to) = line.bounds();
    let room = read::lengths(&mut line);
    if !line.rest.is_empty() {
        return false;
    }
    match call {
        b'c' => shown::checked(svect::new_checked(a)),
        b'z' => shown::written(svect::zero(a.dims), b" entries"),
        b'd' => shown::distance(svect::operator_dot(a, b)),
        b'l' => shown::distance(svect::operator_l2(a, b)),
        b't' => show::summed(svect::three_sums(a, b)),
        b'e' => shown::asked(svect::eq(a, b)),
        b'o' => shown::ordering(svect::partial_cmp(a, b)),
        b'a' => return merge(room, |oi, ov| svect::operator_add(a, b, oi, ov)),
        b's' => return merge(room, |oi, ov| svect::operator_sub(a, b, oi, ov)),
        b'm' => return merge(room, |oi, ov| svect::operator_mul(a, b, oi, ov)),
        b'p' => return lend(room, |oi, ov| {
            shown::written(svect::subvector(a, from, to, oi, ov), b" entries");
        }),
        _ => return false,
    }
    true
}

// Runs one line. Answers whether it is a case.
pub fn line(s: &[u8]) -> bool {
    if cases::comment(s) {
        return true;
    }
    let mut line = Line { rest: s };
    line.label();
    cases::ended(case(cases::byte(s, 0), line))
}
