// Runs the call that a line names on what the line hands it.

use crate::{read, show};
use bit::BVectBorrowed;
use cases::Line;
use refusal::{Refusal, Written};

// What every word of a lent list is before a call.
const MARK: u64 = 0xeeee_eeee_eeee_eeee;

fn check(v: BVectBorrowed<'_>) {
    shown::checked(v.check());
    shown::text(b"; new_checked");
    shown::checked(bvect::new_checked(v));
}

fn order(a: BVectBorrowed<'_>, b: BVectBorrowed<'_>) {
    shown::text(b" check_each");
    shown::checked(bit::check_each(a, b));
    shown::text(b"; eq");
    shown::asked(bvect::eq(a, b));
    shown::text(b"; partial_cmp");
    shown::ordering(bvect::partial_cmp(a, b));
}

fn counts(a: BVectBorrowed<'_>, b: BVectBorrowed<'_>) {
    shown::text(b" check_pair");
    shown::checked(bit::check_pair(a, b));
    show::count(b"; and", bit::sum_of_and(a, b));
    show::count(b"; or", bit::sum_of_or(a, b));
    show::count(b"; xor", bit::sum_of_xor(a, b));
    show::counts(b"; both", bit::sum_of_and_or(a, b));
}

fn distances(a: BVectBorrowed<'_>, b: BVectBorrowed<'_>) {
    shown::text(b"; dot");
    shown::distance(bvect::operator_dot(a, b));
    shown::text(b"; hamming");
    shown::distance(bvect::operator_hamming(a, b));
    shown::text(b"; jaccard");
    shown::distance(bvect::operator_jaccard(a, b));
    shown::text(b"; jaccard_or_nan");
    shown::distance(bvect::operator_jaccard_or_nan(a, b));
}

fn pair(a: BVectBorrowed<'_>, b: BVectBorrowed<'_>) {
    counts(a, b);
    distances(a, b);
    shown::text(b";");
    order(a, b);
}

// The calls that combine two vectors, one after another to one lent list, and what they left there.
fn combine(a: BVectBorrowed<'_>, b: BVectBorrowed<'_>, out: &mut [u64]) {
    shown::text(b" and");
    shown::written(bvect::operator_and(a, b, out), b" words");
    shown::text(b"; or");
    shown::written(bvect::operator_or(a, b, out), b" words");
    shown::text(b"; xor");
    shown::written(bvect::operator_xor(a, b, out), b" words");
    shown::text(b"; vector_and");
    shown::written(bit::vector_and(a, b, out), b" words");
    shown::text(b"; vector_or");
    shown::written(bit::vector_or(a, b, out), b" words");
    shown::text(b"; vector_xor");
    shown::written(bit::vector_xor(a, b, out), b" words");
    show::left(out);
}

// Lends a list of so many places. Answers whether there are as many.
fn lend<F: FnOnce(&mut [u64]) + Drop>(room: u32, to: F) -> bool
    requires { F.IsAlwaysCallable to }
{
    let mut list = [MARK; read::ROOM];
    let Some(out) = list.get_mut(..room as usize) else {
        return false;
    };
    to(out);
    true
}

// Lends a list to a call, and shows what it answered and what it left there.
fn write<F: FnOnce(&mut [u64]) -> Result<Written, Refusal> + Drop>(room: u32, call: F) -> bool
    requires { F.IsAlwaysCallable call }
{
    lend(room, |out| show::written(call(out), out))
}

// Reads what a line hands a call, and runs the call that it names. Answers whether the line is a case.
fn case(name: &[u8], mut line: Line<'_>) -> bool {
    // Words stand in arrays, as no memory is asked for.
    let mut words_a = [0; read::ROOM];
    let mut words_b = [0; read::ROOM];
    let a = read::vector(&mut line, &mut words_a);
    let b = read::vector(&mut line, &mut words_b);
    let (from, to) = line.bounds();
    line.skip(b' ');
    let room = line.dims().unwrap_or(0);
    if !line.rest.is_empty() {
        return false;
    }
    // A name of more than eight letters is told by the last eight.
    match name {
        b"ords_for" => shown::number(bit::words_for(a.dims) as u64),
        b"check" => check(a),
        b"get" => shown::asked(bvect::get(a, b.dims)),
        b"sum_of_x" => show::count(b"", bit::sum_of_x(a)),
        b"pair" => pair(a, b),
        b"order" => order(a, b),
        b"zero" => return write(b.dims, |out| bvect::zero(a.dims, out)),
        b"and" => return write(room, |out| bvect::operator_and(a, b, out)),
        b"or" => return write(room, |out| bvect::operator_or(a, b, out)),
        b"xor" => return write(room, |out| bvect::operator_xor(a, b, out)),
        b"ctor_and" => return write(room, |out| bit::vector_and(a, b, out)),
        b"ector_or" => return write(room, |out| bit::vector_or(a, b, out)),
        b"ctor_xor" => return write(room, |out| bit::vector_xor(a, b, out)),
        b"combine" => return lend(room, |out| combine(a, b, out)),
        b"ubvector" => return write(room, |out| bvect::subvector(a, from, to, out)),
        _ => return false,
    }
    true
}

// Runs one line. Answers whether it is a case.
pub fn line(s: &[u8]) -> bool {
    let name = Line { rest: s }.name();
    let mut line = Line { rest: s };
    line.title();
    shown::text(b":");
    cases::ended(case(name, line))
}
