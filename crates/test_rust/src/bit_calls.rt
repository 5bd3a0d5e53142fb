// The calls of `bit`.

use crate::read::Handed;
use crate::show;
use bit::BVectBorrowed;
use refusal::{Refusal, Written};

fn count(r: Result<u32, Refusal>) {
    shown::bare::answered(r, |n| shown::digits(n as u64));
}

// One count more.
fn next(r: Result<u32, Refusal>) {
    shown::text(b" ");
    count(r);
}

// The five counts of two vectors; or the refusal, which is the same for all.
fn counts(a: BVectBorrowed<'_>, b: BVectBorrowed<'_>) {
    shown::bare::answered(bit::sum_of_and_or(a, b), |n| {
        count(bit::sum_of_and(a, b));
        next(bit::sum_of_or(a, b));
        next(bit::sum_of_xor(a, b));
        shown::number(n.and as u64);
        shown::number(n.or as u64);
    });
}

// Runs a call on what it is handed. Answers whether there is one of this name that is handed so much.
pub fn run(call: &[u8], handed: Handed<BVectBorrowed<'_>>) -> bool {
    let a = handed.first;
    match (call, handed.second, handed.slice) {
        (b"one", None, None) => count(bit::sum_of_x(a)),
        (b"counts", Some(b), None) => counts(a, b),
        (b"and", Some(b), None) => show::bits(|out| bit::vector_and(a, b, out)),
        (b"or", Some(b), None) => show::bits(|out| bit::vector_or(a, b, out)),
        (b"xor", Some(b), None) => show::bits(|out| bit::vector_xor(a, b, out)),
        _ => return false,
    }
    true
}
