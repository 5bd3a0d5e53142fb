// Answers requests with the public calls of `svect`, `bvect`, `bit` and `aggregate_svecf32`. Standard input has a
// request a line, and a line answers it. The Rust answers the same requests in the same words, so that the two can
// be compared. A request names the Rust's file and the call, and has what the call is handed:
//
//     svect check | V            svect zero | N
//     svect add | V | V          also sub, mul, dot, l2, eq, order
//     svect part | V | BOUND BOUND
//     bvect check | B            bvect zero | N           bvect get | B | N
//     bvect and | B | B          also or, xor, dot, hamming, jaccard, jaccard_or_nan, eq, order
//     bvect part | B | BOUND BOUND
//     bit one | B
//     bit counts | B | B
//     bit and | B | B            also or, xor
//     aggregate capacity | DIMS N
//     aggregate average | COUNT | V
//     aggregate run | STEP | STEP | ..
//
// V is a sparse vector, its dims and then its entries, and a BOUND one end of a slice, both as `cases` reads them. B
// is a bit vector, its dims and then its words in hex. `counts` are the ones of AND, OR and XOR, and then the two of
// `sum_of_and_or`. `average` is that of a state that holds V, with COUNT rows. A run has two states, without rows at the start, and these steps:
//
//     first V     a row to the first state
//     second V    a row to the second state
//     combine     the second state comes to the first, and has no rows afterwards
//     sum         the first state's sum
//     average     the first state's average
//
// An answer is a word, numbers in decimal, the eight digits of a float's bits or `nan`, or a vector; or `refused`
// with the number and the place. Of a run it has a field for each step: the state that got what came, as its dims,
// len, capacity and count; or the vector. A step that is refused is the last. Where a state must grow it moves, and
// the step is made again.
//
// A request may end in ` ; TEXT`, and the answer then ends so too. A line that starts with `#` is printed as it is.
// The program stops at a line that it cannot read, and says so.
//
// A sparse vector has at most 256 entries, a written one 512, a state 1,024, and a bit vector 1,024 words: all stand in
// arrays of so many, as no memory is asked for. Add and sub are lent the room that they ask for, and no more.
#![tactic(auto)]

mod aggregate_calls;
mod bit_calls;
mod bvect_calls;
mod read;
mod run_steps;
mod show;
mod states;
mod svect_calls;

use cases::Line;

// Answers a request. Answers whether it is one. A file and a call are named as `cases` reads names.
fn answer(mut line: Line<'_>) -> bool {
    let file = line.name();
    line.skip(b' ');
    let call = line.name();
    line.skip(b' ');
    match file {
        b"svect" => read::sparse_vectors(line, |h| svect_calls::run(call, h)),
        b"bvect" => read::bit_vectors(line, |h| bvect_calls::run(call, h)),
        b"bit" => read::bit_vectors(line, |h| bit_calls::run(call, h)),
        b"ggregate" => aggregate_calls::case(call, line),
        _ => false,
    }
}

// The request of a line, which ends before ` ;` or at the end of the line, and what follows it.
fn parts(s: &[u8]) -> (&[u8], &[u8]) {
    match s.iter().position(|c| *c == b';') {
        Some(mark) => s.split_at(mark.saturating_sub(1)),
        None => (s, &[]),
    }
}

// Answers one line. Answers whether it is a comment or a request.
fn line(s: &[u8]) -> bool {
    if cases::comment(s) {
        return true;
    }
    let (request, rest) = parts(s);
    if !answer(Line { rest: request }) {
        shown::text(b"this is no case\n");
        return false;
    }
    shown::text(rest);
    shown::text(b"\n");
    true
}

fn main() {
    cases::run(line);
}
