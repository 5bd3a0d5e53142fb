// Prints counts, and what a call left in a lent list. A word shows its sixteen digits.

use bit::{BVectBorrowed, Two};
use refusal::{Refusal, Written};

fn word(w: u64) {
    shown::text(b" ");
    io::print_hex(shown::STDOUT, w, 16);
}

fn words(list: &[u64]) {
    for w in list {
        word(*w);
    }
}

// A name, and the ones that a call counted.
pub fn count(name: &[u8], r: Result<u32, Refusal>) {
    shown::text(name);
    shown::answered(r, |n| {
        shown::text(b"ones");
        shown::number(n as u64);
    });
}

pub fn counts(name: &[u8], r: Result<Two, Refusal>) {
    shown::text(name);
    shown::answered(r, |n| {
        shown::text(b"ones");
        shown::number(n.and as u64);
        shown::number(n.or as u64);
    });
}

// The words of a lent list.
pub fn left(out: &[u64]) {
    shown::text(b" |");
    words(out);
}

// Of a list of 1,024 words or more: the ones of its vector of `dims` bits, its first word, and its words from
// place 1,023 on.
fn edges(dims: u32, out: &[u64]) {
    if out.len() < 1024 {
        return;
    }
    let v = BVectBorrowed {
        dims,
        data: &out[..1024],
    };
    count(b";", bit::sum_of_x(v));
    shown::text(b" |");
    word(out[0]);
    shown::text(b" ..");
    words(&out[1023..]);
}

// What a call answered, and what it left in a lent list: its words; or, of a list of more than 16, its edges if
// the call is done.
pub fn written(r: Result<Written, Refusal>, out: &[u64]) {
    shown::written(r, b" words");
    if out.len() <= 16 {
        left(out);
    } else if let Ok(w) = r {
        edges(w.dims, out);
    }
}
