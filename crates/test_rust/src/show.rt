// Prints distances, vectors and states with no space in front.

use aggregate_svecf32::Header;
use refusal::{Refusal, Written};

pub fn distance(r: Result<f32, Refusal>) {
    shown::bare::answered(r, shown::bits);
}

// A sparse vector that was written to two lists.
pub fn sparse(r: Result<Written, Refusal>, indexes: &[u32], values: &[f32]) {
    shown::bare::answered(r, |w| {
        shown::digits(w.dims as u64);
        shown::entries(indexes, values, w.len);
    });
}

// Lends a list to a call that writes a bit vector, and shows what it wrote.
pub fn bits<F: FnOnce(&mut [u64]) -> Result<Written, Refusal> + Drop>(write: F)
    requires { F.IsAlwaysCallable write }
{
    // The list is an array, as no memory is asked for.
    let mut list = [0; 1024];
    let r = write(&mut list);
    shown::bare::answered(r, |w| {
        shown::digits(w.dims as u64);
        for word in list.iter().take(w.len) {
            shown::text(b" ");
            shown::hex(*word);
        }
    });
}

// The state that a call left, or its refusal.
pub fn told(h: Header, r: Result<(), Refusal>) {
    shown::bare::answered(r, |()| {
        shown::digits(h.dims as u64);
        shown::number(h.len as u64);
        shown::number(h.capacity as u64);
        shown::number(h.count);
    });
}
