// Prints what happened in a setting, and the sum and the average of its total, which are written to arrays, as no memory is
// asked for.

use crate::table::Tally;
use aggregate_svecf32::Header;
use refusal::{Refusal, Written};
use regions::Lists;

// What happened in a setting, and the refusal that ended it, if one did.
pub fn tally(t: Tally, end: Result<(), Refusal>) {
    shown::text(b"; moves for rows");
    shown::number(t.rows as u64);
    shown::text(b", for combines");
    shown::number(t.combines as u64);
    shown::text(b", seconds brought over");
    shown::number(t.brought as u64);
    if let Err(e) = end {
        shown::refused(e);
    }
    shown::text(b"\n");
}

fn written(r: Result<Written, Refusal>, indexes: &[u32], values: &[f32]) {
    match r {
        Ok(w) => shown::entries(indexes, values, w.len),
        Err(e) => shown::refused(e),
    }
}

fn sum(h: Header, lists: Lists<'_>) {
    let mut oi = [0; 48];
    let mut ov = [0.0; 48];
    shown::text(b" sum");
    written(h.sum(lists, &mut oi, &mut ov), &oi, &ov);
}

fn average(h: Header, lists: Lists<'_>) {
    let mut oi = [0; 48];
    let mut ov = [0.0; 48];
    shown::text(b" average");
    written(h.average(lists, &mut oi, &mut ov), &oi, &ov);
}

// The count, the sum and the average of a state.
pub fn total(h: Header, lists: Lists<'_>) {
    shown::text(b"count");
    shown::number(h.count);
    sum(h, lists);
    average(h, lists);
    shown::text(b"\n");
}
