// Prints headers, what a call on a state answers, and what it left in two lists.

use aggregate_svecf32::Header;
use refusal::Refusal;
use regions::Lists;

pub fn header(h: Header) {
    shown::text(b" header");
    shown::number(h.start as u64);
    shown::number(h.length as u64);
    shown::number(h.begun as u64);
    shown::number(h.dims as u64);
    shown::number(h.len as u64);
    shown::number(h.capacity as u64);
    shown::number(h.count);
}

// What a call answered, and the header that it left.
pub fn told(h: Header, r: Result<usize, Refusal>) {
    match r {
        Ok(turns) => {
            shown::text(b" done");
            header(h);
            shown::text(b" turns");
            shown::number(turns as u64);
        }
        Err(e) => {
            shown::refused(e);
            header(h);
        }
    }
}

// Whether a place of the lists lies in the state's region, from len up to the capacity.
fn is_spare(h: Header, i: usize) -> bool {
    i.checked_sub(h.start)
        .is_some_and(|j| (h.len..h.capacity).contains(&j))
}

fn index(i: u32) {
    shown::number(i as u64);
    shown::text(b":");
}

// An entry, or `.` for what `.` stands for.
fn entry(i: u32, v: f32) {
    if i == cases::DOT_INDEX && v == cases::DOT_VALUE {
        shown::text(b" .");
    } else {
        shown::entry(i, v);
    }
}

// Two lists, with `_` at the spare places of the state `open`, if there is one.
pub fn lists(lists: Lists<'_>, open: Option<Header>) {
    shown::text(b" |");
    let Lists { indexes, values } = lists;
    for i in 0..indexes.len().max(values.len()) {
        if open.is_some_and(|h| is_spare(h, i)) {
            shown::text(b" _");
            continue;
        }
        match (indexes.get(i), values.get(i)) {
            (Some(i), Some(v)) => entry(*i, *v),
            (Some(i), None) => index(*i),
            (None, Some(v)) => {
                shown::text(b" :");
                shown::bits(*v);
            }
            (None, None) => {}
        }
    }
}
