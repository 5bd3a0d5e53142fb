// Prints answers with no space in front.

use crate::{number, text};
use refusal::Refusal;
use std::cmp::Ordering;

pub fn refused(r: Refusal) {
    text(b"refused");
    number(r.number() as u64);
    number(r.place() as u64);
}

// What `show` prints of an answer, or the refusal.
pub fn answered<T, F: FnOnce(T) + Drop>(r: Result<T, Refusal>, show: F)
    requires { F.IsAlwaysCallable show }
{
    match r {
        Ok(x) => show(x),
        Err(e) => refused(e),
    }
}

pub fn checked(r: Result<(), Refusal>) {
    answered(r, |()| text(b"valid"));
}

pub fn asked(r: Result<bool, Refusal>) {
    answered(r, |yes| if yes { text(b"yes") } else { text(b"no") });
}

pub fn ordering(r: Result<Option<Ordering>, Refusal>) {
    answered(r, |order| match order {
        Some(Ordering::Less) => text(b"less"),
        Some(Ordering::Equal) => text(b"equal"),
        Some(Ordering::Greater) => text(b"greater"),
        None => text(b"unordered"),
    });
}
