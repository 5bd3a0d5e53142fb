// Prints the answers of calls in plain words, for the test programs. A refusal shows its number and its
// place, and a float the eight digits of its bits. A space stands in front of each, but in `bare`.
#![tactic(auto)]

pub mod bare;

use refusal::{Merged, Refusal, Written};
use std::cmp::Ordering;

// The file descriptor of the standard output.
pub const STDOUT: i32 = 1;

pub fn text(s: &[u8]) {
    io::write_all(STDOUT, s);
}

// A number in decimal, with no space in front.
pub fn digits(n: u64) {
    io::print_decimal(STDOUT, n);
}

// A number in hex, in as few digits as it takes, with no space in front.
pub fn hex(n: u64) {
    io::print_hex(STDOUT, n, 1);
}

pub fn number(n: u64) {
    text(b" ");
    digits(n);
}

// The digits of a float's bits. Those of a NaN are not promised.
pub fn bits(x: f32) {
    if x.is_nan() {
        text(b"nan");
    } else {
        io::print_hex(STDOUT, patterns::bits(x) as u64, 8);
    }
}

pub fn float(x: f32) {
    text(b" ");
    bits(x);
}

// An index and the digits of a value's bits.
pub fn entry(index: u32, value: f32) {
    number(index as u64);
    text(b":");
    bits(value);
}

// The first n entries of two lists, as far as the lists go.
pub fn entries(indexes: &[u32], values: &[f32], n: usize) {
    for (index, value) in indexes.iter().zip(values).take(n) {
        entry(*index, *value);
    }
}

pub fn refused(r: Refusal) {
    text(b" ");
    bare::refused(r);
}

// A space, and what `show` prints of an answer, or the refusal.
pub fn answered<T, F: FnOnce(T) + Drop>(r: Result<T, Refusal>, show: F)
    requires { F.IsAlwaysCallable show }
{
    text(b" ");
    bare::answered(r, show);
}

pub fn checked(r: Result<(), Refusal>) {
    text(b" ");
    bare::checked(r);
}

pub fn distance(r: Result<f32, Refusal>) {
    answered(r, |x| {
        text(b"value");
        float(x);
    });
}

// A vector of so many words or entries, with no space in front.
fn done(dims: u32, unit: &[u8], n: usize) {
    text(b"done dims");
    number(dims as u64);
    text(unit);
    number(n as u64);
}

// What was written, in words or in entries.
pub fn written(r: Result<Written, Refusal>, unit: &[u8]) {
    answered(r, |w| done(w.dims, unit, w.len));
}

pub fn merged(r: Result<Merged, Refusal>) {
    answered(r, |m| {
        done(m.dims, b" entries", m.len);
        text(b" turns");
        number(m.turns as u64);
    });
}

pub fn asked(r: Result<bool, Refusal>) {
    text(b" ");
    bare::asked(r);
}

pub fn ordering(r: Result<Option<Ordering>, Refusal>) {
    text(b" ");
    bare::ordering(r);
}
