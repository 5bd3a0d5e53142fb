// Reads the lines of the program `oxlanyard`, each without its newline: a vector's, as
// `v 8 1:3f800000 4:c0000000`, and the operation's. Any bytes get an answer. Both calls are parts of `session`.

#![tactic(auto)]

ghost use Rattle.std.specs.Prelude.{◌≡◌, ◌≤◌, unwrap_or};
ghost use Rattle.lines.specs.Numerals.{digit_of, numeral_of, decimal_of, bits_of};
ghost use Rattle.lines.specs.Lines.{entry_of, line_of, named_of, Reads};

use merges::Op;

// The largest number of 32 bits.
const LARGEST: u64 = 4294967295;

// The most entries of a vector.
pub const MOST: usize = 128;

// An index and the bits of a value.
#[derive(Clone, Copy)]
pub struct Item {
    pub index: u32,
    pub bits: u32,
}

// Room for the entries of a vector: the lists have a fixed size, since the program has no heap.
#[derive(Drop)]
pub struct Room {
    pub indexes: [u32; MOST],
    pub bits: [u32; MOST],
}

// The dims of a vector that was read, and how many entries.
#[derive(Clone, Copy)]
pub struct Shape {
    pub dims: u32,
    pub len: usize,
}

// The digit that a byte is.
fn digit(c: u8) -> Option<u64>
    ensures { unwrap_or result 16 ≡ digit_of c }
{
    match c {
        b'0'..=b'9' => Some((c - b'0') as u64),
        b'a'..=b'f' => Some((c - b'a' + 10) as u64),
        _ => None,
    }
}

// The number that the digits of a base stand for.
fn number(base: u64, s: &[u8]) -> Option<u32>
    requires { base ≤ 16 }
    ensures { result ≡ numeral_of base s.now }
{
    let mut value: u64 = 0;
    for c in s {
        let d = digit(*c)?;
        if base <= d {
            return None;
        }
        value = value * base + d;
        if LARGEST < value {
            return None;
        }
    }
    Some(value as u32)
}

// A decimal without a leading zero.
fn decimal(s: &[u8]) -> Option<u32>
    ensures { result ≡ decimal_of s.now }
{
    match s {
        [] | [b'0', _, ..] => None,
        _ => number(10, s),
    }
}

// Eight hex digits.
fn bits(s: &[u8]) -> Option<u32>
    ensures { result ≡ bits_of s.now }
{
    if s.len() != 8 {
        return None;
    }
    number(16, s)
}

// An entry: a decimal, a colon and eight hex digits.
fn entry(word: &[u8]) -> Option<Item>
    ensures { result ≡ entry_of word.now }
{
    let colon = finding::find(word, b':')?;
    let index = decimal(&word[..colon])?;
    let bits = bits(&word[colon + 1..])?;
    Some(Item { index, bits })
}

// The operation that a line names.
pub fn operation(s: &[u8]) -> Option<Op>
    ensures { result ≡ named_of s.now }
{
    match s {
        b"add" => Some(Op::Add),
        b"sub" => Some(Op::Sub),
        b"mul" => Some(Op::Mul),
        _ => None,
    }
}

// Reads a vector's line: its dims are answered with the number of its entries, which stand in front of the
// two lists. Where the line is bad nothing is promised of the lists: they are the reader's own.
pub fn vector(s: &[u8], room: &mut Room) -> Option<Shape>
    ensures { Reads (line_of s.now) room.old result room.new }
{
    let mut words = s.split(|c| *c == b' ');
    if words.next()? != b"v".as_slice() {
        return None;
    }
    let dims = decimal(words.next()?)?;
    let mut len: usize = 0;
    for word in words {
        if len == MOST {
            return None;
        }
        let entry = entry(word)?;
        room.indexes[len] = entry.index;
        room.bits[len] = entry.bits;
        len += 1;
    }
    Some(Shape { dims, len })
}
