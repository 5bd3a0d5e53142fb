// Reads the cases of the test programs. A case is a line: a label, a bar, and what a call is handed. A line
// that starts with `#` is a comment, and is printed as it is.
//
// Two lists are given entry by entry, as in `1:3f800000 4:c0000000`: an index, and the eight digits of a
// value's bits; every NaN is one and the same. `5:` is an index without a value and `:3f800000` a value without
// an index. `.` is an entry whose index and value both have the bits eeeeeeee.
//
// Each reader takes what it reads off the front of what is left of the line. What it cannot read it leaves, so that a
// bad line is one that is not read to its end.
#![tactic(auto)]

mod entry;
mod numeral;

ghost use Rattle.std.specs.Prelude.{◌++◌, ◌≤◌, ◌≡◌, length};
ghost use Rattle.io.specs.Counts.{IsPrefixLen};
ghost use Rattle.cases.specs.Room.{Inside};

use std::ops::Bound;

// The file descriptor of the standard input.
const STDIN: i32 = 0;

// What `.` stands for.
pub const DOT_INDEX: u32 = 0xeeee_eeee;

pub const DOT_VALUE: f32 = -36973140302885665537819410432.0;

// How many bytes the cases of a program have room for.
pub const ROOM: usize = 262144;

// What is left of a line.
#[derive(Clone, Copy)]
pub struct Line<'a> {
    pub rest: &'a [u8],
}

// The numbers of indexes and of values of two lists.
#[derive(Clone, Copy)]
pub struct Shape {
    pub indexes: usize,
    pub values: usize,
}

// Room for the cases of a program.
pub fn room() -> [u8; ROOM]
    ensures { 262144 ≡ length result }
{
    [0; ROOM]
}

// Reads standard input. Answers how many bytes there are; or 0, and says so, if the last line does not end.
pub fn input(space: &mut [u8]) -> usize
    ensures { IsPrefixLen result space.new }
{
    let n = io::read_full(STDIN, space);
    if let Some(b'\n') = space[..n].last() {
        return n;
    }
    shown::text(b"the last line does not end\n");
    0
}

// Runs `case` on each line, up to the first that it says is no case. A last line that does not end is none.
pub fn each_line<F: FnMut(&[u8]) -> bool + Drop>(s: &[u8], mut case: F)
    requires { F.IsAlwaysCallable case }
{
    let Some(lines) = s.strip_suffix(b"\n") else {
        return;
    };
    for line in lines.split(|c| *c == b'\n') {
        if !case(line) {
            return;
        }
    }
}

// Runs `each` on the lines of standard input, up to the first that it says is no case.
pub fn run<F: FnMut(&[u8]) -> bool + Drop>(each: F)
    requires { F.IsAlwaysCallable each }
{
    let mut space = room();
    let n = input(&mut space);
    each_line(&space[..n], each);
}

// The byte at a place, or 0 at the end: a byte 0 in a line is read like its end.
pub fn byte(s: &[u8], at: usize) -> u8 {
    s.get(at).copied().unwrap_or(0)
}

// Prints a line that is a comment. Answers whether it is one.
pub fn comment(s: &[u8]) -> bool {
    if byte(s, 0) != b'#' {
        return false;
    }
    shown::text(s);
    shown::text(b"\n");
    true
}

// Ends what is printed for a line. Answers, as it is told, whether the line is a case.
pub fn ended(is_case: bool) -> bool {
    if is_case {
        shown::text(b"\n");
    } else {
        shown::text(b" this is no case\n");
    }
    is_case
}

impl<'a> Line<'a> {
    // Reads `c`, if it is next. Answers whether it was.
    pub fn skip(&mut self, c: u8) -> bool {
        if let Some((first, rest)) = self.rest.split_first() {
            if *first == c {
                self.rest = rest;
                return true;
            }
        }
        false
    }

    // Reads a bar or a space, and a space more: up to where the next part of the line starts.
    pub fn next_part(&mut self) {
        self.skip(b' ');
        self.skip(b'|');
        self.skip(b' ');
    }

    // Reads what stands before the next `c`, or all where there is none.
    pub fn before(&mut self, c: u8) -> &'a [u8]
        ensures { result.now ++ self.new.rest.now ≡ self.old.rest.now }
    {
        let end = finding::find(self.rest, c).unwrap_or(self.rest.len());
        let (part, rest) = self.rest.split_at(end);
        self.rest = rest;
        part
    }

    // Prints a line's label and the bar after it. Leaves the bar.
    pub fn label(&mut self) {
        shown::text(self.before(b'|'));
        shown::text(b"|");
    }

    // Prints a line's label, and neither the space before the bar nor the bar. Leaves the bar.
    pub fn title(&mut self) {
        if let Some((_, title)) = self.before(b'|').split_last() {
            shown::text(title);
        }
    }

    // A number of base 16 or 10, as far as it goes and fits a u64.
    pub fn number(&mut self, base: u64) -> Option<u64> {
        let mut number = None;
        for c in self.rest {
            let Some(longer) = numeral::longer(number.unwrap_or(0), base, *c) else {
                break;
            };
            number = Some(longer);
            self.skip(*c);
        }
        number
    }

    // A number that a u32 holds. One that it does not hold is left.
    pub fn small(&mut self, base: u64) -> Option<u32> {
        let mut line = *self;
        let number = u32::try_from(line.number(base)?).ok()?;
        *self = line;
        Some(number)
    }

    // A name, which goes up to a space or the end: its last eight bytes, and of these no zeros in front. A program does the
    // same on every name that ends in these.
    pub fn name(&mut self) -> &'a [u8] {
        let name = self.before(b' ');
        let end = &name[name.len().saturating_sub(8)..];
        match end.iter().position(|c| *c != 0) {
            Some(i) => &end[i..],
            None => &[],
        }
    }

    // The dims of a vector, after a bar.
    pub fn dims(&mut self) -> Option<u32> {
        let mut line = *self;
        if !line.skip(b'|') {
            return None;
        }
        line.skip(b' ');
        let dims = line.small(10)?;
        *self = line;
        Some(dims)
    }

    // Numbers in a row of base 16 or 10, as many as the list has room for, each with a space, a bar or the line's
    // end after it. Answers how many.
    pub fn numbers(&mut self, base: u64, list: &mut [u64]) -> usize
        ensures { result ≤ length list.old }
    {
        for (many, place) in list.iter_mut().enumerate() {
            let mut line = *self;
            let Some(number) = line.number(base) else {
                return many;
            };
            if !numeral::ends(byte(line.rest, 0)) {
                return many;
            }
            *place = number;
            line.skip(b' ');
            *self = line;
        }
        list.len()
    }

    // Two lists. Lists that are not there have no entries. Each entry takes a byte at least.
    pub fn entries(&mut self, indexes: &mut [u32], values: &mut [f32]) -> Shape
        ensures { Inside result indexes.old values.old }
    {
        let mut shape = Shape {
            indexes: 0,
            values: 0,
        };
        for _ in self.rest {
            if !self.entry(&mut shape, indexes, values) {
                break;
            }
        }
        shape
    }

    // A vector: its dims and its two lists. One that is not there has the dims 0 and no entries.
    pub fn vector(&mut self, indexes: &mut [u32], values: &mut [f32]) -> (u32, Shape)
        ensures { Inside result.1 indexes.old values.old }
    {
        match self.dims() {
            Some(dims) => (dims, self.entries(indexes, values)),
            None => (
                0,
                Shape {
                    indexes: 0,
                    values: 0,
                },
            ),
        }
    }

    // One bound of a slice: `=4` is Included 4, `!4` is Excluded 4, and `*` is Unbounded. One that is not there is
    // Unbounded.
    fn bound(&mut self) -> Bound<u32> {
        let mut line = *self;
        line.next_part();
        let bound = if line.skip(b'=') {
            Bound::Included(line.small(10).unwrap_or(0))
        } else if line.skip(b'!') {
            Bound::Excluded(line.small(10).unwrap_or(0))
        } else if line.skip(b'*') {
            Bound::Unbounded
        } else {
            return Bound::Unbounded;
        };
        *self = line;
        bound
    }

    // Two bounds.
    pub fn bounds(&mut self) -> (Bound<u32>, Bound<u32>) {
        let from = self.bound();
        (from, self.bound())
    }
}
