// Reads bytes as a line spells them:
//
//     \n \t \r \\    a newline, a tab, a carriage return, a backslash
//     \xHH           the byte of two hex digits
//     \{N:TEXT}      a text N times, in which \# is how often it stood there before: `\{3: \#:x}` is ` 0:x 1:x 2:x`
//
// and every other byte as it is. Each reader takes what it reads off the front of a line. It answers None where it cannot
// read that, or where there are more bytes than there is room for.

ghost use Rattle.std.specs.Prelude.{◌≤◌};

use cases::Line;

// How many bytes there is room for.
const ROOM: usize = 16383;

// The bytes so far: a list of a fixed size, since the program has no heap.
#[derive(Drop)]
pub struct Made {
    list: [u8; ROOM],
    len: usize,
    ghost within: { len ≤ 16383 },
}

impl Made {
    pub fn new() -> Made {
        Made {
            list: [0; ROOM],
            len: 0,
        }
    }

    pub fn bytes(&self) -> &[u8] {
        &self.list[..self.len]
    }

    // One byte more.
    fn put(&mut self, c: u8) -> Option<()> {
        if self.len == ROOM {
            return None;
        }
        self.list[self.len] = c;
        self.len += 1;
        Some(())
    }

    // The last three digits of a number, without zeros in front.
    fn number(&mut self, n: usize) -> Option<()> {
        if 99 < n {
            self.put(b'0' + (n / 100 % 10) as u8)?;
        }
        if 9 < n {
            self.put(b'0' + (n / 10 % 10) as u8)?;
        }
        self.put(b'0' + (n % 10) as u8)
    }
}

// The byte of two hex digits.
fn hex(line: &mut Line<'_>) -> Option<u8> {
    let (two, rest) = line.rest.split_at_checked(2)?;
    let mut digits = Line { rest: two };
    let byte = u8::try_from(digits.small(16)?).ok()?;
    if !digits.rest.is_empty() {
        return None;
    }
    line.rest = rest;
    Some(byte)
}

// What stands after a backslash.
fn escape(line: &mut Line<'_>, count: usize, made: &mut Made) -> Option<()> {
    let (c, rest) = line.rest.split_first()?;
    line.rest = rest;
    match *c {
        b'#' => made.number(count),
        b'x' => made.put(hex(line)?),
        b'n' => made.put(b'\n'),
        b't' => made.put(b'\t'),
        b'r' => made.put(b'\r'),
        b'\\' => made.put(b'\\'),
        _ => None,
    }
}

// What stands next, but for a text that is repeated.
fn piece(line: &mut Line<'_>, count: usize, made: &mut Made) -> Option<()> {
    if line.skip(b'\\') {
        return escape(line, count, made);
    }
    let (c, rest) = line.rest.split_first()?;
    line.rest = rest;
    made.put(*c)
}

// A text that stood there so often before. Each piece of it takes a byte at least.
fn text(s: &[u8], count: usize, made: &mut Made) -> Option<()> {
    let mut line = Line { rest: s };
    for _ in s {
        if line.rest.is_empty() {
            break;
        }
        piece(&mut line, count, made)?;
    }
    Some(())
}

// A text so many times, from what stands after the open brace on.
fn braces(line: &mut Line<'_>, made: &mut Made) -> Option<()> {
    let times = line.small(10).unwrap_or(0);
    if !line.skip(b':') {
        return None;
    }
    let repeated = line.before(b'}');
    if !line.skip(b'}') {
        return None;
    }
    for count in 0..times {
        text(repeated, count as usize, made)?;
    }
    Some(())
}

// The next part of a line.
fn part(line: &mut Line<'_>, made: &mut Made) -> Option<()> {
    if let Some(rest) = line.rest.strip_prefix(b"\\{") {
        line.rest = rest;
        return braces(line, made);
    }
    piece(line, 0, made)
}

// The bytes that what is left of a line spells. Each part of it takes a byte at least.
pub fn bytes(line: &mut Line<'_>, made: &mut Made) -> Option<()> {
    for _ in line.rest {
        if line.rest.is_empty() {
            break;
        }
        part(line, made)?;
    }
    Some(())
}
