// Reads the lines of a session, one after the other. These are parts of `session`, and no calls that a user makes.

#![tactic(auto)]

ghost use Rattle.std.specs.Prelude.{◌≡◌, false, not, eqb, length, MatchOption};
ghost use Rattle.lines.specs.Lines.{Reads};
ghost use Rattle.reading.specs.Starts.{has_line, rest, first_vector, first_name};
ghost use Rattle.reading.specs.Parts.{IsFirst};

use lines::{Room, Shape};
use merges::Op;

// The most bytes of a line, with its newline.
const LONGEST: usize = 4096;

// What is left of an input.
#[derive(Clone, Copy)]
pub struct Input<'a> {
    pub rest: &'a [u8],
}

impl<'a> Input<'a> {
    // Reads a line, and answers it without its newline. There is none where there is no newline, or where too many bytes
    // come before it.
    fn line(&mut self) -> Option<&'a [u8]>
        ensures { MatchOption result (has_line self.old.rest.now ≡ false) (λ l. IsFirst self.old.rest.now l.now self.new.rest.now) }
    {
        let end = finding::find(self.rest, b'\n')?;
        if end < LONGEST {
            let line = &self.rest[..end];
            self.rest = &self.rest[end + 1..];
            return Some(line);
        }
        None
    }

    // Reads a vector's line.
    pub fn vector_line(&mut self, room: &mut Room) -> Option<Shape>
        ensures entries { Reads (first_vector self.old.rest.now) room.old result room.new }
        ensures left { MatchOption result (self.new ≡ self.old) (λ _. self.new.rest.now ≡ rest self.old.rest.now) }
    {
        let mut after = *self;
        let shape = lines::vector(after.line()?, room)?;
        *self = after;
        Some(shape)
    }

    // Reads the line that names the operation.
    pub fn operation_line(&mut self) -> Option<Op>
        ensures name { result ≡ first_name self.old.rest.now }
        ensures left { MatchOption result (self.new ≡ self.old) (λ _. self.new.rest.now ≡ rest self.old.rest.now) }
    {
        let mut after = *self;
        let op = lines::operation(after.line()?)?;
        *self = after;
        Some(op)
    }

    // Whether anything follows.
    pub fn goes_on(self) -> bool
        ensures { result ≡ not (eqb (length self.entry.rest.now) 0) }
    {
        0 < self.rest.len()
    }
}
