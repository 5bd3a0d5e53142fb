// Runs the call that a line names on what the line hands it.

use crate::read::{Call, Part, Room};
use crate::{read, show};
use aggregate_svecf32::Header;
use cases::Line;
use refusal::{Refusal, Written};
use regions::Lists;

// Shows an answer, and the header and the lists that the call left. If it merged, the spare places of the state are open.
fn answer(h: Header, r: Result<usize, Refusal>, merges: bool, left: Lists<'_>) {
    show::told(h, r);
    show::lists(left, (merges && r.is_ok()).then_some(h));
}

// Shows what a call that writes a vector answered, and the lists that it left.
fn written(r: Result<Written, Refusal>, left: Lists<'_>) {
    shown::written(r, b" entries");
    show::lists(left, None);
}

// Runs a call on the parts of a line. A call that is not handed the numbers that it takes is not run, and answers None.
fn run(call: Call, a: Part<'_>, b: Part<'_>) -> Option<()> {
    match (call, a.numbers, b.numbers) {
        (Call::Fresh, [start, length], []) => {
            show::header(aggregate_svecf32::fresh(*start as usize, *length as usize));
        }
        (Call::Capacity, [dims, n], []) => {
            let dims = u32::try_from(*dims).ok()?;
            shown::number(aggregate_svecf32::capacity(dims, *n as usize) as u64);
        }
        (Call::Check, n, []) => shown::checked(read::header(n)?.check(a.lists())),
        (Call::Row, n, [dims]) => {
            let mut h = read::header(n)?;
            let row = b.vector(u32::try_from(*dims).ok()?);
            let merges = h.begun;
            let Part {
                indexes,
                values,
                ..
            } = a;
            let r = h.row(indexes, values, row);
            answer(h, r, merges, Lists { indexes, values });
        }
        (Call::Combine, n, m) => {
            let mut h = read::header(n)?;
            let other = read::header(m)?;
            let merges = h.begun && other.begun;
            let Part {
                indexes,
                values,
                ..
            } = a;
            let r = h.combine(indexes, values, other, b.lists());
            answer(h, r, merges, Lists { indexes, values });
        }
        (Call::Move, n, [more, start, length]) => {
            let mut h = read::header(n)?;
            let Part {
                indexes,
                values,
                ..
            } = b;
            let r = h.move_to(
                a.lists(),
                *more as usize,
                indexes,
                values,
                *start as usize,
                *length as usize,
            );
            answer(h, r, false, Lists { indexes, values });
        }
        (Call::Sum, n, []) => {
            let Part {
                indexes,
                values,
                ..
            } = b;
            let r = read::header(n)?.sum(a.lists(), indexes, values);
            written(r, Lists { indexes, values });
        }
        (Call::Average, n, []) => {
            let Part {
                indexes,
                values,
                ..
            } = b;
            let r = read::header(n)?.average(a.lists(), indexes, values);
            written(r, Lists { indexes, values });
        }
        _ => return None,
    }
    Some(())
}

// Reads what follows a label, and runs the call on it. Answers whether the line is a case.
fn case(call: Result<Call, ()>, mut line: Line<'_>) -> bool {
    let mut first = Room::empty();
    let mut second = Room::empty();
    let a = first.read(&mut line);
    let b = second.read(&mut line);
    match call {
        Ok(call) if line.rest.is_empty() => run(call, a, b).is_some(),
        _ => false,
    }
}

// Runs one line. Answers whether it is a case.
pub fn line(s: &[u8]) -> bool {
    if cases::comment(s) {
        return true;
    }
    let mut line = Line { rest: s };
    line.label();
    cases::ended(case(Call::try_from(s), line))
}
