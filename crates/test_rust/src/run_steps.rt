// Reads the steps of a run.

use crate::read::Room;
use cases::Line;
use sparse::SVectBorrowed;

// A step, with the row that it is handed.
#[derive(Clone, Copy)]
pub enum Step<'a> {
    First(SVectBorrowed<'a>),
    Second(SVectBorrowed<'a>),
    Combine,
    Sum,
    Average,
}

// A row, which has its dims and its entries.
fn row<'a>(line: &mut Line<'_>, room: &'a mut Room) -> Option<SVectBorrowed<'a>> {
    let dims = line.small(10)?;
    Some(room.entries(line, dims))
}

impl<'a> Step<'a> {
    // The step after a bar. The entries of its row go to the room.
    pub fn read(line: &mut Line<'_>, room: &'a mut Room) -> Option<Step<'a>> {
        if !line.skip(b'|') {
            return None;
        }
        line.skip(b' ');
        let name = line.name();
        line.skip(b' ');
        match name {
            b"first" => Some(Step::First(row(line, room)?)),
            b"second" => Some(Step::Second(row(line, room)?)),
            b"combine" => Some(Step::Combine),
            b"sum" => Some(Step::Sum),
            b"average" => Some(Step::Average),
            _ => None,
        }
    }
}

// Whether a line has steps, and can be read to its end. Each step takes a byte at least.
pub fn are_steps(mut line: Line<'_>) -> bool {
    let mut room = Room::empty();
    for _ in line.rest {
        if Step::read(&mut line, &mut room).is_none() {
            return false;
        }
        if line.rest.is_empty() {
            return true;
        }
    }
    false
}
