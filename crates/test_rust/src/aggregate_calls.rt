// The calls of `aggregate_svecf32`: a capacity, the average of a state with any count, or a run of steps on two states.

use crate::read::Room;
use crate::run_steps::Step;
use crate::states::States;
use crate::{run_steps, show};
use aggregate_svecf32::Header;
use cases::Line;
use regions::Lists;

// The capacity for so many entries.
fn capacity(mut line: Line<'_>) -> Option<()> {
    let dims = line.dims().unwrap_or(0);
    line.skip(b' ');
    let n = line.number(10)?;
    if !line.rest.is_empty() {
        return None;
    }
    shown::digits(aggregate_svecf32::capacity(dims, n as usize) as u64);
    Some(())
}

// The average of a state that holds a vector, with a count. The entries stand in front of lists of 256, all of which is
// the state's region.
fn average(mut line: Line<'_>) -> Option<()> {
    let mut ai = [0; 256];
    let mut av = [0.0; 256];
    let mut oi = [0; 256];
    let mut ov = [0.0; 256];
    line.next_part();
    let count = line.number(10)?;
    line.skip(b' ');
    let dims = line.dims()?;
    let len = line.entries(&mut ai, &mut av).indexes;
    if !line.rest.is_empty() {
        return None;
    }
    let holding = Header {
        start: 0,
        length: 256,
        begun: true,
        dims,
        len,
        capacity: aggregate_svecf32::capacity(dims, len),
        count,
    };
    let lists = Lists {
        indexes: &ai,
        values: &av,
    };
    show::sparse(holding.average(lists, &mut oi, &mut ov), &oi, &ov);
    Some(())
}

// Runs steps, up to the first that is refused. Each step takes a byte at least.
fn run(mut line: Line<'_>) {
    let mut room = Room::empty();
    let mut both = States::empty();
    for i in 0..line.rest.len() {
        let Some(step) = Step::read(&mut line, &mut room) else {
            return;
        };
        if i != 0 {
            shown::text(b" | ");
        }
        if !both.step(step) {
            return;
        }
    }
}

// Answers whether it is a request.
pub fn case(call: &[u8], line: Line<'_>) -> bool {
    match call {
        b"capacity" => capacity(line).is_some(),
        b"average" => average(line).is_some(),
        b"run" if run_steps::are_steps(line) => {
            run(line);
            true
        }
        _ => false,
    }
}
