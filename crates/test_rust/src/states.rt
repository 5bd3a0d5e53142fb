// What the steps of a run do. Each of the two states owns all of a pair of lists, and moves within it where it must grow.

use crate::run_steps::Step;
use crate::show;
use aggregate_svecf32::Header;
use refusal::{Refusal, Written};
use regions::Lists;
use sparse::SVectBorrowed;

// A state and its lists. They are arrays, as no memory is asked for.
#[derive(Drop)]
struct State {
    header: Header,
    indexes: [u32; 1024],
    values: [f32; 1024],
}

#[derive(Drop)]
pub struct States {
    first: State,
    second: State,
}

fn fresh() -> Header {
    aggregate_svecf32::fresh(0, 1024)
}

impl State {
    fn empty() -> State {
        State {
            header: fresh(),
            indexes: [0; 1024],
            values: [0.0; 1024],
        }
    }

    fn lists(&self) -> Lists<'_> {
        Lists {
            indexes: &self.indexes,
            values: &self.values,
        }
    }

    // Moves to other lists, with the capacity for `more` entries more, and takes these lists for its own.
    fn grow(&mut self, more: usize) -> Result<(), Refusal> {
        let mut h = self.header;
        let mut indexes = [0; 1024];
        let mut values = [0.0; 1024];
        h.move_to(self.lists(), more, &mut indexes, &mut values, 0, 1024)?;
        *self = State {
            header: h,
            indexes,
            values,
        };
        Ok(())
    }

    fn row(&mut self, row: SVectBorrowed<'_>) -> Result<(), Refusal> {
        let State {
            header,
            indexes,
            values,
        } = self;
        header.row(indexes, values, row)?;
        Ok(())
    }

    // Takes a row. On NEED the state grows, and is fed again.
    fn feed(&mut self, row: SVectBorrowed<'_>) -> Result<(), Refusal> {
        match self.row(row) {
            Err(Refusal::Need(_)) => {
                self.grow(row.indexes.len())?;
                self.row(row)
            }
            r => r,
        }
    }

    fn take(&mut self, other: &State) -> Result<(), Refusal> {
        let State {
            header,
            indexes,
            values,
        } = self;
        header.combine(indexes, values, other.header, other.lists())?;
        Ok(())
    }

    // Takes a second state. On NEED the first grows, and they are combined again.
    fn combine(&mut self, other: &State) -> Result<(), Refusal> {
        match self.take(other) {
            Err(Refusal::Need(_)) => {
                self.grow(other.header.len)?;
                self.take(other)
            }
            r => r,
        }
    }

    // Shows what a call on the state answered, and the state. Answers whether it was done.
    fn told(&self, r: Result<(), Refusal>) -> bool {
        show::told(self.header, r);
        r.is_ok()
    }

    fn sum(&self) -> bool {
        let mut oi = [0; 512];
        let mut ov = [0.0; 512];
        let r = self.header.sum(self.lists(), &mut oi, &mut ov);
        show::sparse(r, &oi, &ov);
        r.is_ok()
    }

    fn average(&self) -> bool {
        let mut oi = [0; 512];
        let mut ov = [0.0; 512];
        let r = self.header.average(self.lists(), &mut oi, &mut ov);
        show::sparse(r, &oi, &ov);
        r.is_ok()
    }
}

impl States {
    // Two states without rows.
    pub fn empty() -> States {
        States {
            first: State::empty(),
            second: State::empty(),
        }
    }

    // Does a step, and shows what it gives. Answers whether it was done: a refusal ends the run.
    pub fn step(&mut self, step: Step<'_>) -> bool {
        let States { first, second } = self;
        match step {
            Step::First(row) => {
                let r = first.feed(row);
                first.told(r)
            }
            Step::Second(row) => {
                let r = second.feed(row);
                second.told(r)
            }
            Step::Combine => {
                let r = first.combine(second);
                second.header = fresh();
                first.told(r)
            }
            Step::Sum => first.sum(),
            Step::Average => first.average(),
        }
    }
}
