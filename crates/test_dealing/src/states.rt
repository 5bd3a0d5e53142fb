// A state and what is done with it. A state owns a region in each of two pairs of lists and lies in one of the
// two, which is `here`, the first pair that these functions are lent. Where it needs room it moves to the other.

use crate::rows;
use aggregate_svecf32::Header;
use refusal::Refusal;
use regions::Lists;
use sparse::SVectBorrowed;

// A pair of lists: 48 places for each of 64 states. They are arrays, as no memory is asked for.
#[derive(Drop)]
pub struct Store {
    indexes: [u32; 3072],
    values: [f32; 3072],
}

// A state, and whether it lies in the pair B.
#[derive(Clone, Copy)]
pub struct State {
    pub header: Header,
    pub in_b: bool,
}

impl Store {
    // Lists of entries that belong to no state.
    pub fn new() -> Store {
        Store {
            indexes: [4294967295; 3072],
            values: [9.0; 3072],
        }
    }

    pub fn lists(&self) -> Lists<'_> {
        Lists {
            indexes: &self.indexes,
            values: &self.values,
        }
    }
}

impl State {
    // Moves to the other pair, with the capacity for `more` entries more.
    fn move_over(&mut self, here: &Store, more: usize, there: &mut Store) -> Result<(), Refusal> {
        let Header { start, length, .. } = self.header;
        let Store { indexes, values } = there;
        self.header
            .move_to(here.lists(), more, indexes, values, start, length)?;
        self.in_b = !self.in_b;
        Ok(())
    }

    // Goes to the other pair as it is: a state without rows takes it there.
    fn bring(&mut self, here: &Store, there: &mut Store) -> Result<(), Refusal> {
        let mut brought = aggregate_svecf32::fresh(self.header.start, self.header.length);
        let Store { indexes, values } = there;
        brought.combine(indexes, values, self.header, here.lists())?;
        self.header = brought;
        self.in_b = !self.in_b;
        Ok(())
    }

    // Takes a row.
    fn row(&mut self, here: &mut Store, row: SVectBorrowed<'_>) -> Result<(), Refusal> {
        let Store { indexes, values } = here;
        self.header.row(indexes, values, row)?;
        Ok(())
    }

    // Takes a row. On NEED the state moves, and is fed again.
    pub fn feed(
        &mut self,
        here: &mut Store,
        there: &mut Store,
        row: SVectBorrowed<'_>,
    ) -> Result<(), Refusal> {
        match self.row(here, row) {
            Err(Refusal::Need(_)) => {
                self.move_over(here, row.indexes.len(), there)?;
                self.row(there, row)
            }
            r => r,
        }
    }

    // Takes a second state, which lies in the other pair.
    fn take(&mut self, here: &mut Store, other: State, there: &Store) -> Result<(), Refusal> {
        let Store { indexes, values } = here;
        self.header
            .combine(indexes, values, other.header, there.lists())?;
        Ok(())
    }

    // Takes a second state, which lies in the other pair. On NEED the state moves there, and the second comes here.
    fn take_with_room(
        &mut self,
        here: &mut Store,
        mut other: State,
        there: &mut Store,
    ) -> Result<(), Refusal> {
        match self.take(here, other, there) {
            Err(Refusal::Need(_)) => {
                self.move_over(here, other.header.len, there)?;
                other.bring(there, here)?;
                self.take(there, other, here)
            }
            r => r,
        }
    }

    // Takes a second state, whichever pair it lies in.
    pub fn join(
        &mut self,
        here: &mut Store,
        mut other: State,
        there: &mut Store,
    ) -> Result<(), Refusal> {
        if other.in_b == self.in_b {
            other.bring(here, there)?;
        }
        self.take_with_room(here, other, there)
    }
}
