// Aggregate states: sums and averages of sparse f32 rows. A state lives in a region that may start
// anywhere in a lent pair of lists. Every call tests all it is given; a refusal leaves the header and the lent lists as
// they were.

#![tactic(auto)]

mod states;
mod taking;

ghost use Rattle.std.specs.Prelude.{◌≡◌};
ghost use Rattle.refusal.specs.Answers.{Checks};
ghost use Rattle.sparse.specs.Vectors.{seen};
ghost use Rattle.regions.specs.Capacity.{capacity_for};
ghost use Rattle.regions.specs.Regions.{pair, both};
ghost use Rattle.aggregate_svecf32.specs.States.{fresh, state_of};
ghost use Rattle.aggregate_svecf32.specs.Calls.{Rows, Combines, Moves, Sums, Averages};

use refusal::{Refusal, Written};
use regions::Lists;
use sparse::SVectBorrowed;

// A state: the region it owns of the lent lists, from `start` for `length`; and, if it has begun, the
// dims, the number of entries in front of its region, how many it can hold, and how many rows came in. These are plain
// numbers, and 0 where it has not begun: a header comes from C as seven numbers, and those that do not fit together are
// a refusal of `check`.
#[derive(Clone, Copy)]
pub struct Header {
    pub start: usize,
    pub length: usize,
    pub begun: bool,
    pub dims: u32,
    pub len: usize,
    pub capacity: usize,
    pub count: u64,
}

// A state without rows.
pub fn fresh(start: usize, length: usize) -> Header
    ensures { result ≡ fresh start length }
{
    Header {
        start,
        length,
        begun: false,
        dims: 0,
        len: 0,
        capacity: 0,
        count: 0,
    }
}

// The capacity that a state of `dims` places has for n entries, and so the length of the region to give
// it.
pub fn capacity(dims: u32, n: usize) -> usize
    ensures { result ≡ capacity_for dims n }
{
    regions::capacity(dims, n)
}

impl Header {
    // Whether the state's region lies inside its lists and the header is consistent with what stands
    // there. Refuses with Room, State.
    pub fn check(self, lists: Lists<'_>) -> Result<(), Refusal>
        ensures { Checks (state_of self (both lists.entry)) result }
    {
        if !regions::lies_inside(
            self.start,
            self.length,
            lists.indexes.len(),
            lists.values.len(),
        ) {
            return Err(Refusal::Room(self.length));
        }
        if !self.is_consistent(lists) {
            return Err(Refusal::State);
        }
        Ok(())
    }

    // Adds a row, and answers the turns. Refuses the row as its `check` does, then as this one's, and then with
    // Differ, Count, Need, Room.
    pub fn row(
        &mut self,
        ai: &mut [u32],
        av: &mut [f32],
        row: SVectBorrowed<'_>,
    ) -> Result<usize, Refusal>
        ensures { Rows self.old (pair ai.old av.old) (seen row.entry) result self.new (pair ai.new av.new) }
    {
        row.check()?;
        self.check(Lists {
            indexes: ai,
            values: av,
        })?;
        self.take(ai, av, row, 1)
    }

    // Adds a second state, read from another pair of lists, and answers the turns. Refuses the second as `check` does,
    // then the first, and then with Differ, Count, Need, Room.
    pub fn combine(
        &mut self,
        ai: &mut [u32],
        av: &mut [f32],
        other: Header,
        lists: Lists<'_>,
    ) -> Result<usize, Refusal>
        ensures { Combines self.old (pair ai.old av.old) other (both lists.entry) result self.new (pair ai.new av.new) }
    {
        other.check(lists)?;
        self.check(Lists {
            indexes: ai,
            values: av,
        })?;
        if !other.begun {
            return Ok(0);
        }
        let held = lists.vector(other.dims, other.start, other.len);
        self.take(ai, av, held, other.count)
    }

    // Copies the state to a region in another pair of lists that has the capacity for `more` entries
    // more, and makes its header that of the region; it takes no turns. Refuses as `check` does, and then with NotBegun,
    // Dims, NotNeeded, Room.
    pub fn move_to(
        &mut self,
        lists: Lists<'_>,
        more: usize,
        ci: &mut [u32],
        cv: &mut [f32],
        start: usize,
        length: usize,
    ) -> Result<usize, Refusal>
        ensures { Moves self.old (both lists.entry) more (pair ci.old cv.old) start length result self.new (pair ci.new cv.new) }
    {
        let to = Lists {
            indexes: ci,
            values: cv,
        };
        self.ready_to_move(lists, more, to, start, length)?;
        regions::copy(lists, self.start, self.len, ci, cv, start);
        let capacity = regions::capacity(self.dims, self.len + more);
        *self = Header {
            start,
            length,
            capacity,
            ..*self
        };
        Ok(0)
    }

    // Writes the sum of the rows to the front of `oi` and `ov`, and answers its dims and entries. The
    // state stays as it is. Refuses as `check` does, and then with NotBegun, Room. So does the next.
    pub fn sum(self, lists: Lists<'_>, oi: &mut [u32], ov: &mut [f32]) -> Result<Written, Refusal>
        ensures { Sums self (both lists.entry) oi.old ov.old result oi.new ov.new }
    {
        self.ready_to_write(lists, oi.len(), ov.len())?;
        regions::copy(lists, self.start, self.len, oi, ov, 0);
        Ok(Written {
            dims: self.dims,
            len: self.len,
        })
    }

    // Writes the sum divided by the number of rows.
    pub fn average(
        self,
        lists: Lists<'_>,
        oi: &mut [u32],
        ov: &mut [f32],
    ) -> Result<Written, Refusal>
        ensures { Averages self (both lists.entry) oi.old ov.old result oi.new ov.new }
    {
        self.ready_to_write(lists, oi.len(), ov.len())?;
        let held = lists.vector(self.dims, self.start, self.len);
        let n = averages::divide(held, self.count, oi, ov);
        Ok(Written {
            dims: self.dims,
            len: n,
        })
    }
}
