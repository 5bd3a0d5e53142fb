// What a header says of its region, whether it is consistent with what stands there, and what calls on a state test
// before they write.

ghost use Rattle.std.specs.Prelude.{true, ◌≡◌, ◌≤◌};
ghost use Rattle.refusal.specs.Answers.{Checks};
ghost use Rattle.regions.specs.Regions.{both, inside};
ghost use Rattle.aggregate_svecf32.specs.States.{consistent};
ghost use Rattle.aggregate_svecf32.specs.Calls.{spare, move_of, finish_of};

use super::Header;
use headers::Numbers;
use refusal::Refusal;
use regions::Lists;

impl Header {
    // Its numbers without those of the region.
    pub(crate) fn numbers(self) -> Numbers
        ensures { result ≡ record { dims = self.dims; len = self.len; capacity = self.capacity; count = self.count } }
    {
        Numbers {
            dims: self.dims,
            len: self.len,
            capacity: self.capacity,
            count: self.count,
        }
    }

    // Whether a header is consistent with the entries of its region, which lies inside the lists.
    pub(crate) fn is_consistent(self, lists: Lists<'_>) -> bool
        requires { inside self.start self.length (both lists) ≡ true }
        ensures { result ≡ consistent self (both lists.entry) }
    {
        let numbers = self.numbers();
        if self.begun {
            numbers.is_begun_fairly(self.start, self.length, lists)
        } else {
            numbers.is_all_zero()
        }
    }

    // Whether it needs no larger region for n entries more.
    pub(crate) fn has_room(self, n: usize) -> bool
        requires { self.len ≤ self.capacity }
        ensures { result ≡ spare self n }
    {
        self.numbers().has_room(n)
    }

    // What a state refuses with that is to be moved to a region of the lists `to`, with room for `more` entries more.
    pub(crate) fn ready_to_move(
        self,
        lists: Lists<'_>,
        more: usize,
        to: Lists<'_>,
        start: usize,
        length: usize,
    ) -> Result<(), Refusal>
        ensures { Checks (move_of self (both lists.entry) more (both to.entry) start length) result }
    {
        self.check(lists)?;
        if !self.begun {
            return Err(Refusal::NotBegun);
        }
        if (self.dims as usize) < more {
            return Err(Refusal::Dims);
        }
        if self.has_room(more) {
            return Err(Refusal::NotNeeded);
        }
        if !regions::lies_inside(start, length, to.indexes.len(), to.values.len()) {
            return Err(Refusal::Room(length));
        }
        let capacity = regions::capacity(self.dims, self.len + more);
        if length < capacity {
            return Err(Refusal::Room(capacity));
        }
        Ok(())
    }

    // What a state that is to be written refuses with, for outputs of so many indexes and values.
    pub(crate) fn ready_to_write(
        self,
        lists: Lists<'_>,
        indexes: usize,
        values: usize,
    ) -> Result<(), Refusal>
        ensures { Checks (finish_of self (both lists.entry) indexes values) result }
    {
        self.check(lists)?;
        if !self.begun {
            return Err(Refusal::NotBegun);
        }
        if indexes < self.len || values < self.len {
            return Err(Refusal::Room(self.len));
        }
        Ok(())
    }
}
