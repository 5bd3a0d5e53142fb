// The tests of a header's numbers. Parts of the aggregate, not calls that a user makes.

#![tactic(auto)]

ghost use Rattle.std.specs.Prelude.{true, ◌≡◌, ◌≤◌};
ghost use Rattle.sparse.specs.Vectors.{vector};
ghost use Rattle.regions.specs.Regions.{both, part, inside};
ghost use Rattle.headers.specs.Headers.{fair, zeros, too_many, has_room};

use regions::Lists;

// The numbers of a header beside those of its region: the dims of the state, how many entries it has and how many it can
// hold, and how many rows came in.
#[derive(Clone, Copy)]
pub struct Numbers {
    pub dims: u32,
    pub len: usize,
    pub capacity: usize,
    pub count: u64,
}

impl Numbers {
    // Whether the numbers of a header without rows are consistent.
    pub fn is_all_zero(self) -> bool
        ensures { result ≡ zeros self.dims self.len self.capacity self.count }
    {
        matches!(
            self,
            Numbers {
                dims: 0,
                len: 0,
                capacity: 0,
                count: 0,
            }
        )
    }

    // Whether the numbers of a header that has begun are consistent with the entries of its region, the `length` places
    // from `start` on, which lies inside the lists.
    pub fn is_begun_fairly(self, start: usize, length: usize, lists: Lists<'_>) -> bool
        requires { inside start length (both lists) ≡ true }
        ensures { result ≡ fair length self.len self.capacity self.count (vector self.dims (part start self.len (both lists.entry).indexes) (part start self.len (both lists.entry).values)) }
    {
        if regions::capacity(self.dims, self.capacity) != self.capacity {
            return false;
        }
        if self.capacity < self.len {
            return false;
        }
        if length < self.capacity {
            return false;
        }
        if self.count == 0 {
            return false;
        }
        lists.vector(self.dims, start, self.len).check().is_ok()
    }

    // Whether the rows that came and the rows to come are more than a count can be.
    pub fn are_too_many(self, more: u64) -> bool
        ensures { result ≡ too_many self.count more }
    {
        self.count.checked_add(more).is_none()
    }

    // Whether a state needs no larger region for n entries more: it has one for every place, or it has room
    // for all n.
    pub fn has_room(self, n: usize) -> bool
        requires { self.len ≤ self.capacity }
        ensures { result ≡ has_room self.dims self.len self.capacity n }
    {
        if self.capacity == self.dims as usize {
            return true;
        }
        n <= self.capacity - self.len
    }
}
