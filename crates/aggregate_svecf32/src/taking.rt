// A vector comes to a state: a row, or the entries of a second state. The state and the vector passed
// their tests.

ghost use Rattle.std.specs.Prelude.{true, ◌≡◌};
ghost use Rattle.sparse.specs.Vectors.{seen};
ghost use Rattle.regions.specs.Regions.{pair};
ghost use Rattle.aggregate_svecf32.specs.Calls.{Acts, begin_of, begun, merge_of, merged, take_of, taken};
ghost use Rattle.aggregate_svecf32.specs.Loops.{Given};

use super::Header;
use refusal::Refusal;
use regions::Lists;
use sparse::SVectBorrowed;

impl Header {
    // A state that has not begun takes the entries as they are.
    fn begin(
        &mut self,
        ai: &mut [u32],
        av: &mut [f32],
        v: SVectBorrowed<'_>,
        count: u64,
    ) -> Result<usize, Refusal>
        requires { Given self.old (pair ai.old av.old) (seen v) }
        ensures { Acts self.old (begin_of self.old (seen v.entry)) (begun self.old (seen v.entry) count) (pair ai.old av.old) result self.new (pair ai.new av.new) }
    {
        let SVectBorrowed {
            dims,
            indexes,
            values,
        } = v;
        let len = indexes.len();
        let capacity = regions::capacity(dims, len);
        if self.length < capacity {
            return Err(Refusal::Room(capacity));
        }
        regions::copy(Lists { indexes, values }, 0, len, ai, av, self.start);
        *self = Header {
            begun: true,
            dims,
            len,
            capacity,
            count,
            ..*self
        };
        Ok(len)
    }

    // A state that has begun merges the entries, and its count rises by `more`.
    fn merge(
        &mut self,
        ai: &mut [u32],
        av: &mut [f32],
        v: SVectBorrowed<'_>,
        more: u64,
    ) -> Result<usize, Refusal>
        requires begun { self.old.begun ≡ true }
        requires given { Given self.old (pair ai.old av.old) (seen v) }
        ensures { Acts self.old (merge_of self.old (seen v.entry) more) (merged self.old (pair ai.old av.old) (seen v.entry) more) (pair ai.old av.old) result self.new (pair ai.new av.new) }
    {
        if self.dims != v.dims {
            return Err(Refusal::Differ);
        }
        if self.numbers().are_too_many(more) {
            return Err(Refusal::Count);
        }
        let count = self.count + more;
        let n = v.indexes.len();
        if !self.has_room(n) {
            let wanted = regions::capacity(self.dims, self.len + n);
            return Err(Refusal::Need(wanted));
        }
        let start = self.start;
        let end = start + self.length;
        let si = &mut ai[start..end];
        let sv = &mut av[start..end];
        let m = in_place::merge_in_place(si, sv, self.len, self.capacity, v);
        self.len = m.len;
        self.count = count;
        Ok(m.turns)
    }

    // The state takes the entries in, and its count rises by `more`.
    pub(crate) fn take(
        &mut self,
        ai: &mut [u32],
        av: &mut [f32],
        v: SVectBorrowed<'_>,
        more: u64,
    ) -> Result<usize, Refusal>
        requires { Given self.old (pair ai.old av.old) (seen v) }
        ensures { Acts self.old (take_of self.old (seen v.entry) more) (taken self.old (pair ai.old av.old) (seen v.entry) more) (pair ai.old av.old) result self.new (pair ai.new av.new) }
    {
        if self.begun {
            self.merge(ai, av, v, more)
        } else {
            self.begin(ai, av, v, more)
        }
    }
}
