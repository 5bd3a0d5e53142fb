// Copies of a state's entries that come before the next entry of a row, to the front of the room. For the merge in place,
// not for users.

#![tactic(auto)]

ghost use Rattle.std.specs.Prelude.{◌<◌, length};
ghost use Rattle.sparse.specs.Sound.{Rising};
ghost use Rattle.copies.specs.Copies.{Before, Clear, Copied};

// Where a merge in place stands: the next entries of the state and of the row, and the next to write.
#[derive(Clone, Copy)]
pub struct Step {
    pub at: usize,
    pub q: usize,
    pub n: usize,
}

// How many of a state's entries come before the row's next one.
fn count_before(is: &[u32], ib: &[u32], q: usize) -> usize
    requires { Rising is.now }
    ensures { Before is.now ib.now q result }
{
    match ib.get(q) {
        Some(place) => walks::near_point(is, *place),
        None => is.len(),
    }
}

// Copies the entries before the row's next one, and returns how many they are. Each is looked at as it is copied, which
// is faster than a search where they are few.
fn copy_below(si: &mut [u32], sv: &mut [f32], s: Step, cap: usize, ib: &[u32]) -> usize
    requires clear { Clear si.old sv.old s.at cap s.n }
    requires left { s.q < length ib.now }
    ensures { Copied si.old sv.old s.at cap s.n ib.now s.q result si.new sv.new }
{
    let place = ib[s.q];
    let left = cap - s.at;
    for k in 0..left {
        let i = si[s.at + k];
        if place <= i {
            return k;
        }
        let v = sv[s.at + k];
        let to = s.n + k;
        si[to] = i;
        sv[to] = v;
    }
    left
}

// How many of the state's entries there are for one of the row: up to 4, more, or more than 32. Any is right, and one is
// fast.
#[derive(Clone, Copy)]
pub enum Share {
    Even,
    Long,
    Far,
}

// Copies the same entries. Where they may be many, or the row has ended, they are found first and each list is copied on
// its own.
pub fn copy_before(
    share: Share,
    si: &mut [u32],
    sv: &mut [f32],
    s: Step,
    cap: usize,
    ib: &[u32],
) -> usize
    requires { Clear si.old sv.old s.at cap s.n }
    ensures { Copied si.old sv.old s.at cap s.n ib.now s.q result si.new sv.new }
{
    if s.q < ib.len() && !matches!(share, Share::Far) {
        return copy_below(si, sv, s, cap, ib);
    }
    let k = count_before(&si[s.at..cap], ib, s.q);
    si.copy_within(s.at..s.at + k, s.n);
    sv.copy_within(s.at..s.at + k, s.n);
    k
}
