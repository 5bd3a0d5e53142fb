// Why a call refuses, what several calls answer, and the bounds of a slice. specs/Numbers.antt has the number of each
// refusal, and specs/Answers.antt what each answer says in numbers.
#![tactic(auto)]

ghost use Rattle.std.specs.Prelude.{◌≡◌};
ghost use Rattle.refusal.specs.Numbers.{number_of, place_of};
ghost use Rattle.refusal.specs.Bounds.{start_of, end_of, span_of};

use std::ops::{Bound, Range};

// Why a call refuses, with the place that it carries. When each is given is said in specs/Numbers.antt.
#[derive(Clone, Copy, PartialEq, Eq)]
pub enum Refusal {
    Dims,
    Length,
    Order(usize),
    Index(usize),
    Zero(usize),
    Padding(usize),
    Differ,
    Bounds,
    Room(usize),
    Need(usize),
    Count,
    NotBegun,
    State,
    NotNeeded,
}

impl Refusal {
    // Its number, from 1 to 14. 0 is no refusal.
    pub fn number(self) -> u32
        ensures { result ≡ number_of self }
    {
        match self {
            Refusal::Dims => 1,
            Refusal::Length => 2,
            Refusal::Order(_) => 3,
            Refusal::Index(_) => 4,
            Refusal::Zero(_) => 5,
            Refusal::Padding(_) => 6,
            Refusal::Differ => 7,
            Refusal::Bounds => 8,
            Refusal::Room(_) => 9,
            Refusal::Need(_) => 10,
            Refusal::Count => 11,
            Refusal::NotBegun => 12,
            Refusal::State => 13,
            Refusal::NotNeeded => 14,
        }
    }

    // The place that it carries, or 0.
    pub fn place(self) -> usize
        ensures { result ≡ place_of self }
    {
        match self {
            Refusal::Order(at) | Refusal::Index(at) | Refusal::Zero(at) | Refusal::Padding(at) =>
                at,
            Refusal::Room(n) | Refusal::Need(n) => n,
            _ => 0,
        }
    }
}

// A vector was written to a lent output: its dims, and how many entries or words it has.
#[derive(Clone, Copy, PartialEq, Eq)]
pub struct Written {
    pub dims: u32,
    pub len: usize,
}

// Two vectors were put together in a lent output: the dims and the entries of the answer, and the turns
// that the walk over both took.
#[derive(Clone, Copy, PartialEq, Eq)]
pub struct Merged {
    pub dims: u32,
    pub len: usize,
    pub turns: usize,
}

// Where a slice starts, and where it ends. One past the largest u32 is a number here too.
fn start_of(from: Bound<u32>) -> u64
    ensures { result ≡ start_of from }
{
    match from {
        Bound::Included(n) => n as u64,
        Bound::Excluded(n) => n as u64 + 1,
        Bound::Unbounded => 0,
    }
}

fn end_of(to: Bound<u32>, dims: u32) -> u64
    ensures { result ≡ end_of dims to }
{
    match to {
        Bound::Included(n) => n as u64 + 1,
        Bound::Excluded(n) => n as u64,
        Bound::Unbounded => dims as u64,
    }
}

// The places that the bounds `from` and `to` name in a vector of `dims` places, if they name any and all are there.
pub fn span_of(from: Bound<u32>, to: Bound<u32>, dims: u32) -> Option<Range<u32>>
    ensures { result ≡ span_of from to dims }
{
    let start = start_of(from);
    let end = end_of(to, dims);
    if end <= start {
        return None;
    }
    if end > dims as u64 {
        return None;
    }
    Some(start as u32..end as u32)
}
