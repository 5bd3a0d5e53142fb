// Reads what a call is handed: vectors and the bounds of a slice. What is not there is None.

use bit::BVectBorrowed;
use cases::Line;
use sparse::SVectBorrowed;
use std::ops::Bound;

// What a call is handed: a vector; and a second one, or the bounds of a slice, or none of both.
#[derive(Clone, Copy)]
pub struct Handed<V> {
    pub first: V,
    pub second: Option<V>,
    pub slice: Option<(Bound<u32>, Bound<u32>)>,
}

// Room for the entries of a sparse vector: lists of so many. They are arrays, as no memory is asked for.
#[derive(Drop)]
pub struct Room {
    indexes: [u32; 256],
    values: [f32; 256],
}

impl Room {
    pub fn empty() -> Room {
        Room {
            indexes: [0; 256],
            values: [0.0; 256],
        }
    }

    // The vector of `dims` places whose entries are next.
    pub fn entries(&mut self, line: &mut Line<'_>, dims: u32) -> SVectBorrowed<'_> {
        let Room { indexes, values } = self;
        let shape = line.entries(indexes, values);
        SVectBorrowed {
            dims,
            indexes: &indexes[..shape.indexes],
            values: &values[..shape.values],
        }
    }

    // A sparse vector.
    pub fn vector(&mut self, line: &mut Line<'_>) -> Option<SVectBorrowed<'_>> {
        let dims = line.dims()?;
        Some(self.entries(line, dims))
    }
}

// A bit vector, whose words go to the front of a list.
fn bits<'a>(line: &mut Line<'_>, list: &'a mut [u64; 1024]) -> Option<BVectBorrowed<'a>> {
    let dims = line.dims()?;
    line.skip(b' ');
    let n = line.numbers(16, list);
    Some(BVectBorrowed {
        dims,
        data: &list[..n],
    })
}

// The bounds of a slice.
fn slice(line: &mut Line<'_>) -> Option<(Bound<u32>, Bound<u32>)> {
    let before = line.rest.len();
    let bounds = line.bounds();
    (line.rest.len() != before).then_some(bounds)
}

impl<V: Copy> Handed<V> {
    // What a line hands a call, of which the vectors are read; None where there is no first one, or something is left that
    // cannot be read.
    fn read(mut line: Line<'_>, first: Option<V>, second: Option<V>) -> Option<Handed<V>> {
        let slice = slice(&mut line);
        if !line.rest.is_empty() {
            return None;
        }
        Some(Handed {
            first: first?,
            second,
            slice,
        })
    }
}

// Runs a call on the sparse vectors of a request. Answers whether it is a request.
pub fn sparse_vectors<F: FnOnce(Handed<SVectBorrowed<'_>>) -> bool + Drop>(
    mut line: Line<'_>,
    run: F,
) -> bool
    requires { F.IsAlwaysCallable run }
{
    let mut room_a = Room::empty();
    let mut room_b = Room::empty();
    let a = room_a.vector(&mut line);
    let b = room_b.vector(&mut line);
    match Handed::read(line, a, b) {
        Some(h) => run(h),
        None => false,
    }
}

// Runs a call on the bit vectors of a request. Answers whether it is a request.
pub fn bit_vectors<F: FnOnce(Handed<BVectBorrowed<'_>>) -> bool + Drop>(
    mut line: Line<'_>,
    run: F,
) -> bool
    requires { F.IsAlwaysCallable run }
{
    // The words stand in arrays, as no memory is asked for.
    let mut words_a = [0; 1024];
    let mut words_b = [0; 1024];
    let a = bits(&mut line, &mut words_a);
    let b = bits(&mut line, &mut words_b);
    match Handed::read(line, a, b) {
        Some(h) => run(h),
        None => false,
    }
}
