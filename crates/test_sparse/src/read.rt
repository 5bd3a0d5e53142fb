// Reads the parts of a line.

use cases::{Line, Shape};
use sparse::SVectBorrowed;

// A vector, whose entries go to the front of the two lists. Of one that is not there the dims are 0.
pub fn vector<'a>(
    line: &mut Line<'_>,
    indexes: &'a mut [u32],
    values: &'a mut [f32],
) -> SVectBorrowed<'a> {
    let (dims, shape) = line.vector(indexes, values);
    SVectBorrowed {
        dims,
        indexes: &indexes[..shape.indexes],
        values: &values[..shape.values],
    }
}

// The lengths of the two lent lists, in brackets. Lengths that are not there are 0.
pub fn lengths(line: &mut Line<'_>) -> Shape {
    lengths_there(line).unwrap_or(Shape {
        indexes: 0,
        values: 0,
    })
}

// The lengths, if they are there. A number that is not there is 0.
fn lengths_there(line: &mut Line<'_>) -> Option<Shape> {
    let mut after = *line;
    after.next_part();
    if !after.skip(b'[') {
        return None;
    }
    let indexes = after.small(10).unwrap_or(0) as usize;
    after.skip(b' ');
    let values = after.small(10).unwrap_or(0) as usize;
    if !after.skip(b']') {
        return None;
    }
    *line = after;
    Some(Shape { indexes, values })
}
