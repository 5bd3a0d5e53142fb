// Reads the parts of a line.

ghost use Rattle.std.specs.Prelude.{◌≤◌, length};

use bit::BVectBorrowed;
use cases::Line;

// How many words a vector has at most, and so has a lent list.
pub const ROOM: usize = 1025;

// Words that are one and the same, as `1023*0`, if the list has room for so many. Answers how many.
fn repeated(line: &mut Line<'_>, list: &mut [u64]) -> usize
    ensures { result ≤ length list.old }
{
    let mut after = *line;
    let times = after.number(10).unwrap_or(0) as usize;
    let mut word = [0; 1];
    if !after.skip(b'*') || after.numbers(16, &mut word) == 0 || list.len() < times {
        return 0;
    }
    *line = after;
    list[..times].fill(word[0]);
    times
}

// A vector, whose words go to the front of the list. Of one that is not there the dims are 0.
pub fn vector<'a>(line: &mut Line<'_>, list: &'a mut [u64]) -> BVectBorrowed<'a> {
    let dims = line.dims().unwrap_or(0);
    let times = if line.skip(b' ') {
        repeated(line, list)
    } else {
        0
    };
    let len = times + line.numbers(16, &mut list[times..]);
    BVectBorrowed {
        dims,
        data: &list[..len],
    }
}
