// Reads the parts of a line: the call that it names, its numbers and its lists. Makes headers of numbers.

use aggregate_svecf32::Header;
use cases::Line;
use regions::Lists;
use sparse::SVectBorrowed;

// The call that a line names.
#[derive(Clone, Copy)]
pub enum Call {
    Fresh,
    Capacity,
    Check,
    Row,
    Combine,
    Move,
    Sum,
    Average,
}

impl TryFrom<&[u8]> for Call {
    type Error = ();

    // The call of a line, by its first two letters.
    fn try_from(s: &[u8]) -> Result<Call, ()> {
        match s {
            [b'f', ..] => Ok(Call::Fresh),
            [b'r', ..] => Ok(Call::Row),
            [b'm', ..] => Ok(Call::Move),
            [b's', ..] => Ok(Call::Sum),
            [b'a', ..] => Ok(Call::Average),
            [b'c', b'a', ..] => Ok(Call::Capacity),
            [b'c', b'h', ..] => Ok(Call::Check),
            [b'c', b'o', ..] => Ok(Call::Combine),
            _ => Err(()),
        }
    }
}

// The header of seven numbers: dims is a u32, and begun is 1 or 0.
pub fn header(n: &[u64]) -> Option<Header> {
    let [start, length, begun, dims, len, capacity, count] = n else {
        return None;
    };
    Some(Header {
        start: *start as usize,
        length: *length as usize,
        begun: match begun {
            0 => false,
            1 => true,
            _ => return None,
        },
        dims: u32::try_from(*dims).ok()?,
        len: *len as usize,
        capacity: *capacity as usize,
        count: *count,
    })
}

// Room for a part of a line: at most so many numbers, indexes and values. They are arrays, as no memory is asked for.
#[derive(Drop)]
pub struct Room {
    numbers: [u64; 7],
    indexes: [u32; 80],
    values: [f32; 80],
}

// A part of a line: numbers in a row, and two lists.
#[derive(Drop)]
pub struct Part<'a> {
    pub numbers: &'a [u64],
    pub indexes: &'a mut [u32],
    pub values: &'a mut [f32],
}

impl Room {
    pub fn empty() -> Room {
        Room {
            numbers: [0; 7],
            indexes: [0; 80],
            values: [0.0; 80],
        }
    }

    // Reads a part of a line, after a bar. Numbers and lists that are not there are empty.
    pub fn read(&mut self, line: &mut Line<'_>) -> Part<'_> {
        let Room {
            numbers,
            indexes,
            values,
        } = self;
        line.next_part();
        let n = line.numbers(10, numbers);
        line.next_part();
        let shape = line.entries(indexes, values);
        Part {
            numbers: &numbers[..n],
            indexes: &mut indexes[..shape.indexes],
            values: &mut values[..shape.values],
        }
    }
}

impl Part<'_> {
    pub fn lists(&self) -> Lists<'_> {
        Lists {
            indexes: self.indexes,
            values: self.values,
        }
    }

    // The lists as a vector of `dims` places.
    pub fn vector(&self, dims: u32) -> SVectBorrowed<'_> {
        SVectBorrowed {
            dims,
            indexes: self.indexes,
            values: self.values,
        }
    }
}
