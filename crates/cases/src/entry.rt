// One entry more of two lists. Each answers whether it read anything, and leaves the line as it was if not.

ghost use Rattle.cases.specs.Room.{Inside};

use super::{Line, Shape};

impl Line<'_> {
    // One more index, if there is one before a colon.
    fn index(&mut self, shape: &mut Shape, indexes: &mut [u32], values: &mut [f32]) -> bool
        requires { Inside shape.old indexes.old values.old }
        ensures { Inside shape.new indexes.old values.old }
    {
        let mut line = *self;
        let Some(index) = line.small(10) else {
            return false;
        };
        if crate::byte(line.rest, 0) != b':' || indexes.len() <= shape.indexes {
            return false;
        }
        indexes[shape.indexes] = index;
        shape.indexes += 1;
        *self = line;
        true
    }

    // One more value, if there is one after the colon; or the colon alone.
    fn value(&mut self, shape: &mut Shape, indexes: &mut [u32], values: &mut [f32]) -> bool
        requires { Inside shape.old indexes.old values.old }
        ensures { Inside shape.new indexes.old values.old }
    {
        let mut line = *self;
        line.skip(b':');
        if let Some(bits) = line.small(16) {
            if values.len() <= shape.values {
                return false;
            }
            values[shape.values] = patterns::value(bits);
            shape.values += 1;
        }
        *self = line;
        true
    }

    // The entry that `.` stands for.
    fn dot(&mut self, shape: &mut Shape, indexes: &mut [u32], values: &mut [f32]) -> bool
        requires { Inside shape.old indexes.old values.old }
        ensures { Inside shape.new indexes.old values.old }
    {
        if indexes.len() <= shape.indexes || values.len() <= shape.values {
            return false;
        }
        indexes[shape.indexes] = crate::DOT_INDEX;
        values[shape.values] = crate::DOT_VALUE;
        shape.indexes += 1;
        shape.values += 1;
        self.skip(b'.')
    }

    // One more index, value, `.` or space.
    pub(super) fn entry(
        &mut self,
        shape: &mut Shape,
        indexes: &mut [u32],
        values: &mut [f32],
    ) -> bool
        requires { Inside shape.old indexes.old values.old }
        ensures { Inside shape.new indexes.old values.old }
    {
        match crate::byte(self.rest, 0) {
            b':' => self.value(shape, indexes, values),
            b'.' => self.dot(shape, indexes, values),
            b' ' => self.skip(b' '),
            _ => self.index(shape, indexes, values),
        }
    }
}
