// A vector as it was read.

ghost use Rattle.std.specs.Prelude.{◌≡◌, length};

// Its dims, the indexes of its entries and the bits of their values.
#[derive(Clone, Copy)]
pub struct OperandBorrowed<'a> {
    pub dims: u32,
    pub indexes: &'a [u32],
    pub bits: &'a [u32],
    pub ghost even: { length indexes.now ≡ length bits.now },
}
