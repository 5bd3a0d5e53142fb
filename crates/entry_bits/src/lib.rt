// The values of a session and the bits to print for them. The bits that were read are kept beside the values, so
// that an entry that one vector alone has keeps its bits, a NaN's too. These are parts of `session`, and no calls that a
// user makes: how long the lists are is required.

#![tactic(auto)]

mod operand;

ghost use Rattle.std.specs.Prelude.{◌++◌, map, ◌≡◌, ◌≤◌, length, drop, cond, Some, None};
ghost use Rattle.std.specs.Float.{binary32};
ghost use Rattle.std.specs.Float.Ieee.{of_bits};
ghost use Rattle.merges.specs.declared.Op.TheVariants.{Sub};
ghost use Rattle.entry_bits.specs.Operands.{lent, has, bits_at, turned, shown_at, shown};

use merges::Op;
pub use operand::OperandBorrowed;
use sparse::SVectBorrowed;

// Writes the values that have these bits to the front of a list.
pub fn values(bits: &[u32], out: &mut [f32])
    requires { length bits.now ≤ length out.old }
    ensures { out.new ≡ map (of_bits binary32) bits.now ++ drop (length bits.now) out.old }
{
    for (i, pattern) in bits.iter().enumerate() {
        out[i] = patterns::value(*pattern);
    }
}

// The bits of the entry at an index, if there is one.
fn bits_at(a: OperandBorrowed<'_>, index: u32) -> Option<u32>
    ensures { result ≡ cond (has (lent a.entry) index) (Some (bits_at (lent a.entry) index)) None }
{
    let at = finding::find(a.indexes, index)?;
    Some(a.bits[at])
}

// Bits with the sign bit turned.
fn negated(bits: u32) -> u32
    ensures { result ≡ turned Sub bits }
{
    if bits < 2147483648 {
        return bits + 2147483648;
    }
    bits - 2147483648
}

// The bits of an entry that the right operand alone has.
fn turned(op: Op, bits: u32) -> u32
    ensures { result ≡ turned op bits }
{
    match op {
        Op::Add | Op::Mul => bits,
        Op::Sub => negated(bits),
    }
}

// The bits to print for one entry of what two vectors gave. One of the two has the index; of an index that neither has
// the bits would be 0.
fn shown_at(op: Op, a: OperandBorrowed<'_>, b: OperandBorrowed<'_>, index: u32, value: f32) -> u32
    ensures { result ≡ shown_at op (lent a.entry) (lent b.entry) index value }
{
    match (bits_at(a, index), bits_at(b, index)) {
        (Some(_), Some(_)) => patterns::bits(value),
        (Some(bits), None) => bits,
        (None, bits) => turned(op, bits.unwrap_or(0)),
    }
}

// Writes the bits to print for the entries of what two vectors gave to the front of a list.
pub fn shown(
    op: Op,
    a: OperandBorrowed<'_>,
    b: OperandBorrowed<'_>,
    given: SVectBorrowed<'_>,
    out: &mut [u32],
)
    requires { (length given.indexes.now ≡ length given.values.now) × (length given.indexes.now ≤ length out.old) }
    ensures { out.new ≡ shown op (lent a.entry) (lent b.entry) given.entry.indexes.now given.entry.values.now
        ++ drop (length given.entry.indexes.now) out.old }
{
    for (i, index) in given.indexes.iter().enumerate() {
        out[i] = shown_at(op, a, b, *index, given.values[i]);
    }
}
