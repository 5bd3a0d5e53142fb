// Runs the operation of a session, and writes the line. These are parts of `answer`, and no calls that a user makes: how
// long the lists are is required.

ghost use Rattle.std.specs.Prelude.{◌≡◌, ◌≤◌, length};
ghost use Rattle.texts.specs.Texts.{vector_text};
ghost use Rattle.texts.specs.Puts.{Puts};
ghost use Rattle.sparse.specs.Vectors.{seen};
ghost use Rattle.entry_bits.specs.Operands.{lent, valued, shown};
ghost use Rattle.session.specs.Parts.{Fit, Tells};

use entry_bits::OperandBorrowed;
use merges::Op;
use sparse::SVectBorrowed;

// Writes the line of what two vectors gave. The bits have room in a list of a fixed size, since the program has no heap.
fn line(
    op: Op,
    a: OperandBorrowed<'_>,
    b: OperandBorrowed<'_>,
    given: SVectBorrowed<'_>,
    out: &mut [u8],
) -> usize
    requires even { length given.indexes.now ≡ length given.values.now }
    requires few { length given.indexes.now ≤ 256 }
    requires room { 8192 ≤ length out.old }
    ensures { let v = seen given.entry in
        Puts (vector_text v.dims v.indexes (shown op (lent a.entry) (lent b.entry) v.indexes v.values))
        0 out.old result out.new }
{
    let n = given.indexes.len();
    let mut bits = [0u32; 256];
    entry_bits::shown(op, a, b, given, &mut bits);
    texts::vector(out, given.dims, given.indexes, &bits[..n])
}

// Writes the line for an operation on two vectors, which are given as they were read and with their values. What they
// give, too, has room in lists of a fixed size.
fn give(
    op: Op,
    a: OperandBorrowed<'_>,
    b: OperandBorrowed<'_>,
    x: SVectBorrowed<'_>,
    y: SVectBorrowed<'_>,
    out: &mut [u8],
) -> usize
    requires fit { Fit (lent a) (lent b) out.old }
    requires values { (seen x ≡ valued (lent a)) × (seen y ≡ valued (lent b)) }
    ensures { Tells op (lent a.entry) (lent b.entry) out.old result out.new }
{
    let mut oi = [0u32; 256];
    let mut ov = [0.0f32; 256];
    match merges::join(op, x, y, &mut oi, &mut ov) {
        Err(e) => texts::refused(out, e.number(), e.place()),
        Ok(m) => {
            let given = SVectBorrowed {
                dims: m.dims,
                indexes: &oi[..m.len],
                values: &ov[..m.len],
            };
            line(op, a, b, given, out)
        }
    }
}

// Writes the line for an operation on two vectors as they were read. So have their values.
pub fn operate(op: Op, a: OperandBorrowed<'_>, b: OperandBorrowed<'_>, out: &mut [u8]) -> usize
    requires { Fit (lent a) (lent b) out.old }
    ensures { Tells op (lent a.entry) (lent b.entry) out.old result out.new }
{
    let mut va = [0.0f32; 128];
    let mut vb = [0.0f32; 128];
    entry_bits::values(a.bits, &mut va);
    entry_bits::values(b.bits, &mut vb);
    let x = SVectBorrowed {
        dims: a.dims,
        indexes: a.indexes,
        values: &va[..a.bits.len()],
    };
    let y = SVectBorrowed {
        dims: b.dims,
        indexes: b.indexes,
        values: &vb[..b.bits.len()],
    };
    give(op, a, b, x, y, out)
}
