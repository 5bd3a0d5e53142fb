// The calls of `svect`.

ghost use Rattle.std.specs.Prelude.{◌≤◌};

use crate::read::Handed;
use crate::show;
use refusal::{Merged, Refusal, Written};
use sparse::SVectBorrowed;

// The places of a written vector.
const PLACES: usize = 512;

// The room that add and sub ask for, of a written vector's places: so much is lent to them, and no more.
fn room(a: SVectBorrowed<'_>, b: SVectBorrowed<'_>) -> usize
    ensures { result ≤ 512 }
{
    let both = a.indexes.len().saturating_add(b.indexes.len());
    both.min(a.dims as usize).min(PLACES)
}

// Lends lists to a call that writes, of so many places or all that there are, and shows what it wrote.
fn lend<F: FnOnce(&mut [u32], &mut [f32]) -> Result<Written, Refusal> + Drop>(room: usize, write: F)
    requires { F.IsAlwaysCallable write }
{
    // The lists are arrays, as no memory is asked for.
    let mut indexes = [0; PLACES];
    let mut values = [0.0; PLACES];
    let n = room.min(PLACES);
    let r = write(&mut indexes[..n], &mut values[..n]);
    show::sparse(r, &indexes, &values);
}

// What two vectors put together have, without the turns.
fn written(r: Result<Merged, Refusal>) -> Result<Written, Refusal> {
    let Merged { dims, len, .. } = r?;
    Ok(Written { dims, len })
}

// Runs a call on what it is handed. Answers whether there is one of this name that is handed so much.
pub fn run(call: &[u8], handed: Handed<SVectBorrowed<'_>>) -> bool {
    let a = handed.first;
    match (call, handed.second, handed.slice) {
        (b"check", None, None) => shown::bare::checked(svect::new_checked(a)),
        (b"zero", None, None) => lend(0, |_, _| svect::zero(a.dims)),
        (b"add", Some(b), None) => {
            lend(
                room(a, b),
                |oi, ov| written(svect::operator_add(a, b, oi, ov)),
            );
        }
        (b"sub", Some(b), None) => {
            lend(
                room(a, b),
                |oi, ov| written(svect::operator_sub(a, b, oi, ov)),
            );
        }
        (b"mul", Some(b), None) => {
            lend(PLACES, |oi, ov| written(svect::operator_mul(a, b, oi, ov)));
        }
        (b"dot", Some(b), None) => show::distance(svect::operator_dot(a, b)),
        (b"l2", Some(b), None) => show::distance(svect::operator_l2(a, b)),
        (b"eq", Some(b), None) => shown::bare::asked(svect::eq(a, b)),
        (b"order", Some(b), None) => shown::bare::ordering(svect::partial_cmp(a, b)),
        (b"part", None, Some((from, to))) => {
            lend(PLACES, |oi, ov| svect::subvector(a, from, to, oi, ov));
        }
        _ => return false,
    }
    true
}
