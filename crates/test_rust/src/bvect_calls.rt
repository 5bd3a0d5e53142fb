// The calls of `bvect`.

use crate::read::Handed;
use crate::show;
use bvect::BVectBorrowed;

// Runs a call on what it is handed. Answers whether there is one of this name that is handed so much.
pub fn run(call: &[u8], handed: Handed<BVectBorrowed<'_>>) -> bool {
    let a = handed.first;
    match (call, handed.second, handed.slice) {
        (b"check", None, None) => shown::bare::checked(bvect::new_checked(a)),
        (b"zero", None, None) => show::bits(|out| bvect::zero(a.dims, out)),
        (b"get", Some(b), None) => shown::bare::asked(bvect::get(a, b.dims)),
        (b"and", Some(b), None) => show::bits(|out| bvect::operator_and(a, b, out)),
        (b"or", Some(b), None) => show::bits(|out| bvect::operator_or(a, b, out)),
        (b"xor", Some(b), None) => show::bits(|out| bvect::operator_xor(a, b, out)),
        (b"dot", Some(b), None) => show::distance(bvect::operator_dot(a, b)),
        (b"hamming", Some(b), None) => show::distance(bvect::operator_hamming(a, b)),
        (b"jaccard", Some(b), None) => show::distance(bvect::operator_jaccard(a, b)),
        (b"d_or_nan", Some(b), None) => show::distance(bvect::operator_jaccard_or_nan(a, b)),
        (b"eq", Some(b), None) => shown::bare::asked(bvect::eq(a, b)),
        (b"order", Some(b), None) => shown::bare::ordering(bvect::partial_cmp(a, b)),
        (b"part", None, Some((from, to))) => show::bits(|out| bvect::subvector(a, from, to, out)),
        _ => return false,
    }
    true
}
