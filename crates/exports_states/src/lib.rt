// The calls of `aggregate_svecf32` under C names, as `exports_bits` has those of `bvect`. The header of a
// state is a list of seven numbers; a refusal leaves it as it was.
// That lists and vectors are parameters of their own here, a header seven numbers and an answer slots is the C interface.

#![tactic(auto)]

ghost use Rattle.std.specs.Prelude.{[], ◌∷◌, ◌≡◌};
ghost use Rattle.refusal.specs.Answers.{says, checked_says, written_says, Checks};
ghost use Rattle.sparse.specs.Vectors.{vector};
ghost use Rattle.regions.specs.Capacity.{capacity_for};
ghost use Rattle.regions.specs.Regions.{pair};
ghost use Rattle.aggregate_svecf32.specs.States.{fresh, numbers_of, state_of};
ghost use Rattle.aggregate_svecf32.specs.Calls.{Rows, Combines, Moves, Sums, Averages};
ghost use Rattle.exports_answers.specs.Answers.{Tells};
ghost use Rattle.exports_states.specs.States.{no_header, bad_header, header_of, told_heard};

use aggregate_svecf32::Header;
use refusal::Refusal;
use regions::Lists;
use sparse::SVectBorrowed;

// A header of this region that is never consistent, for numbers that no header has.
fn bad_header(start: u64, length: u64) -> Header
    ensures { result ≡ bad_header start length }
{
    Header {
        start: start as usize,
        length: length as usize,
        begun: true,
        dims: 0,
        len: 0,
        capacity: 0,
        count: 0,
    }
}

// Whether no header has these numbers.
fn is_no_header(begun: u64, dims: u64) -> bool
    ensures { result ≡ no_header begun dims }
{
    1 < begun || 4294967295 < dims
}

// The header that seven numbers are. It and the next are no `From`: neither type is this crate's.
fn header_of(h: &[u64; 7]) -> Header
    ensures { result ≡ header_of h.now }
{
    if is_no_header(h[2], h[3]) {
        return bad_header(h[0], h[1]);
    }
    Header {
        start: h[0] as usize,
        length: h[1] as usize,
        begun: h[2] == 1,
        dims: h[3] as u32,
        len: h[4] as usize,
        capacity: h[5] as usize,
        count: h[6],
    }
}

// The seven numbers of a header.
fn put_header(h: &mut [u64; 7], new: Header)
    ensures { h.new ≡ numbers_of new }
{
    *h = [
        new.start as u64,
        new.length as u64,
        new.begun as u64,
        new.dims as u64,
        new.len as u64,
        new.capacity as u64,
        new.count,
    ];
}

// An answer as numbers, and the header as it is afterwards. A refusal leaves the numbers as they were.
fn tell(
    r: Result<usize, Refusal>,
    new: Header,
    h: &mut [u64; 7],
    turns: &mut usize,
    place: &mut usize,
) -> u32
    ensures { told_heard h.old (r, new) ≡ says result place.new (turns.new ∷ h.new) }
{
    if r.is_ok() {
        put_header(h, new);
    }
    *turns = r.unwrap_or(0);
    exports_answers::tell(r, place)
}

// The header of a state without rows.
#[unsafe(no_mangle)]
pub extern "C" fn oxl_aggregate_fresh(start: usize, length: usize, h: &mut [u64; 7])
    ensures { h.new ≡ numbers_of (fresh start length) }
{
    put_header(h, aggregate_svecf32::fresh(start, length));
}

// The capacity that a state of `dims` places has for n entries.
#[unsafe(no_mangle)]
pub extern "C" fn oxl_aggregate_capacity(dims: u32, n: usize) -> usize
    ensures { result ≡ capacity_for dims n }
{
    aggregate_svecf32::capacity(dims, n)
}

// The numbers of `Header::check`.
#[unsafe(no_mangle)]
pub extern "C" fn oxl_aggregate_check(
    h: &[u64; 7],
    ai: &[u32],
    av: &[f32],
    place: &mut usize,
) -> u32
    ensures { Tells checked_says
        (Checks (state_of (header_of h.now) (pair ai.now av.now)))
        (says result place.new []) }
{
    let lists = Lists {
        indexes: ai,
        values: av,
    };
    exports_answers::tell_checked(header_of(h).check(lists), place)
}

// The numbers of `Header::row`, with the turns and the new header.
#[unsafe(no_mangle)]
pub extern "C" fn oxl_aggregate_row(
    h: &mut [u64; 7],
    ai: &mut [u32],
    av: &mut [f32],
    dims: u32,
    bi: &[u32],
    bv: &[f32],
    turns: &mut usize,
    place: &mut usize,
) -> u32
    ensures { Tells (told_heard h.old)
        (λ t. Rows (header_of h.old) (pair ai.old av.old)
        (vector dims bi.now bv.now) t.0 t.1 (pair ai.new av.new))
        (says result place.new (turns.new ∷ h.new)) }
{
    let row = SVectBorrowed {
        dims,
        indexes: bi,
        values: bv,
    };
    let mut new = header_of(h);
    let r = new.row(ai, av, row);
    tell(r, new, h, turns, place)
}

// The numbers of `Header::combine`. The header of the second state stays as it is.
#[unsafe(no_mangle)]
pub extern "C" fn oxl_aggregate_combine(
    h: &mut [u64; 7],
    ai: &mut [u32],
    av: &mut [f32],
    other: &[u64; 7],
    bi: &[u32],
    bv: &[f32],
    turns: &mut usize,
    place: &mut usize,
) -> u32
    ensures { Tells (told_heard h.old)
        (λ t. Combines (header_of h.old) (pair ai.old av.old) (header_of other.now)
        (pair bi.now bv.now) t.0 t.1 (pair ai.new av.new))
        (says result place.new (turns.new ∷ h.new)) }
{
    let lists = Lists {
        indexes: bi,
        values: bv,
    };
    let mut new = header_of(h);
    let r = new.combine(ai, av, header_of(other), lists);
    tell(r, new, h, turns, place)
}

// The numbers of `Header::move_to`, with the header of the state where it is moved to.
#[unsafe(no_mangle)]
pub extern "C" fn oxl_aggregate_move_to(
    h: &mut [u64; 7],
    ai: &[u32],
    av: &[f32],
    more: usize,
    ci: &mut [u32],
    cv: &mut [f32],
    start: usize,
    length: usize,
    turns: &mut usize,
    place: &mut usize,
) -> u32
    ensures { Tells (told_heard h.old)
        (λ t. Moves (header_of h.old) (pair ai.now av.now) more
        (pair ci.old cv.old) start length t.0 t.1 (pair ci.new cv.new))
        (says result place.new (turns.new ∷ h.new)) }
{
    let lists = Lists {
        indexes: ai,
        values: av,
    };
    let mut new = header_of(h);
    let r = new.move_to(lists, more, ci, cv, start, length);
    tell(r, new, h, turns, place)
}

// The numbers of `Header::sum`.
#[unsafe(no_mangle)]
pub extern "C" fn oxl_aggregate_sum(
    h: &[u64; 7],
    ai: &[u32],
    av: &[f32],
    oi: &mut [u32],
    ov: &mut [f32],
    dims: &mut u32,
    len: &mut usize,
    place: &mut usize,
) -> u32
    ensures { Tells written_says
        (λ w. Sums (header_of h.now) (pair ai.now av.now) oi.old ov.old w
        oi.new ov.new)
        (says result place.new (dims.new ∷ len.new ∷ [])) }
{
    let lists = Lists {
        indexes: ai,
        values: av,
    };
    exports_answers::tell_written(header_of(h).sum(lists, oi, ov), dims, len, place)
}

// The numbers of `Header::average`.
#[unsafe(no_mangle)]
pub extern "C" fn oxl_aggregate_average(
    h: &[u64; 7],
    ai: &[u32],
    av: &[f32],
    oi: &mut [u32],
    ov: &mut [f32],
    dims: &mut u32,
    len: &mut usize,
    place: &mut usize,
) -> u32
    ensures { Tells written_says
        (λ w. Averages (header_of h.now) (pair ai.now av.now) oi.old
        ov.old w oi.new ov.new)
        (says result place.new (dims.new ∷ len.new ∷ [])) }
{
    let lists = Lists {
        indexes: ai,
        values: av,
    };
    exports_answers::tell_written(header_of(h).average(lists, oi, ov), dims, len, place)
}
