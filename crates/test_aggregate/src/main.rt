// Runs every call of `aggregate_svecf32` on the cases of standard input, and prints a line for each. A case is
// a line, with the call, a label, and what the call is handed:
//
//     fresh a label | start length
//     capacity P11 | dims n
//     check a label | header | lists
//     row P12 | header | lists | dims row
//     combine a label | header | lists | second header | second lists
//     move a label | header | lists | n start length | new lists
//     sum a label | header | lists | output lists
//     average a label | header | lists | output lists
//
// A header is its seven numbers: start, region length, 1 if it has begun and else 0, dims, len, capacity and
// count. Two lists are given as `cases` reads them, and have at most 80 indexes and 80 values.
//
// An answer shows the number and the place, or what was done; the header that the call left; and then the lists
// that the call may change, as it left them. `_` is an entry that a merge leaves open: one of the region's from
// len up to the capacity.
#![tactic(auto)]

mod calls;
mod read;
mod show;

fn main() {
    cases::run(calls::line);
}
