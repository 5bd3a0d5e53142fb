// Runs every call of `bit` and of `bvect` on the cases of standard input, and prints a line for each. P5, P8, P9
// and P10 are figures of document 01. A case is a line:
//
//     check P5 (0, 2) | 65 0 2
//     get dims - 1 | 130 8000000000000001 1 2 | 129
//     order none and last | 65535 1024*0 | 65535 1023*0 4000000000000000
//     zero dims 64 | 64 | 3
//     and room 3 | 65 3 1 | 65 5 1 | 3
//     subvector in 3, un | 130 8123456789abcdef fedcba9876543211 3 | =3 * | 4
//
// It has the call and a label; a vector, which is its dims and then its words in hex; for a call on two vectors
// the second, and for `get` the index; for a slice its two bounds, as `cases` reads them; and for a call that writes
// the length of the lent list. `1023*0`, where a vector's words start, is the word 0, 1,023 times. A vector has at
// most 1,025 words, and so has a lent list; each word of that is eeeeeeeeeeeeeeee before the call.
//
// `check` makes the two calls that check one vector, `order` those that check and compare two, `pair` all those
// on two vectors that only read, and `combine` the six that write, one after another to one lent list.
#![tactic(auto)]

mod calls;
mod read;
mod show;

fn main() {
    cases::run(calls::line);
}
