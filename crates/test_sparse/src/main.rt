// Runs every call of `svect` on the cases of standard input, and prints a line for each. A case is a line:
//
//     add P1 | 8 1:3f800000 4:c0000000 | 8 4:40000000 6:3f000000 | [4 4]
//     part P6 | 8 1:3f800000 4:c0000000 | =4 * | [1 1]
//
// It has the call and a label; one vector or two, each its dims and then its entries, as `cases` reads them;
// for a slice its two bounds; and the lengths of the two lent lists. `=4` is Included 4, `!4` is Excluded 4, and
// `*` is Unbounded. A vector has at most 48 indexes and 48 values, and a lent list at most 48 places. Before the
// call, a lent list has what `.` stands for at every place.
#![tactic(auto)]

mod calls;
mod read;
mod show;

fn main() {
    cases::run(calls::line);
}
