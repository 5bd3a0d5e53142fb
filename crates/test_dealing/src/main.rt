// Deals the same 2000 rows to 1, 2, 3, 8 and 64 states, in several orders, and combines the states in several
// trees, as the settings of standard input say. For each setting it prints a line that says what the setting is and
// what happened, and a line with the count, the sum and the average, each value by the eight digits of its bits. The
// rows are whole numbers, so the second line is the same each time. Then it adds up the magnitudes: each sum is below
// 4b800000, the bits of 16,777,216. At the end all values are thirds, for which no such promise is made: three orders
// and three trees give six lines that differ.
//
// A setting is a line, in words and in five numbers:
//
//     states 2, in strides, dealt in turns, the last takes all | 2 0 2 1 0
//
// They are how many states there are, the deal, the order and the tree, which `settings` has, and the kind of the
// rows, which `rows` has. With each number of states from 2 on, all deals, all orders and all trees occur.
//
// The states lie in two pairs of lists, A and B. A state moves to the other pair where a row or a combine answers
// NEED. A second state is brought over to the other pair where it would lie in the pair of the first.

#![tactic(auto)]

mod rows;
mod settings;
mod show;
mod states;
mod table;

use cases::Line;
use settings::Setting;
use states::Store;
use table::Table;

// Runs one setting.
fn run(s: Setting, a: &mut Store, b: &mut Store) {
    let mut t = Table::empty();
    let end = t.fill(s, a, b);
    show::tally(t.tally, end);
    let root = t.states[s.root()];
    show::total(root.header, if root.in_b { b.lists() } else { a.lists() });
}

// Runs one line. Answers whether it is a setting.
fn line(s: &[u8], a: &mut Store, b: &mut Store) -> bool {
    let mut line = Line { rest: s };
    line.title();
    let Some(setting) = Setting::read(line) else {
        return cases::ended(false);
    };
    run(setting, a, b);
    true
}

fn main() {
    let mut a = Store::new();
    let mut b = Store::new();
    cases::run(|s| line(s, &mut a, &mut b));
}
