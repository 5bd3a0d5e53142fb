// A setting: how many states there are, which state each row goes to, in which order the rows come, in which
// order the states are combined, and of which kind the rows are.

ghost use Rattle.std.specs.Prelude.{◌<◌, ◌≤◌};

use crate::rows;
use crate::rows::Kind;
use cases::Line;

// The deals.
#[derive(Clone, Copy)]
pub enum Deal {
    // The rows go round the states.
    Turns,
    // Each state has rows that follow one another; the last may have none.
    Blocks,
    // A scrambled number says which, and the first states have more rows than the last.
    Scrambled,
    // The first state has nearly all rows, each other even one at most two, and the odd ones none.
    Few,
}

// The orders of the rows.
#[derive(Clone, Copy)]
pub enum Order {
    Forwards,
    Backwards,
    // In strides of 7919, which has no divisor in common with the number of rows.
    Strides,
}

// The trees.
#[derive(Clone, Copy)]
pub enum Tree {
    // The first state takes all others.
    First,
    // The last takes all others, the nearest first.
    Last,
    // Each takes the one after it, from the last on.
    Passed,
    // State k takes 2k + 2 and 2k + 1, from the last on.
    Balanced,
}

#[derive(Clone, Copy)]
pub struct Setting {
    pub states: usize,
    pub deal: Deal,
    pub order: Order,
    pub tree: Tree,
    pub kind: Kind,
    ghost some: { 0 < states },
    ghost few: { states ≤ 64 },
}

// A state, and the one that it takes.
#[derive(Clone, Copy)]
pub struct Pair {
    pub one: usize,
    pub other: usize,
}

impl TryFrom<u64> for Deal {
    type Error = ();

    fn try_from(n: u64) -> Result<Deal, ()> {
        match n {
            0 => Ok(Deal::Turns),
            1 => Ok(Deal::Blocks),
            2 => Ok(Deal::Scrambled),
            3 => Ok(Deal::Few),
            _ => Err(()),
        }
    }
}

impl TryFrom<u64> for Order {
    type Error = ();

    fn try_from(n: u64) -> Result<Order, ()> {
        match n {
            0 => Ok(Order::Forwards),
            1 => Ok(Order::Backwards),
            2 => Ok(Order::Strides),
            _ => Err(()),
        }
    }
}

impl TryFrom<u64> for Tree {
    type Error = ();

    fn try_from(n: u64) -> Result<Tree, ()> {
        match n {
            0 => Ok(Tree::First),
            1 => Ok(Tree::Last),
            2 => Ok(Tree::Passed),
            3 => Ok(Tree::Balanced),
            _ => Err(()),
        }
    }
}

impl Setting {
    // The setting of a line, after its bar.
    pub fn read(mut line: Line<'_>) -> Option<Setting> {
        line.next_part();
        let mut n = [0; 5];
        if line.numbers(10, &mut n) != 5 || !line.rest.is_empty() {
            return None;
        }
        let [states, deal, order, tree, kind] = n;
        if states == 0 || 64 < states {
            return None;
        }
        Some(Setting {
            states: states as usize,
            deal: Deal::try_from(deal).ok()?,
            order: Order::try_from(order).ok()?,
            tree: Tree::try_from(tree).ok()?,
            kind: Kind::try_from(kind).ok()?,
        })
    }

    // The number of the row that comes as the k-th.
    pub fn row_at(self, k: usize) -> usize {
        let at = k % rows::ROWS;
        match self.order {
            Order::Forwards => at,
            Order::Backwards => rows::ROWS - 1 - at,
            Order::Strides => at * 7919 % rows::ROWS,
        }
    }

    // The state that row r goes to.
    pub fn state_of(self, r: usize) -> usize
        ensures { result < 64 }
    {
        let n = self.states;
        match self.deal {
            Deal::Turns => r % n,
            Deal::Blocks => r / (rows::ROWS / n + 1) % n,
            Deal::Scrambled => rows::mixed(r, 7) % (rows::mixed(r, 8) % n + 1),
            Deal::Few if r < n => r - r % 2,
            Deal::Few => 0,
        }
    }

    // The k-th combine, counted from 1.
    pub fn pair_at(self, k: usize) -> Pair
        requires { (0 < k) × (k < self.states) }
        ensures { (result.one < 64) × (result.other < 64) }
    {
        let n = self.states;
        match self.tree {
            Tree::First => Pair { one: 0, other: k },
            Tree::Last => Pair {
                one: n - 1,
                other: n - 1 - k,
            },
            Tree::Passed => Pair {
                one: n - 1 - k,
                other: n - k,
            },
            Tree::Balanced => Pair {
                one: (n - 1 - k) / 2,
                other: n - k,
            },
        }
    }

    // The state that has all rows after the last combine.
    pub fn root(self) -> usize
        ensures { result < 64 }
    {
        match self.tree {
            Tree::Last => self.states - 1,
            _ => 0,
        }
    }
}
