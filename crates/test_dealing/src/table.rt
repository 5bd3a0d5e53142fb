// The states of one setting: how the rows come to them, and how they are combined. State i owns the region of
// 48 places from 48 * i on in either pair of lists.

use crate::rows;
use crate::settings::{Pair, Setting};
use crate::states::{State, Store};
use refusal::Refusal;

// What happened so far: how many states moved to take a row and how many to take a state, and how many second
// states were brought to the other pair.
#[derive(Clone, Copy)]
pub struct Tally {
    pub rows: usize,
    pub combines: usize,
    pub brought: usize,
}

#[derive(Drop)]
pub struct Table {
    pub states: [State; 64],
    pub tally: Tally,
}

// State i without rows. It starts in the pair B if i is odd.
fn fresh(i: usize) -> State {
    State {
        header: aggregate_svecf32::fresh(i % 64 * 48, 48),
        in_b: i % 2 == 1,
    }
}

// One more if it is so.
fn up(n: usize, so: bool) -> usize {
    n.saturating_add(so as usize)
}

impl Table {
    pub fn empty() -> Table {
        let mut states = [fresh(0); 64];
        for (i, state) in states.iter_mut().enumerate() {
            *state = fresh(i);
        }
        Table {
            states,
            tally: Tally {
                rows: 0,
                combines: 0,
                brought: 0,
            },
        }
    }

    // Deals the rows of a setting, up to the first refusal. A state that lies in the other pair now has moved.
    fn deal(&mut self, s: Setting, a: &mut Store, b: &mut Store) -> Result<(), Refusal> {
        for k in 0..rows::ROWS {
            let mut indexes = [0; 12];
            let mut values = [0.0; 12];
            let r = s.row_at(k);
            let row = rows::row(r, s.kind, &mut indexes, &mut values);
            let i = s.state_of(r);
            let mut state = self.states[i];
            let fed = if state.in_b {
                state.feed(b, a, row)
            } else {
                state.feed(a, b, row)
            };
            self.tally.rows = up(self.tally.rows, state.in_b != self.states[i].in_b);
            self.states[i] = state;
            fed?;
        }
        Ok(())
    }

    // Combines the states of a setting, up to the first refusal. A second state in the first's pair was brought to the
    // other, and so was one to whose pair the first moved.
    fn combine(&mut self, s: Setting, a: &mut Store, b: &mut Store) -> Result<(), Refusal> {
        for k in 1..s.states {
            let Pair { one, other } = s.pair_at(k);
            let second = self.states[other];
            let mut state = self.states[one];
            let joined = if state.in_b {
                state.join(b, second, a)
            } else {
                state.join(a, second, b)
            };
            let was_in_b = self.states[one].in_b;
            let moved = state.in_b != was_in_b;
            self.tally.combines = up(self.tally.combines, moved);
            self.tally.brought = up(up(self.tally.brought, second.in_b == was_in_b), moved);
            self.states[one] = state;
            joined?;
        }
        Ok(())
    }

    // Deals the rows, and combines the states.
    pub fn fill(&mut self, s: Setting, a: &mut Store, b: &mut Store) -> Result<(), Refusal> {
        self.deal(s, a, b)?;
        self.combine(s, a, b)
    }
}
