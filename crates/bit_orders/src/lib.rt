// Order and equality of two lists of as many words. Parts of the calls of `bvect`, not for users.

#![tactic(auto)]

ghost use Rattle.std.specs.Prelude.{◌≡◌};
ghost use Rattle.bits.specs.Words.{Alike};
ghost use Rattle.bit_orders.specs.Orders.{same_words};
ghost use Rattle.bit_orders.specs.Words.{word_order, words_order};

use std::cmp::Ordering;

// How two words that differ compare: at their lowest differing bit the side with the one is Greater.
fn compare_words(x: u64, y: u64) -> Ordering
    requires { x ≡ y → ⊥ }
    ensures { result ≡ word_order x y }
{
    let k = (x ^ y).trailing_zeros();
    let left = (x >> k) % 2;
    let right = (y >> k) % 2;
    if right < left {
        return Ordering::Greater;
    }
    Ordering::Less
}

// How two lists of as many words compare. By place: a `zip` would test two ends. Out of line: where the loop stands in an
// exported call, the compiler sets what the call gives at every turn.
#[inline(never)]
pub fn compare_all(a: &[u64], b: &[u64]) -> Ordering
    requires { Alike a.now b.now }
    ensures { result ≡ words_order a.now b.now }
{
    for (i, x) in a.iter().enumerate() {
        let y = b[i];
        if *x != y {
            return compare_words(*x, y);
        }
    }
    Ordering::Equal
}

// Whether two lists of as many words are the same. By the order: `==` takes half as long again.
pub fn same_words(a: &[u64], b: &[u64]) -> bool
    requires { Alike a.now b.now }
    ensures { result ≡ same_words a.now b.now }
{
    matches!(compare_all(a, b), Ordering::Equal)
}
