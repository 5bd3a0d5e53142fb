// Where a value stands first in a list.

#![tactic(auto)]

ghost use Rattle.std.specs.Prelude.{◌≡◌, position};

// The first place at which `x` stands, if it stands anywhere. For the crates above, not for users.
pub fn find<T: Copy + Eq>(s: &[T], x: T) -> Option<usize>
    ensures { result ≡ position (λ y. T.eq y x) s.now }
{
    s.iter().position(|y| *y == x)
}
