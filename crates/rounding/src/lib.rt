// The f32 nearest to a whole number. Parts of other calls, not calls that a user makes.

#![tactic(auto)]

ghost use Rattle.std.specs.Prelude.{false, ◌≡◌, ◌≤◌, pos};
ghost use Rattle.std.specs.Float.{binary32};
ghost use Rattle.std.specs.Float.Ieee.{units, of_int};

use std::num::nearest_u64_to_f32;

// The float that is q * 2 ^ k of the smallest floats, 2 ^ -149, for a q of 24 binary digits, or the next
// number up. Its exponent's field is k and what q has above its last 23 digits. It is there for other roundings
// (docs/DECISIONS.md): the one below does not use it.
pub fn of_units(q: u32, k: u32) -> f32
    requires { (8388608 ≤ q) × (q ≤ 16777216) × (k ≤ 252) }
    ensures { result ≡ units binary32 false q k }
{
    patterns::value(k * 0x80_0000 + q)
}

// The f32 nearest to n, at a tie the even one: Rust's `n as f32`.
pub fn of_u64(n: u64) -> f32
    ensures { result ≡ of_int binary32 (pos n) }
{
    nearest_u64_to_f32(n)
}
