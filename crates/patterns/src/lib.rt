// Values and their bits. Every NaN's bits stand for one value, and its bits are 7fc00000.

#![tactic(auto)]

ghost use Rattle.std.specs.Prelude.{◌≡◌};
ghost use Rattle.std.specs.Float.{binary32};
ghost use Rattle.std.specs.Float.Ieee.{of_bits, to_bits};

use std::num::{f32_from_bits_with_nan, f32_to_bits_with_nan};

// The value that has these bits.
pub fn value(bits: u32) -> f32
    ensures { result ≡ of_bits binary32 bits }
{
    f32_from_bits_with_nan(bits)
}

// The bits of a value.
pub fn bits(value: f32) -> u32
    ensures { result ≡ to_bits binary32 value }
{
    f32_to_bits_with_nan(value)
}
